// Each clone of a value is refused in turn by the tests themselves. Their requests for memory are
// refused by whoever runs them, `checks/refusals` for one: each test passes whichever one of its
// requests is refused. What a call leaves, refused or not, its contract says.

mod begun;
mod bulk;
mod examples;
mod families;
mod fragile;
mod loans;
mod memoryless;
mod merges;
mod readings;
mod tracked;
mod trial;
