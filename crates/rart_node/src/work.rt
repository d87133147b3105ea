// Ported from rart 0.11.0 (Apache-2.0), and rewritten.
//! Counts of nodes entered and made, which contracts see and no program reads.
ghost use Rattle.std.specs.Prelude.{◌≡◌, ℕ, ◌+◌, if◌then◌else◌};

use std::marker::Model;

// A number that contracts alone see: it takes no bytes and nothing runs. What it means rests on
// its two makers, which no other module can reach.
#[derive(Drop)]
struct Tally {
    pub ghost count: { ℕ },
}

impl Model for Tally {
    ghost use Rattle.std.specs.Borrow.{ftrue};

    ghost also_owns = { λ _. ftrue };
}

impl Tally {
    fn new() -> Tally
        ensures { result.count ≡ 0 }
    {
        Tally {}
    }

    fn next(&self) -> Tally
        ensures { result.count ≡ self.now.count + 1 }
    {
        Tally {}
    }
}

/// How many nodes were entered and how many were made, as whole numbers without a greatest one.
///
/// Contracts alone see the counts: no program reads them, and they take no bytes. rart counts
/// nothing.
#[derive(Drop)]
pub struct Work {
    entered: Tally,
    made: Tally,
}

impl Model for Work {
    ghost use Rattle.rart_node.specs.Counts.{Counts};

    ghost Value = { Counts };

    ghost view = { λ work. record { entered = work.entered.count; made = work.made.count } };
}

impl Work {
    /// No node entered, none made.
    pub fn new() -> Work
        ensures { result ≡ record { entered = 0; made = 0 } }
    {
        Work {
            entered: Tally::new(),
            made: Tally::new(),
        }
    }

    pub(crate) fn enter(&mut self)
        ensures { self.new ≡ record { entered = self.old.entered + 1; made = self.old.made } }
    {
        self.entered = self.entered.next();
    }

    pub(crate) fn make(&mut self)
        ensures { self.new ≡ record { entered = self.old.entered; made = self.old.made + 1 } }
    {
        self.made = self.made.next();
    }

    pub(crate) fn make_if(&mut self, is_made: bool)
        ensures { self.new ≡ record {
          entered = self.old.entered;
          made = self.old.made + (if is_made then 1 else 0);
        } }
    {
        if is_made {
            self.make();
        }
    }
}
