//! The calls of a tracked version that may be refused, each in its forms.
ghost use Rattle.rart_maps.specs.Versions.{HasRoom};

use super::begun::{Begun, Tracked, Version, has_room, key_of, number_of};
use super::fragile::{Fragile, Fuse};
use rart_family::{KeyTrait, Slot, SlotUpdate, VectorKey, Work};
use rart_versioned::Missing;
use std::alloc::{AllocError, Global};
use std::rc::Rc;

/// The form of a call: without a count, or counted, of a call that has both.
#[derive(Clone, Copy)]
pub enum Form {
    Plain,
    WithWork,
}

/// A call, if it is one at a key, at `ab`, which has the value 1 and gets 7.
#[derive(Clone, Copy)]
pub enum Call {
    Insert,
    Replace,
    TryInsert,
    Remove,
    Delete,
    Lend,
    Update,
    TryUpdate,
    Undo,
    Commit,
    Rebase,
    Changes,
    ChangesWith,
    ConflictsWith,
}

impl Call {
    /// Makes the call, and answers whether it answered what is wanted.
    pub fn make(
        self,
        form: Form,
        alloc: Global,
        fuse: &Rc<Fuse>,
        begun: &mut Begun,
    ) -> Result<bool, AllocError> {
        let tracked = &mut begun.tracked;
        let key = key_of(alloc, b"ab")?;
        let value = Fragile::new(7, fuse)?;
        if !has_room(tracked.current()) {
            return Ok(false);
        }
        match self {
            Call::Insert => insert(tracked, form, key, value),
            Call::Replace => replace(tracked, form, key, value),
            Call::TryInsert => try_insert(tracked, key, value),
            Call::Remove => remove(tracked, form, key),
            Call::Delete => delete(tracked, form, key),
            Call::Lend => write(tracked, form, key, value),
            Call::Update => update(tracked, form, key, value),
            Call::TryUpdate => try_update(tracked, form, key, value),
            Call::Undo => done(tracked.undo()),
            Call::Commit => done(tracked.commit()),
            Call::Rebase => rebase(tracked, &begun.theirs),
            Call::Changes => Ok(tracked.changes()?.len() == 2),
            Call::ChangesWith => show_changes(tracked, form),
            Call::ConflictsWith => show_conflicts(tracked, &begun.theirs, form),
        }
    }
}

fn done(given: Result<(), AllocError>) -> Result<bool, AllocError> {
    given?;
    Ok(true)
}

fn insert(
    tracked: &mut Tracked,
    form: Form,
    key: VectorKey,
    value: Fragile,
) -> Result<bool, AllocError>
    requires { HasRoom tracked.old.current 2 }
{
    match form {
        Form::Plain => tracked.insert(&key, value),
        Form::WithWork => tracked.insert_counted(key.as_ref(), value, &mut Work::new()),
    }
}

fn replace(
    tracked: &mut Tracked,
    form: Form,
    key: VectorKey,
    value: Fragile,
) -> Result<bool, AllocError>
    requires { HasRoom tracked.old.current 2 }
{
    let replaced = match form {
        Form::Plain => tracked.insert_and_replace(&key, value)?,
        Form::WithWork => tracked.insert_and_replace_counted(
            key.as_ref(),
            value,
            &mut Work::new(),
        )?,
    };
    Ok(number_of(replaced.as_ref()) == Some(1))
}

fn try_insert(tracked: &mut Tracked, key: VectorKey, value: Fragile) -> Result<bool, AllocError> {
    match tracked.try_insert(&key, value) {
        Ok(replaced) => Ok(replaced),
        Err(_refused) => Err(AllocError),
    }
}

fn remove(tracked: &mut Tracked, form: Form, key: VectorKey) -> Result<bool, AllocError>
    requires { HasRoom tracked.old.current 2 }
{
    let removed = match form {
        Form::Plain => tracked.remove(&key)?,
        Form::WithWork => tracked.remove_counted(key.as_ref(), &mut Work::new())?,
    };
    Ok(number_of(removed.as_ref()) == Some(1))
}

fn delete(tracked: &mut Tracked, form: Form, key: VectorKey) -> Result<bool, AllocError>
    requires { HasRoom tracked.old.current 2 }
{
    match form {
        Form::Plain => tracked.delete(&key),
        Form::WithWork => tracked.delete_counted(key.as_ref(), &mut Work::new()),
    }
}

fn write(
    tracked: &mut Tracked,
    form: Form,
    key: VectorKey,
    value: Fragile,
) -> Result<bool, AllocError>
    requires { HasRoom tracked.old.current 2 }
{
    let lent = match form {
        Form::Plain => tracked.value_mut(&key),
        Form::WithWork => tracked.value_mut_counted(&key, &mut Work::new()),
    };
    match lent {
        Ok(old) => {
            *old = value;
            Ok(true)
        }
        Err(Missing::Absent) => Ok(false),
        Err(Missing::Memory(refused)) => Err(refused),
    }
}

// The callback leaves the value in the slot.
fn update(
    tracked: &mut Tracked,
    form: Form,
    key: VectorKey,
    value: Fragile,
) -> Result<bool, AllocError>
    requires { HasRoom tracked.old.current 2 }
{
    let leave = move |slot: &mut Slot<Fragile>| -> SlotUpdate<Fragile> {
        *slot = Slot::Occupied(value);
        SlotUpdate::Keep
    };
    match form {
        Form::Plain => tracked.update(&key, leave),
        Form::WithWork => tracked.update_counted(&key, leave, &mut Work::new()),
    }
}

// The callback answers the value.
fn try_update(
    tracked: &mut Tracked,
    form: Form,
    key: VectorKey,
    value: Fragile,
) -> Result<bool, AllocError>
    requires { HasRoom tracked.old.current 2 }
{
    let store = move |_slot: &mut Slot<Fragile>| -> Result<SlotUpdate<Fragile>, ()> {
        Ok(SlotUpdate::Insert(value))
    };
    let tried = match form {
        Form::Plain => tracked.try_update(&key, store),
        Form::WithWork => tracked.try_update_counted(&key, store, &mut Work::new()),
    };
    match tried {
        Ok(is_there) => Ok(is_there),
        Err(_refused) => Err(AllocError),
    }
}

fn rebase(tracked: &mut Tracked, onto: &Version) -> Result<bool, AllocError> {
    let touched = tracked.touched_count();
    if onto.version() > u64::MAX - touched {
        return Ok(false);
    }
    done(tracked.rebase(onto))
}

fn show_changes(tracked: &Tracked, form: Form) -> Result<bool, AllocError> {
    let mut shown = 0_u64;
    let mut show = |_key: VectorKey, _before: Option<&Fragile>, _after: Option<&Fragile>| {
        shown = shown.saturating_add(1);
    };
    match form {
        Form::WithWork => tracked.changes_with_counted(&mut show, &mut Work::new())?,
        Form::Plain => tracked.changes_with(&mut show)?,
    }
    Ok(shown == 2)
}

fn show_conflicts(tracked: &Tracked, theirs: &Version, form: Form) -> Result<bool, AllocError> {
    let mut shown = 0_u64;
    let mut show = |_key: VectorKey, _base: Option<&Fragile>, _our: Option<
        &Fragile,
    >, _their: Option<&Fragile>| {
        shown = shown.saturating_add(1);
    };
    match form {
        Form::WithWork => tracked.conflicts_with_counted(theirs, &mut show, &mut Work::new())?,
        Form::Plain => tracked.conflicts_with(theirs, &mut show)?,
    }
    Ok(shown == 1)
}
