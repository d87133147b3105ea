//! Each call, with ample memory and with each clone of a value refused that it makes. It succeeds
//! once nothing more is refused, answers what is wanted, and makes as many clones as that takes.
//! `checks/refusals` looks for what these tests print: that memory was refused to each call.
use super::begun::Begun;
use super::bulk::Bulk;
use super::fragile::Fuse;
use super::merges::{merge, patch};
use super::readings::Reading;
use super::tracked::{Call, Form};
use std::alloc::{AllocError, Global};
use std::io::Print;
use std::process::Abort;
use std::rc::Rc;
use std::test::Fail;

#[derive(Clone, Copy)]
enum Trial {
    Tracked(Call, Form),
    Patch,
    Merge,
    Bulk(Bulk),
    Read(Reading),
}

// The calls of a tracked version, the name of the last form of each, and how many clones it makes:
// one of each value in a shared node on its path, one of what it lends, lists or takes over, and
// where a removal merges, one of the value that goes and one of the merged child's.
const TRACKED: &[(Call, &str, u64)] = &[
    (Call::Insert, "insert_counted", 1),
    (Call::Replace, "insert_and_replace_counted", 1),
    (Call::TryInsert, "try_insert", 1),
    (Call::Remove, "remove_counted", 2),
    (Call::Delete, "delete_counted", 2),
    (Call::Lend, "value_mut_counted", 1),
    (Call::Update, "update_counted", 2),
    (Call::TryUpdate, "try_update_counted", 2),
    (Call::Undo, "undo", 0),
    (Call::Commit, "commit", 0),
    (Call::Rebase, "rebase", 2),
    (Call::Changes, "changes", 2),
    (Call::ChangesWith, "changes_with_counted", 0),
    (Call::ConflictsWith, "conflicts_with_counted", 0),
];

// Likewise, and one of the value in the first node under a prefix, which becomes a root of its own
// where what is under it is answered, or has other bytes in another version. And one of the value in
// each node that has children and loses its key or one of them, whether or not it goes whole.
const BULK: &[(Bulk, &str, u64)] = &[
    (Bulk::Extend, "extend", 3),
    (Bulk::Retain, "retain", 4),
    (Bulk::PrefixSnapshot, "prefix_snapshot", 1),
    (Bulk::RemovePrefix, "remove_prefix", 1),
    (Bulk::TakePrefix, "take_prefix", 2),
    (Bulk::RestorePrefix, "restore_prefix", 1),
    (Bulk::Difference, "difference", 6),
    (Bulk::Intersection, "intersection", 1),
];

const READINGS: &[(Reading, &str)] = &[
    (Reading::Iter, "iter"),
    (Reading::IterBack, "iter_rev"),
    (Reading::Values, "values_iter"),
    (Reading::ValuesBack, "values_iter_rev"),
    (Reading::Range, "range"),
    (Reading::RangeBack, "range_rev"),
    (Reading::Prefix, "prefix_iter"),
    (Reading::PrefixBack, "prefix_iter_rev"),
    (Reading::PrefixMatches, "prefix_match_iter"),
    (Reading::Diff, "diff_with"),
    (Reading::DiffByViews, "diff_lending_with"),
    (Reading::DiffUntil, "try_diff_lending_with"),
    (Reading::DiffCount, "diff_count"),
    (Reading::Equals, "equals"),
];

impl Trial {
    // Whether it answers what is wanted.
    fn make(self, alloc: Global, fuse: &Rc<Fuse>, begun: &mut Begun) -> Result<bool, AllocError> {
        match self {
            Trial::Tracked(call, form) => call.make(form, alloc, fuse, begun),
            Trial::Patch => patch(begun),
            Trial::Merge => merge(fuse, begun),
            Trial::Bulk(call) => call.make(alloc, fuse, begun),
            Trial::Read(reading) => reading.read(alloc, &begun.base, &begun.theirs),
        }
    }
}

// With no clone refused, and with each one that it makes.
fn assert_survives<R: Abort + Print>(
    rt: &R,
    alloc: Global,
    trial: Trial,
    name: &str,
    clones: u64,
) -> Result<(), Fail> {
    for refused in 0..=clones {
        let fuse = Fuse::new(alloc)?;
        let mut begun = Begun::new(alloc, &fuse)?;
        if refused > 0 {
            fuse.light(refused);
            let made = trial.make(alloc, &fuse, &mut begun);
            assert!(rt; made.is_err(), "clone {refused} of {name} is refused");
        }
        let made = make_unrefused(rt, alloc, trial, name, &fuse, &mut begun)?;
        assert!(rt; made == Ok(true), "the answer of {name}");
        assert_eq!(rt; fuse.clones(), clones, "the clones of {name}");
    }
    Ok(())
}

// No clone is refused, and the call is made once more where a request is.
fn make_unrefused(
    rt: &impl Print,
    alloc: Global,
    trial: Trial,
    name: &str,
    fuse: &Rc<Fuse>,
    begun: &mut Begun,
) -> Result<Result<bool, AllocError>, Fail> {
    fuse.light(0);
    let made = trial.make(alloc, fuse, begun);
    if made.is_ok() {
        return Ok(made);
    }
    println!(rt; "{name} was refused")?;
    fuse.light(0);
    Ok(trial.make(alloc, fuse, begun))
}

#[test]
fn tracked_versions_survive_refusals(rt: HostRuntime) -> Result<(), Fail> {
    for (call, name, clones) in TRACKED {
        let plain = Trial::Tracked(*call, Form::Plain);
        assert_survives(&rt, rt.alloc(), plain, "a form", *clones)?;
        let last = Trial::Tracked(*call, Form::WithWork);
        assert_survives(&rt, rt.alloc(), last, name, *clones)?;
    }
    Ok(())
}

#[test]
fn merges_survive_refusals(rt: HostRuntime) -> Result<(), Fail> {
    assert_survives(&rt, rt.alloc(), Trial::Patch, "patch", 3)?;
    assert_survives(&rt, rt.alloc(), Trial::Merge, "merge_with", 2)
}

#[test]
fn bulk_calls_survive_refusals(rt: HostRuntime) -> Result<(), Fail> {
    for (call, name, clones) in BULK {
        assert_survives(&rt, rt.alloc(), Trial::Bulk(*call), name, *clones)?;
    }
    Ok(())
}

#[test]
fn readings_survive_refusals(rt: HostRuntime) -> Result<(), Fail> {
    for (reading, name) in READINGS {
        assert_survives(&rt, rt.alloc(), Trial::Read(*reading), name, 0)?;
    }
    Ok(())
}
