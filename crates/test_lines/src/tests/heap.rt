//! Each command with ample memory, on keys on the heap.
use rart_family::{Command, Family, KeyTrait, VectorKey, Work};
use std::alloc::{AllocError, Global};
use std::ops::Bound;
use std::process::Abort;
use std::test::Fail;
use vtree_lines::{LineCommand, LineKey, parse, write_reply};

type Said = Command<VectorKey, u64>;

fn heap(alloc: Global, key: &LineKey) -> Result<VectorKey, AllocError> {
    VectorKey::new_from_slice(alloc, key.as_ref())
}

fn bound(alloc: Global, bound: &Bound<LineKey>) -> Result<Bound<VectorKey>, AllocError> {
    Ok(match bound {
        Bound::Included(key) => Bound::Included(heap(alloc, key)?),
        Bound::Excluded(key) => Bound::Excluded(heap(alloc, key)?),
        Bound::Unbounded => Bound::Unbounded,
    })
}

/// A command of a line, on keys on the heap.
fn on_heap(alloc: Global, command: LineCommand) -> Result<Said, AllocError> {
    Ok(match command {
        Command::New => Command::New,
        Command::NewAt { number } => Command::NewAt { number },
        Command::Snapshot { place } => Command::Snapshot { place },
        Command::Duplicate { place } => Command::Duplicate { place },
        Command::Discard { place } => Command::Discard { place },
        Command::Version { place } => Command::Version { place },
        Command::IsEmpty { place } => Command::IsEmpty { place },
        Command::Iter { place } => Command::Iter { place },
        Command::Values { place } => Command::Values { place },
        Command::Views { place } => Command::Views { place },
        Command::Flatten { place } => Command::Flatten { place },
        Command::Intersect { left, right } => Command::Intersect { left, right },
        Command::IntersectViews { left, right } => Command::IntersectViews { left, right },
        Command::IntersectValues { left, right } => Command::IntersectValues { left, right },
        Command::IntersectCount { left, right } => Command::IntersectCount { left, right },
        Command::Get { place, key } => Command::Get {
            place,
            key: heap(alloc, &key)?,
        },
        Command::GetMut { place, key, value } => Command::GetMut {
            place,
            key: heap(alloc, &key)?,
            value,
        },
        Command::Insert { place, key, value } => Command::Insert {
            place,
            key: heap(alloc, &key)?,
            value,
        },
        Command::Replace { place, key, value } => Command::Replace {
            place,
            key: heap(alloc, &key)?,
            value,
        },
        Command::Remove { place, key } => Command::Remove {
            place,
            key: heap(alloc, &key)?,
        },
        Command::Delete { place, key } => Command::Delete {
            place,
            key: heap(alloc, &key)?,
        },
        Command::Update {
            place,
            key,
            write,
            answer,
        } => Command::Update {
            place,
            key: heap(alloc, &key)?,
            write,
            answer,
        },
        Command::TryUpdate {
            place,
            key,
            write,
            answer,
        } => Command::TryUpdate {
            place,
            key: heap(alloc, &key)?,
            write,
            answer,
        },
        Command::Range { place, lo, hi } => Command::Range {
            place,
            lo: bound(alloc, &lo)?,
            hi: bound(alloc, &hi)?,
        },
        Command::RangeViews { place, lo, hi } => Command::RangeViews {
            place,
            lo: bound(alloc, &lo)?,
            hi: bound(alloc, &hi)?,
        },
        Command::Prefix { place, prefix } => Command::Prefix {
            place,
            prefix: heap(alloc, &prefix)?,
        },
        Command::PrefixViews { place, prefix } => Command::PrefixViews {
            place,
            prefix: heap(alloc, &prefix)?,
        },
        Command::PrefixValues { place, prefix } => Command::PrefixValues {
            place,
            prefix: heap(alloc, &prefix)?,
        },
        Command::Matches { place, key } => Command::Matches {
            place,
            key: heap(alloc, &key)?,
        },
        Command::MatchesEach { place, key } => Command::MatchesEach {
            place,
            key: heap(alloc, &key)?,
        },
        Command::Longest { place, key } => Command::Longest {
            place,
            key: heap(alloc, &key)?,
        },
        Command::Until {
            place,
            prefix,
            visits,
            fails,
        } => Command::Until {
            place,
            prefix: heap(alloc, &prefix)?,
            visits,
            fails,
        },
    })
}

/// Runs the commands of lines on a family without a place, and compares the lines of their replies.
fn assert_replied(rt: &impl Abort, alloc: Global, rows: &[(&str, &str)]) -> Result<(), Fail> {
    let mut commands = Vec::new(alloc);
    let mut wanted = String::new(alloc);
    for (line, reply) in rows {
        match parse(alloc, line.as_bytes()) {
            Some(command) => commands.push(on_heap(alloc, command)?)?,
            None => assert!(rt; false, "{line} is no command"),
        }
        wanted.push_str(reply)?;
        wanted.push('\n')?;
    }
    assert_run(rt, alloc, &commands, wanted.as_bytes())
}

fn assert_run(
    rt: &impl Abort,
    alloc: Global,
    commands: &[Command<VectorKey, u64>],
    wanted: &[u8],
) -> Result<(), Fail> {
    let mut family = Family::new(alloc);
    let mut text = Vec::new(alloc);
    for reply in &family.run(commands, &mut Work::new(), &mut Work::new())? {
        write_reply(reply, &mut text)?;
    }
    assert!(rt; text.as_slice() == wanted);
    Ok(())
}

#[test]
fn heap_versions_are_made_and_discarded(rt: HostRuntime) -> Result<(), Fail> {
    assert_replied(
        &rt,
        rt.alloc(),
        &[
            ("new", "at 0"),
            ("new-at 7", "at 1"),
            ("snapshot 1", "at 2"),
            ("clone 1", "at 3"),
            ("version 2", "version 8"),
            ("version 3", "version 7"),
            ("empty 3", "true"),
            ("discard 1", "discarded"),
            ("version 4", "no version"),
        ],
    )
}

#[test]
fn heap_keys_are_changed(rt: HostRuntime) -> Result<(), Fail> {
    assert_replied(
        &rt,
        rt.alloc(),
        &[
            ("new", "at 0"),
            ("insert 0 '1 10", "false"),
            ("insert 0 '2 20", "false"),
            ("replace 0 '1 11", "some 10"),
            ("get 0 '1", "some 11"),
            ("get-mut 0 '2 21", "true"),
            ("remove 0 '1", "some 11"),
            ("delete 0 '2", "true"),
            ("empty 0", "true"),
        ],
    )
}

#[test]
fn heap_keys_are_updated(rt: HostRuntime) -> Result<(), Fail> {
    assert_replied(
        &rt,
        rt.alloc(),
        &[
            ("new", "at 0"),
            ("update 0 '1 - insert 5", "true"),
            ("update 0 '1 6 keep", "true"),
            ("try-update 0 '1 7 fail", "failed"),
            ("get 0 '1", "some 6"),
            ("try-update 0 '1 - remove", "true"),
            ("version 0", "version 6"),
        ],
    )
}

#[test]
fn heap_keys_are_listed(rt: HostRuntime) -> Result<(), Fail> {
    assert_replied(
        &rt,
        rt.alloc(),
        &[
            ("new", "at 0"),
            ("insert 0 'b 20", "false"),
            ("insert 0 'a 10", "false"),
            ("iter 0", "entries 'a 10 'b 20"),
            ("values 0", "values 10 20"),
            ("range 0 x'a i'b", "entries 'b 20"),
            ("prefix 0 'a", "entries 'a 10"),
            ("matches 0 'b", "entries 'b 20"),
            ("longest 0 'b", "entries 'b 20"),
            ("flatten 0", "entries 'a 10 'b 20"),
        ],
    )
}

#[test]
fn heap_keys_are_visited(rt: HostRuntime) -> Result<(), Fail> {
    assert_replied(
        &rt,
        rt.alloc(),
        &[
            ("new", "at 0"),
            ("insert 0 'b 20", "false"),
            ("insert 0 'a 10", "false"),
            ("matches-each 0 'b", "entries 'b 20"),
            ("views 0", "entries 'a 10 'b 20"),
            ("prefix-views 0 'a", "entries 'a 10"),
            ("range-views 0 - x'b", "entries 'a 10"),
            ("prefix-values 0 'b", "values 20"),
            ("until 0 'a 1 fail", "failed 10"),
            ("until 0 'a 2 fail", "values 10"),
        ],
    )
}

#[test]
fn heap_keys_of_two_versions_meet(rt: HostRuntime) -> Result<(), Fail> {
    assert_replied(
        &rt,
        rt.alloc(),
        &[
            ("new", "at 0"),
            ("insert 0 'b 20", "false"),
            ("insert 0 'a 10", "false"),
            ("snapshot 0", "at 1"),
            ("replace 1 'b 21", "some 20"),
            ("intersect 0 1", "pairs 'a 10 10 'b 20 21"),
            ("intersect-views 1 0", "pairs 'a 10 10 'b 21 20"),
            ("intersect-values 0 1", "value-pairs 10 10 20 21"),
            ("intersect-count 0 1", "count 2"),
        ],
    )
}
