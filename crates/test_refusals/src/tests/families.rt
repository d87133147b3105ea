// The commands of a family that copy values, of which each copy is refused in turn; and long lists:
// a command that lists is refused for no number of keys.
use super::begun::key_of;
use super::fragile::{Fragile, Fuse};
use rart_family::{Command, Family, Reply, SlotUpdate, VectorKey, Work};
use std::alloc::{AllocError, Global};
use std::ops::Bound;
use std::process::Abort;
use std::rc::Rc;
use std::test::Fail;

type Versions = Family<VectorKey, Fragile>;

type Said = Command<VectorKey, Fragile>;

// What keys are made of, as many first bytes of it as they are long.
const LONGEST: &[u8] = &[b'k'; 300];

// At least as many clones as a command makes of three keys.
const MOST_CLONES: u64 = 12;

// How many commands list keys, and how many there are.
const LISTS: usize = 15;

const COMMANDS: usize = 24;

// A command by its number. The first ones list all keys at place 0, which all begin this one, or
// what it has in common with place 1. The others are at this key of place 0.
fn said(alloc: Global, number: usize, key: &[u8], value: Fragile) -> Result<Said, AllocError> {
    let (place, left, right) = (0, 0, 1);
    let (key, prefix) = (key_of(alloc, key)?, key_of(alloc, b"")?);
    let lo = Bound::Unbounded;
    let hi = Bound::Unbounded;
    Ok(match number {
        0 => Command::Iter { place },
        1 => Command::Values { place },
        2 => Command::Views { place },
        3 => Command::Flatten { place },
        4 => Command::Range { place, lo, hi },
        5 => Command::RangeViews { place, lo, hi },
        6 => Command::Prefix { place, prefix },
        7 => Command::PrefixViews { place, prefix },
        8 => Command::PrefixValues { place, prefix },
        9 => Command::Until {
            place,
            prefix,
            visits: 0,
            fails: false,
        },
        10 => Command::Matches { place, key },
        11 => Command::MatchesEach { place, key },
        12 => Command::Intersect { left, right },
        13 => Command::IntersectViews { left, right },
        14 => Command::IntersectValues { left, right },
        15 => Command::Get { place, key },
        16 => Command::Longest { place, key },
        17 => Command::Remove { place, key },
        18 => Command::Delete { place, key },
        19 => Command::GetMut { place, key, value },
        20 => Command::Insert { place, key, value },
        21 => Command::Replace { place, key, value },
        22 => Command::Update {
            place,
            key,
            write: Some(value),
            answer: SlotUpdate::Keep,
        },
        _ => Command::TryUpdate {
            place,
            key,
            write: None,
            answer: Some(SlotUpdate::Insert(value)),
        },
    })
}

// As many keys at place 0 that begin each other, and a copy of it at place 1.
fn made(alloc: Global, fuse: &Rc<Fuse>, count: usize) -> Result<Versions, AllocError> {
    let mut family = Family::new(alloc);
    obey(&mut family, Command::New)?;
    for len in 1..=count {
        let insertion = Command::Insert {
            place: 0,
            key: key_of(alloc, &LONGEST[..len.min(LONGEST.len())])?,
            value: Fragile::new(7, fuse)?,
        };
        obey(&mut family, insertion)?;
    }
    obey(&mut family, Command::Snapshot { place: 0 })?;
    Ok(family)
}

// The reply to a command, unless memory was refused.
fn obey(family: &mut Versions, said: Said) -> Result<Reply<VectorKey, Fragile>, AllocError> {
    match family.reply(&said, &mut Work::new(), &mut Work::new()) {
        Reply::NoMemory => Err(AllocError),
        reply => Ok(reply),
    }
}

fn is_answered(family: &mut Versions, command: &Said) -> bool {
    let reply = family.reply(command, &mut Work::new(), &mut Work::new());
    !matches!(reply, Reply::NoMemory)
}

// Whether the refusal of the clone of this number, or of a request, is answered, and the command
// once nothing more is refused.
fn survives(family: &mut Versions, command: &Said, fuse: &Fuse, clone: u64) -> bool {
    fuse.light(clone);
    if is_answered(family, command) {
        return fuse.clones() < clone;
    }
    fuse.light(0);
    is_answered(family, command) || is_answered(family, command)
}

fn command_survives(
    alloc: Global,
    fuse: &Rc<Fuse>,
    number: usize,
    clone: u64,
) -> Result<bool, AllocError> {
    fuse.light(0);
    let mut family = made(alloc, fuse, 3)?;
    let command = said(alloc, number, b"kk", Fragile::new(7, fuse)?)?;
    Ok(survives(&mut family, &command, fuse, clone))
}

#[test]
fn commands_survive_refusals(rt: HostRuntime) -> Result<(), Fail> {
    let alloc = rt.alloc();
    let fuse = Fuse::new(alloc)?;
    for number in 0..COMMANDS {
        for clone in 1..=MOST_CLONES {
            let survives = match command_survives(alloc, &fuse, number, clone) {
                Ok(survives) => survives,
                Err(AllocError) => command_survives(alloc, &fuse, number, clone)?,
            };
            assert!(rt; survives, "command {number}");
        }
    }
    Ok(())
}

// How many keys a command lists.
fn listed(reply: &Reply<VectorKey, Fragile>) -> usize {
    match reply {
        Reply::Entries(entries) => entries.len(),
        Reply::Values(values) => values.len(),
        Reply::Stopped { values, failed: _ } => values.len(),
        Reply::Pairs(pairs) => pairs.len(),
        Reply::ValuePairs(pairs) => pairs.len(),
        _ => 0,
    }
}

// Whether each command lists all of 300 keys, unless memory was refused.
fn are_listed(alloc: Global) -> Result<bool, AllocError> {
    let fuse = Fuse::new(alloc)?;
    let mut family = made(alloc, &fuse, LONGEST.len())?;
    for number in 0..LISTS {
        let command = said(alloc, number, LONGEST, Fragile::new(7, &fuse)?)?;
        if listed(&obey(&mut family, command)?) != LONGEST.len() {
            return Ok(false);
        }
    }
    Ok(true)
}

#[test]
fn long_lists_are_answered(rt: HostRuntime) -> Result<(), Fail> {
    let are_whole = match are_listed(rt.alloc()) {
        Ok(are_whole) => are_whole,
        Err(AllocError) => are_listed(rt.alloc())?,
    };
    assert!(rt; are_whole);
    Ok(())
}
