//! The same of a family's commands: what is put in is a clone of the command's value, and the place
//! that is changed is no other version's.
use super::counted::Counted;
use rart_family::{Command, Family, Reply, Work};
use rart_versioned::{KeyTrait, VectorKey};
use std::alloc::{AllocError, Global};
use std::cell::Cell;
use std::process::Abort;
use std::rc::Rc;
use std::test::Fail;

type Versions = Family<VectorKey, Counted>;

type Said = Command<VectorKey, Counted>;

// A command at place 0, by its number, with the key of these bytes.
fn said(
    alloc: Global,
    number: usize,
    bytes: &[u8],
    clones: &Rc<Cell<u64>>,
) -> Result<Said, AllocError> {
    let place = 0;
    let key = VectorKey::new_from_slice(alloc, bytes)?;
    let value = Counted::new(1, clones)?;
    Ok(match number {
        0 => Command::New,
        1 => Command::Insert { place, key, value },
        2 => Command::Replace { place, key, value },
        3 => Command::GetMut { place, key, value },
        4 => Command::Remove { place, key },
        _ => Command::Delete { place, key },
    })
}

// A command, its key, and how many clones it makes.
const ROWS: &[(usize, &[u8], u64)] = &[
    (0, b"", 0),
    (1, b"a", 1),
    (1, b"ab", 1),
    (1, b"abc", 1),
    (1, b"abd", 1),
    (1, b"abe", 1),
    (2, b"abe", 1),
    (3, b"abe", 1),
    (4, b"abe", 0),
    (5, b"abd", 0),
];

#[test]
fn commands_clone_as_often_as_told(rt: HostRuntime) -> Result<(), Fail> {
    let clones = Rc::new(rt.alloc(), Cell::new(0))?;
    let mut family = Versions::new(rt.alloc());
    let mut reads = Work::new();
    let mut changes = Work::new();
    for (number, bytes, wanted) in ROWS {
        let command = said(rt.alloc(), *number, bytes, &clones)?;
        let reply = family.reply(&command, &mut reads, &mut changes);
        assert!(rt; !matches!(&reply, Reply::NoMemory), "at {bytes:?}");
        assert_eq!(rt; clones.replace(0), *wanted, "command {number} at {bytes:?}");
    }
    Ok(())
}
