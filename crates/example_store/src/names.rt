//! The names of a store's files.
ghost use Rattle.std.specs.Prelude.{◌≡◌, ◌↔◌, ◌+◌, ◌-◌, ◌^◌, IfNone, IfSome, IsTrue, max};

use std::fmt::{self, Display, Formatter};

/// A file of a store's folder.
#[derive(Debug, Clone, Copy, PartialEq, Eq)]
pub enum Name {
    /// The checkpoint of a number, of which the first is 1.
    Checkpoint(u64),
    /// The log behind it. That of 0 stands behind none.
    Log(u64),
    /// The empty file whose lock the store's process holds.
    Lock,
    /// A checkpoint that is being written.
    Unfinished,
}

impl Display for Name {
    fn fmt<W: fmt::Write>(&self, f: &mut Formatter<W>) -> fmt::Result {
        match self {
            Name::Checkpoint(number) => write!(f, "checkpoint.{number}"),
            Name::Log(0) => f.write_str("log"),
            Name::Log(number) => write!(f, "log.{number}"),
            Name::Lock => f.write_str("lock"),
            Name::Unfinished => f.write_str("unfinished"),
        }
    }
}

impl Name {
    ghost use Rattle.example_store.specs.Names.{IsOlder};

    /// The file that has a name, or `None` where it is none of a store's.
    pub fn of(name: &str) -> Option<Name> {
        match name {
            "log" => Some(Name::Log(0)),
            "lock" => Some(Name::Lock),
            "unfinished" => Some(Name::Unfinished),
            _ => match name.split_once('.')? {
                ("checkpoint", digits) => Some(Name::Checkpoint(number_of(digits)?)),
                ("log", digits) => Some(Name::Log(number_of(digits)?)),
                _ => None,
            },
        }
    }

    /// Whether a store at this number has no need of the file.
    pub fn is_older(self, number: u64) -> bool
        ensures { IsTrue result ↔ IsOlder self number }
    {
        match self {
            Name::Checkpoint(own) | Name::Log(own) => own < number,
            Name::Lock => false,
            Name::Unfinished => true,
        }
    }
}

/// The number that digits are as a store writes it.
fn number_of(digits: &str) -> Option<u64> {
    if !matches!(digits.as_bytes(), [b'1'..=b'9', ..]) {
        return None;
    }
    digits.parse().ok()
}

/// The greatest numbers that files of a folder have, 0 where there are none.
#[derive(Debug, Clone, Copy, PartialEq, Eq)]
pub struct Greatest {
    /// That of a checkpoint.
    pub checkpoint: u64,
    /// That of a log.
    pub log: u64,
}

impl Greatest {
    ghost use Rattle.example_store.specs.Names.{checkpoint_number, log_number};

    /// Of no files.
    pub fn new() -> Greatest
        ensures checkpoint { result.checkpoint ≡ 0 }
        ensures log { result.log ≡ 0 }
    {
        Greatest {
            checkpoint: 0,
            log: 0,
        }
    }

    /// One more file is there.
    pub fn see(&mut self, name: Name)
        ensures checkpoint { self.new.checkpoint
            ≡ max self.old.checkpoint (checkpoint_number name) }
        ensures log { self.new.log ≡ max self.old.log (log_number name) }
    {
        match name {
            Name::Checkpoint(number) => self.checkpoint = self.checkpoint.max(number),
            Name::Log(number) => self.log = self.log.max(number),
            Name::Lock | Name::Unfinished => {}
        }
    }
}

/// The number of the checkpoint behind that of a number; `None` behind the greatest.
pub fn next_number(number: u64) -> Option<u64>
    ensures next { IfSome result (λ next. next ≡ number + 1) }
    ensures none { IfNone result (number ≡ 2 ^ 64 - 1) }
{
    number.checked_add(1)
}
