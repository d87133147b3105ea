//! Readers and writers that are interrupted, do a part of what they are asked, or fail.
use super::{Trial, assert_served};
use std::alloc::{AllocError, Global};
use std::cell::Cell;
use std::io::{self, Read, Write};
use std::rc::Rc;
use std::test::Fail;
use vtree_lines::{ServeError, Served};

/// How many lines a writer was given, which its reader sees.
#[derive(Drop)]
pub struct Answered {
    lines: Cell<usize>,
}

pub fn none_answered(alloc: Global) -> Result<Rc<Answered>, AllocError> {
    let lines = Cell::new(0);
    Ok(Rc::new(alloc, Answered { lines })?)
}

/// Gives one byte a call, each behind an interruption. Fails where a line is asked for before all
/// lines before it are answered, and at its end where it is told to.
#[derive(Drop)]
pub struct Source<'a> {
    bytes: &'a [u8],
    fails: bool,
    was_interrupted: bool,
    given: usize,
    answered: Rc<Answered>,
}

impl<'a> Source<'a> {
    pub fn new(bytes: &'a [u8], fails: bool, answered: Rc<Answered>) -> Source<'a> {
        Source {
            bytes,
            fails,
            was_interrupted: false,
            given: 0,
            answered,
        }
    }
}

impl Read for Source<'_> {
    fn read(&mut self, buffer: &mut [u8]) -> io::Result<usize> {
        self.was_interrupted = !self.was_interrupted;
        if self.was_interrupted {
            return Err(io::Error::from(io::ErrorKind::Interrupted));
        }
        if self.answered.lines.get() < self.given || self.bytes.is_empty() && self.fails {
            return Err(io::Error::from(io::ErrorKind::Other));
        }
        if self.bytes.is_empty() || buffer.is_empty() {
            return Ok(0);
        }
        buffer[0] = self.bytes[0];
        if self.bytes[0] == b'\n' {
            self.given = self.given.saturating_add(1);
        }
        self.bytes = &self.bytes[1..];
        Ok(1)
    }
}

/// Takes bytes, some at once and each time after interruptions, up to a number in all, and then
/// fails. Where it took none it takes all that comes after.
#[derive(Drop)]
pub struct Sink {
    pub taken: Vec<u8>,
    most: usize,
    at_once: usize,
    interruptions: usize,
    interruptions_left: usize,
    answered: Rc<Answered>,
}

impl Sink {
    pub fn new(alloc: Global, trial: Trial<'_>, answered: Rc<Answered>) -> Sink {
        Sink {
            taken: Vec::new(alloc),
            most: trial.most,
            at_once: trial.at_once,
            interruptions: trial.interruptions,
            interruptions_left: trial.interruptions,
            answered,
        }
    }
}

impl Write for Sink {
    fn write(&mut self, bytes: &[u8]) -> io::Result<usize> {
        if self.interruptions_left > 0 {
            self.interruptions_left -= 1;
            return Err(io::Error::from(io::ErrorKind::Interrupted));
        }
        self.interruptions_left = self.interruptions;
        let room = self.most.saturating_sub(self.taken.len());
        if room == 0 {
            return Err(io::Error::from(io::ErrorKind::Other));
        }
        let count = bytes.len().min(room).min(self.at_once);
        if count == 0 {
            self.at_once = usize::MAX;
        }
        for byte in &bytes[..count] {
            self.taken.push(*byte)?;
            if *byte == b'\n' {
                let lines = self.answered.lines.get().saturating_add(1);
                self.answered.lines.set(lines);
            }
        }
        Ok(count)
    }

    fn flush(&mut self) -> io::Result<()> {
        Ok(())
    }
}

/// Twenty lines, and their replies.
const LINES: &str = "new\ninsert 0 'abc 1\ninsert 0 'abd 2\nsnapshot 0\ninsert 0 'abe 3\n\
                     get 1 'abe\nget 0 'abe\nversion 0\nversion 1\niter 0\nvalues 1\n\
                     replace 0 'abc 9\nintersect 0 1\nintersect-count 0 1\nprefix 0 'abd\n\
                     delete 1 'abd\ntry-update 0 'abd 7 fail\nflatten 1\ndiscard 0\nempty 0\n";

const REPLIES: &str = "at 0\nfalse\nfalse\nat 1\nfalse\nnone\nsome 3\nversion 3\nversion 3\n\
                       entries 'abc 1 'abd 2 'abe 3\nvalues 1 2\nsome 1\n\
                       pairs 'abc 9 1 'abd 2 2\ncount 2\nentries 'abd 2\ntrue\nfailed\n\
                       entries 'abc 1\ndiscarded\nno version\n";

/// The first lines of a text, as many as the other one has whole.
fn as_many_lines<'a>(text: &'a [u8], other: &[u8]) -> &'a [u8] {
    let mut rest = text;
    for byte in other {
        if *byte == b'\n' {
            let end = rest.iter().position(|byte| *byte == b'\n').unwrap_or(0);
            rest = rest.get(end.saturating_add(1)..).unwrap_or(&[]);
        }
    }
    let length = text.len().saturating_sub(rest.len());
    text.get(..length).unwrap_or(&[])
}

/// An unfinished line is given up.
#[test]
fn read_that_fails_at_any_byte_leaves_the_replies_before_it(rt: HostRuntime) -> Result<(), Fail> {
    for place in 0..LINES.len() {
        let lines = &LINES.as_bytes()[..place];
        let trial = Trial {
            fails_to_read: true,
            ..Trial::of(lines)
        };
        let replies = as_many_lines(REPLIES.as_bytes(), lines);
        assert_served(&rt, rt.alloc(), trial, replies, Err(ServeError::Read))?;
    }
    Ok(())
}

#[test]
fn write_that_fails_at_any_byte_leaves_the_bytes_before_it(rt: HostRuntime) -> Result<(), Fail> {
    for most in 0..REPLIES.len() {
        let trial = Trial {
            at_once: 1,
            most,
            ..Trial::of(LINES.as_bytes())
        };
        let replies = &REPLIES.as_bytes()[..most];
        assert_served(&rt, rt.alloc(), trial, replies, Err(ServeError::Write))?;
    }
    let replies = REPLIES.as_bytes();
    assert_served(
        &rt,
        rt.alloc(),
        Trial::of(LINES.as_bytes()),
        replies,
        Ok(Served::Clean),
    )
}

#[test]
fn failed_write_of_a_bad_line_ends_the_serving(rt: HostRuntime) -> Result<(), Fail> {
    let trial = Trial {
        most: 3,
        ..Trial::of(b"old\nnew\n")
    };
    assert_served(&rt, rt.alloc(), trial, b"bad", Err(ServeError::Write))
}

#[test]
fn writer_that_takes_nothing_has_failed(rt: HostRuntime) -> Result<(), Fail> {
    let trial = Trial {
        at_once: 0,
        ..Trial::of(b"new\n")
    };
    assert_served(&rt, rt.alloc(), trial, b"", Err(ServeError::Write))
}

#[test]
fn interrupted_write_is_tried_as_often_as_it_takes(rt: HostRuntime) -> Result<(), Fail> {
    let interrupted = Trial {
        at_once: 1,
        interruptions: 1,
        ..Trial::of(b"new\nold\niter 0")
    };
    let replies = b"at 0\nbad line\nentries\n";
    assert_served(&rt, rt.alloc(), interrupted, replies, Ok(Served::BadLine))?;
    let late = Trial {
        interruptions: 10_000,
        ..Trial::of(b"new\n")
    };
    assert_served(&rt, rt.alloc(), late, b"at 0\n", Ok(Served::Clean))
}

/// Two hundred insertions and a list of all, and what they are replied. The list has 2,008 bytes,
/// more than a page holds.
fn long_list(alloc: Global) -> Result<(String, String), AllocError> {
    let mut lines = String::from_str(alloc, "new\n")?;
    let mut replies = String::from_str(alloc, "at 0\n")?;
    let mut list = String::from_str(alloc, "entries")?;
    for number in 100..300 {
        lines.push_str(&format!(in alloc; "insert 0 'k{number} {number}\n")?)?;
        replies.push_str("false\n")?;
        list.push_str(&format!(in alloc; " 'k{number} {number}")?)?;
    }
    lines.push_str("iter 0\n")?;
    replies.push_str(&list)?;
    replies.push_str("\n")?;
    Ok((lines, replies))
}

/// The list begins behind 1,205 bytes, and its first page has 1,017 to 1,024.
#[test]
fn long_list_is_written_up_to_a_failure(rt: HostRuntime) -> Result<(), Fail> {
    let (lines, replies) = long_list(rt.alloc())?;
    assert_eq!(rt; replies.len(), 3213);
    for most in [1205, 1206, 2221, 2222, 2223, 2228, 2229, 2230, 3212] {
        let trial = Trial {
            at_once: 1,
            most,
            ..Trial::of(lines.as_bytes())
        };
        let wanted = replies.as_bytes().get(..most).unwrap_or(&[]);
        assert_served(&rt, rt.alloc(), trial, wanted, Err(ServeError::Write))?;
    }
    let trial = Trial {
        at_once: 1,
        interruptions: 1,
        most: 3213,
        ..Trial::of(lines.as_bytes())
    };
    assert_served(
        &rt,
        rt.alloc(),
        trial,
        replies.as_bytes(),
        Ok(Served::Clean),
    )
}
