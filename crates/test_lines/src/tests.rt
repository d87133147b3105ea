//! What no clause says: that calls succeed where there is memory, and what is written when.

mod heap;
mod lists;
mod streams;

use std::alloc::Global;
use std::process::Abort;
use std::test::Fail;
use streams::{Sink, Source, none_answered};
use vtree_lines::{ServeError, Served, serve};

/// How a text of lines is read and its replies are written.
#[derive(Clone, Copy)]
struct Trial<'a> {
    lines: &'a [u8],
    /// Whether reading fails at the end.
    fails_to_read: bool,
    /// How many bytes a write takes.
    at_once: usize,
    /// How often a write is interrupted before it takes any.
    interruptions: usize,
    /// How many bytes are taken before writing fails.
    most: usize,
}

impl<'a> Trial<'a> {
    /// Nothing fails.
    fn of(lines: &'a [u8]) -> Trial<'a> {
        Trial {
            lines,
            fails_to_read: false,
            at_once: usize::MAX,
            interruptions: 0,
            most: usize::MAX,
        }
    }
}

/// Serves lines, and compares what is written and answered.
fn assert_served(
    rt: &impl Abort,
    alloc: Global,
    trial: Trial<'_>,
    replies: &[u8],
    served: Result<Served, ServeError>,
) -> Result<(), Fail> {
    let answered = none_answered(alloc)?;
    let source = Source::new(trial.lines, trial.fails_to_read, answered.clone()?);
    let mut sink = Sink::new(alloc, trial, answered);
    let answer = serve(alloc, source, &mut sink);
    assert!(rt; sink.taken.as_slice() == replies);
    assert!(rt; answer == served);
    Ok(())
}
