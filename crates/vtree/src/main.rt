//! A program that runs commands on a family of versions.
//!
//! It reads command lines from standard input and writes one reply line each to standard
//! output. Its status is 0, or 1 if some line was a bad one, or 2 as soon as reading or writing
//! failed, or memory was refused for the buffer that it reads into.
#![tactic(auto)]

use std::io::{self, BufReader};
use std::process::ExitCode;
use vtree_lines::{ServeError, serve, status_of};

fn main(rt: HostRuntime) -> ExitCode {
    let answer = match BufReader::new(rt.alloc(), rt.reader()) {
        Ok(reader) => serve(rt.alloc(), reader, &mut io::writer(&rt)),
        Err(_) => Err(ServeError::Memory),
    };
    ExitCode::from(status_of(answer))
}
