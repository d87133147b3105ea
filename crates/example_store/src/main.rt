//! A store of versions: a family whose changes are in a log before they are answered, and are
//! played again at the next start, behind the last checkpoint. That a killed process loses nothing
//! is tested (`checks/store`), and so are power cuts, but for the names of files, which are synced.
//!
//! `example_store FOLDER` speaks the lines of `vtree`; here `rt run -- FOLDER` begins it. FOLDER is
//! made where it isn't there. Each line that may change the family, and was not refused, is in
//! `FOLDER/log`, for good, before its reply is written. The line `checkpoint`, and 100,000 lines
//! kept, have it write the family to `FOLDER/checkpoint.N`, and go on in `FOLDER/log.N`. At its
//! start it reads the last checkpoint, plays the log behind it, drops a torn tail, and says on
//! standard error what it found. Its status is 0, or 1 if some line was a bad one, or 2 where it
//! could not start, or reading or writing failed.
#![tactic(auto)]

mod answer;
mod checkpoint;
mod disk;
mod folder;
mod input;
mod laws;
mod log;
mod names;
mod replay;
mod store;

use disk::{DiskStore, StoreError};
use std::env;
use std::io::{self, BufReader};
use std::process::ExitCode;
use vtree_lines::Served;

fn main(rt: HostRuntime) -> ExitCode {
    match run(&rt) {
        Ok(Served::Clean) => ExitCode::from(0),
        Ok(Served::BadLine) => ExitCode::from(1),
        Err(error) => {
            let _ = eprintln!(rt; "example_store: {error}");
            ExitCode::from(2)
        }
    }
}

/// Opens the folder that the one argument names, and serves standard input.
fn run(rt: &HostRuntime) -> Result<Served, StoreError> {
    let mut arguments = env::args(rt)?;
    let (Some(_), Some(folder), None) = (arguments.next(), arguments.next(), arguments.next())
    else {
        return Err(StoreError::Usage);
    };
    let mut store = DiskStore::start(rt, folder.as_str())?;
    let mut reader = BufReader::new(rt.alloc(), rt.reader())?;
    store.serve(rt, &mut reader, &mut io::writer(rt))
}
