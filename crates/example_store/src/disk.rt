//! A store in a folder: its start, and its checkpoints.
use crate::checkpoint::{Base, checkpoint_of, sum_behind};
use crate::folder::{Folder, LogFile};
use crate::names::{Name, next_number};
use crate::replay::{ReplayError, Replayed, replay};
use crate::store::{Pause, ServeError, Store};
use rart_saved::LoadError;
use std::io::{self, Read, Write};
use thiserror::Error;
use vtree_lines::{Served, write_bytes};

/// Why the program ends with status 2.
#[derive(Debug, Drop, Error)]
pub enum StoreError {
    /// There is not one argument.
    #[error("usage: example_store FOLDER")]
    Usage,
    /// Another process has the folder.
    #[error("another process has this folder")]
    Locked,
    /// A checkpoint is damaged, or memory was refused.
    #[error("{0}: {1}")]
    Checkpoint(Name, LoadError),
    /// A log is there, and the checkpoint that it stands behind is not.
    #[error("{0} is there without its checkpoint")]
    Alone(Name),
    /// A log is damaged, or memory was refused.
    #[error("{0}: {1}")]
    Log(Name, ReplayError),
    /// There is no greater number for a checkpoint.
    #[error("there is no greater number for a checkpoint")]
    Number,
    /// The system failed to do something.
    #[error("{0}")]
    Io(#[from] io::Error),
    /// Reading or writing failed on the way.
    #[error("{0}")]
    Serve(#[from] ServeError),
}

/// A store whose log is in a folder.
#[derive(Drop)]
pub struct DiskStore {
    folder: Folder,
    // that of its log, and of the checkpoint before it, where there is one
    number: u64,
    store: Store<LogFile>,
}

impl DiskStore {
    /// Starts from the last checkpoint in a folder, and the log behind it. A folder that isn't
    /// there is made in the one above it. Says on standard error what was found, and removes what
    /// was before it.
    ///
    /// An error leaves checkpoint and log as they are, but for a torn tail; files before them may
    /// be gone.
    pub fn start(rt: &HostRuntime, path: &str) -> Result<DiskStore, StoreError> {
        let Some(folder) = Folder::open(rt, path)? else {
            return Err(StoreError::Locked);
        };
        let greatest = folder.greatest(rt)?;
        let number = greatest.checkpoint;
        if greatest.log > number {
            return Err(StoreError::Alone(Name::Log(greatest.log)));
        }
        let base = load(rt, &folder, number)?;
        let (replayed, log) = play(rt, &folder, number, base)?;
        folder.remove_older(rt, number)?;
        Ok(DiskStore {
            folder,
            number,
            store: Store::new(rt.alloc(), replayed, log),
        })
    }

    /// Serves lines to the end of input, as `Store::serve` does, and makes checkpoints: where the
    /// line `checkpoint` asks for one, which is answered `done`, or `no memory` where memory was
    /// refused and nothing changed; and where one is due.
    pub fn serve<R: Read, W: Write>(
        &mut self,
        rt: &HostRuntime,
        reader: &mut R,
        writer: &mut W,
    ) -> Result<Served, StoreError> {
        for _ in 0..u64::MAX {
            let pause = self.store.serve(reader, writer)?;
            if pause == Pause::End {
                return Ok(self.store.served());
            }
            let answer = self.make_checkpoint(rt)?;
            if pause == Pause::Asked && write_bytes(writer, answer).is_err() {
                return Err(StoreError::Serve(ServeError::Write));
            }
        }
        Err(StoreError::Serve(ServeError::Read))
    }

    /// Makes a checkpoint, begins the log behind it, and gives what is answered: `done`, or where
    /// memory for its bytes was refused `no memory`, and nothing has changed but when the next one
    /// is due.
    ///
    /// An error ends the store: it is not to be used any more. Each line that it kept is there at
    /// the next start, which finds the checkpoint whole, or only what was before it.
    fn make_checkpoint(&mut self, rt: &HostRuntime) -> Result<&'static [u8], StoreError> {
        let Ok(bytes) = checkpoint_of(rt.alloc(), self.store.family()) else {
            self.store.put_off_checkpoint();
            let _ = eprintln!(rt; "no memory for a checkpoint");
            return Ok(b"no memory\n");
        };
        let Some(number) = next_number(self.number) else {
            return Err(StoreError::Number);
        };
        self.folder.write_checkpoint(rt, number, bytes.as_slice())?;
        let file = self.folder.open_log(rt, number)?;
        self.store
            .begin_log(sum_behind(bytes.as_slice()), LogFile { file });
        self.number = number;
        self.folder.remove_older(rt, number)?;
        Ok(b"done\n")
    }
}

/// What the log of a number stands behind.
fn load(rt: &HostRuntime, folder: &Folder, number: u64) -> Result<Base, StoreError> {
    if number == 0 {
        return Ok(Base::first(rt.alloc()));
    }
    let bytes = folder.read_checkpoint(rt, number)?;
    match Base::load(rt.alloc(), bytes.as_slice()) {
        Ok(base) => Ok(base),
        Err(error) => Err(StoreError::Checkpoint(Name::Checkpoint(number), error)),
    }
}

/// Plays the log of a number, drops a torn tail, and says on standard error what was found.
fn play(
    rt: &HostRuntime,
    folder: &Folder,
    number: u64,
    base: Base,
) -> Result<(Replayed, LogFile), StoreError> {
    let mut file = folder.open_log(rt, number)?;
    let mut bytes = Vec::new(rt.alloc());
    file.read_to_end(&mut bytes)?;
    let replayed = match replay(rt.alloc(), base, bytes.as_slice()) {
        Ok(replayed) => replayed,
        Err(error) => return Err(StoreError::Log(Name::Log(number), error)),
    };
    let torn = bytes.len().saturating_sub(replayed.length);
    say(rt, number, replayed.count, torn)?;
    if torn > 0 {
        file.set_len(replayed.length as u64)?;
        file.sync_all()?;
    }
    Ok((replayed, LogFile { file }))
}

fn say(rt: &HostRuntime, number: u64, count: u64, torn: usize) -> io::Result<()> {
    if number > 0 {
        eprint!(rt; "{}, ", Name::Checkpoint(number))?;
    }
    eprintln!(rt; "{count} lines, and {torn} bytes of a torn one, which are dropped")
}
