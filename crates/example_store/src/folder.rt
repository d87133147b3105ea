//! The folder of a store: its files on the disk.
use crate::names::{Greatest, Name};
use std::fs::{self, File, TryLockError};
use std::io::{self, Write};

/// A folder that this process alone has.
#[derive(Drop)]
pub struct Folder {
    path: String,
    // (its lock goes with it)
    _lock: File,
}

/// A log on the disk: `flush` returns once what was written stays there.
#[derive(Drop)]
pub struct LogFile {
    pub file: File,
}

impl Write for LogFile {
    fn write(&mut self, bytes: &[u8]) -> io::Result<usize> {
        self.file.write(bytes)
    }

    fn flush(&mut self) -> io::Result<()> {
        self.file.sync_all()
    }
}

impl Folder {
    /// Takes a folder, which is made where it isn't there; `None` where another process has it.
    pub fn open(rt: &HostRuntime, path: &str) -> io::Result<Option<Folder>> {
        // (a name that is new stays once the folder that has it is synced, to which a process that
        // made it may not have come)
        let _ = fs::create_dir(rt, path);
        let above = format!(in rt.alloc(); "{path}/..")?;
        sync(rt, above.as_str())?;
        let lock = open_to_append(rt, path, Name::Lock)?;
        match lock.try_lock() {
            Ok(()) => {
                let path = String::from_str(rt.alloc(), path)?;
                Ok(Some(Folder { path, _lock: lock }))
            }
            Err(TryLockError::WouldBlock) => Ok(None),
            Err(TryLockError::Error(error)) => Err(error),
        }
    }

    /// The greatest numbers that its files have.
    pub fn greatest(&self, rt: &HostRuntime) -> io::Result<Greatest> {
        let mut greatest = Greatest::new();
        for entry in fs::read_dir(rt, self.path.as_str())? {
            if let Some(name) = Name::of(entry?.file_name()) {
                greatest.see(name);
            }
        }
        Ok(greatest)
    }

    /// The bytes of a checkpoint.
    pub fn read_checkpoint(&self, rt: &HostRuntime, number: u64) -> io::Result<Vec<u8>> {
        let path = path_of(rt, self.path.as_str(), Name::Checkpoint(number))?;
        fs::read(rt, path.as_str())
    }

    /// The log of a number, which is made where it isn't there, to be written behind its end.
    pub fn open_log(&self, rt: &HostRuntime, number: u64) -> io::Result<File> {
        let file = open_to_append(rt, self.path.as_str(), Name::Log(number))?;
        sync(rt, self.path.as_str())?;
        Ok(file)
    }

    /// Makes the checkpoint of a number. Under its name is all of it, or nothing.
    pub fn write_checkpoint(&self, rt: &HostRuntime, number: u64, bytes: &[u8]) -> io::Result<()> {
        let unfinished = path_of(rt, self.path.as_str(), Name::Unfinished)?;
        let finished = path_of(rt, self.path.as_str(), Name::Checkpoint(number))?;
        let mut file = File::create(rt, unfinished.as_str())?;
        file.write_all(bytes)?;
        file.sync_all()?;
        fs::rename(rt, unfinished.as_str(), finished.as_str())?;
        sync(rt, self.path.as_str())
    }

    /// Removes the files that a store at this number has no need of.
    pub fn remove_older(&self, rt: &HostRuntime, number: u64) -> io::Result<()> {
        for entry in fs::read_dir(rt, self.path.as_str())? {
            let entry = entry?;
            if Name::of(entry.file_name()).is_some_and(|name| name.is_older(number)) {
                fs::remove_file(rt, entry.path())?;
            }
        }
        Ok(())
    }
}

fn path_of(rt: &HostRuntime, folder: &str, name: Name) -> io::Result<String> {
    Ok(format!(in rt.alloc(); "{folder}/{name}")?)
}

/// Opens a file of a folder, which is made where it isn't there.
fn open_to_append(rt: &HostRuntime, folder: &str, name: Name) -> io::Result<File> {
    let path = path_of(rt, folder, name)?;
    File::options()
        .read(true)
        .append(true)
        .create(true)
        .open(rt, path.as_str())
}

/// Makes sure that the names in a folder stay.
fn sync(rt: &HostRuntime, path: &str) -> io::Result<()> {
    File::open(rt, path)?.sync_all()
}
