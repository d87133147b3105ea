//! Streams that fail.
use std::io::{self, Read, Write};

/// Gives and takes nothing, and fails so.
#[derive(Drop)]
pub struct Broken {
    pub calls: usize,
    kind: io::ErrorKind,
}

impl Broken {
    pub fn new(kind: io::ErrorKind) -> Broken {
        Broken { calls: 0, kind }
    }

    fn fails(&mut self) -> io::Error {
        self.calls = self.calls.saturating_add(1);
        io::Error::from(self.kind)
    }
}

impl Read for Broken {
    fn read(&mut self, _buffer: &mut [u8]) -> io::Result<usize> {
        Err(self.fails())
    }
}

impl Write for Broken {
    fn write(&mut self, _bytes: &[u8]) -> io::Result<usize> {
        Err(self.fails())
    }

    fn flush(&mut self) -> io::Result<()> {
        Ok(())
    }
}
