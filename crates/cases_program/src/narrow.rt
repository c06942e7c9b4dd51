//! A writer that takes a number of bytes, and then fails.

use std::io::{self, ErrorKind, Write};

/// A writer that takes a number of bytes, and then fails with BrokenPipe.
#[derive(Drop)]
pub(crate) struct Narrow {
    room: usize,
}

impl Narrow {
    /// Returns a writer that takes `room` bytes.
    pub(crate) fn new(room: usize) -> Narrow {
        Narrow { room }
    }
}

impl Write for Narrow {
    fn write(&mut self, bytes: &[u8]) -> io::Result<usize> {
        if bytes.len() > self.room {
            return Err(io::Error::from(ErrorKind::BrokenPipe));
        }
        self.room -= bytes.len();
        Ok(bytes.len())
    }

    fn flush(&mut self) -> io::Result<()> {
        Ok(())
    }
}
