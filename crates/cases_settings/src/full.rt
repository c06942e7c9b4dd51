//! A writer on a full disk.

use std::io::{self, ErrorKind, Write};

/// A writer that takes all bytes, as a buffer does, and fails with StorageFull when it is flushed.
#[derive(Drop)]
pub(crate) struct Full;

impl Write for Full {
    fn write(&mut self, bytes: &[u8]) -> io::Result<usize> {
        Ok(bytes.len())
    }

    fn flush(&mut self) -> io::Result<()> {
        Err(io::Error::from(ErrorKind::StorageFull))
    }
}
