//! The end of the standard input.

use crate::poll::is_readable;
use std::io::{ErrorKind, Read};

/// Whether the standard input is at its end, or can't be read. A call reads and ignores at most 512 bytes that come before
/// the end, and never waits.
pub fn stdin_has_ended<R: Input>(rt: &R) -> bool {
    if !is_readable(libc::STDIN_FILENO) {
        return false;
    }
    let mut buffer = [0; 512];
    match rt.reader().read(&mut buffer) {
        Ok(count) => count == 0,
        Err(error) => !matches!(error.kind(), ErrorKind::Interrupted | ErrorKind::WouldBlock),
    }
}
