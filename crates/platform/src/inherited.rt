//! Descriptors that the program inherited.
ghost use Rattle.std.specs.Prelude.{◌≤◌, IfOk};

use std::io::{self, Read, Write};
use std::os::fd::{AsRawFd, RawFd};

/// An open descriptor that the program inherited from the process that started it. Dropping the value doesn't close the
/// descriptor.
#[derive(Drop)]
pub struct Inherited(RawFd);

impl Inherited {
    /// Takes the open descriptor of this number, and makes it non-blocking.
    ///
    /// # Errors
    ///
    /// The error of `fcntl`, where no descriptor of this number is open.
    pub fn open(number: u16) -> io::Result<Inherited> {
        let descriptor = RawFd::from(number);
        if os::set_nonblocking(descriptor, true) < 0 {
            return Err(last_error());
        }
        Ok(Inherited(descriptor))
    }

    /// Sends a message by the socket behind the descriptor, without waiting. A message that can't be sent is lost.
    pub fn send(&self, message: &[u8]) {
        let _lost = os::sendv(self.0, [message, &[], &[], &[]]);
    }
}

impl Read for Inherited {
    fn read(&mut self, buffer: &mut [u8]) -> io::Result<usize> {
        let capacity = buffer.len();
        checked_count(libc::read(self.0, buffer), capacity)
    }
}

impl Write for Inherited {
    fn write(&mut self, bytes: &[u8]) -> io::Result<usize> {
        checked_count(libc::write(self.0, bytes), bytes.len())
    }

    fn flush(&mut self) -> io::Result<()> {
        Ok(())
    }
}

impl AsRawFd for Inherited {
    fn as_raw_fd(&self) -> RawFd {
        self.0
    }
}

/// Returns the number of bytes that a system call returned, at most `max`.
///
/// # Errors
///
/// The error of the call, where the number is negative.
fn checked_count(count: isize, max: usize) -> io::Result<usize>
    ensures bound { IfOk result (λ n. n ≤ max) }
{
    if count < 0 {
        return Err(last_error());
    }
    Ok((count as usize).min(max))
}

/// Returns the error of the last system call.
fn last_error() -> io::Error {
    io::Error::from_raw_os_error(os::errno())
}
