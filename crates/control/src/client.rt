//! The client's end of a control socket.

ghost use Rattle.std.specs.Prelude.{◌≤◌, IfOk, length};

use crate::{ControlPath, HEARD, Reply, Word};
use std::io::{self, ErrorKind, Read, Write};
use std::net::Net;
use std::os::unix::net::UnixStream;
use std::time::Duration;
use thiserror::Error;

/// How long each read and each write waits at most, in seconds.
const TIMEOUT_SECONDS: u64 = 2;

/// Why a control socket is of no use.
#[derive(Clone, Copy, Debug, PartialEq, Eq, Error)]
pub enum NoSocket {
    /// No box listens there.
    #[error("socket 1 NoSocket")]
    NoBox,
    /// The system can't open or use the socket.
    #[error("socket 1 NoSocket")]
    Failed(ErrorKind),
    /// The box closed the connection without a reply.
    #[error("socket 1 NoSocket")]
    Closed,
    /// The box's reply isn't one to this word.
    #[error("socket 1 NoSocket")]
    OtherReply,
}

impl From<io::Error> for NoSocket {
    fn from(error: io::Error) -> NoSocket {
        NoSocket::Failed(error.kind())
    }
}

/// Why a box doesn't answer.
#[derive(Clone, Copy, Debug, PartialEq, Eq, Error)]
pub enum AskFault {
    #[error("{0}")]
    NoSocket(NoSocket),
    /// A box is there, but doesn't reply within two seconds. It takes the word when it goes on.
    #[error("socket 3 NotAnswered")]
    NotAnswered,
}

impl From<NoSocket> for AskFault {
    fn from(fault: NoSocket) -> AskFault {
        AskFault::NoSocket(fault)
    }
}

/// An error of a connection to a box.
impl From<io::Error> for AskFault {
    fn from(error: io::Error) -> AskFault {
        match error.kind() {
            ErrorKind::WouldBlock | ErrorKind::TimedOut => AskFault::NotAnswered,
            ErrorKind::BrokenPipe | ErrorKind::ConnectionReset => AskFault::NoSocket(
                NoSocket::Closed,
            ),
            kind => AskFault::NoSocket(NoSocket::Failed(kind)),
        }
    }
}

/// Says a word to the box that listens at a path, and waits until the box has taken the word.
///
/// # Errors
///
/// Those of [`ask`]; `OtherReply` too where the box doesn't reply that the word is taken.
pub fn say<R: Net>(rt: &R, path: &ControlPath, word: Word) -> Result<(), AskFault> {
    match ask(rt, path, word, &mut [0; HEARD.len()])? {
        Reply::Heard => Ok(()),
        _ => Err(AskFault::NoSocket(NoSocket::OtherReply)),
    }
}

/// Says a word to the box that listens at a path, and reads its reply into the buffer. What doesn't fit there is lost.
///
/// # Errors
///
/// `NoBox` where no box listens there, and `Failed` where the socket can't be opened: no word was said. `NotAnswered` where
/// the box doesn't reply within two seconds: it takes the word when it goes on. `Closed` where the box closes the connection
/// first, `OtherReply` where it replies nothing that is a reply: whether it took the word isn't known.
pub fn ask<'b, R: Net>(
    rt: &R,
    path: &ControlPath,
    word: Word,
    buffer: &'b mut [u8],
) -> Result<Reply<'b>, AskFault> {
    let mut stream = connect(rt, path)?;
    let timeout = Some(Duration::from_secs(TIMEOUT_SECONDS));
    stream.set_read_timeout(timeout)?;
    stream.set_write_timeout(timeout)?;
    stream.write_all(word.bytes().as_slice())?;
    match read_to_end(&mut stream, buffer)? {
        0 => Err(AskFault::NoSocket(NoSocket::Closed)),
        count => Reply::read(&buffer[..count]).ok_or(AskFault::NoSocket(NoSocket::OtherReply)),
    }
}

/// Connects to the box that listens at a path. Where as many clients wait already as the system allows, the box doesn't
/// answer: a blocking `connect` would wait for the box without a limit.
fn connect<R: Net>(rt: &R, path: &ControlPath) -> Result<UnixStream, AskFault> {
    match mio::net::UnixStream::connect(rt, path.socket.as_str()) {
        Ok(stream) => {
            let stream = UnixStream::from(stream);
            stream.set_nonblocking(false)?;
            Ok(stream)
        }
        Err(error) => Err(match error.kind() {
            ErrorKind::NotFound | ErrorKind::ConnectionRefused => NoSocket::NoBox.into(),
            _ => error.into(),
        }),
    }
}

/// Reads until the stream ends or the buffer is full, and returns how many bytes of the buffer are read.
fn read_to_end<L: Read>(stream: &mut L, buffer: &mut [u8]) -> io::Result<usize>
    ensures { IfOk result (λ count. count ≤ length buffer.new) }
{
    let mut count = 0;
    // A loop without an end that is proved to end.
    for _ in 0..u64::MAX {
        if count == buffer.len() {
            break;
        }
        match stream.read(&mut buffer[count..]) {
            Ok(0) => break,
            Ok(more) => count += more,
            Err(error) if error.kind() == ErrorKind::Interrupted => {}
            Err(error) => return Err(error),
        }
    }
    Ok(count)
}
