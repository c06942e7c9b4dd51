//! Why a box has no sockets.

use crate::End;
use std::alloc::AllocError;
use std::io::{self, ErrorKind};
use thiserror::Error;

/// Why a box has no sockets.
#[derive(Clone, Copy, Debug, PartialEq, Eq, Error)]
pub enum SocketFault {
    #[error("socket 1 NoSocket")]
    NoSocket(SocketCause),
    #[error("memory 1 NoMemory")]
    NoMemory,
}

/// What the system refuses to a socket of a box, and its error.
#[derive(Clone, Copy, Debug, PartialEq, Eq)]
pub enum SocketCause {
    /// A place on loopback has no ports.
    NoPorts,
    /// No socket can be bound to this own end.
    NotBound(End, ErrorKind),
    /// A socket can't be connected to this other end, as where no route leads there.
    NotConnected(End, ErrorKind),
    /// The inherited descriptor of this number can't be polled, as that of a file.
    BadDescriptor(u16, ErrorKind),
    /// The sockets can't be polled.
    NotPolled(ErrorKind),
}

impl From<SocketCause> for SocketFault {
    fn from(cause: SocketCause) -> SocketFault {
        SocketFault::NoSocket(cause)
    }
}

impl From<AllocError> for SocketFault {
    fn from(_: AllocError) -> SocketFault {
        SocketFault::NoMemory
    }
}

/// An error of the poll, or of the registration with it: `Sockets::open` turns no other `io::Error` into a fault by `?`.
/// That of a socket of a place has the cause that names its place.
impl From<io::Error> for SocketFault {
    fn from(error: io::Error) -> SocketFault {
        SocketFault::NoSocket(SocketCause::NotPolled(error.kind()))
    }
}
