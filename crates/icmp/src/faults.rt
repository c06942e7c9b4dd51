//! Why bytes are refused as an ICMP message.
use thiserror::Error;

/// Why bytes are refused as an ICMP message.
#[derive(Clone, Copy, Debug, PartialEq, Eq, Error)]
pub enum IcmpFault {
    /// The message has no type or another one than an error's, or the packet isn't of ICMP.
    #[error("no ICMP error")]
    NotError,
    /// The error has a wrong checksum, or the packet inside can't be read from its bytes.
    #[error("a bad ICMP error")]
    BadError,
    /// The message has no type, another type than the query's or a code other than 0, or the packet isn't of ICMP.
    #[error("no ICMP query")]
    NotQuery,
    /// The query's header is cut off, or its identifier is 0.
    #[error("a bad ICMP query")]
    BadQuery,
    /// The message is no Echo to the box: its type is another one, its code isn't 0, it is cut off, or its checksum is
    /// wrong.
    #[error("no Echo to the box")]
    NotAsked,
}
