//! Why bytes are refused as an IPv4 packet, or as a UDP or TCP one.
use thiserror::Error;

/// Why bytes are refused: the first test that fails, in the order of the variants.
#[derive(Clone, Copy, Debug, PartialEq, Eq, Error)]
pub enum Ipv4Fault {
    /// The bytes are fewer than 20.
    #[error("the packet is too short")]
    TooShort,
    /// The version isn't 4, or the header has fewer than 20 bytes.
    #[error("no header of version 4")]
    BadVersion,
    /// The total length is less than the header's, or more than the bytes that are there.
    #[error("a total length that can't be")]
    BadLength,
    #[error("a wrong header checksum")]
    BadHeaderSum,
    /// An option is a loose or a strict source route.
    #[error("a source route")]
    SourceRoute,
    #[error("a fragment")]
    Fragment,
    #[error("neither UDP nor TCP")]
    NotUdpTcp,
    /// The UDP or TCP header is cut off, has an impossible length, or a port 0.
    #[error("a bad transport header")]
    BadTransport,
}
