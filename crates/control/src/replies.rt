//! The replies of a box, and their bytes.

use thiserror::Error;

/// Why a box refuses the word that the peer is off. The refusals are numbered from 1.
#[derive(Clone, Copy, Debug, PartialEq, Eq, Error)]
pub enum PeerOffRefusal {
    /// The box's own table isn't loaded yet.
    #[error("peer-off 1 NotSynced")]
    NotSynced,
    /// The box knows no boot of the peer.
    #[error("peer-off 2 NoPeer")]
    NoPeer,
    /// The boot is below the known one.
    #[error("peer-off 3 PastBoot")]
    PastBoot,
    /// The boot is above the known one, and the word isn't forced.
    #[error("peer-off 4 UnknownBoot")]
    UnknownBoot,
    /// The peer was heard at most 300 centiseconds ago.
    #[error("peer-off 5 PeerHeard")]
    PeerHeard,
}

/// The bytes of the reply that a word is taken.
pub const HEARD: &[u8] = b"heard";

/// The first bytes of a report.
pub const REPORT: [u8; 2] = *b"NI";

/// The first bytes of a page of pairs.
pub const PAGE: [u8; 2] = *b"NL";

/// Returns the bytes of a refusal: `NR`, and its number from 1 to 5.
pub fn refusal_bytes(refusal: PeerOffRefusal) -> [u8; 3] {
    [b'N', b'R', refusal as u8 + 1]
}

/// What a box replies to a word.
#[derive(Clone, Copy, Debug)]
pub enum Reply<'a> {
    /// The word is taken.
    Heard,
    Refused(PeerOffRefusal),
    /// The bytes of a report, which follow [`REPORT`].
    Report(&'a [u8]),
    /// The bytes of a page of pairs, which follow [`PAGE`].
    Page(&'a [u8]),
}

impl<'a> Reply<'a> {
    /// Reads a reply. Returns `None` where the bytes are no reply.
    pub fn read(bytes: &'a [u8]) -> Option<Reply<'a>> {
        match bytes {
            b"heard" => Some(Reply::Heard),
            [b'N', b'R', number] => Some(Reply::Refused(refusal_of(*number)?)),
            [b'N', b'I', report @ ..] => Some(Reply::Report(report)),
            [b'N', b'L', page @ ..] => Some(Reply::Page(page)),
            _ => None,
        }
    }
}

fn refusal_of(number: u8) -> Option<PeerOffRefusal> {
    match number {
        1 => Some(PeerOffRefusal::NotSynced),
        2 => Some(PeerOffRefusal::NoPeer),
        3 => Some(PeerOffRefusal::PastBoot),
        4 => Some(PeerOffRefusal::UnknownBoot),
        5 => Some(PeerOffRefusal::PeerHeard),
        _ => None,
    }
}
