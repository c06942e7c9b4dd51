//! The packets that the gateways get, in their frames.

use addresses::Protocol;
use nat_types::Side;
use sums::sum;

/// The bytes of the longest frame: a header of 14 bytes, and a packet of 1,500.
pub(crate) const LONGEST: usize = 1514;

/// The place of a frame's packet.
pub(crate) const HEADER: usize = 14;

/// The bytes of a frame up to the end of its packet's ports.
const STARTS: usize = 38;

/// The number of ports of a protocol that the gateway has for new pairs.
pub(crate) const PORTS: u32 = 20_000;

/// The length of a packet that opens a pair, in bytes.
pub(crate) const OPENING: u16 = 44;

/// The port of an inside host that has the first pair. Those of the other pairs are above it.
const FIRST_INSIDE: u32 = 5000;

/// The outside port of the first pair.
const FIRST_OUTSIDE: u32 = 20_000;

/// The distance from one packet's pair to the next one's, so that the pairs aren't found in order.
pub(crate) const STRIDE: u32 = 7919;

/// The place of a segment's flags in its frame.
pub(crate) const FLAGS: usize = 47;

/// The flags of a segment that opens a connection.
pub(crate) const SYN: u8 = 0x02;

/// The flags of a segment that ends its sender's half of a connection.
pub(crate) const FIN: u8 = 0x11;

/// A kind of packet: the side on which it comes in, its protocol, and its length in bytes, 40 to 1,500.
#[derive(Clone, Copy)]
pub(crate) struct Kind {
    pub(crate) side: Side,
    pub(crate) protocol: Protocol,
    pub(crate) size: u16,
}

/// A fragment: its flags and offset, and its length in bytes, 40 to 1,500.
#[derive(Clone, Copy)]
pub(crate) struct Piece {
    pub(crate) place: u16,
    pub(crate) size: u16,
}

/// The fragments of a UDP datagram of 3,000 bytes, in order.
pub(crate) const PIECES: [Piece; 3] = [
    Piece {
        place: 0x2000,
        size: 1500,
    },
    Piece {
        place: 0x20b9,
        size: 1500,
    },
    Piece {
        place: 0x0172,
        size: 68,
    },
];

/// The length of the datagram with its header, in bytes.
const WHOLE: u16 = 3008;

/// A packet of 192.168.1.10:5000 to 198.51.100.7:53 in its frame, up to the ports. The length, the protocol and the
/// header checksum are 0.
const FROM_INSIDE: [u8; STARTS] = *b"\
    \x00\x00\x5e\x00\x01\x0b\x02\x00\x00\x00\x00\x0a\x08\x00\
    \x45\x00\x00\x00\x00\x01\x00\x00\x40\x00\x00\x00\
    \xc0\xa8\x01\x0a\xc6\x33\x64\x07\x13\x88\x00\x35";

/// A packet of 198.51.100.7:53 to 192.0.2.1:20000, at the address that all hosts have outside, in its frame, up to the
/// ports. The length, the protocol and the header checksum are 0.
const FROM_OUTSIDE: [u8; STARTS] = *b"\
    \x00\x00\x5e\x00\x01\x0a\x02\x00\x00\x00\x00\xfe\x08\x00\
    \x45\x00\x00\x00\x00\x01\x00\x00\x40\x00\x00\x00\
    \xc6\x33\x64\x07\xc0\x00\x02\x01\x00\x35\x4e\x20";

/// Returns the start of such a packet's frame.
fn start_of(kind: Kind) -> [u8; STARTS] {
    let mut start = match kind.side {
        Side::Inside => FROM_INSIDE,
        Side::Outside => FROM_OUTSIDE,
    };
    let [high, low] = kind.size.to_be_bytes();
    start[16] = high;
    start[17] = low;
    start[23] = kind.protocol.number();
    let [high, low] = (65535 - sum(&start[14..34])).to_be_bytes();
    start[24] = high;
    start[25] = low;
    start
}

/// Writes what follows the ports; of a query, all that follows the header. No gateway tests the checksum of a datagram
/// or of a segment, so any value will do.
fn set_transport(frame: &mut [u8; LONGEST], kind: Kind) {
    match kind.protocol {
        // An Echo.
        Protocol::Icmp => frame[34..40].copy_from_slice(&[8, 0, 0x12, 0x34, 0x13, 0x88]),
        Protocol::Udp => {
            let [high, low] = kind.size.saturating_sub(20).to_be_bytes();
            frame[38..42].copy_from_slice(&[high, low, 0x12, 0x34]);
        }
        Protocol::Tcp => {
            // An acknowledgement without options.
            frame[46] = 0x50;
            frame[FLAGS] = 0x10;
            frame[50] = 0x12;
            frame[51] = 0x34;
        }
    }
}

/// Returns the frame of a packet of a kind, which belongs to the first pair. The payload is zeros.
pub(crate) fn frame_of(kind: Kind) -> [u8; LONGEST] {
    let mut frame = [0; LONGEST];
    frame[..STARTS].copy_from_slice(&start_of(kind));
    set_transport(&mut frame, kind);
    frame
}

/// Returns the frame of a fragment of such a datagram, which belongs to the first pair. Only the first fragment has ports.
pub(crate) fn piece_of(side: Side, piece: Piece) -> [u8; LONGEST] {
    let mut frame = frame_of(Kind {
        side,
        protocol: Protocol::Udp,
        size: piece.size,
    });
    let [high, low] = piece.place.to_be_bytes();
    frame[20] = high;
    frame[21] = low;
    frame[24] = 0;
    frame[25] = 0;
    let checksum = 65535 - sum(&frame[14..34]);
    let [high, low] = checksum.to_be_bytes();
    frame[24] = high;
    frame[25] = low;
    let [high, low] = WHOLE.to_be_bytes();
    frame[38] = high;
    frame[39] = low;
    frame
}

/// Makes a frame's packet one of the pair with this number, counted from 0.
pub(crate) fn set_pair(frame: &mut [u8; LONGEST], side: Side, number: u32) {
    match side {
        Side::Inside => {
            let [_, _, high, low] = (FIRST_INSIDE + number % PORTS).to_be_bytes();
            frame[34] = high;
            frame[35] = low;
        }
        Side::Outside => {
            let [_, _, high, low] = (FIRST_OUTSIDE + number % PORTS).to_be_bytes();
            frame[36] = high;
            frame[37] = low;
        }
    }
}
