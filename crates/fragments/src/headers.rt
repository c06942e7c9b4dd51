//! The header of a whole packet, and those of the fragments of one that is cut.
ghost use Rattle.std.specs.Prelude.{◌≡◌, ◌≤◌, length};
ghost use Rattle.ipv4.specs.Header.{header_of};
ghost use Rattle.fragments.specs.Header.{fixed_summed, fixed_with};

use byteorder::{BigEndian, ByteOrder};
use sums::{add, sum};

/// The places of a header's fields (RFC 791, section 3.1).
pub(crate) mod layout {
    use std::ops::Range;

    pub const VERSION_AND_LENGTH: usize = 0;

    pub const TTL: usize = 8;

    pub const PROTOCOL: usize = 9;

    pub const CHECKSUM: Range<usize> = 10..12;

    pub const SOURCE: Range<usize> = 12..16;

    pub const DESTINATION: Range<usize> = 16..20;
    /// The bytes of a header without options.
    pub const FIXED: usize = 20;
}

/// The fields of a header that are not those of the packet that it is made of.
#[derive(Clone, Copy, Debug)]
pub(crate) struct Fields {
    /// The type of service, of which the last two bits are the mark of congestion (RFC 3168).
    pub(crate) service: u8,
    /// The bytes of header and payload.
    pub(crate) total: u16,
    pub(crate) identification: u16,
    /// The flags in the high 3 bits, the offset in the low 13.
    pub(crate) flags: u16,
}

fn source(packet: &[u8]) -> u32
    requires { 20 ≤ length packet.now }
    ensures { result ≡ (header_of packet.now).source }
{
    BigEndian::read_u32(&packet[layout::SOURCE])
}

fn destination(packet: &[u8]) -> u32
    requires { 20 ≤ length packet.now }
    ensures { result ≡ (header_of packet.now).destination }
{
    BigEndian::read_u32(&packet[layout::DESTINATION])
}

/// Returns the first 20 bytes of a packet's header with these fields and a checksum of 0.
fn unsummed(packet: &[u8], fields: Fields) -> [u8; layout::FIXED]
    requires { 20 ≤ length packet.now }
    ensures { result ≡ fixed_with 0 fields packet.now }
{
    let [length, low_length] = fields.total.to_be_bytes();
    let [id, low_id] = fields.identification.to_be_bytes();
    let [flags, low_flags] = fields.flags.to_be_bytes();
    let [a, b, c, d] = source(packet).to_be_bytes();
    let [e, f, g, h] = destination(packet).to_be_bytes();
    [
        packet[layout::VERSION_AND_LENGTH],
        fields.service,
        length,
        low_length,
        id,
        low_id,
        flags,
        low_flags,
        packet[layout::TTL],
        packet[layout::PROTOCOL],
        0,
        0,
        a,
        b,
        c,
        d,
        e,
        f,
        g,
        h,
    ]
}

/// Returns the first 20 bytes of a packet's header with these fields, and with the checksum that they have before these
/// options.
#[tactic(auto, unfolding(crate::specs::Header::fixed_summed))]
pub(crate) fn summed(packet: &[u8], fields: Fields, options: &[u8]) -> [u8; layout::FIXED]
    requires { 20 ≤ length packet.now }
    ensures { result ≡ fixed_summed fields packet.now options.now }
{
    let mut bytes = unsummed(packet, fields);
    let checksum = 65535 - add(sum(&bytes), sum(options));
    BigEndian::write_u16(&mut bytes[layout::CHECKSUM], checksum);
    bytes
}
