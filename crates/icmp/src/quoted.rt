//! The packet inside an error, as much of it as was sent: its header, whole and right, and at least
//! 8 bytes after the header, which hold both ports, or the identifier of a query. The packet may be
//! cut anywhere after these 8 bytes, so its total length isn't tested, and it may be the first
//! fragment of a larger packet.
//!
//! ```text
//! 45         00 001e 0001   0000     05    11  c992 c0000201  c6336407     4e20  0035 000a5cdf
//! 4, 5 words -- ---- number offset 0 TTL 5 UDP sum  192.0.2.1 198.51.100.7 20000 53   ..
//! ```
ghost use Rattle.std.specs.Prelude.{◌≡◌, ◌≤◌, ◌+◌, ◌↔◌, length, IsOk, IfOk, IfErr, List, ℕ, false};
ghost use Rattle.ipv4.specs.Flow.{destination_place, protocol_of, source_place};
ghost use Rattle.ipv4.specs.Header.{header_of, word_at};
ghost use Rattle.icmp.specs.Quoted.{IsQuoted, has_no_header, has_no_query, has_no_ports, has_no_packet, behind, may_be, quoted_flow};
ghost use Rattle.icmp.specs.declared.quoted.field.TheConstants.{FIXED, BEHIND};

use crate::queries::is_begun;
use crate::{IcmpFault, Kind, PROTOCOL};
use addresses::{Ip, Port, Protocol};
use byteorder::{BigEndian, ByteOrder};
use ipv4::Flow;
use sums::is_right;

/// The places of what is read of the packet. The ports are counted from the header's end.
mod field {
    use std::ops::Range;

    /// The version in the high half, the header's length in 4-byte words in the low one.
    pub const VERSION_AND_LENGTH: usize = 0;
    /// The flags in the high 3 bits, the fragment's offset in the low 13.
    pub const FRAGMENT: Range<usize> = 6..8;

    pub const PROTOCOL: usize = 9;

    pub const SOURCE: Range<usize> = 12..16;

    pub const DESTINATION: Range<usize> = 16..20;
    /// The bytes of a header without options.
    pub const FIXED: usize = 20;

    pub const SOURCE_PORT: Range<usize> = 0..2;

    pub const DESTINATION_PORT: Range<usize> = 2..4;
    /// The identifier of a query, which is both ports.
    pub const IDENTIFIER: Range<usize> = 4..6;
    /// The fewest bytes after the header (RFC 792).
    pub const BEHIND: usize = 8;
}

/// One more than the greatest offset of a fragment.
const OFFSETS: u16 = 0x2000;

/// A reading view of a packet as an error holds it, with whatever follows it in the error.
#[derive(Clone, Copy)]
pub struct QuotedView<'a> {
    pub bytes: &'a [u8],
    ghost right: { IsQuoted bytes.now },
}

impl<'a> QuotedView<'a> {
    /// Returns a view of the packet inside an error, or BadError where it can't be read: its header
    /// or the 8 bytes after the header are cut off, its header is wrong or that of a later
    /// fragment, it is neither UDP nor TCP nor a query, or a port is 0.
    pub fn parse(bytes: &'a [u8]) -> Result<QuotedView<'a>, IcmpFault>
        ensures ok { IsOk result ↔ IsQuoted bytes.now }
        ensures fault { IfErr result (λ f. f ≡ IcmpFault.BadError) }
        ensures bytes { IfOk result (λ v. v.bytes.now ≡ bytes.now) }
    {
        if no_packet(bytes) {
            return Err(IcmpFault::BadError);
        }
        Ok(QuotedView { bytes })
    }

    /// Returns the bytes of the header, 20 to 60.
    pub fn header_length(&self) -> usize
        ensures value { result ≡ (header_of self.now.bytes.now).header_length }
        ensures low { 20 ≤ result }
        ensures high { result + 8 ≤ length self.now.bytes.now }
    {
        header_length(self.bytes)
    }

    /// Returns from where to where the packet went, and by which protocol.
    pub fn flow(&self) -> Flow
        ensures { result ≡ quoted_flow self.now.bytes.now }
    {
        let protocol = translated_protocol(self.bytes);
        let behind = self.behind();
        Flow {
            protocol,
            source: Ip(BigEndian::read_u32(&self.bytes[field::SOURCE])),
            source_port: source_port(protocol, behind),
            destination: Ip(BigEndian::read_u32(&self.bytes[field::DESTINATION])),
            destination_port: destination_port(protocol, behind),
        }
    }

    /// Whether the packet may be a query of this kind: it is of another protocol, or begins as one.
    pub fn may_be(&self, kind: Kind) -> bool
        ensures { result ≡ may_be kind self.now.bytes.now }
    {
        protocol(self.bytes) != PROTOCOL || is_begun(kind, self.behind())
    }

    /// Returns what follows the header.
    pub fn behind(&self) -> &'a [u8]
        ensures bytes { result.now ≡ behind self.now.bytes.now }
        ensures long { 8 ≤ length result.now }
    {
        behind(self.bytes)
    }
}

fn version(bytes: &[u8]) -> u8
    requires { 20 ≤ length bytes.now }
    ensures { result ≡ (header_of bytes.now).version }
{
    bytes[field::VERSION_AND_LENGTH] / 16
}

fn header_length(bytes: &[u8]) -> usize
    requires { 20 ≤ length bytes.now }
    ensures { result ≡ (header_of bytes.now).header_length }
{
    4 * usize::from(bytes[field::VERSION_AND_LENGTH] % 16)
}

/// Returns what follows the header.
fn behind(bytes: &[u8]) -> &[u8]
    requires long { 20 ≤ length bytes.now }
    requires there { (header_of bytes.now).header_length + 8 ≤ length bytes.now }
    ensures bytes { result.now ≡ behind bytes.now }
    ensures long { 8 ≤ length result.now }
{
    &bytes[header_length(bytes)..]
}

fn fragment_offset(bytes: &[u8]) -> u16
    requires { 20 ≤ length bytes.now }
    ensures { result ≡ (header_of bytes.now).fragment_offset }
{
    BigEndian::read_u16(&bytes[field::FRAGMENT]) % OFFSETS
}

fn protocol(bytes: &[u8]) -> u8
    requires { 20 ≤ length bytes.now }
    ensures { result ≡ (header_of bytes.now).protocol }
{
    bytes[field::PROTOCOL]
}

/// Returns the protocol of a packet that is translated.
fn translated_protocol(bytes: &[u8]) -> Protocol
    requires { 20 ≤ length bytes.now }
    ensures { result ≡ protocol_of bytes.now }
{
    let number = protocol(bytes);
    if number == Protocol::Icmp.number() {
        Protocol::Icmp
    } else if number == Protocol::Tcp.number() {
        Protocol::Tcp
    } else {
        Protocol::Udp
    }
}

/// Returns the source port after a header, or the identifier of a query.
fn source_port(protocol: Protocol, behind: &[u8]) -> Port
    requires { 8 ≤ length behind.now }
    ensures { result.0 ≡ word_at (source_place protocol) behind.now }
{
    match protocol {
        Protocol::Icmp => Port(BigEndian::read_u16(&behind[field::IDENTIFIER])),
        Protocol::Tcp | Protocol::Udp => Port(BigEndian::read_u16(&behind[field::SOURCE_PORT])),
    }
}

/// Returns the destination port after a header, or the identifier of a query.
fn destination_port(protocol: Protocol, behind: &[u8]) -> Port
    requires { 8 ≤ length behind.now }
    ensures { result.0 ≡ word_at (destination_place protocol) behind.now }
{
    match protocol {
        Protocol::Icmp => Port(BigEndian::read_u16(&behind[field::IDENTIFIER])),
        Protocol::Tcp | Protocol::Udp => Port(BigEndian::read_u16(
            &behind[field::DESTINATION_PORT],
        )),
    }
}

fn no_header(bytes: &[u8]) -> bool
    ensures { result ≡ has_no_header bytes.now }
{
    if bytes.len() < field::FIXED {
        return true;
    }
    let length = header_length(bytes);
    if version(bytes) != 4 || length < field::FIXED || bytes.len() < length + field::BEHIND {
        return true;
    }
    !is_right(&bytes[..length])
        || fragment_offset(bytes) != 0
        || Protocol::from_number(protocol(bytes)).is_none()
}

/// Whether a packet of ICMP doesn't begin as a query.
fn no_query(bytes: &[u8]) -> bool
    requires long { 20 ≤ length bytes.now }
    requires there { (header_of bytes.now).header_length + 8 ≤ length bytes.now }
    ensures { result ≡ has_no_query bytes.now }
{
    if protocol(bytes) != PROTOCOL {
        return false;
    }
    let behind = behind(bytes);
    !is_begun(Kind::Echo, behind) && !is_begun(Kind::Reply, behind)
}

fn no_ports(bytes: &[u8]) -> bool
    requires long { 20 ≤ length bytes.now }
    requires there { (header_of bytes.now).header_length + 8 ≤ length bytes.now }
    ensures { result ≡ has_no_ports bytes.now }
{
    let protocol = translated_protocol(bytes);
    let behind = behind(bytes);
    source_port(protocol, behind).0 == 0 || destination_port(protocol, behind).0 == 0
}

/// Whether the bytes hold no packet whose flow can be read.
pub(crate) fn no_packet(bytes: &[u8]) -> bool
    ensures { result ≡ has_no_packet bytes.now }
{
    no_header(bytes) || no_query(bytes) || no_ports(bytes)
}

/// The packets inside that [`QuotedView::parse`] accepts are exactly those of the grammar
/// `IsQuoted`. The numbers that the definitions take from the code are the RFC's.
pub fn quoted_grammar()
    ensures grammar { (bytes : List ℕ) → (has_no_packet bytes ≡ false) ↔ IsQuoted bytes }
    ensures fixed { FIXED ≡ 20 }
    ensures behind { BEHIND ≡ 8 }
{}
