//! TCP segments (RFC 9293, section 3.1): 20 bytes of header, options, and data to the payload's
//! end.
//!
//! ```text
//!  0             2                  4          8                 12
//! +-------------+------------------+----------+-----------------+
//! | source port | destination port | sequence | acknowledgement |
//! +-------------+--------+--------++----------+---+-------------+------+
//! | data offset | flags  | window | checksum | urgent | options | data |
//! +-------------+--------+--------+----------+--------+---------+------+
//!  12            13       14       16         18       20        4 x data offset
//! ```
//!
//! A segment that opens a connection from port 5000 to port 80:
//!
//! ```text
//! 1388 0050 00000001 00000000        50      02  2000   901c     0000
//! 5000 80   sequence acknowledgement 5 words SYN window checksum urgent
//! ```
ghost use Rattle.std.specs.Prelude.{◌≡◌, ◌≤◌, ◌<◌, ◌↔◌, ◌/◌, ◌%◌, ◌==◌, not, length, IsOk, IfOk, IfErr, List, ℕ, false};
ghost use Rattle.byteorder.specs.Endian.{big_bytes};
ghost use Rattle.frames.specs.Bytes.{Puts};
ghost use Rattle.ipv4.specs.Segment.{segment_of, flags_of, segment_options, segment_data, IsSegment, has_no_segment};
ghost use Rattle.ipv4.specs.declared.tcp.TheConstants.{FIN, SYN, RST, ACK};
ghost use Rattle.ipv4.specs.declared.tcp.field.TheConstants.{FIXED};

use crate::Ipv4Fault;
use addresses::{Port, TcpFlags};
use byteorder::{BigEndian, ByteOrder};
use frames::Refused;

/// The places of the header's fields.
mod field {
    use std::ops::Range;

    pub const SOURCE_PORT: Range<usize> = 0..2;

    pub const DESTINATION_PORT: Range<usize> = 2..4;

    pub const SEQUENCE: Range<usize> = 4..8;

    pub const ACKNOWLEDGEMENT: Range<usize> = 8..12;
    /// The header's length in words of 4 bytes, in the high half.
    pub const DATA_OFFSET: usize = 12;

    pub const FLAGS: usize = 13;

    pub const WINDOW: Range<usize> = 14..16;

    pub const CHECKSUM: Range<usize> = 16..18;

    pub const URGENT: Range<usize> = 18..20;
    /// The bytes of a header without options.
    pub const FIXED: usize = 20;
}

/// The flag FIN: the sender has no more data.
const FIN: u8 = 0x01;

/// The flag SYN: synchronize sequence numbers.
const SYN: u8 = 0x02;

/// The flag RST: reset the connection.
const RST: u8 = 0x04;

/// The flag ACK: the acknowledgement number counts.
const ACK: u8 = 0x10;

/// A reading view of a TCP segment, which is a packet's whole payload.
#[derive(Clone, Copy)]
pub struct TcpView<'a> {
    pub bytes: &'a [u8],
    ghost whole: { IsSegment bytes.now },
}

impl<'a> TcpView<'a> {
    /// Returns a view of the segment that is the payload of a TCP packet, or BadTransport where its
    /// header is cut off, its data offset is impossible or a port is 0. The checksum isn't tested.
    pub fn parse(payload: &'a [u8]) -> Result<TcpView<'a>, Ipv4Fault>
        ensures ok { IsOk result ↔ IsSegment payload.now }
        ensures fault { IfErr result (λ f. f ≡ Ipv4Fault.BadTransport) }
        ensures bytes { IfOk result (λ v. v.bytes.now ≡ payload.now) }
    {
        if no_segment(payload) {
            return Err(Ipv4Fault::BadTransport);
        }
        Ok(TcpView { bytes: payload })
    }

    pub fn source_port(&self) -> Port
        ensures { result.0 ≡ (segment_of self.now.bytes.now).source_port }
    {
        source_port(self.bytes)
    }

    pub fn destination_port(&self) -> Port
        ensures { result.0 ≡ (segment_of self.now.bytes.now).destination_port }
    {
        destination_port(self.bytes)
    }

    pub fn sequence(&self) -> u32
        ensures { result ≡ (segment_of self.now.bytes.now).sequence }
    {
        sequence(self.bytes)
    }

    pub fn acknowledgement(&self) -> u32
        ensures { result ≡ (segment_of self.now.bytes.now).acknowledgement }
    {
        acknowledgement(self.bytes)
    }

    /// Returns the bytes of the header, 20 to 60.
    pub fn header_length(&self) -> usize
        ensures value { result ≡ (segment_of self.now.bytes.now).header_length }
        ensures low { 20 ≤ result }
        ensures high { result ≤ length self.now.bytes.now }
    {
        header_length(self.bytes)
    }

    #[inline(always)]
    pub fn flags(&self) -> TcpFlags
        ensures { result ≡ (segment_of self.now.bytes.now).flags }
    {
        flags(self.bytes)
    }

    pub fn window(&self) -> u16
        ensures { result ≡ (segment_of self.now.bytes.now).window }
    {
        window(self.bytes)
    }

    pub fn checksum(&self) -> u16
        ensures { result ≡ (segment_of self.now.bytes.now).checksum }
    {
        checksum(self.bytes)
    }

    pub fn urgent(&self) -> u16
        ensures { result ≡ (segment_of self.now.bytes.now).urgent }
    {
        urgent(self.bytes)
    }

    pub fn options(&self) -> &'a [u8]
        ensures { result.now ≡ segment_options self.now.bytes.now }
    {
        &self.bytes[field::FIXED..self.header_length()]
    }

    /// Returns the data after the header and its options.
    pub fn payload(&self) -> &'a [u8]
        ensures { result.now ≡ segment_data self.now.bytes.now }
    {
        &self.bytes[self.header_length()..]
    }
}

fn source_port(bytes: &[u8]) -> Port
    requires { 20 ≤ length bytes.now }
    ensures { result.0 ≡ (segment_of bytes.now).source_port }
{
    Port(BigEndian::read_u16(&bytes[field::SOURCE_PORT]))
}

fn destination_port(bytes: &[u8]) -> Port
    requires { 20 ≤ length bytes.now }
    ensures { result.0 ≡ (segment_of bytes.now).destination_port }
{
    Port(BigEndian::read_u16(&bytes[field::DESTINATION_PORT]))
}

fn sequence(bytes: &[u8]) -> u32
    requires { 20 ≤ length bytes.now }
    ensures { result ≡ (segment_of bytes.now).sequence }
{
    BigEndian::read_u32(&bytes[field::SEQUENCE])
}

fn acknowledgement(bytes: &[u8]) -> u32
    requires { 20 ≤ length bytes.now }
    ensures { result ≡ (segment_of bytes.now).acknowledgement }
{
    BigEndian::read_u32(&bytes[field::ACKNOWLEDGEMENT])
}

fn header_length(bytes: &[u8]) -> usize
    requires { 20 ≤ length bytes.now }
    ensures { result ≡ (segment_of bytes.now).header_length }
{
    4 * usize::from(bytes[field::DATA_OFFSET] / 16)
}

/// Whether a flag is among the control bits.
#[inline(always)]
fn is_set(bits: u8, flag: u8) -> bool
    requires { 0 < flag }
    ensures { result ≡ not (bits / flag % 2 == 0) }
{
    bits / flag % 2 != 0
}

#[inline(always)]
fn flags_by(bits: u8) -> TcpFlags
    ensures { result ≡ flags_of bits }
{
    TcpFlags {
        fin: is_set(bits, FIN),
        syn: is_set(bits, SYN),
        rst: is_set(bits, RST),
        ack: is_set(bits, ACK),
    }
}

/// Returns the flags that a payload's control bits set: none where the payload ends before them.
#[inline(always)]
pub(crate) fn flags(payload: &[u8]) -> TcpFlags
    ensures { result ≡ (segment_of payload.now).flags }
{
    match payload.get(field::FLAGS) {
        Some(bits) => flags_by(*bits),
        None => flags_by(0),
    }
}

fn window(bytes: &[u8]) -> u16
    requires { 20 ≤ length bytes.now }
    ensures { result ≡ (segment_of bytes.now).window }
{
    BigEndian::read_u16(&bytes[field::WINDOW])
}

fn checksum(bytes: &[u8]) -> u16
    requires { 20 ≤ length bytes.now }
    ensures { result ≡ (segment_of bytes.now).checksum }
{
    BigEndian::read_u16(&bytes[field::CHECKSUM])
}

fn urgent(bytes: &[u8]) -> u16
    requires { 20 ≤ length bytes.now }
    ensures { result ≡ (segment_of bytes.now).urgent }
{
    BigEndian::read_u16(&bytes[field::URGENT])
}

fn no_segment(bytes: &[u8]) -> bool
    ensures { result ≡ has_no_segment bytes.now }
{
    if bytes.len() < field::FIXED {
        return true;
    }
    let length = header_length(bytes);
    length < field::FIXED
        || bytes.len() < length
        || source_port(bytes).0 == 0
        || destination_port(bytes).0 == 0
}

/// The payloads that [`TcpView::parse`] accepts are exactly those of the grammar `IsSegment`. The
/// numbers that the definitions take from the code are the RFC's.
pub fn tcp_grammar()
    ensures grammar { (payload : List ℕ)
        → (has_no_segment payload ≡ false) ↔ IsSegment payload }
    ensures fixed { FIXED ≡ 20 }
    ensures fin { FIN ≡ 1 }
    ensures syn { SYN ≡ 2 }
    ensures rst { RST ≡ 4 }
    ensures ack { ACK ≡ 16 }
{}

/// A writing view of a TCP header in borrowed bytes.
#[derive(Drop)]
pub struct TcpViewMut<'a> {
    pub bytes: &'a mut [u8],
    ghost long: { 20 ≤ length bytes.now },
}

impl<'a> TcpViewMut<'a> {
    /// Returns a writing view of the segment that is the payload of a TCP packet, or refuses the
    /// payload as [`TcpView::parse`] does and gives it back as it was. A caller that needs to know
    /// the bytes after the loan tests them with [`TcpView::parse`] and calls [`TcpViewMut::new`].
    pub fn parse(payload: &'a mut [u8]) -> Result<TcpViewMut<'a>, Refused<'a, Ipv4Fault>>
        ensures ok { IsOk result ↔ IsSegment payload.old }
        ensures fault { IfErr result (λ r. r.fault ≡ Ipv4Fault.BadTransport) }
        ensures bytes { IfOk result (λ v. v.bytes.now ≡ payload.old) }
        ensures same_reference { IfOk result
            (λ v. v.bytes.ghost_name ≡ payload.entry.ghost_name) }
        ensures err { IfErr result (λ r. r.bytes.now ≡ payload.old) }
        ensures err_reference { IfErr result
            (λ r. r.bytes.ghost_name ≡ payload.entry.ghost_name) }
    {
        if no_segment(payload) {
            return Err(Refused {
                fault: Ipv4Fault::BadTransport,
                bytes: payload,
            });
        }
        Ok(TcpViewMut { bytes: payload })
    }

    /// Returns a writing view of bytes that begin with a TCP header, without a test.
    pub fn new(bytes: &'a mut [u8]) -> TcpViewMut<'a>
        requires { 20 ≤ length bytes.old }
        ensures bytes { result.bytes.now ≡ bytes.old }
        ensures same_reference { result.bytes.ghost_name ≡ bytes.entry.ghost_name }
    {
        TcpViewMut { bytes }
    }

    pub fn source_port(&self) -> Port
        ensures { result.0 ≡ (segment_of self.now.bytes.now).source_port }
    {
        source_port(self.bytes)
    }

    pub fn destination_port(&self) -> Port
        ensures { result.0 ≡ (segment_of self.now.bytes.now).destination_port }
    {
        destination_port(self.bytes)
    }

    pub fn sequence(&self) -> u32
        ensures { result ≡ (segment_of self.now.bytes.now).sequence }
    {
        sequence(self.bytes)
    }

    pub fn acknowledgement(&self) -> u32
        ensures { result ≡ (segment_of self.now.bytes.now).acknowledgement }
    {
        acknowledgement(self.bytes)
    }

    /// Returns the bytes of the header, as its data offset says.
    pub fn header_length(&self) -> usize
        ensures { result ≡ (segment_of self.now.bytes.now).header_length }
    {
        header_length(self.bytes)
    }

    pub fn flags(&self) -> TcpFlags
        ensures { result ≡ (segment_of self.now.bytes.now).flags }
    {
        flags(self.bytes)
    }

    pub fn window(&self) -> u16
        ensures { result ≡ (segment_of self.now.bytes.now).window }
    {
        window(self.bytes)
    }

    pub fn checksum(&self) -> u16
        ensures { result ≡ (segment_of self.now.bytes.now).checksum }
    {
        checksum(self.bytes)
    }

    pub fn urgent(&self) -> u16
        ensures { result ≡ (segment_of self.now.bytes.now).urgent }
    {
        urgent(self.bytes)
    }

    pub fn set_source_port(&mut self, port: Port)
        ensures written { Puts 0 (big_bytes 2 port.0) self.old.bytes.now self.new.bytes.now }
        ensures segment { segment_of self.new.bytes.now
            ≡ record (segment_of self.old.bytes.now) { source_port = port.0 } }
        ensures same_reference { self.new.bytes.ghost_name ≡ self.old.bytes.ghost_name }
    {
        BigEndian::write_u16(&mut self.bytes[field::SOURCE_PORT], port.0);
    }

    pub fn set_destination_port(&mut self, port: Port)
        ensures written { Puts 2 (big_bytes 2 port.0) self.old.bytes.now self.new.bytes.now }
        ensures segment { segment_of self.new.bytes.now
            ≡ record (segment_of self.old.bytes.now) { destination_port = port.0 } }
        ensures same_reference { self.new.bytes.ghost_name ≡ self.old.bytes.ghost_name }
    {
        BigEndian::write_u16(&mut self.bytes[field::DESTINATION_PORT], port.0);
    }

    pub fn set_checksum(&mut self, checksum: u16)
        ensures written { Puts 16 (big_bytes 2 checksum) self.old.bytes.now self.new.bytes.now }
        ensures segment { segment_of self.new.bytes.now
            ≡ record (segment_of self.old.bytes.now) { checksum = checksum } }
        ensures same_reference { self.new.bytes.ghost_name ≡ self.old.bytes.ghost_name }
    {
        BigEndian::write_u16(&mut self.bytes[field::CHECKSUM], checksum);
    }
}
