//! UDP datagrams (RFC 768): 8 bytes of header, and data as far as the length says.
//!
//! ```text
//!  0             2                  4        6          8
//! +-------------+------------------+--------+----------+------+
//! | source port | destination port | length | checksum | data |
//! +-------------+------------------+--------+----------+------+
//! ```
//!
//! `hi` from port 5000 to port 53:
//!
//! ```text
//! 1388 0035 000a     97c6     6869
//! 5000 53   10 bytes checksum "hi"
//! ```
ghost use Rattle.std.specs.Prelude.{◌≡◌, ◌≤◌, ◌↔◌, length, IsOk, IfOk, IfErr, List, ℕ, false};
ghost use Rattle.byteorder.specs.Endian.{big_bytes};
ghost use Rattle.frames.specs.Bytes.{Puts};
ghost use Rattle.ipv4.specs.Datagram.{datagram_of, data_of, IsDatagram, has_no_datagram};
ghost use Rattle.ipv4.specs.declared.udp.field.TheConstants.{HEADER};

use crate::Ipv4Fault;
use addresses::Port;
use byteorder::{BigEndian, ByteOrder};
use frames::Refused;

/// The places of the header's fields.
mod field {
    use std::ops::Range;

    pub const SOURCE_PORT: Range<usize> = 0..2;

    pub const DESTINATION_PORT: Range<usize> = 2..4;

    pub const LENGTH: Range<usize> = 4..6;

    pub const CHECKSUM: Range<usize> = 6..8;
    /// The bytes of a header.
    pub const HEADER: usize = 8;
}

/// A reading view of a UDP datagram in a packet's payload, which may be longer than the datagram.
#[derive(Clone, Copy)]
pub struct UdpView<'a> {
    pub bytes: &'a [u8],
    ghost whole: { IsDatagram bytes.now },
}

impl<'a> UdpView<'a> {
    /// Returns a view of the datagram in the payload of a UDP packet, or BadTransport where its
    /// header is cut off, its length is impossible or a port is 0. The checksum isn't tested.
    pub fn parse(payload: &'a [u8]) -> Result<UdpView<'a>, Ipv4Fault>
        ensures ok { IsOk result ↔ IsDatagram payload.now }
        ensures fault { IfErr result (λ f. f ≡ Ipv4Fault.BadTransport) }
        ensures bytes { IfOk result (λ v. v.bytes.now ≡ payload.now) }
    {
        if no_datagram(payload) {
            return Err(Ipv4Fault::BadTransport);
        }
        Ok(UdpView { bytes: payload })
    }

    pub fn source_port(&self) -> Port
        ensures { result.0 ≡ (datagram_of self.now.bytes.now).source_port }
    {
        source_port(self.bytes)
    }

    pub fn destination_port(&self) -> Port
        ensures { result.0 ≡ (datagram_of self.now.bytes.now).destination_port }
    {
        destination_port(self.bytes)
    }

    /// Returns the bytes of header and data.
    pub fn length(&self) -> usize
        ensures value { result ≡ (datagram_of self.now.bytes.now).udp_length }
        ensures low { 8 ≤ result }
        ensures high { result ≤ length self.now.bytes.now }
    {
        udp_length(self.bytes)
    }

    /// Returns the checksum, 0 where the sender made none.
    pub fn checksum(&self) -> u16
        ensures { result ≡ (datagram_of self.now.bytes.now).checksum }
    {
        checksum(self.bytes)
    }

    /// Returns the data, as far as the datagram's length goes.
    pub fn payload(&self) -> &'a [u8]
        ensures { result.now ≡ data_of self.now.bytes.now }
    {
        &self.bytes[field::HEADER..self.length()]
    }
}

fn source_port(bytes: &[u8]) -> Port
    requires { 8 ≤ length bytes.now }
    ensures { result.0 ≡ (datagram_of bytes.now).source_port }
{
    Port(BigEndian::read_u16(&bytes[field::SOURCE_PORT]))
}

fn destination_port(bytes: &[u8]) -> Port
    requires { 8 ≤ length bytes.now }
    ensures { result.0 ≡ (datagram_of bytes.now).destination_port }
{
    Port(BigEndian::read_u16(&bytes[field::DESTINATION_PORT]))
}

fn udp_length(bytes: &[u8]) -> usize
    requires { 8 ≤ length bytes.now }
    ensures { result ≡ (datagram_of bytes.now).udp_length }
{
    usize::from(BigEndian::read_u16(&bytes[field::LENGTH]))
}

fn checksum(bytes: &[u8]) -> u16
    requires { 8 ≤ length bytes.now }
    ensures { result ≡ (datagram_of bytes.now).checksum }
{
    BigEndian::read_u16(&bytes[field::CHECKSUM])
}

fn no_datagram(bytes: &[u8]) -> bool
    ensures { result ≡ has_no_datagram bytes.now }
{
    if bytes.len() < field::HEADER {
        return true;
    }
    let length = udp_length(bytes);
    length < field::HEADER
        || bytes.len() < length
        || source_port(bytes).0 == 0
        || destination_port(bytes).0 == 0
}

/// The payloads that [`UdpView::parse`] accepts are exactly those of the grammar `IsDatagram`. The
/// number that the definitions take from the code is the RFC's.
pub fn udp_grammar()
    ensures grammar { (payload : List ℕ)
        → (has_no_datagram payload ≡ false) ↔ IsDatagram payload }
    ensures header { HEADER ≡ 8 }
{}

/// A writing view of a UDP header in borrowed bytes.
#[derive(Drop)]
pub struct UdpViewMut<'a> {
    pub bytes: &'a mut [u8],
    ghost long: { 8 ≤ length bytes.now },
}

impl<'a> UdpViewMut<'a> {
    /// Returns a writing view of the datagram in the payload of a UDP packet, or refuses the
    /// payload as [`UdpView::parse`] does and gives it back as it was. A caller that needs to know
    /// the bytes after the loan tests them with [`UdpView::parse`] and calls [`UdpViewMut::new`].
    pub fn parse(payload: &'a mut [u8]) -> Result<UdpViewMut<'a>, Refused<'a, Ipv4Fault>>
        ensures ok { IsOk result ↔ IsDatagram payload.old }
        ensures fault { IfErr result (λ r. r.fault ≡ Ipv4Fault.BadTransport) }
        ensures bytes { IfOk result (λ v. v.bytes.now ≡ payload.old) }
        ensures same_reference { IfOk result
            (λ v. v.bytes.ghost_name ≡ payload.entry.ghost_name) }
        ensures err { IfErr result (λ r. r.bytes.now ≡ payload.old) }
        ensures err_reference { IfErr result
            (λ r. r.bytes.ghost_name ≡ payload.entry.ghost_name) }
    {
        if no_datagram(payload) {
            return Err(Refused {
                fault: Ipv4Fault::BadTransport,
                bytes: payload,
            });
        }
        Ok(UdpViewMut { bytes: payload })
    }

    /// Returns a writing view of bytes that begin with a UDP header, without a test.
    pub fn new(bytes: &'a mut [u8]) -> UdpViewMut<'a>
        requires { 8 ≤ length bytes.old }
        ensures bytes { result.bytes.now ≡ bytes.old }
        ensures same_reference { result.bytes.ghost_name ≡ bytes.entry.ghost_name }
    {
        UdpViewMut { bytes }
    }

    pub fn source_port(&self) -> Port
        ensures { result.0 ≡ (datagram_of self.now.bytes.now).source_port }
    {
        source_port(self.bytes)
    }

    pub fn destination_port(&self) -> Port
        ensures { result.0 ≡ (datagram_of self.now.bytes.now).destination_port }
    {
        destination_port(self.bytes)
    }

    /// Returns the bytes of header and data, as the header says.
    pub fn length(&self) -> usize
        ensures { result ≡ (datagram_of self.now.bytes.now).udp_length }
    {
        udp_length(self.bytes)
    }

    /// Returns the checksum, 0 where the sender made none.
    pub fn checksum(&self) -> u16
        ensures { result ≡ (datagram_of self.now.bytes.now).checksum }
    {
        checksum(self.bytes)
    }

    pub fn set_source_port(&mut self, port: Port)
        ensures written { Puts 0 (big_bytes 2 port.0) self.old.bytes.now self.new.bytes.now }
        ensures datagram { datagram_of self.new.bytes.now
            ≡ record (datagram_of self.old.bytes.now) { source_port = port.0 } }
        ensures same_reference { self.new.bytes.ghost_name ≡ self.old.bytes.ghost_name }
    {
        BigEndian::write_u16(&mut self.bytes[field::SOURCE_PORT], port.0);
    }

    pub fn set_destination_port(&mut self, port: Port)
        ensures written { Puts 2 (big_bytes 2 port.0) self.old.bytes.now self.new.bytes.now }
        ensures datagram { datagram_of self.new.bytes.now
            ≡ record (datagram_of self.old.bytes.now) { destination_port = port.0 } }
        ensures same_reference { self.new.bytes.ghost_name ≡ self.old.bytes.ghost_name }
    {
        BigEndian::write_u16(&mut self.bytes[field::DESTINATION_PORT], port.0);
    }

    pub fn set_checksum(&mut self, checksum: u16)
        ensures written { Puts 6 (big_bytes 2 checksum) self.old.bytes.now self.new.bytes.now }
        ensures datagram { datagram_of self.new.bytes.now
            ≡ record (datagram_of self.old.bytes.now) { checksum = checksum } }
        ensures same_reference { self.new.bytes.ghost_name ≡ self.old.bytes.ghost_name }
    {
        BigEndian::write_u16(&mut self.bytes[field::CHECKSUM], checksum);
    }
}
