//! IPv4 headers (RFC 791, section 3.1): 20 bytes, and options as far as the header's length says.
//!
//! ```text
//!  0                    1                 2                4
//! +--------------------+-----------------+----------------+----------------+
//! | version and length | type of service | total length   | identification |
//! +--------------------+-----+-----------+----------------+----------------+
//! | flags and offset   | TTL | protocol  | checksum       | source         |
//! +--------------------+-----+-----------+----------------+----------------+
//! | destination        | options         | payload        | padding        |
//! +--------------------+-----------------+----------------+----------------+
//! ```
//!
//! The flags are at byte 6, the TTL at 8, the protocol at 9, the checksum at 10, the source at 12,
//! the destination at 16, options from 20 on. A UDP packet from 192.168.1.10 to 198.51.100.7:
//!
//! ```text
//! 45         00 001e     0001   0000  40     11  8ee1     c0a8010a     c6336407
//! 4, 5 words -- 30 bytes number flags TTL 64 UDP checksum 192.168.1.10 198.51.100.7
//! ```
ghost use Rattle.std.specs.Prelude.{◌≡◌, ◌≤◌, ◌+◌, ◌↔◌, length, ◌∷◌, [], IsOk, IfOk, IfErr, None, Some, List, ℕ};
ghost use Rattle.std.specs.Result.{result_err};
ghost use Rattle.byteorder.specs.Endian.{big_bytes};
ghost use Rattle.addresses.specs.Transport.{protocol_numbered};
ghost use Rattle.frames.specs.Bytes.{Puts};
ghost use Rattle.ipv4.specs.Header.{header_of, options_of, payload_of, IsIpv4, is_fragment, is_unbroken, ipv4_refusal};
ghost use Rattle.ipv4.specs.Options.{has_source_route};
ghost use Rattle.ipv4.specs.declared.header.TheConstants.{DONT_FRAGMENT, MORE_FRAGMENTS};
ghost use Rattle.ipv4.specs.declared.header.field.TheConstants.{FIXED};

use crate::Ipv4Fault;
use crate::options::has_source_route;
use addresses::{Ip, Protocol};
use byteorder::{BigEndian, ByteOrder};
use frames::Refused;
use sums::is_right;

/// The places of the header's fields.
mod field {
    use std::ops::Range;

    /// The version in the high half, the header's length in 4-byte words in the low one.
    pub const VERSION_AND_LENGTH: usize = 0;

    pub const TYPE_OF_SERVICE: usize = 1;

    pub const TOTAL_LENGTH: Range<usize> = 2..4;

    pub const IDENTIFICATION: Range<usize> = 4..6;
    /// The flags in the high 3 bits, the fragment's offset in the low 13.
    pub const FRAGMENT: Range<usize> = 6..8;

    pub const TTL: usize = 8;

    pub const PROTOCOL: usize = 9;

    pub const CHECKSUM: Range<usize> = 10..12;

    pub const SOURCE: Range<usize> = 12..16;

    pub const DESTINATION: Range<usize> = 16..20;
    /// The bytes of a header without options.
    pub const FIXED: usize = 20;
}

/// The flag Don't Fragment.
const DONT_FRAGMENT: u16 = 0x4000;

/// The flag More Fragments. The bits below it are a fragment's offset.
const MORE_FRAGMENTS: u16 = 0x2000;

/// A reading view of an IPv4 packet in borrowed bytes. Bytes after the packet's total length are
/// padding.
#[derive(Clone, Copy)]
pub struct Ipv4View<'a> {
    pub bytes: &'a [u8],
    ghost right: { IsIpv4 bytes.now },
}

impl<'a> Ipv4View<'a> {
    /// Returns a view of the packet at the beginning of these bytes, or the first fault in the
    /// order of [`Ipv4Fault`]. Of a transport's header nothing is tested.
    pub fn parse(bytes: &'a [u8]) -> Result<Ipv4View<'a>, Ipv4Fault>
        ensures refusal { result_err result ≡ ipv4_refusal bytes.now }
        ensures ok { IsOk result ↔ IsIpv4 bytes.now }
        ensures bytes { IfOk result (λ v. v.bytes.now ≡ bytes.now) }
    {
        if bytes.len() < field::FIXED {
            return Err(Ipv4Fault::TooShort);
        }
        let header_length = header_length(bytes);
        if version(bytes) != 4 || header_length < field::FIXED {
            return Err(Ipv4Fault::BadVersion);
        }
        let total_length = total_length(bytes);
        if total_length < header_length || bytes.len() < total_length {
            return Err(Ipv4Fault::BadLength);
        }
        if !is_right(&bytes[..header_length]) {
            return Err(Ipv4Fault::BadHeaderSum);
        }
        if source_route(bytes, header_length) {
            return Err(Ipv4Fault::SourceRoute);
        }
        if fragment(bytes) {
            return Err(Ipv4Fault::Fragment);
        }
        Ok(Ipv4View { bytes })
    }

    /// Returns the bytes of the header, 20 to 60.
    pub fn header_length(&self) -> usize
        ensures value { result ≡ (header_of self.now.bytes.now).header_length }
        ensures low { 20 ≤ result }
        ensures high { result ≤ length self.now.bytes.now }
    {
        header_length(self.bytes)
    }

    pub fn type_of_service(&self) -> u8
        ensures { result ≡ (header_of self.now.bytes.now).type_of_service }
    {
        type_of_service(self.bytes)
    }

    /// Returns the bytes of header and payload, as they stand in the header.
    #[inline(always)]
    pub(crate) fn total(&self) -> u16
        ensures { result ≡ (header_of self.now.bytes.now).total_length }
    {
        BigEndian::read_u16(&self.bytes[field::TOTAL_LENGTH])
    }

    /// Returns the bytes of header and payload.
    pub fn total_length(&self) -> usize
        ensures value { result ≡ (header_of self.now.bytes.now).total_length }
        ensures low { (header_of self.now.bytes.now).header_length ≤ result }
        ensures high { result ≤ length self.now.bytes.now }
    {
        total_length(self.bytes)
    }

    /// Returns the bytes of the payload and of a header without options.
    pub fn length_without_options(&self) -> u16
        ensures { result ≡ FIXED + length (payload_of self.now.bytes.now) }
    {
        let options = self.header_length() - field::FIXED;
        self.total() - options as u16
    }

    pub fn identification(&self) -> u16
        ensures { result ≡ (header_of self.now.bytes.now).identification }
    {
        identification(self.bytes)
    }

    /// Returns the flags in the high 3 bits, the fragment's offset in the low 13.
    pub fn flags_word(&self) -> u16
        ensures { result ≡ (header_of self.now.bytes.now).flags_word }
    {
        flags_word(self.bytes)
    }

    /// Whether the packet has the flag Don't Fragment.
    #[tactic(auto, unfolding(crate::specs::Header::is_unbroken))]
    #[inline(always)]
    pub fn is_unbroken(&self) -> bool
        ensures { result ≡ is_unbroken self.now.bytes.now }
    {
        flags_word(self.bytes) / DONT_FRAGMENT % 2 == 1
    }

    pub fn ttl(&self) -> u8
        ensures { result ≡ (header_of self.now.bytes.now).ttl }
    {
        ttl(self.bytes)
    }

    /// Returns the number of the protocol that the packet carries (RFC 790).
    pub fn protocol(&self) -> u8
        ensures { result ≡ (header_of self.now.bytes.now).protocol }
    {
        protocol(self.bytes)
    }

    /// Returns the protocol that the packet carries, or None where it isn't translated.
    pub fn transport(&self) -> Option<Protocol>
        ensures { result ≡ protocol_numbered (header_of self.now.bytes.now).protocol }
    {
        Protocol::from_number(self.protocol())
    }

    pub fn checksum(&self) -> u16
        ensures { result ≡ (header_of self.now.bytes.now).checksum }
    {
        checksum(self.bytes)
    }

    pub fn source(&self) -> Ip
        ensures { result.0 ≡ (header_of self.now.bytes.now).source }
    {
        source(self.bytes)
    }

    pub fn destination(&self) -> Ip
        ensures { result.0 ≡ (header_of self.now.bytes.now).destination }
    {
        destination(self.bytes)
    }

    pub fn options(&self) -> &'a [u8]
        ensures { result.now ≡ options_of self.now.bytes.now }
    {
        &self.bytes[field::FIXED..self.header_length()]
    }

    /// Returns what the packet carries, without padding.
    pub fn payload(&self) -> &'a [u8]
        ensures { result.now ≡ payload_of self.now.bytes.now }
    {
        &self.bytes[self.header_length()..self.total_length()]
    }
}

fn version(bytes: &[u8]) -> u8
    requires { 20 ≤ length bytes.now }
    ensures { result ≡ (header_of bytes.now).version }
{
    bytes[field::VERSION_AND_LENGTH] / 16
}

fn header_length(bytes: &[u8]) -> usize
    requires { 20 ≤ length bytes.now }
    ensures { result ≡ (header_of bytes.now).header_length }
{
    4 * usize::from(bytes[field::VERSION_AND_LENGTH] % 16)
}

fn total_length(bytes: &[u8]) -> usize
    requires { 20 ≤ length bytes.now }
    ensures { result ≡ (header_of bytes.now).total_length }
{
    usize::from(BigEndian::read_u16(&bytes[field::TOTAL_LENGTH]))
}

fn type_of_service(bytes: &[u8]) -> u8
    requires { 20 ≤ length bytes.now }
    ensures { result ≡ (header_of bytes.now).type_of_service }
{
    bytes[field::TYPE_OF_SERVICE]
}

fn identification(bytes: &[u8]) -> u16
    requires { 20 ≤ length bytes.now }
    ensures { result ≡ (header_of bytes.now).identification }
{
    BigEndian::read_u16(&bytes[field::IDENTIFICATION])
}

fn flags_word(bytes: &[u8]) -> u16
    requires { 20 ≤ length bytes.now }
    ensures { result ≡ (header_of bytes.now).flags_word }
{
    BigEndian::read_u16(&bytes[field::FRAGMENT])
}

fn ttl(bytes: &[u8]) -> u8
    requires { 20 ≤ length bytes.now }
    ensures { result ≡ (header_of bytes.now).ttl }
{
    bytes[field::TTL]
}

fn protocol(bytes: &[u8]) -> u8
    requires { 20 ≤ length bytes.now }
    ensures { result ≡ (header_of bytes.now).protocol }
{
    bytes[field::PROTOCOL]
}

fn checksum(bytes: &[u8]) -> u16
    requires { 20 ≤ length bytes.now }
    ensures { result ≡ (header_of bytes.now).checksum }
{
    BigEndian::read_u16(&bytes[field::CHECKSUM])
}

fn source(bytes: &[u8]) -> Ip
    requires { 20 ≤ length bytes.now }
    ensures { result.0 ≡ (header_of bytes.now).source }
{
    Ip(BigEndian::read_u32(&bytes[field::SOURCE]))
}

fn destination(bytes: &[u8]) -> Ip
    requires { 20 ≤ length bytes.now }
    ensures { result.0 ≡ (header_of bytes.now).destination }
{
    Ip(BigEndian::read_u32(&bytes[field::DESTINATION]))
}

/// Whether one of the options is a source route. A header without options is told by its length.
#[inline(always)]
fn source_route(bytes: &[u8], header_length: usize) -> bool
    requires long { 20 ≤ length bytes.now }
    requires header { header_length ≡ (header_of bytes.now).header_length }
    requires low { 20 ≤ header_length }
    requires high { header_length ≤ length bytes.now }
    ensures { result ≡ has_source_route (options_of bytes.now) }
{
    header_length > field::FIXED && has_source_route(&bytes[field::FIXED..header_length])
}

fn fragment(bytes: &[u8]) -> bool
    requires { 20 ≤ length bytes.now }
    ensures { result ≡ is_fragment (header_of bytes.now) }
{
    let word = flags_word(bytes);
    word / MORE_FRAGMENTS % 2 != 0 || word % MORE_FRAGMENTS != 0
}

/// The bytes that [`Ipv4View::parse`] accepts are exactly those of the grammar `IsIpv4`. The
/// numbers that the definitions take from the code are the RFC's.
pub fn ipv4_grammar()
    ensures grammar { (bytes : List ℕ) → (ipv4_refusal bytes ≡ None) ↔ IsIpv4 bytes }
    ensures fixed { FIXED ≡ 20 }
    ensures dont_fragment { DONT_FRAGMENT ≡ 16384 }
    ensures more_fragments { MORE_FRAGMENTS ≡ 8192 }
{}

/// A writing view of an IPv4 header in borrowed bytes.
#[derive(Drop)]
pub struct Ipv4ViewMut<'a> {
    pub bytes: &'a mut [u8],
    ghost long: { 20 ≤ length bytes.now },
}

impl<'a> Ipv4ViewMut<'a> {
    /// Returns a writing view of a packet, or refuses bytes as [`Ipv4View::parse`] does and gives
    /// them back as they were. A caller that needs to know the bytes after the loan tests them with
    /// [`Ipv4View::parse`] and calls [`Ipv4ViewMut::new`].
    pub fn parse(bytes: &'a mut [u8]) -> Result<Ipv4ViewMut<'a>, Refused<'a, Ipv4Fault>>
        ensures ok { IsOk result ↔ IsIpv4 bytes.old }
        ensures fault { IfErr result (λ r. Some r.fault ≡ ipv4_refusal bytes.old) }
        ensures bytes { IfOk result (λ v. v.bytes.now ≡ bytes.old) }
        ensures same_reference { IfOk result (λ v. v.bytes.ghost_name ≡ bytes.entry.ghost_name) }
        ensures err { IfErr result (λ r. r.bytes.now ≡ bytes.old) }
        ensures err_reference { IfErr result (λ r. r.bytes.ghost_name ≡ bytes.entry.ghost_name) }
    {
        match Ipv4View::parse(bytes) {
            Ok(_) => Ok(Ipv4ViewMut { bytes }),
            Err(fault) => Err(Refused { fault, bytes }),
        }
    }

    /// Returns a writing view of bytes that begin with an IPv4 header, without a test.
    pub fn new(bytes: &'a mut [u8]) -> Ipv4ViewMut<'a>
        requires { 20 ≤ length bytes.old }
        ensures bytes { result.bytes.now ≡ bytes.old }
        ensures same_reference { result.bytes.ghost_name ≡ bytes.entry.ghost_name }
    {
        Ipv4ViewMut { bytes }
    }

    /// Returns the bytes of the header, as the header says.
    pub fn header_length(&self) -> usize
        ensures { result ≡ (header_of self.now.bytes.now).header_length }
    {
        header_length(self.bytes)
    }

    pub fn type_of_service(&self) -> u8
        ensures { result ≡ (header_of self.now.bytes.now).type_of_service }
    {
        type_of_service(self.bytes)
    }

    /// Returns the bytes of header and payload, as the header says.
    pub fn total_length(&self) -> usize
        ensures { result ≡ (header_of self.now.bytes.now).total_length }
    {
        total_length(self.bytes)
    }

    pub fn identification(&self) -> u16
        ensures { result ≡ (header_of self.now.bytes.now).identification }
    {
        identification(self.bytes)
    }

    /// Returns the flags in the high 3 bits, the fragment's offset in the low 13.
    pub fn flags_word(&self) -> u16
        ensures { result ≡ (header_of self.now.bytes.now).flags_word }
    {
        flags_word(self.bytes)
    }

    pub fn ttl(&self) -> u8
        ensures { result ≡ (header_of self.now.bytes.now).ttl }
    {
        ttl(self.bytes)
    }

    /// Returns the number of the protocol that the packet carries (RFC 790).
    pub fn protocol(&self) -> u8
        ensures { result ≡ (header_of self.now.bytes.now).protocol }
    {
        protocol(self.bytes)
    }

    pub fn checksum(&self) -> u16
        ensures { result ≡ (header_of self.now.bytes.now).checksum }
    {
        checksum(self.bytes)
    }

    pub fn source(&self) -> Ip
        ensures { result.0 ≡ (header_of self.now.bytes.now).source }
    {
        source(self.bytes)
    }

    pub fn destination(&self) -> Ip
        ensures { result.0 ≡ (header_of self.now.bytes.now).destination }
    {
        destination(self.bytes)
    }

    pub fn set_ttl(&mut self, ttl: u8)
        ensures written { Puts 8 (ttl ∷ []) self.old.bytes.now self.new.bytes.now }
        ensures header { header_of self.new.bytes.now
            ≡ record (header_of self.old.bytes.now) { ttl = ttl } }
        ensures same_reference { self.new.bytes.ghost_name ≡ self.old.bytes.ghost_name }
    {
        self.bytes[field::TTL] = ttl;
    }

    pub fn set_checksum(&mut self, checksum: u16)
        ensures written { Puts 10 (big_bytes 2 checksum) self.old.bytes.now self.new.bytes.now }
        ensures header { header_of self.new.bytes.now
            ≡ record (header_of self.old.bytes.now) { checksum = checksum } }
        ensures same_reference { self.new.bytes.ghost_name ≡ self.old.bytes.ghost_name }
    {
        BigEndian::write_u16(&mut self.bytes[field::CHECKSUM], checksum);
    }

    pub fn set_source(&mut self, source: Ip)
        ensures written { Puts 12 (big_bytes 4 source.0) self.old.bytes.now self.new.bytes.now }
        ensures header { header_of self.new.bytes.now
            ≡ record (header_of self.old.bytes.now) { source = source.0 } }
        ensures same_reference { self.new.bytes.ghost_name ≡ self.old.bytes.ghost_name }
    {
        BigEndian::write_u32(&mut self.bytes[field::SOURCE], source.0);
    }

    pub fn set_destination(&mut self, destination: Ip)
        ensures written { Puts 16 (big_bytes 4 destination.0)
            self.old.bytes.now self.new.bytes.now }
        ensures header { header_of self.new.bytes.now
            ≡ record (header_of self.old.bytes.now) { destination = destination.0 } }
        ensures same_reference { self.new.bytes.ghost_name ≡ self.old.bytes.ghost_name }
    {
        BigEndian::write_u32(&mut self.bytes[field::DESTINATION], destination.0);
    }
}
