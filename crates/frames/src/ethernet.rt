//! Ethernet frames (IEEE 802.3, without the check sequence): 14 bytes of header, and a body.
//!
//! ```text
//!  0       6       12          14
//! +-------+-------+-----------+--------+
//! | to    | from  | EtherType | body   |
//! +-------+-------+-----------+--------+
//! ```
//!
//! A host's packet on its way to virtual router 11:
//!
//! ```text
//! 00005e00010b 02000000000a 0800 4500..
//! to           from         IPv4 the body
//! ```
ghost use Rattle.std.specs.Prelude.{◌≡◌, ◌++◌, ◌↔◌, length, take, drop, IsOk, IfOk, IfErr};
ghost use Rattle.byteorder.specs.Endian.{big_bytes};
ghost use Rattle.std.specs.Borrow.{sem};
ghost use Rattle.frames.specs.declared.ethernet.TheConstants.{LONGEST, LONGEST_WHOLE};
ghost use Rattle.frames.specs.Bytes.{Puts};
ghost use Rattle.frames.specs.Frame.{IsFrame, frame_of, header_bytes};
ghost use Rattle.frames.specs.Lending.{LendsParts};

use crate::Refused;
use addresses::Mac;
use byteorder::{BigEndian, ByteOrder};
use thiserror::Error;

/// The bytes of the longest frame on a wire: its header and a body of 1,500 bytes.
pub const LONGEST: usize = 1514;

/// The bytes of the longest frame that can be handled: its header and the longest IPv4 packet, of 65,535 bytes.
pub const LONGEST_WHOLE: usize = 65_549;

/// The places of the header's fields.
mod field {
    use std::ops::Range;

    pub const DESTINATION: Range<usize> = 0..6;

    pub const SOURCE: Range<usize> = 6..12;

    pub const ETHERTYPE: Range<usize> = 12..14;
    /// The bytes of a header.
    pub const HEADER: usize = 14;
}

/// The number of the protocol that a frame carries.
#[derive(Clone, Copy, Debug, PartialEq, Eq)]
pub struct EtherType(pub u16);

impl EtherType {
    pub const IPV4: EtherType = EtherType(0x0800);

    pub const ARP: EtherType = EtherType(0x0806);
}

/// Returns the EtherTypes of IPv4 and of ARP. The clauses say the numbers that IEEE 802 and RFC 791
/// give: the bytes of the longest frame on a wire and of the longest that can be handled, and the two
/// EtherTypes.
pub fn numbers_law() -> (EtherType, EtherType)
    ensures longest { LONGEST ≡ 1514 }
    ensures longest_whole { LONGEST_WHOLE ≡ 65549 }
    ensures ethertypes { result.0.0 ≡ 0x0800 × result.1.0 ≡ 0x0806 }
{
    (EtherType::IPV4, EtherType::ARP)
}

/// Why bytes are no frame.
#[derive(Clone, Copy, Debug, PartialEq, Eq, Error)]
pub enum FrameFault {
    /// The bytes are fewer than the 14 of a header.
    #[error("the frame is too short")]
    TooShort,
}

/// A reading view of an Ethernet frame in borrowed bytes: to whom (6 bytes), from whom (6), what it
/// carries (2, as `08 00`), and its body.
#[derive(Clone, Copy)]
pub struct EthView<'a> {
    pub bytes: &'a [u8],
    ghost whole: { IsFrame bytes.now },
}

impl<'a> EthView<'a> {
    /// Returns a view of the frame, or TooShort where the bytes are fewer than the 14 of a header.
    pub fn parse(bytes: &'a [u8]) -> Result<EthView<'a>, FrameFault>
        ensures ok { IsOk result ↔ IsFrame bytes.now }
        ensures bytes { IfOk result (λ v. v.bytes.now ≡ bytes.now) }
    {
        if bytes.len() < field::HEADER {
            return Err(FrameFault::TooShort);
        }
        Ok(EthView { bytes })
    }

    pub fn dst(&self) -> Mac
        ensures { result.0 ≡ (frame_of self.now.bytes.now).dst }
    {
        mac_at(&self.bytes[field::DESTINATION])
    }

    pub fn src(&self) -> Mac
        ensures { result.0 ≡ (frame_of self.now.bytes.now).src }
    {
        mac_at(&self.bytes[field::SOURCE])
    }

    pub fn ethertype(&self) -> EtherType
        ensures { result.0 ≡ (frame_of self.now.bytes.now).ethertype }
    {
        EtherType(BigEndian::read_u16(&self.bytes[field::ETHERTYPE]))
    }

    /// Returns what follows the header, padding included.
    pub fn body(&self) -> &'a [u8]
        ensures { result.now ≡ (frame_of self.now.bytes.now).body }
    {
        &self.bytes[field::HEADER..]
    }
}

fn mac_at(bytes: &[u8]) -> Mac
    requires { length bytes.now ≡ 6 }
    ensures { result.0 ≡ bytes.now }
{
    let mut octets = [0; 6];
    octets.copy_from_slice(bytes);
    Mac(octets)
}

/// A writing view of an Ethernet frame in borrowed bytes.
#[derive(Drop)]
pub struct EthViewMut<'a> {
    pub bytes: &'a mut [u8],
    ghost whole: { IsFrame bytes.now },
}

impl<'a> EthViewMut<'a> {
    /// Returns a writing view of a frame, or refuses bytes that are fewer than a header and gives
    /// them back as they were. A caller that needs to know the bytes after the loan tests them with
    /// [`EthView::parse`] and calls [`EthViewMut::new`].
    pub fn parse(bytes: &'a mut [u8]) -> Result<EthViewMut<'a>, Refused<'a, FrameFault>>
        ensures ok { IsOk result ↔ IsFrame bytes.old }
        ensures bytes { IfOk result (λ v. v.bytes.now ≡ bytes.old) }
        ensures same_reference { IfOk result (λ v. v.bytes.ghost_name ≡ bytes.entry.ghost_name) }
        ensures err { IfErr result (λ r. r.bytes.now ≡ bytes.old) }
        ensures err_reference { IfErr result (λ r. r.bytes.ghost_name ≡ bytes.entry.ghost_name) }
    {
        match EthView::parse(bytes) {
            Ok(_) => Ok(EthViewMut { bytes }),
            Err(fault) => Err(Refused { fault, bytes }),
        }
    }

    /// Returns a writing view of bytes that begin with a whole header, without a test.
    pub fn new(bytes: &'a mut [u8]) -> EthViewMut<'a>
        requires { IsFrame bytes.old }
        ensures bytes { result.bytes.now ≡ bytes.old }
        ensures same_reference { result.bytes.ghost_name ≡ bytes.entry.ghost_name }
    {
        EthViewMut { bytes }
    }

    /// Returns a reading view of the same frame.
    pub fn view(&self) -> EthView<'_>
        ensures { result.bytes.now ≡ self.now.bytes.now }
    {
        EthView { bytes: self.bytes }
    }

    pub fn dst(&self) -> Mac
        ensures { result.0 ≡ (frame_of self.now.bytes.now).dst }
    {
        self.view().dst()
    }

    pub fn src(&self) -> Mac
        ensures { result.0 ≡ (frame_of self.now.bytes.now).src }
    {
        self.view().src()
    }

    pub fn ethertype(&self) -> EtherType
        ensures { result.0 ≡ (frame_of self.now.bytes.now).ethertype }
    {
        self.view().ethertype()
    }

    pub fn set_dst(&mut self, dst: Mac)
        ensures written { Puts 0 dst.0 self.old.bytes.now self.new.bytes.now }
        ensures frame { frame_of self.new.bytes.now
            ≡ record (frame_of self.old.bytes.now) { dst = dst.0 } }
        ensures same_reference { self.new.bytes.ghost_name ≡ self.old.bytes.ghost_name }
    {
        self.bytes[field::DESTINATION].copy_from_slice(&dst.0);
    }

    pub fn set_src(&mut self, src: Mac)
        ensures written { Puts 6 src.0 self.old.bytes.now self.new.bytes.now }
        ensures frame { frame_of self.new.bytes.now
            ≡ record (frame_of self.old.bytes.now) { src = src.0 } }
        ensures same_reference { self.new.bytes.ghost_name ≡ self.old.bytes.ghost_name }
    {
        self.bytes[field::SOURCE].copy_from_slice(&src.0);
    }

    pub fn set_ethertype(&mut self, ethertype: EtherType)
        ensures written { Puts 12 (big_bytes 2 ethertype.0) self.old.bytes.now self.new.bytes.now }
        ensures frame { frame_of self.new.bytes.now
            ≡ record (frame_of self.old.bytes.now) { ethertype = ethertype.0 } }
        ensures same_reference { self.new.bytes.ghost_name ≡ self.old.bytes.ghost_name }
    {
        BigEndian::write_u16(&mut self.bytes[field::ETHERTYPE], ethertype.0);
    }
}

/// Returns a frame's header and its body, both to be written.
pub fn split_mut(bytes: &mut [u8]) -> (&mut [u8], &mut [u8])
    requires { IsFrame bytes.old }
    ensures* writes_back { sem 𝓛 (LendsParts bytes.entry result) }
    ensures header { result.0.now ≡ take 14 bytes.old }
    ensures body { result.1.now ≡ (frame_of bytes.old).body }
{
    bytes.split_at_mut(field::HEADER)
}

/// Writes a frame's header and leaves its body.
pub fn write_header(bytes: &mut [u8], dst: Mac, src: Mac, ethertype: EtherType)
    requires { IsFrame bytes.old }
    ensures written { bytes.new ≡ header_bytes dst.0 src.0 ethertype.0 ++ drop 14 bytes.old }
    ensures frame { frame_of bytes.new
        ≡ record { dst = dst.0; src = src.0; ethertype = ethertype.0; body = drop 14 bytes.old } }
{
    let mut view = EthViewMut::new(bytes);
    view.set_dst(dst);
    view.set_src(src);
    view.set_ethertype(ethertype);
}
