//! A reading view of a fragment: whose it is, and which bytes of its datagram's payload it carries.
//!
//! The packet of the second and last of two fragments, which carries 8 bytes from byte 16 on:
//!
//! ```text
//! 45         00 001c     0014      0002               40     11  8ece     c0a8010a     c6336407     7320696e2074776f
//! 4, 5 words -- 28 bytes number 20 no flags, 2 x 8    TTL 64 UDP checksum 192.168.1.10 198.51.100.7 8 bytes
//! ```
ghost use Rattle.std.specs.Prelude.{◌≡◌, ◌≤◌, ◌+◌, ◌↔◌, IsTrue, Some, length, take, if◌then◌else◌};
ghost use Rattle.ipv4.specs.Header.{header_of, ipv4_refusal, options_of};
ghost use Rattle.ipv4.specs.declared.faults.Ipv4Fault.TheVariants.{Fragment};
ghost use Rattle.fragments.specs.Fragment.{IsFragment, HasHeader, ipv4_in, trimmed, carried, first_of, more_of, end_of};
ghost use Rattle.fragments.specs.Fragment.{starts, is_last, is_broken, is_same, contradicts};
ghost use Rattle.fragments.specs.Name.{name_of};
ghost use Rattle.fragments.specs.Whole.{is_marked};

use crate::Name;
use addresses::Ip;
use byteorder::{BigEndian, ByteOrder};
use frames::EthView;
use ipv4::{Ipv4Fault, Ipv4View};

/// The places of the fields of an IPv4 header (RFC 791, section 3.1).
mod field {
    use std::ops::Range;

    /// The version in the high 4 bits, the words of the header in the low 4.
    pub const VERSION_AND_LENGTH: usize = 0;

    pub const TYPE_OF_SERVICE: usize = 1;

    pub const TOTAL_LENGTH: Range<usize> = 2..4;

    pub const IDENTIFICATION: Range<usize> = 4..6;
    /// The flags in the high 3 bits, the offset in the low 13.
    pub const FRAGMENT: Range<usize> = 6..8;

    pub const PROTOCOL: usize = 9;

    pub const SOURCE: Range<usize> = 12..16;

    pub const DESTINATION: Range<usize> = 16..20;
    /// The bytes of a header without options.
    pub const FIXED: usize = 20;
}

/// The flag More Fragments, above the 13 bits of the offset.
const MORE_FRAGMENTS: u16 = 0x2000;

/// The bytes of an Ethernet header.
const ETHERNET: usize = 14;

fn is_part(packet: &[u8]) -> bool
    ensures { IsTrue result ↔ (ipv4_refusal packet.now ≡ Some Fragment) }
{
    match Ipv4View::parse(packet) {
        Err(Ipv4Fault::Fragment) => true,
        Ok(_) | Err(_) => false,
    }
}

/// Whether a frame carries a fragment whose header is right, and has no source route.
pub fn is_fragment(frame: &[u8]) -> bool
    ensures { IsTrue result ↔ IsFragment frame.now }
{
    match EthView::parse(frame) {
        Ok(view) => is_part(view.body()),
        Err(_) => false,
    }
}

/// A reading view of a fragment in a borrowed frame.
#[derive(Clone, Copy)]
pub(crate) struct FragmentView<'a> {
    pub(crate) frame: &'a [u8],
    ghost fragment: { IsFragment frame.now },
}

impl<'a> FragmentView<'a> {
    /// Returns a view of a frame that carries a fragment, without a test.
    pub(crate) fn new(frame: &'a [u8]) -> FragmentView<'a>
        requires { IsFragment frame.now }
        ensures { result.frame.now ≡ frame.now }
    {
        FragmentView { frame }
    }

    /// Returns a view of the frame without its padding.
    pub(crate) fn trimmed(&self) -> FragmentView<'a>
        ensures { result.frame.now ≡ trimmed self.now.frame.now }
    {
        FragmentView {
            frame: &self.frame[..ETHERNET + self.total_length()],
        }
    }

    /// Returns the fragment, with the padding behind it.
    pub(crate) fn packet(&self) -> &'a [u8]
        ensures bytes { result.now ≡ ipv4_in self.now.frame.now }
        ensures header { HasHeader result.now }
    {
        EthView { bytes: self.frame }.body()
    }

    /// Returns the Ethernet header.
    pub(crate) fn ethernet(&self) -> &'a [u8]
        ensures bytes { result.now ≡ take 14 self.now.frame.now }
        ensures fourteen { length result.now ≡ 14 }
    {
        &self.frame[..ETHERNET]
    }

    fn total_length(&self) -> usize
        ensures value { result ≡ (header_of (ipv4_in self.now.frame.now)).total_length }
        ensures most { result ≤ 65535 }
        ensures high { 14 + result ≤ length self.now.frame.now }
    {
        usize::from(BigEndian::read_u16(&self.packet()[field::TOTAL_LENGTH]))
    }

    /// Returns the bytes of the header, 20 to 60.
    pub(crate) fn header_length(&self) -> usize
        ensures value { result ≡ (header_of (ipv4_in self.now.frame.now)).header_length }
        ensures most { result ≤ 60 }
        ensures high { result ≤ (header_of (ipv4_in self.now.frame.now)).total_length }
    {
        4 * usize::from(self.packet()[field::VERSION_AND_LENGTH] % 16)
    }

    pub(crate) fn type_of_service(&self) -> u8
        ensures { result ≡ (header_of (ipv4_in self.now.frame.now)).type_of_service }
    {
        self.packet()[field::TYPE_OF_SERVICE]
    }

    pub(crate) fn identification(&self) -> u16
        ensures { result ≡ (header_of (ipv4_in self.now.frame.now)).identification }
    {
        BigEndian::read_u16(&self.packet()[field::IDENTIFICATION])
    }

    /// Returns the flags in the high 3 bits, the offset in the low 13.
    pub(crate) fn flags_word(&self) -> u16
        ensures { result ≡ (header_of (ipv4_in self.now.frame.now)).flags_word }
    {
        BigEndian::read_u16(&self.packet()[field::FRAGMENT])
    }

    pub(crate) fn options(&self) -> &'a [u8]
        ensures bytes { result.now ≡ options_of (ipv4_in self.now.frame.now) }
        ensures size { 20 + length result.now
            ≡ (header_of (ipv4_in self.now.frame.now)).header_length }
    {
        &self.packet()[field::FIXED..self.header_length()]
    }

    /// Returns what the fragments of the datagram have in common.
    #[tactic(auto, unfolding(crate::specs::Name::name_of))]
    pub(crate) fn name(&self) -> Name
        ensures { result ≡ name_of self.now.frame.now }
    {
        let packet = self.packet();
        Name {
            to: EthView { bytes: self.frame }.dst(),
            source: Ip(BigEndian::read_u32(&packet[field::SOURCE])),
            destination: Ip(BigEndian::read_u32(&packet[field::DESTINATION])),
            protocol: packet[field::PROTOCOL],
            identification: BigEndian::read_u16(&packet[field::IDENTIFICATION]),
        }
    }

    /// Returns the bytes that the fragment carries.
    #[tactic(auto, unfolding(crate::specs::Fragment::carried))]
    pub(crate) fn carried(&self) -> &'a [u8]
        ensures bytes { result.now ≡ carried self.now.frame.now }
        ensures most { length result.now ≤ 65535 }
    {
        let header_length = self.header_length();
        &self.packet()[header_length..self.total_length()]
    }

    /// Returns the place of the first of them in the datagram's payload.
    #[tactic(auto, unfolding(crate::specs::Fragment::first_of))]
    pub(crate) fn first(&self) -> usize
        ensures value { result ≡ first_of self.now.frame.now }
        ensures most { result ≤ 65528 }
    {
        8 * usize::from(self.flags_word() % MORE_FRAGMENTS)
    }

    /// Returns the place behind the last of them.
    pub(crate) fn end(&self) -> usize
        ensures value { result ≡ end_of self.now.frame.now }
        ensures most { result ≤ 131063 }
    {
        self.first() + self.carried().len()
    }

    /// Returns the flag More Fragments, 0 or 1.
    #[tactic(auto, unfolding(crate::specs::Fragment::more_of))]
    fn more(&self) -> u16
        ensures { result ≡ more_of self.now.frame.now }
    {
        self.flags_word() / MORE_FRAGMENTS % 2
    }

    /// Whether this is the fragment with offset 0.
    pub(crate) fn starts(&self) -> bool
        ensures { result ≡ starts self.now.frame.now }
    {
        self.first() == 0
    }

    /// Whether no fragment follows.
    pub(crate) fn is_last(&self) -> bool
        ensures { result ≡ is_last self.now.frame.now }
    {
        self.more() == 0
    }

    /// Returns the place behind the last byte where no fragment follows, else 0.
    pub(crate) fn end_if_last(&self) -> usize
        ensures value { result
            ≡ (if is_last self.now.frame.now then end_of self.now.frame.now else 0) }
        ensures most { result ≤ 131063 }
    {
        if self.is_last() { self.end() } else { 0 }
    }

    /// Returns the bytes of the header of the fragment with offset 0, and 0 of any other.
    pub(crate) fn header_length_if_first(&self) -> usize
        ensures value { result ≡ (if starts self.now.frame.now
            then (header_of (ipv4_in self.now.frame.now)).header_length else 0) }
        ensures most { result ≤ 60 }
    {
        if self.starts() {
            self.header_length()
        } else {
            0
        }
    }

    /// Whether the fragment carries nothing, or isn't the last and carries no multiple of 8 bytes.
    #[tactic(auto, unfolding(crate::specs::Fragment::is_broken))]
    pub(crate) fn is_broken(&self) -> bool
        ensures { result ≡ is_broken self.now.frame.now }
    {
        let count = self.carried().len();
        count == 0 || (!self.is_last() && count % 8 != 0)
    }

    /// Whether the fragment met congestion.
    #[tactic(auto, unfolding(crate::specs::Whole::is_marked))]
    pub(crate) fn is_marked(&self) -> bool
        ensures { result ≡ is_marked self.now.frame.now }
    {
        self.type_of_service() % 4 == 3
    }

    /// Whether both are the same fragment, whatever else their headers say.
    #[tactic(auto, unfolding(crate::specs::Fragment::is_same))]
    pub(crate) fn is_same(&self, other: &FragmentView<'_>) -> bool
        ensures { result ≡ is_same self.now.frame.now other.now.frame.now }
    {
        self.first() == other.first()
            && self.more() == other.more()
            && self.carried() == other.carried()
    }

    /// Whether the two can't be of one datagram.
    #[tactic(auto, unfolding(crate::specs::Fragment::contradicts))]
    pub(crate) fn contradicts(&self, other: &FragmentView<'_>) -> bool
        ensures { result ≡ contradicts self.now.frame.now other.now.frame.now }
    {
        let (first, end) = (self.first(), self.end());
        let (other_first, other_end) = (other.first(), other.end());
        (first < other_end && other_first < end)
            || (other.is_last() && other_end < end)
            || (self.is_last() && end < other_end)
    }
}
