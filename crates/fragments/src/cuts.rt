//! The fragments in which a packet is sent that is too long for its exit (RFC 791, section 3.2).
//!
//! A packet of 1,420 bytes, 20 of them its header, cut for a `mtu` of 1,400: 1,376 is the greatest multiple of 8 for
//! which there is room behind the header.
//!
//! ```text
//!            total length  flags and offset   payload
//! packet     058c (1420)   0000               1400 bytes
//! fragment 0 0574 (1396)   2000 more, at 0    bytes 0 to 1375
//! fragment 1 002c (44)     00ac at 8 x 172    bytes 1376 to 1399
//! ```
ghost use Rattle.std.specs.Prelude.{◌≡◌, ◌≤◌, ◌<◌, ◌+◌, ◌*◌, ◌/◌, ◌++◌, ◌==◌, length, vec_len, vec_capacity, if◌then◌else◌};
ghost use Rattle.ipv4.specs.Header.{IsIpv4, header_of, payload_of};
ghost use Rattle.fragments.specs.Fragment.{ipv4_in};
ghost use Rattle.fragments.specs.Header.{header_with};
ghost use Rattle.fragments.specs.Cut.{IsIpv4Frame, IsMtu, is_last_piece, piece, piece_count, piece_fields};
ghost use Rattle.fragments.specs.Cut.{piece_options, piece_payload, piece_place, step_of};

use crate::appending::append_reserved;
use crate::headers::{Fields, summed};
use crate::options::later;
use frames::EthView;
use ipv4::Ipv4View;

/// The flag More Fragments, above the 13 bits of the offset.
const MORE_FRAGMENTS: u16 = 0x2000;

/// The bytes of an Ethernet header.
const ETHERNET: usize = 14;

/// A packet that is cut.
#[derive(Clone, Copy)]
struct Cut<'a> {
    packet: Ipv4View<'a>,
    /// The most bytes of IPv4 that are sent in one frame.
    mtu: u16,
    ghost limits: { IsMtu mtu },
    ghost short: { (header_of packet.bytes.now).total_length < 65536 },
}

impl<'a> Cut<'a> {
    fn of(packet: &'a [u8], mtu: u16) -> Cut<'a>
        requires packet { IsIpv4 packet.now }
        requires mtu { IsMtu mtu }
        ensures packet { result.packet.bytes.now ≡ packet.now }
        ensures mtu { result.mtu ≡ mtu }
    {
        Cut {
            packet: Ipv4View { bytes: packet },
            mtu,
        }
    }

    /// Returns the bytes of payload in each fragment but the last.
    #[tactic(auto, unfolding(crate::specs::Cut::step_of))]
    fn step(&self) -> usize
        ensures value { result ≡ step_of self.now.mtu self.now.packet.bytes.now }
        ensures least { 512 ≤ result }
        ensures most { result ≤ 1480 }
        ensures fits { (header_of self.now.packet.bytes.now).header_length + result
            ≤ self.now.mtu }
    {
        (usize::from(self.mtu) - self.packet.header_length()) / 8 * 8
    }

    #[tactic(auto, unfolding(crate::specs::Cut::piece_count))]
    fn count(&self) -> usize
        ensures value { result ≡ piece_count self.now.mtu self.now.packet.bytes.now }
        ensures most { result ≤ 128 }
    {
        let step = self.step();
        let over = self
            .packet
            .total_length()
            .saturating_sub(usize::from(self.mtu));
        (over + (step - 1)) / step + 1
    }

    /// Returns the place of the k-th fragment in the payload.
    fn place(&self, k: usize) -> usize
        requires { k < piece_count self.now.mtu self.now.packet.bytes.now }
        ensures value { result ≡ piece_place self.now.mtu self.now.packet.bytes.now k }
        ensures within { result ≤ length (payload_of self.now.packet.bytes.now) }
        ensures eighths { 8 * (result / 8) ≡ result }
    {
        k * self.step()
    }

    /// Whether the k-th fragment is the last one.
    #[tactic(auto, unfolding(crate::specs::Cut::is_last_piece))]
    fn is_last(&self, k: usize) -> bool
        requires { k < piece_count self.now.mtu self.now.packet.bytes.now }
        ensures { result ≡ is_last_piece self.now.mtu self.now.packet.bytes.now k }
    {
        self.packet.total_length().saturating_sub(self.place(k)) <= usize::from(self.mtu)
    }

    /// Returns the k-th fragment's share of the payload.
    #[tactic(auto, unfolding(crate::specs::Cut::piece_payload))]
    fn share(&self, k: usize) -> &'a [u8]
        requires { k < piece_count self.now.mtu self.now.packet.bytes.now }
        ensures bytes { result.now
            ≡ piece_payload self.now.mtu self.now.packet.bytes.now k }
        ensures fits { (header_of self.now.packet.bytes.now).header_length + length result.now
            ≤ self.now.mtu }
    {
        let place = self.place(k);
        let left = &self.packet.payload()[place..];
        if self.is_last(k) {
            left
        } else {
            &left[..self.step()]
        }
    }

    /// Returns the flag More Fragments where the k-th fragment isn't the last one.
    fn more(&self, k: usize) -> u16
        requires { k < piece_count self.now.mtu self.now.packet.bytes.now }
        ensures { result
            ≡ (if is_last_piece self.now.mtu self.now.packet.bytes.now k then 0 else 0x2000) }
    {
        if self.is_last(k) { 0 } else { MORE_FRAGMENTS }
    }

    /// Returns the fields of the k-th fragment's header.
    #[tactic(auto, unfolding(crate::specs::Cut::piece_fields))]
    fn fields(&self, identification: u16, k: usize) -> Fields
        requires { k < piece_count self.now.mtu self.now.packet.bytes.now }
        ensures { result
            ≡ piece_fields self.now.mtu identification self.now.packet.bytes.now k }
    {
        let total = self.packet.header_length() + self.share(k).len();
        let offset = self.place(k) / 8;
        Fields {
            service: self.packet.type_of_service(),
            total: total as u16,
            identification,
            flags: self.packet.flags_word() + self.more(k) + offset as u16,
        }
    }
}

/// Returns the one list of options for the first fragment, the other for all others.
fn choose<'a>(k: usize, first: &'a [u8], others: &'a [u8]) -> &'a [u8]
    ensures { result.now ≡ (if k == 0 then first.now else others.now) }
{
    if k == 0 { first } else { others }
}

/// Appends the header of the k-th fragment of a packet with options.
#[cold]
#[tactic(auto, unfolding(crate::specs::Cut::piece_options, crate::specs::Header::header_with))]
fn append_header_with_options(list: &mut Vec<u8>, packet: &Ipv4View<'_>, fields: Fields, k: usize)
    requires room { vec_len list.old + (header_of packet.now.bytes.now).header_length
        ≤ vec_capacity list.old }
    ensures items { list.new.items ≡ list.old.items
        ++ header_with fields packet.now.bytes.now (piece_options packet.now.bytes.now k) }
    ensures len { vec_len list.new
        ≡ vec_len list.old + (header_of packet.now.bytes.now).header_length }
    ensures capacity { vec_capacity list.old ≤ vec_capacity list.new }
{
    let first = packet.options();
    let others = later(first);
    let options = choose(k, first, &others[..first.len()]);
    let fixed = summed(packet.bytes, fields, options);
    append_reserved(list, &fixed);
    append_reserved(list, options);
}

/// Appends the header of the k-th fragment.
#[tactic(auto, unfolding(crate::specs::Cut::piece_options, crate::specs::Header::header_with, crate::specs::Options::later_from))]
fn append_header(list: &mut Vec<u8>, packet: &Ipv4View<'_>, fields: Fields, k: usize)
    requires room { vec_len list.old + (header_of packet.now.bytes.now).header_length
        ≤ vec_capacity list.old }
    ensures items { list.new.items ≡ list.old.items
        ++ header_with fields packet.now.bytes.now (piece_options packet.now.bytes.now k) }
    ensures len { vec_len list.new
        ≡ vec_len list.old + (header_of packet.now.bytes.now).header_length }
    ensures capacity { vec_capacity list.old ≤ vec_capacity list.new }
{
    if !packet.options().is_empty() {
        return append_header_with_options(list, packet, fields, k);
    }
    append_reserved(list, &summed(packet.bytes, fields, &[]));
}

/// Returns into how many fragments a packet is cut where at most `mtu` bytes of IPv4 are sent in one frame, 576 to 1,500: one
/// where it fits.
pub fn piece_count(packet: &[u8], mtu: u16) -> usize
    requires packet { IsIpv4 packet.now }
    requires mtu { IsMtu mtu }
    ensures value { result ≡ piece_count mtu packet.now }
    ensures most { result ≤ 128 }
{
    Cut::of(packet, mtu).count()
}

/// Appends the k-th fragment (from 0) of a frame's packet, as a frame, to a list with capacity for it. At most `mtu` bytes
/// of IPv4 are sent in one frame, 576 to 1,500; all fragments get this identification (host order).
#[tactic(auto, unfolding(crate::specs::Cut::piece))]
pub fn append_piece(list: &mut Vec<u8>, frame: &[u8], mtu: u16, identification: u16, k: usize)
    requires frame { IsIpv4Frame frame.now }
    requires mtu { IsMtu mtu }
    requires there { k < piece_count mtu (ipv4_in frame.now) }
    requires room { vec_len list.old + (14 + mtu) ≤ vec_capacity list.old }
    ensures items { list.new.items ≡ list.old.items ++ piece mtu identification frame.now k }
    ensures len { vec_len list.new ≤ vec_len list.old + (14 + mtu) }
    ensures capacity { vec_capacity list.old ≤ vec_capacity list.new }
{
    let cut = Cut::of(EthView { bytes: frame }.body(), mtu);
    let share = cut.share(k);
    append_reserved(list, &frame[..ETHERNET]);
    append_header(list, &cut.packet, cut.fields(identification, k), k);
    append_reserved(list, share);
}
