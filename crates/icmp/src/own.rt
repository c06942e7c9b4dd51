//! The packets that the box itself sends (RFC 792): Echo Reply, Time Exceeded and Fragmentation Needed, each without
//! options and with TTL 64. Each has the identification 0 and Don't Fragment, but for a Reply that may be cut.
//!
//! ```text
//!  0                                 20     21     22         24           26            28
//! +---------------------------------+------+------+----------+------------+-------------+------+
//! | header                          | type | code | checksum | first word | second word | data |
//! +---------------------------------+------+------+----------+------------+-------------+------+
//! ```
//!
//! The words of a Reply are identifier and sequence number, and its data are those of the Echo. The first word of an
//! error is 0, the second is the most bytes that a packet may have, or 0, and the error's data are the beginning of the
//! packet that it is about. 192.168.1.1 answers 192.168.1.10:
//!
//! ```text
//! 45         00 0020     0000   4000           40     01   b781     c0a80101    c0a8010a
//! 4, 5 words -- 32 bytes number don't fragment TTL 64 ICMP checksum 192.168.1.1 192.168.1.10
//! 00    00   2127     0007 0001 70696e67
//! Reply code checksum 7    1    "ping"
//! ```
ghost use Rattle.std.specs.Prelude.{◌≡◌, ◌≤◌, ◌<◌, ◌+◌, ◌^◌, ◌++◌, length, vec_len, vec_capacity, List, ℕ, slice_index};
ghost use Rattle.ipv4.specs.Header.{IsIpv4};
ghost use Rattle.icmp.specs.Ask.{IsAsk};
ghost use Rattle.icmp.specs.Query.{IsQuery, IsTranslatable, query_of};
ghost use Rattle.icmp.specs.Own.{head_with, header_with, identification_of, flags_of, own_head, own_header, own_packet, quoted};
ghost use Rattle.icmp.specs.Own.{reply_packet, reply_message, exceeded_packet, exceeded_message, too_long_packet, too_long_message};
ghost use Rattle.icmp.specs.Own.{IsOwnPacket, IsReplyTo, IsErrorAbout};
ghost use Rattle.icmp.specs.declared.kinds.Kind.TheVariants.{Reply};
ghost use Rattle.icmp.specs.declared.own.Cutting.{Cutting as CuttingValue};
ghost use Rattle.icmp.specs.declared.own.Cutting.TheVariants.{Forbidden};
ghost use Rattle.icmp.specs.declared.own.TheConstants.{CONTROL, DONT_FRAGMENT, FRAGMENTATION_NEEDED, QUOTED, TTL};

use crate::errors::{TIME_EXCEEDED, UNREACHABLE};
use crate::{AskView, Kind, PROTOCOL};
use addresses::Ip;
use byteorder::{BigEndian, ByteOrder};
use frames::append_reserved;
use ipv4::Ipv4View;
use sums::{add, sum};

/// The places, in the packet, of what is written.
mod layout {
    use std::ops::Range;

    /// The checksum of the IPv4 header.
    pub const CHECKSUM: Range<usize> = 10..12;
    /// The bytes of a header without options.
    pub const HEADER: usize = 20;

    /// The checksum of a message.
    pub const MESSAGE_CHECKSUM: Range<usize> = 2..4;
    /// The bytes before a message's data.
    pub const HEAD: usize = 8;
    /// The place of the data in the packet.
    pub const DATA: usize = 28;
}

/// The first byte of a header: version 4 in the high half, the header's length of 5 words of 4 bytes in the low one.
const VERSION_AND_LENGTH: u8 = 0x45;

/// The flag Don't Fragment.
const DONT_FRAGMENT: u16 = 0x4000;

const TTL: u8 = 64;

/// The type of service of errors: the precedence of network control.
const CONTROL: u8 = 0xc0;

/// The code of Fragmentation Needed.
const FRAGMENTATION_NEEDED: u8 = 4;

/// The most bytes of a packet that an error holds: with its own 28 the error has 576.
const QUOTED: usize = 548;

/// The fields of a message before its data, without the checksum.
#[derive(Clone, Copy)]
struct Said {
    kind: u8,
    code: u8,
    first: u16,
    second: u16,
}

/// Whether a packet of the box may be cut into fragments on its way.
#[derive(Clone, Copy, Debug, PartialEq, Eq)]
pub enum Cutting {
    /// Nobody may cut the packet: it has Don't Fragment, and the identification 0.
    Forbidden,
    /// Whoever sends the packet on may cut it: it has this identification, and no flag.
    Allowed(u16),
}

impl Cutting {
    fn identification(self) -> u16
        ensures { result ≡ identification_of self }
    {
        match self {
            Cutting::Forbidden => 0,
            Cutting::Allowed(identification) => identification,
        }
    }

    /// Returns the word of flags and fragment offset.
    fn flags(self) -> u16
        ensures { result ≡ flags_of self }
    {
        match self {
            Cutting::Forbidden => DONT_FRAGMENT,
            Cutting::Allowed(_) => 0,
        }
    }
}

/// From where to where a packet goes, with which type of service, and whether it may be cut.
#[derive(Clone, Copy)]
struct Way {
    cutting: Cutting,
    service: u8,
    from: Ip,
    to: Ip,
}

/// Returns the header of a packet of `total` bytes, with its checksum.
fn summed_header(way: Way, total: u16) -> [u8; layout::HEADER]
    ensures { result ≡ own_header way.cutting way.service total way.from.0 way.to.0 }
{
    let mut bytes = unsummed_header(way, total);
    let checksum = 65535 - sum(&bytes);
    BigEndian::write_u16(&mut bytes[layout::CHECKSUM], checksum);
    bytes
}

fn unsummed_header(way: Way, total: u16) -> [u8; layout::HEADER]
    ensures { result ≡ header_with way.cutting 0 way.service total way.from.0 way.to.0 }
{
    let [length, low_length] = total.to_be_bytes();
    let [identification, low_identification] = way.cutting.identification().to_be_bytes();
    let [flags, low_flags] = way.cutting.flags().to_be_bytes();
    let [a, b, c, d] = way.from.0.to_be_bytes();
    let [e, f, g, h] = way.to.0.to_be_bytes();
    [
        VERSION_AND_LENGTH,
        way.service,
        length,
        low_length,
        identification,
        low_identification,
        flags,
        low_flags,
        TTL,
        PROTOCOL,
        0,
        0,
        a,
        b,
        c,
        d,
        e,
        f,
        g,
        h,
    ]
}

/// Returns what comes before these data in a message, with the checksum of the whole message.
fn summed_head(said: Said, carried: &[u8]) -> [u8; layout::HEAD]
    ensures { result ≡ own_head said.kind said.code said.first said.second carried.now }
{
    let mut bytes = unsummed_head(said);
    let checksum = 65535 - add(sum(&bytes), sum(carried));
    BigEndian::write_u16(&mut bytes[layout::MESSAGE_CHECKSUM], checksum);
    bytes
}

fn unsummed_head(said: Said) -> [u8; layout::HEAD]
    ensures { result ≡ head_with 0 said.kind said.code said.first said.second }
{
    let [first, low_first] = said.first.to_be_bytes();
    let [second, low_second] = said.second.to_be_bytes();
    [
        said.kind, said.code, 0, 0, first, low_first, second, low_second,
    ]
}

/// Appends a packet of the box to a list with capacity for it.
fn append(list: &mut Vec<u8>, way: Way, said: Said, carried: &[u8])
    requires room { vec_len list.old + (28 + length carried.now) ≤ vec_capacity list.old }
    requires fits { 28 + length carried.now < 2 ^ 16 }
    ensures items { list.new.items ≡ list.old.items
        ++ own_packet way.cutting way.service way.from.0 way.to.0
        (own_head said.kind said.code said.first said.second carried.now ++ carried.now) }
    ensures len { vec_len list.new ≡ vec_len list.old + (28 + length carried.now) }
    ensures capacity { vec_capacity list.old ≤ vec_capacity list.new }
{
    let total = layout::DATA + carried.len();
    let header = summed_header(way, total as u16);
    let head = summed_head(said, carried);
    append_reserved(list, &header);
    append_reserved(list, &head);
    append_reserved(list, carried);
}

/// Appends the Reply to an Echo, from the address that the Echo was sent to, to a list with capacity for it.
pub fn append_reply(list: &mut Vec<u8>, ask: &AskView<'_>, cutting: Cutting, from: Ip, to: Ip)
    requires room { vec_len list.old + (20 + length ask.now.bytes.now) ≤ vec_capacity list.old }
    requires fits { 20 + length ask.now.bytes.now < 2 ^ 16 }
    ensures items { list.new.items
        ≡ list.old.items ++ reply_packet cutting ask.now.bytes.now from.0 to.0 }
    ensures len { vec_len list.new ≡ vec_len list.old + (20 + length ask.now.bytes.now) }
    ensures capacity { vec_capacity list.old ≤ vec_capacity list.new }
{
    let said = Said {
        kind: Kind::Reply.number(),
        code: 0,
        first: ask.identifier().0,
        second: ask.sequence_number(),
    };
    let way = Way {
        cutting,
        service: 0,
        from,
        to,
    };
    append(list, way, said, ask.data());
}

/// Appends a Time Exceeded about a packet to a list with capacity for 576 bytes.
pub fn append_exceeded(list: &mut Vec<u8>, packet: &Ipv4View<'_>, from: Ip, to: Ip)
    requires room { vec_len list.old + 576 ≤ vec_capacity list.old }
    ensures items { list.new.items
        ≡ list.old.items ++ exceeded_packet packet.now.bytes.now from.0 to.0 }
    ensures len { vec_len list.new ≤ vec_len list.old + 576 }
    ensures capacity { vec_capacity list.old ≤ vec_capacity list.new }
{
    let said = Said {
        kind: TIME_EXCEEDED,
        code: 0,
        first: 0,
        second: 0,
    };
    append(list, complaining(from, to), said, quoted(packet));
}

/// Appends a Fragmentation Needed about a packet that is longer than `mtu` bytes to a list with capacity for 576 bytes.
pub fn append_too_long(list: &mut Vec<u8>, packet: &Ipv4View<'_>, mtu: u16, from: Ip, to: Ip)
    requires room { vec_len list.old + 576 ≤ vec_capacity list.old }
    ensures items { list.new.items
        ≡ list.old.items ++ too_long_packet packet.now.bytes.now mtu from.0 to.0 }
    ensures len { vec_len list.new ≤ vec_len list.old + 576 }
    ensures capacity { vec_capacity list.old ≤ vec_capacity list.new }
{
    let said = Said {
        kind: UNREACHABLE,
        code: FRAGMENTATION_NEEDED,
        first: 0,
        second: mtu,
    };
    append(list, complaining(from, to), said, quoted(packet));
}

fn complaining(from: Ip, to: Ip) -> Way
    ensures cutting { result.cutting ≡ Forbidden }
    ensures service { result.service ≡ 0xc0 }
    ensures from { result.from ≡ from }
    ensures to { result.to ≡ to }
{
    Way {
        cutting: Cutting::Forbidden,
        service: CONTROL,
        from,
        to,
    }
}

/// Returns as much of a packet, without padding, as an error holds.
fn quoted<'a>(packet: &Ipv4View<'a>) -> &'a [u8]
    ensures bytes { result.now ≡ quoted packet.now.bytes.now }
    ensures cut { length result.now ≤ 548 }
{
    &packet.bytes[..packet.total_length().min(QUOTED)]
}

/// A packet that the box writes is an IPv4 packet, and its header has the values of `IsOwnPacket`. The numbers that
/// the definitions take from the code are the RFCs'.
pub fn own_packet_law()
    ensures packet { (cutting : CuttingValue) (service from to : ℕ) (message : List ℕ)
        → identification_of cutting < 2 ^ 16 → service < 2 ^ 8 → from < 2 ^ 32 → to < 2 ^ 32
        → 20 + length message < 2 ^ 16 → IsOwnPacket cutting service from to message
        (own_packet cutting service from to message) }
    ensures control { CONTROL ≡ 192 }
    ensures dont_fragment { DONT_FRAGMENT ≡ 16384 }
    ensures time_to_live { TTL ≡ 64 }
    ensures fragmentation_needed { FRAGMENTATION_NEEDED ≡ 4 }
    ensures quoted { QUOTED ≡ 548 }
{}

/// The message that the box sends to an Echo is a Reply to it, and a query of the grammar where the identifier isn't 0.
pub fn reply_law()
    ensures reply { (ask : List ℕ) → ((i : ℕ) → slice_index ask i < 256) → IsAsk ask
        → IsReplyTo ask (reply_message ask) }
    ensures query { (ask : List ℕ) → ((i : ℕ) → slice_index ask i < 256) → IsAsk ask
        → 0 < (query_of ask).identifier → IsQuery Reply (reply_message ask) }
{}

/// The message that the box sends about a packet that is translated is an error of the grammar about that packet.
pub fn own_error_law()
    ensures exceeded { (packet : List ℕ) → IsIpv4 packet → IsTranslatable packet
        → IsErrorAbout packet 11 0 0 (exceeded_message packet) }
    ensures too_long { (packet : List ℕ) (mtu : ℕ) → IsIpv4 packet → IsTranslatable packet
        → mtu < 2 ^ 16 → IsErrorAbout packet 3 4 mtu (too_long_message packet mtu) }
{}
