//! VRRP advertisements (RFC 9568, section 5.2), read from IPv4 packets and written.
//!
//! ```text
//!  0                  1        2          3       4
//! +------------------+--------+----------+-------+
//! | version and type | router | priority | count |
//! +------------------+---+----+----------+-------+-----+
//! | reserved, interval   | checksum      | addresses   |
//! +----------------------+---------------+-------------+
//!  4                      6               8             8 + 4 x count
//! ```
//!
//! Router 10 of priority 100 advertises 192.0.2.1 each second:
//!
//! ```text
//! 31     0a 64  01          0064   a88e     c0000201
//! 3, 1   10 100 one address 100 cs checksum 192.0.2.1
//! ```
#![tactic(auto)]

ghost use Rattle.std.specs.Prelude.{◌≡◌, ◌<◌, ◌^◌, ◌↔◌, ◌++◌, ◌&&◌, length, IsOk, IfOk, None, List, ℕ};
ghost use Rattle.std.specs.Result.{result_err};
ghost use Rattle.sums.specs.Sum.{IsRight};
ghost use Rattle.ipv4.specs.Header.{header_of, payload_of, has_wrong_sum};
ghost use Rattle.vrrp_packet.specs.declared.Advert.{Advert as Sent};
ghost use Rattle.vrrp_packet.specs.declared.TheConstants.{PROTOCOL, VERSION, ADVERTISEMENT, INTERVALS, ADVERT_FRAME};
ghost use Rattle.vrrp_packet.specs.declared.field.TheConstants.{HEADER};
ghost use Rattle.vrrp_packet.specs.Message.{pseudo_header as pseudo_bytes, IsAdvert, advert_refusal, advert_of, advert_bytes, IsWritable};

use addresses::Ip;
use byteorder::{BigEndian, ByteOrder};
use ipv4::Ipv4View;
use sums::{add, is_right, sum};
use thiserror::Error;

/// The number of VRRP in an IPv4 header.
pub const PROTOCOL: u8 = 112;

/// The address 224.0.0.18, the group to which advertisements go.
pub const GROUP: Ip = Ip(0xe000_0012);

/// The bytes of an advertisement's frame: an Ethernet header of 14, an IPv4 header of 20, and a
/// message of 12.
pub const ADVERT_FRAME: usize = 46;

/// The places of the message's fields.
mod field {
    use std::ops::Range;

    /// The version in the high half, the type in the low one.
    pub const VERSION_AND_TYPE: usize = 0;

    pub const ROUTER: usize = 1;

    pub const PRIORITY: usize = 2;

    pub const COUNT: usize = 3;
    /// The reserved bits in the high 4, the interval in the low 12.
    pub const INTERVAL: Range<usize> = 4..6;

    pub const CHECKSUM: Range<usize> = 6..8;
    /// The place of the first address.
    pub const ADDRESS: Range<usize> = 8..12;
    /// The bytes before the addresses.
    pub const HEADER: usize = 8;
}

const VERSION: u8 = 3;

/// The only type of message.
const ADVERTISEMENT: u8 = 1;

/// One more than the greatest interval in centiseconds.
const INTERVALS: u16 = 0x1000;

/// The contents of a router's advertisement.
#[derive(Clone, Copy, Debug, PartialEq, Eq)]
pub struct Advert {
    /// The virtual router's number.
    pub router: u8,
    pub priority: u8,
    /// The interval in centiseconds, from 1 to 4095.
    pub interval: u16,
    /// The first of the virtual router's addresses.
    pub address: Ip,
}

/// Why a packet carries no valid advertisement.
#[derive(Clone, Copy, Debug, PartialEq, Eq, Error)]
pub enum AdvertFault {
    #[error("a TTL other than 255")]
    BadTtl,
    #[error("a version other than 3")]
    BadVersion,
    #[error("a type other than 1")]
    BadType,
    #[error("the message is too short")]
    TooShort,
    #[error("no address")]
    NoAddress,
    #[error("a wrong checksum")]
    BadSum,
    #[error("an interval of 0")]
    ZeroInterval,
}

/// Reads the advertisement that a packet carries, or answers the first fault. Reserved bits and
/// bytes after the addresses are ignored. The checksum may cover the message alone, or the
/// pseudo-header and the message (RFC 9568, section 5.2.8).
pub fn parse(packet: &Ipv4View<'_>) -> Result<Advert, AdvertFault>
    ensures refusal { result_err result ≡ advert_refusal packet.now.bytes.now }
    ensures ok { IsOk result ↔ IsAdvert packet.now.bytes.now }
    ensures value { IfOk result (λ a. a ≡ advert_of (payload_of packet.now.bytes.now)) }
{
    if packet.ttl() != 255 {
        return Err(AdvertFault::BadTtl);
    }
    let message = packet.payload();
    if message.len() < field::HEADER {
        return Err(AdvertFault::TooShort);
    }
    if message[field::VERSION_AND_TYPE] / 16 != VERSION {
        return Err(AdvertFault::BadVersion);
    }
    if message[field::VERSION_AND_TYPE] % 16 != ADVERTISEMENT {
        return Err(AdvertFault::BadType);
    }
    let count = usize::from(message[field::COUNT]);
    if count == 0 {
        return Err(AdvertFault::NoAddress);
    }
    let size = field::HEADER + 4 * count;
    if message.len() < size {
        return Err(AdvertFault::TooShort);
    }
    if wrong_sum(packet, &message[..size]) {
        return Err(AdvertFault::BadSum);
    }
    let interval = BigEndian::read_u16(&message[field::INTERVAL]) % INTERVALS;
    if interval == 0 {
        return Err(AdvertFault::ZeroInterval);
    }
    Ok(Advert {
        router: message[field::ROUTER],
        priority: message[field::PRIORITY],
        interval,
        address: Ip(BigEndian::read_u32(&message[field::ADDRESS])),
    })
}

/// Whether the checksum is wrong both for the message alone and with the pseudo-header.
fn wrong_sum(packet: &Ipv4View<'_>, message: &[u8]) -> bool
    requires { length message.now < 2 ^ 16 }
    ensures { let header = header_of packet.now.bytes.now in
        let pseudo = pseudo_bytes header.source header.destination (length message.now) in
        result ≡ (has_wrong_sum message.now && has_wrong_sum (pseudo ++ message.now)) }
{
    let pseudo = pseudo_header(packet.source(), packet.destination(), message.len() as u16);
    !is_right(message) && add(sum(&pseudo), sum(message)) != 65535
}

fn pseudo_header(source: Ip, destination: Ip, size: u16) -> [u8; 12]
    ensures { result ≡ pseudo_bytes source.0 destination.0 size }
{
    let [a, b, c, d] = source.0.to_be_bytes();
    let [e, f, g, h] = destination.0.to_be_bytes();
    let [high, low] = size.to_be_bytes();
    [a, b, c, d, e, f, g, h, 0, PROTOCOL, high, low]
}

/// Writes a message of one address, whose checksum covers the message alone.
pub fn write(advert: &Advert, out: &mut [u8; 12])
    requires positive { 0 < advert.now.interval }
    requires twelve_bits { advert.now.interval < 4096 }
    ensures written { out.new ≡ advert_bytes advert.now }
    ensures read { advert_of out.new ≡ advert.now }
    ensures right { IsRight out.new }
{
    let Advert {
        router,
        priority,
        interval,
        address: Ip(address),
    } = *advert;
    let [high, low] = interval.to_be_bytes();
    let [a, b, c, d] = address.to_be_bytes();
    let kind = 16 * VERSION + ADVERTISEMENT;
    *out = [kind, router, priority, 1, high, low, 0, 0, a, b, c, d];
    let checksum = 65535 - sum(out);
    BigEndian::write_u16(&mut out[field::CHECKSUM], checksum);
}

/// The packets that [`parse`] accepts are exactly those of the grammar `IsAdvert`.
pub fn advert_grammar()
    ensures { (packet : List ℕ) → (advert_refusal packet ≡ None) ↔ IsAdvert packet }
{}

/// The numbers that the definitions take from the code (RFC 9568, sections 5.1.1.4 and 5.2).
pub fn limits_law()
    ensures protocol { PROTOCOL ≡ 112 }
    ensures version { VERSION ≡ 3 }
    ensures advertisement { ADVERTISEMENT ≡ 1 }
    ensures intervals { INTERVALS ≡ 4096 }
    ensures header { HEADER ≡ 8 }
    ensures frame { ADVERT_FRAME ≡ 46 }
{}

/// Returns the group of advertisements, 224.0.0.18 (RFC 9568, section 5.1.1.2).
pub fn group_law() -> Ip
    ensures group { result.0 ≡ 0xe0000012 }
{
    GROUP
}

/// A message that is written is read as the same advertisement from any packet with TTL 255 that
/// carries it.
pub fn written_is_read()
    ensures { (packet : List ℕ) (advert : Sent) → IsWritable advert
        → (header_of packet).ttl ≡ 255 → payload_of packet ≡ advert_bytes advert
        → IsAdvert packet × (advert_of (payload_of packet) ≡ advert) }
{}
