//! ARP packets (RFC 826), read from Ethernet bodies and written as whole frames.
//!
//! ```text
//!  0               2               4    5    6           8
//! +---------------+---------------+----+----+-----------+
//! | hardware type | protocol type | 6  | 4  | operation |
//! +---------------+---+-----------+----+----+-----------+------+
//! | sender MAC        | sender IP      | target MAC | target IP |
//! +-------------------+----------------+------------+-----------+
//!  8                   14               18           24          28
//! ```
//!
//! 192.0.2.2 asks for 192.0.2.9:
//!
//! ```text
//! 0001     0800 06 04 0001    020000000200 c0000202  000000000000 c0000209
//! Ethernet IPv4       request sender       192.0.2.2 asked for    192.0.2.9
//! ```
ghost use Rattle.std.specs.Prelude.{◌≡◌, ◌≤◌, ◌↔◌, length, IfOk, IsOk};
ghost use Rattle.std.specs.Result.{result_err};
ghost use Rattle.arp.specs.Packet.{operation_number, packet_bytes, is_ethernet_ipv4, arp_refusal, IsArp, packet_of, frame_bytes, request_packet, reply_packet, gratuitous_packet};

use addresses::{Ip, Mac};
use byteorder::{BigEndian, ByteOrder};
use frames::{EtherType, write_header};
use thiserror::Error;

/// The places of the packet's fields.
mod field {
    use std::ops::Range;

    pub const HARDWARE_TYPE: Range<usize> = 0..2;

    pub const PROTOCOL_TYPE: Range<usize> = 2..4;

    pub const HARDWARE_LENGTH: usize = 4;

    pub const PROTOCOL_LENGTH: usize = 5;

    pub const OPERATION: Range<usize> = 6..8;

    pub const SENDER_MAC: Range<usize> = 8..14;

    pub const SENDER_IP: Range<usize> = 14..18;

    pub const TARGET_MAC: Range<usize> = 18..24;

    pub const TARGET_IP: Range<usize> = 24..28;
    /// The bytes of a packet.
    pub const PACKET: usize = 28;
}

/// The bytes of a frame: an Ethernet header of 14 and a packet of 28.
pub const ARP_FRAME: usize = 42;

/// The bytes of the Ethernet header before a packet.
const HEADER: usize = 14;

const ETHERNET: u16 = 1;

const IPV4: u16 = 0x0800;

const NO_MAC: Mac = Mac([0; 6]);

/// Whether a packet is a request or a reply.
#[derive(Clone, Copy, Debug, PartialEq, Eq)]
pub enum Operation {
    Request,
    Reply,
}

impl Operation {
    fn number(self) -> u8
        ensures { result ≡ operation_number self }
    {
        match self {
            Operation::Request => 1,
            Operation::Reply => 2,
        }
    }
}

/// An ARP packet for IPv4 over Ethernet.
#[derive(Clone, Copy, Debug, PartialEq, Eq)]
pub struct ArpPacket {
    pub operation: Operation,
    pub sender_mac: Mac,
    pub sender_ip: Ip,
    pub target_mac: Mac,
    pub target_ip: Ip,
}

/// Why bytes are no ARP packet for IPv4 over Ethernet.
#[derive(Clone, Copy, Debug, PartialEq, Eq, Error)]
pub enum ArpFault {
    #[error("the packet is too short")]
    TooShort,
    #[error("not for IPv4 over Ethernet")]
    NotEthernetIpv4,
    #[error("neither a request nor a reply")]
    BadOperation,
}

/// Reads the body of an Ethernet frame as an ARP packet, or answers the first fault in the order of
/// [`ArpFault`]. Bytes after the 28 of the packet are padding.
pub fn parse(bytes: &[u8]) -> Result<ArpPacket, ArpFault>
    ensures refusal { result_err result ≡ arp_refusal bytes.now }
    ensures ok { IsOk result ↔ IsArp bytes.now }
    ensures value { IfOk result (λ p. p ≡ packet_of bytes.now) }
{
    if bytes.len() < field::PACKET {
        return Err(ArpFault::TooShort);
    }
    if !is_ethernet_ipv4(bytes) {
        return Err(ArpFault::NotEthernetIpv4);
    }
    let operation = match BigEndian::read_u16(&bytes[field::OPERATION]) {
        1 => Operation::Request,
        2 => Operation::Reply,
        _ => return Err(ArpFault::BadOperation),
    };
    Ok(ArpPacket {
        operation,
        sender_mac: mac_at(&bytes[field::SENDER_MAC]),
        sender_ip: Ip(BigEndian::read_u32(&bytes[field::SENDER_IP])),
        target_mac: mac_at(&bytes[field::TARGET_MAC]),
        target_ip: Ip(BigEndian::read_u32(&bytes[field::TARGET_IP])),
    })
}

/// Whether the types and lengths are those of IPv4 over Ethernet.
fn is_ethernet_ipv4(bytes: &[u8]) -> bool
    requires { 28 ≤ length bytes.now }
    ensures { result ≡ is_ethernet_ipv4 bytes.now }
{
    BigEndian::read_u16(&bytes[field::HARDWARE_TYPE]) == ETHERNET
        && BigEndian::read_u16(&bytes[field::PROTOCOL_TYPE]) == IPV4
        && bytes[field::HARDWARE_LENGTH] == 6
        && bytes[field::PROTOCOL_LENGTH] == 4
}

fn mac_at(bytes: &[u8]) -> Mac
    requires { length bytes.now ≡ 6 }
    ensures { result.0 ≡ bytes.now }
{
    let mut octets = [0; 6];
    octets.copy_from_slice(bytes);
    Mac(octets)
}

/// Writes a frame that asks everyone for the hardware address of `target`, from the sender `ip` at
/// `mac`.
pub fn request(out: &mut [u8; ARP_FRAME], mac: Mac, ip: Ip, target: Ip)
    ensures { out.new ≡ frame_bytes Mac.BROADCAST.0 mac.0 (request_packet mac ip target) }
{
    let packet = ArpPacket {
        operation: Operation::Request,
        sender_mac: mac,
        sender_ip: ip,
        target_mac: NO_MAC,
        target_ip: target,
    };
    write_frame(out, Mac::BROADCAST, mac, &packet);
}

/// Writes a frame that answers the request `asked`: its target address has the hardware address
/// `answer`. The frame is sent from `own`.
pub fn reply(out: &mut [u8; ARP_FRAME], own: Mac, answer: Mac, asked: &ArpPacket)
    ensures { out.new
        ≡ frame_bytes asked.now.sender_mac.0 own.0 (reply_packet answer asked.now) }
{
    let packet = ArpPacket {
        operation: Operation::Reply,
        sender_mac: answer,
        sender_ip: asked.target_ip,
        target_mac: asked.sender_mac,
        target_ip: asked.sender_ip,
    };
    write_frame(out, asked.sender_mac, own, &packet);
}

/// Writes a frame that says to everyone that `ip` has the hardware address `mac`, as a request for
/// `ip` itself.
pub fn gratuitous(out: &mut [u8; ARP_FRAME], mac: Mac, ip: Ip)
    ensures { out.new ≡ frame_bytes Mac.BROADCAST.0 mac.0 (gratuitous_packet mac ip) }
{
    let packet = ArpPacket {
        operation: Operation::Request,
        sender_mac: mac,
        sender_ip: ip,
        target_mac: mac,
        target_ip: ip,
    };
    write_frame(out, Mac::BROADCAST, mac, &packet);
}

fn write_frame(out: &mut [u8; ARP_FRAME], dst: Mac, src: Mac, packet: &ArpPacket)
    ensures { out.new ≡ frame_bytes dst.0 src.0 packet.now }
{
    write_header(out, dst, src, EtherType::ARP);
    out[HEADER..].copy_from_slice(&body_of(packet));
}

/// Returns the six bytes of an address, which the prover then knows to be six.
pub(crate) fn octets_of(mac: Mac) -> [u8; 6]
    ensures same { result ≡ mac.0 }
    ensures six { length result ≡ 6 }
{
    let mut octets = [0; 6];
    octets.copy_from_slice(&mac.0);
    octets
}

/// Returns the bytes of a packet.
fn body_of(packet: &ArpPacket) -> [u8; field::PACKET]
    ensures { result ≡ packet_bytes packet.now }
{
    let s = octets_of(packet.sender_mac);
    let t = octets_of(packet.target_mac);
    let [a, b, c, d] = packet.sender_ip.0.to_be_bytes();
    let [e, f, g, h] = packet.target_ip.0.to_be_bytes();
    let o = packet.operation.number();
    [
        0, 1, 8, 0, 6, 4, 0, o, s[0], s[1], s[2], s[3], s[4], s[5], a, b, c, d, t[0], t[1], t[2],
        t[3], t[4], t[5], e, f, g, h,
    ]
}
