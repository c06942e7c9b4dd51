//! What a frame that passes the first steps is read as.
use addresses::Ip;
use arp::ArpPacket;
use icmp::ErrorPacket;
use ipv4::{Packet, Size};
use vrrp_packet::Advert;

/// The content of a frame that passes the first steps.
#[derive(Clone, Copy, Debug, PartialEq, Eq)]
pub enum Reading {
    /// An ARP packet (RFC 826).
    Arp(ArpPacket),
    /// An advertisement of the interface's virtual router, and the primary address that it comes
    /// from (RFC 9568).
    Advert(Advert, Ip),
    /// A UDP or TCP packet or an ICMP query to be translated: its flow, its TCP flags and its size.
    Packet(Packet),
    /// An ICMP error about such a packet (RFC 792): its flow and its size.
    Error(ErrorPacket),
    /// An Echo to the gateway itself (RFC 792): its addresses and the size of its answer.
    Asked(Asked),
}

/// An Echo to the gateway itself.
#[derive(Clone, Copy, Debug, PartialEq, Eq)]
pub struct Asked {
    /// The address of the host that sent the Echo.
    pub source: Ip,
    /// The gateway's address to which the Echo goes.
    pub destination: Ip,
    /// The size of the IPv4 packet that answers the Echo. It may be cut into fragments where the Echo may.
    pub size: Size,
}
