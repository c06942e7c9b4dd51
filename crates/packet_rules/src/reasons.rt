//! The reasons for which a frame, a link datagram or an operator's word is dropped, with their
//! numbers and texts.
ghost use Rattle.std.specs.Prelude.{◌≡◌, Some};
ghost use Rattle.packet_rules.specs.Reasons.{number_of, text_of};

use std::fmt;
use thiserror::Error;

/// The reason for which a frame, a link datagram or an operator's word was dropped. `Display` gives
/// its text.
#[derive(Clone, Copy, Debug, PartialEq, Eq, Error)]
pub enum Reason {
    ShortFrame,
    NotMine,
    BadHeader,
    BadLength,
    BadHeaderSum,
    Fragment,
    TtlOver,
    NotUdpTcp,
    BadTransport,
    BadArp,
    BadAdvert,
    NotUp,
    NoBinding,
    NoPort,
    CannotWait,
    BadDatagram,
    OldWord,
    HostLimit,
    TooLong,
    TooMany,
    SourceRoute,
}

impl Reason {
    /// Returns the reason's number, from 1 to 21.
    pub fn number(self) -> u8
        ensures { result ≡ number_of self }
    {
        self as u8 + 1
    }
}

impl fmt::Display for Reason {
    ghost output = { λ r. Some (text_of r) };

    fn fmt<W: fmt::Write>(&self, f: &mut fmt::Formatter<W>) -> fmt::Result {
        f.write_str(match self {
            Reason::ShortFrame => "the frame is too short or too long",
            Reason::NotMine => "the frame isn't for this gateway",
            Reason::BadHeader => "no IPv4 header",
            Reason::BadLength => "the IPv4 total length is wrong",
            Reason::BadHeaderSum => "the IPv4 header checksum is wrong",
            Reason::Fragment => {
                "a fragment that isn't taken, is broken, is there already, or contradicts"
            }
            Reason::TtlOver => "the time to live is over",
            Reason::NotUdpTcp => "neither UDP, TCP, a ping nor an ICMP error",
            Reason::BadTransport => "the UDP, TCP or ICMP header is wrong",
            Reason::BadArp => "the ARP packet is wrong",
            Reason::BadAdvert => "the VRRP advertisement is wrong",
            Reason::NotUp => "the gateway isn't up",
            Reason::NoBinding => "no pair translates the packet",
            Reason::NoPort => "no port is free",
            Reason::CannotWait => "the packet would have to wait and can't",
            Reason::BadDatagram => "the link datagram is wrong",
            Reason::OldWord => "the operator's word is of a boot below the known one",
            Reason::HostLimit => "the host has all the pairs that it may have",
            Reason::TooLong => "the packet is too long for its side",
            Reason::TooMany => "too many answers in this second",
            Reason::SourceRoute => "the packet has a source route",
        })
    }
}
