//! Packets that a pair carried, as its sessions see them.
ghost use Rattle.std.specs.Prelude.{◌≡◌, not, ◌||◌, ◌&&◌};
ghost use Rattle.addresses.specs.declared.transport.Protocol.{Protocol as Transport};
ghost use Rattle.activity.specs.Packets.{same_way, same_remote, is_plain, can_begin, is_passive, sets_last};

use addresses::{Ip, Port, Protocol, TcpFlags};

/// The outside host at the other end: its address and port.
#[derive(Clone, Copy, Debug, PartialEq, Eq)]
pub struct Remote {
    pub address: Ip,
    pub port: Port,
}

/// The way of a packet: from the inside host to the remote one, or back.
#[derive(Clone, Copy, Debug, PartialEq, Eq)]
pub enum Way {
    Outward,
    Inward,
}

/// A packet that was carried at a time, in centiseconds. The flags of a UDP packet aren't read. `inward_refresh` is the
/// setting of the gateway that carried it: whether what comes inward sets the last use of its pair (RFC 4787, REQ-6;
/// RFC 7857, section 7).
#[derive(Clone, Copy, Debug, PartialEq, Eq)]
pub struct Packet {
    pub remote: Remote,
    pub way: Way,
    pub flags: TcpFlags,
    pub inward_refresh: bool,
    pub at: u64,
}

pub(crate) fn is_that_remote(remote: Remote, other: Remote) -> bool
    ensures { result ≡ same_remote remote other }
{
    remote == other
}

/// Whether a segment has no RST, and no SYN without ACK.
pub(crate) fn is_plain_segment(flags: TcpFlags) -> bool
    ensures { result ≡ is_plain flags }
{
    !(flags.rst || (flags.syn && !flags.ack))
}

/// Whether a segment begins a session where its remote host has none. `has_carried` says whether the pair carried a
/// packet before it since its life began.
pub(crate) fn can_begin(has_carried: bool, packet: Packet) -> bool
    ensures { result ≡ can_begin has_carried packet }
{
    match packet.way {
        Way::Outward => !(packet.flags.rst && has_carried),
        Way::Inward => false,
    }
}

/// Whether a packet is passive: a loose segment, or a packet of UDP or ICMP that comes inward.
fn is_passive(protocol: Protocol, is_loose: bool, packet: Packet) -> bool
    ensures { result ≡ is_passive protocol is_loose packet }
{
    match protocol {
        Protocol::Icmp | Protocol::Udp => packet.way == Way::Inward,
        Protocol::Tcp => is_loose,
    }
}

/// Whether a packet sets the last use of its pair.
pub(crate) fn sets_last(protocol: Protocol, is_loose: bool, packet: Packet) -> bool
    ensures { result ≡ sets_last protocol is_loose packet }
{
    packet.inward_refresh || !is_passive(protocol, is_loose, packet)
}
