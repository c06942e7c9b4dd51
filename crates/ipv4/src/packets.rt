//! What the first reading of a packet finds out, so that no later step reads the packet again.
ghost use Rattle.std.specs.Prelude.{◌≡◌, ◌↔◌, IsOk, IfOk};
ghost use Rattle.std.specs.Result.{result_err};
ghost use Rattle.ipv4.specs.Carried.{IsTransport, transport_refusal};
ghost use Rattle.ipv4.specs.Flow.{flow_of, packet_of, size_of};

use crate::tcp::flags;
use crate::{Flow, Ipv4Fault, Ipv4View, Transport};
use addresses::TcpFlags;

/// What is read of a packet that is translated.
#[derive(Clone, Copy, Debug, PartialEq, Eq)]
pub struct Packet {
    pub flow: Flow,
    pub size: Size,
    /// The flags of a TCP segment. For other protocols the field has no meaning: it is read from the same byte of the
    /// payload.
    pub flags: TcpFlags,
}

/// How long a packet is, and whether it may be cut into fragments.
#[derive(Clone, Copy, Debug, PartialEq, Eq)]
pub struct Size {
    /// The IPv4 total length: the bytes of header and payload, without padding.
    pub length: u16,
    /// Whether the packet has the flag Don't Fragment.
    pub unbroken: bool,
}

impl Size {
    /// Returns the size of a packet.
    #[inline(always)]
    pub fn of(view: &Ipv4View<'_>) -> Size
        ensures { result ≡ size_of view.now.bytes.now }
    {
        Size {
            length: view.total(),
            unbroken: view.is_unbroken(),
        }
    }
}

impl Packet {
    /// Reads a UDP or TCP packet, or refuses it as [`Transport::parse`] does.
    #[inline(always)]
    pub fn parse(view: &Ipv4View<'_>) -> Result<Packet, Ipv4Fault>
        ensures refusal { result_err result ≡ transport_refusal view.now.bytes.now }
        ensures ok { IsOk result ↔ IsTransport view.now.bytes.now }
        ensures packet { IfOk result (λ p. p ≡ packet_of view.now.bytes.now) }
    {
        let transport = Transport::parse(view)?;
        Ok(Packet::going(view, Flow::carrying(view, &transport)))
    }

    /// Reads a packet whose flow is known, of whatever protocol.
    #[inline(always)]
    pub fn going(view: &Ipv4View<'_>, flow: Flow) -> Packet
        requires { flow ≡ flow_of view.now.bytes.now }
        ensures { result ≡ packet_of view.now.bytes.now }
    {
        Packet {
            flow,
            size: Size::of(view),
            flags: flags(view.payload()),
        }
    }
}
