//! Flows: what a translation reads of a packet, and what it writes.
ghost use Rattle.std.specs.Prelude.{◌≡◌};
ghost use Rattle.ipv4.specs.Carried.{IsTransport, carried_bytes, carried_protocol};
ghost use Rattle.ipv4.specs.Flow.{flow_of, protocol_of};
ghost use Rattle.ipv4.specs.Header.{payload_of};

use crate::{Ipv4View, Transport};
use addresses::{Ip, Port, Protocol};

/// From where to where a packet goes, and by which protocol. An ICMP query has its identifier as both ports.
#[derive(Clone, Copy, Debug, PartialEq, Eq)]
pub struct Flow {
    pub source: Ip,
    pub destination: Ip,
    pub source_port: Port,
    pub destination_port: Port,
    pub protocol: Protocol,
}

impl Flow {
    /// Returns the flow of a UDP or TCP packet.
    pub fn of(packet: &Ipv4View<'_>) -> Flow
        requires { IsTransport packet.now.bytes.now }
        ensures { result ≡ flow_of packet.now.bytes.now }
    {
        Flow::carrying(packet, &Transport::of(packet))
    }

    /// Returns the flow of a packet that carries this datagram or segment.
    #[inline(always)]
    pub(crate) fn carrying(packet: &Ipv4View<'_>, transport: &Transport<'_>) -> Flow
        requires bytes { carried_bytes transport.now ≡ payload_of packet.now.bytes.now }
        requires protocol { carried_protocol transport.now ≡ protocol_of packet.now.bytes.now }
        ensures { result ≡ flow_of packet.now.bytes.now }
    {
        Flow {
            protocol: transport.protocol(),
            source: packet.source(),
            source_port: transport.source_port(),
            destination: packet.destination(),
            destination_port: transport.destination_port(),
        }
    }
}
