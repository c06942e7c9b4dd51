//! UDP or TCP: the one view of what a packet carries.
ghost use Rattle.std.specs.Prelude.{◌≡◌, ◌↔◌, IsOk, IfOk, None, List, ℕ};
ghost use Rattle.std.specs.Result.{result_err};
ghost use Rattle.ipv4.specs.Header.{payload_of, word_at};
ghost use Rattle.ipv4.specs.Flow.{destination_place, protocol_of, source_place};
ghost use Rattle.ipv4.specs.Carried.{IsTransport, transport_refusal, carried_bytes, carried_protocol};

use crate::{Ipv4Fault, Ipv4View, TcpView, UdpView};
use addresses::{Port, Protocol};

/// A view of the UDP datagram or the TCP segment that a packet carries.
#[derive(Clone, Copy)]
pub enum Transport<'a> {
    Udp(UdpView<'a>),
    Tcp(TcpView<'a>),
}

impl<'a> Transport<'a> {
    /// Returns a view of what a packet carries, or NotUdpTcp where its protocol is neither, and
    /// BadTransport where its payload isn't what its protocol requires. Checksums aren't tested.
    #[inline(always)]
    pub fn parse(packet: &Ipv4View<'a>) -> Result<Transport<'a>, Ipv4Fault>
        ensures refusal { result_err result ≡ transport_refusal packet.now.bytes.now }
        ensures ok { IsOk result ↔ IsTransport packet.now.bytes.now }
        ensures bytes { IfOk result (λ t. carried_bytes t ≡ payload_of packet.now.bytes.now) }
        ensures protocol { IfOk result
            (λ t. carried_protocol t ≡ protocol_of packet.now.bytes.now) }
    {
        match packet.transport() {
            Some(Protocol::Udp) => match UdpView::parse(packet.payload()) {
                Ok(datagram) => Ok(Transport::Udp(datagram)),
                Err(fault) => Err(fault),
            },
            Some(Protocol::Tcp) => match TcpView::parse(packet.payload()) {
                Ok(segment) => Ok(Transport::Tcp(segment)),
                Err(fault) => Err(fault),
            },
            Some(Protocol::Icmp) | None => Err(Ipv4Fault::NotUdpTcp),
        }
    }

    /// Returns a view of what a packet carries, without a test, where the packet is known to carry
    /// one of the two.
    pub fn of(packet: &Ipv4View<'a>) -> Transport<'a>
        requires { IsTransport packet.now.bytes.now }
        ensures bytes { carried_bytes result ≡ payload_of packet.now.bytes.now }
        ensures protocol { carried_protocol result ≡ protocol_of packet.now.bytes.now }
    {
        let bytes = packet.payload();
        if packet.protocol() == Protocol::Tcp.number() {
            Transport::Tcp(TcpView { bytes })
        } else {
            Transport::Udp(UdpView { bytes })
        }
    }

    pub fn protocol(&self) -> Protocol
        ensures { result ≡ carried_protocol self.now }
    {
        match self {
            Transport::Udp(_) => Protocol::Udp,
            Transport::Tcp(_) => Protocol::Tcp,
        }
    }

    pub fn source_port(&self) -> Port
        ensures { result.0
            ≡ word_at (source_place (carried_protocol self.now)) (carried_bytes self.now) }
    {
        match self {
            Transport::Udp(datagram) => datagram.source_port(),
            Transport::Tcp(segment) => segment.source_port(),
        }
    }

    pub fn destination_port(&self) -> Port
        ensures { result.0
            ≡ word_at (destination_place (carried_protocol self.now)) (carried_bytes self.now) }
    {
        match self {
            Transport::Udp(datagram) => datagram.destination_port(),
            Transport::Tcp(segment) => segment.destination_port(),
        }
    }
}

/// The packets whose payload [`Transport::parse`] accepts are exactly those of the grammar
/// `IsTransport`.
pub fn transport_grammar()
    ensures { (packet : List ℕ) → (transport_refusal packet ≡ None) ↔ IsTransport packet }
{}
