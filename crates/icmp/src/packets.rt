//! What the first reading of an error or of a query finds out, so that no later step reads the
//! packet again.
ghost use Rattle.std.specs.Prelude.{◌≡◌, ◌≤◌, ◌↔◌, length, IsOk, IfOk, None, List, ℕ};
ghost use Rattle.std.specs.Result.{result_err};
ghost use Rattle.ipv4.specs.Flow.{flow_of, packet_of};
ghost use Rattle.ipv4.specs.Header.{header_of, payload_of};
ghost use Rattle.icmp.specs.Packet.{IsErrorPacket, packet_refusal, error_flow, error_packet_of, is_about};
ghost use Rattle.icmp.specs.Query.{IsQueryPacket, query_packet_refusal};
ghost use Rattle.icmp.specs.declared.errors.TheConstants.{PROTOCOL as ICMP};
ghost use Rattle.icmp.specs.declared.kinds.Kind.{Kind as KindValue};

use crate::queries::identifier;
use crate::{ErrorView, IcmpFault, Kind, PROTOCOL, QueryView};
use addresses::{Ip, Protocol};
use ipv4::{Flow, Ipv4View, Packet, Size};

/// From whom to whom an error goes, and the flow of the packet that it is about.
#[derive(Clone, Copy, Debug, PartialEq, Eq)]
pub struct ErrorFlow {
    pub source: Ip,
    pub destination: Ip,
    pub inside: Flow,
}

/// What is read of a packet that carries an error.
#[derive(Clone, Copy, Debug, PartialEq, Eq)]
pub struct ErrorPacket {
    pub flow: ErrorFlow,
    pub size: Size,
}

impl ErrorPacket {
    /// Reads a packet that carries an error. Answers NotError where the packet isn't of ICMP, and
    /// else refuses it as [`ErrorView::parse`] does.
    pub fn parse(view: &Ipv4View<'_>) -> Result<ErrorPacket, IcmpFault>
        ensures refusal { result_err result ≡ packet_refusal view.now.bytes.now }
        ensures ok { IsOk result ↔ IsErrorPacket view.now.bytes.now }
        ensures packet { IfOk result (λ p. p ≡ error_packet_of view.now.bytes.now) }
    {
        if view.protocol() != PROTOCOL {
            return Err(IcmpFault::NotError);
        }
        let error = ErrorView::parse(view.payload())?;
        Ok(ErrorPacket {
            flow: ErrorFlow::carrying(view, &error),
            size: Size::of(view),
        })
    }

    /// Whether the packet inside an error is of another protocol than ICMP, or begins as a query of
    /// this kind.
    pub fn is_about(kind: Kind, view: &Ipv4View<'_>) -> bool
        requires { IsErrorPacket view.now.bytes.now }
        ensures { result ≡ is_about kind view.now.bytes.now }
    {
        let bytes = view.payload();
        ErrorView { bytes }.inside().may_be(kind)
    }
}

impl ErrorFlow {
    /// Returns the flow of a packet that carries an error, without a test.
    pub fn of(view: &Ipv4View<'_>) -> ErrorFlow
        requires { IsErrorPacket view.now.bytes.now }
        ensures { result ≡ error_flow view.now.bytes.now }
    {
        let bytes = view.payload();
        ErrorFlow::carrying(view, &ErrorView { bytes })
    }

    /// Returns the flow of a packet that carries this error.
    fn carrying(view: &Ipv4View<'_>, error: &ErrorView<'_>) -> ErrorFlow
        requires { error.now.bytes.now ≡ payload_of view.now.bytes.now }
        ensures { result ≡ error_flow view.now.bytes.now }
    {
        ErrorFlow {
            source: view.source(),
            destination: view.destination(),
            inside: error.inside().flow(),
        }
    }
}

/// The packets that [`ErrorPacket::parse`] accepts are exactly those of the grammar
/// `IsErrorPacket`.
pub fn error_packet_grammar()
    ensures { (packet : List ℕ) → (packet_refusal packet ≡ None) ↔ IsErrorPacket packet }
{}

/// Reads a packet that carries a query of this kind. Answers NotQuery where the packet isn't of
/// ICMP, and else refuses it as [`QueryView::parse`] does.
pub fn query_packet(kind: Kind, view: &Ipv4View<'_>) -> Result<Packet, IcmpFault>
    ensures refusal { result_err result ≡ query_packet_refusal kind view.now.bytes.now }
    ensures ok { IsOk result ↔ IsQueryPacket kind view.now.bytes.now }
    ensures packet { IfOk result (λ p. p ≡ packet_of view.now.bytes.now) }
{
    if view.protocol() != PROTOCOL {
        return Err(IcmpFault::NotQuery);
    }
    QueryView::parse(kind, view.payload())?;
    Ok(Packet::going(view, query_flow(view)))
}

/// Returns the flow of a packet that carries a query, without a test: its identifier is both ports.
pub fn query_flow(view: &Ipv4View<'_>) -> Flow
    requires protocol { (header_of view.now.bytes.now).protocol ≡ ICMP }
    requires long { 8 ≤ length (payload_of view.now.bytes.now) }
    ensures { result ≡ flow_of view.now.bytes.now }
{
    let identifier = identifier(view.payload());
    Flow {
        protocol: Protocol::Icmp,
        source: view.source(),
        source_port: identifier,
        destination: view.destination(),
        destination_port: identifier,
    }
}

/// The packets that [`query_packet`] accepts are exactly those of the grammar `IsQueryPacket`.
pub fn query_packet_grammar()
    ensures { (kind : KindValue) (packet : List ℕ)
        → (query_packet_refusal kind packet ≡ None) ↔ IsQueryPacket kind packet }
{}
