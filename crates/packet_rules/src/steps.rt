//! The first steps of the packet path: which frames are taken, and what they are read as.
ghost use Rattle.std.specs.Prelude.{◌≡◌, ◌≤◌, ◌==◌, ◌&&◌, IfOk, IfErr, Ok, OnOk, length, not};
ghost use Rattle.std.specs.Result.{result_err};
ghost use Rattle.frames.specs.Frame.{frame_of};
ghost use Rattle.frames.specs.declared.ethernet.TheConstants.{LONGEST_WHOLE};
ghost use Rattle.ipv4.specs.Header.{IsIpv4, header_of};
ghost use Rattle.ipv4.specs.Flow.{packet_of};
ghost use Rattle.icmp.specs.Packet.{IsErrorPacket, error_packet_of};
ghost use Rattle.packet_rules.specs.Asked.{IsWhole, asked_of};
ghost use Rattle.packet_rules.specs.declared.readings.Reading.TheVariants.{Asked};
ghost use Rattle.packet_rules.specs.declared.reasons.Reason.TheVariants.{TtlOver};
ghost use Rattle.packet_rules.specs.Steps.{reason_of, reason_of_icmp, size_refusal, destination_refusal, header_refusal, virtual_refusal, counts, transport_refusal, query_refusal, error_refusal, about_refusal, ttl_refusal, is_vrrp, is_from_peer, arp_reading, advert_reading, transport_reading, query_reading, error_reading, icmp_reading, packet_reading, other_reading, ipv4_reading, body_reading, reading_of, Carries};

use crate::asking::{asked, is_asked};
use crate::laws::readings_law;
use crate::networks::{Network, Peer, is_for_gateway, is_to_virtual};
use crate::queries::{kind_entering, kind_leaving};
use crate::{Reading, Reason};
use addresses::Ip;
use frames::{EthView, EtherType};
use icmp::{ErrorPacket, IcmpFault};
use ipv4::{Ipv4Fault, Ipv4View, Packet};
use nat_types::Side;
use vrrp_packet::Advert;

fn reason_for(fault: Ipv4Fault) -> Reason
    ensures { result ≡ reason_of fault }
{
    match fault {
        Ipv4Fault::TooShort => Reason::BadHeader,
        Ipv4Fault::BadVersion => Reason::BadHeader,
        Ipv4Fault::BadLength => Reason::BadLength,
        Ipv4Fault::BadHeaderSum => Reason::BadHeaderSum,
        Ipv4Fault::Fragment => Reason::Fragment,
        Ipv4Fault::NotUdpTcp => Reason::NotUdpTcp,
        Ipv4Fault::BadTransport => Reason::BadTransport,
        Ipv4Fault::SourceRoute => Reason::SourceRoute,
    }
}

fn reason_for_icmp(fault: IcmpFault) -> Reason
    ensures { result ≡ reason_of_icmp fault }
{
    match fault {
        IcmpFault::NotError => Reason::NotUdpTcp,
        IcmpFault::BadError => Reason::BadTransport,
        IcmpFault::NotQuery => Reason::NotUdpTcp,
        IcmpFault::BadQuery => Reason::BadTransport,
        IcmpFault::NotAsked => Reason::NotUdpTcp,
    }
}

#[tactic(auto, unfolding(crate::specs::Steps::size_refusal))]
#[inline(always)]
pub(crate) fn view_frame(bytes: &[u8]) -> Result<EthView<'_>, Reason>
    ensures refusal { result_err result ≡ size_refusal bytes.now }
    ensures short { OnOk result (length bytes.now ≤ LONGEST_WHOLE) }
    ensures bytes { IfOk result (λ v. v.bytes.now ≡ bytes.now) }
{
    if bytes.len() > frames::LONGEST_WHOLE {
        return Err(Reason::ShortFrame);
    }
    match EthView::parse(bytes) {
        Ok(frame) => Ok(frame),
        Err(_too_short) => Err(Reason::ShortFrame),
    }
}

#[tactic(auto, unfolding(crate::specs::Steps::destination_refusal))]
#[inline(always)]
pub(crate) fn test_destination(
    network: &Network,
    active: bool,
    frame: &EthView<'_>,
) -> Result<(), Reason>
    ensures { result_err result
        ≡ destination_refusal network.now active (frame_of frame.now.bytes.now) }
{
    let ethertype = frame.ethertype();
    let is_known = ethertype == EtherType::IPV4 || ethertype == EtherType::ARP;
    if is_for_gateway(network, active, frame.dst()) && is_known {
        Ok(())
    } else {
        Err(Reason::NotMine)
    }
}

#[tactic(auto, unfolding(crate::specs::Steps::arp_reading))]
#[cold]
fn read_arp(body: &[u8]) -> Result<Reading, Reason>
    ensures reading { result ≡ arp_reading body.now }
{
    match arp::parse(body) {
        Ok(packet) => Ok(Reading::Arp(packet)),
        Err(_fault) => Err(Reason::BadArp),
    }
}

#[tactic(auto, unfolding(crate::specs::Steps::header_refusal))]
#[inline(always)]
pub(crate) fn view_packet(bytes: &[u8]) -> Result<Ipv4View<'_>, Reason>
    ensures refusal { result_err result ≡ header_refusal bytes.now }
    ensures bytes { IfOk result (λ v. v.bytes.now ≡ bytes.now) }
    ensures ipv4 { OnOk result (IsIpv4 bytes.now) }
{
    match Ipv4View::parse(bytes) {
        Ok(packet) => Ok(packet),
        Err(fault) => Err(reason_for(fault)),
    }
}

/// Whether a packet is for VRRP: of its protocol, to its group address (RFC 9568, sections 5.1.1.2 and 5.1.1.4).
#[tactic(auto, unfolding(crate::specs::Steps::is_vrrp))]
#[inline(always)]
pub(crate) fn is_for_vrrp(packet: &Ipv4View<'_>) -> bool
    ensures { result ≡ is_vrrp packet.now.bytes.now }
{
    packet.protocol() == vrrp_packet::PROTOCOL && packet.destination() == vrrp_packet::GROUP
}

/// Whether an advertisement from an address counts: of every gateway, or of the peer alone.
fn counts(peer: Option<Peer>, source: Ip, advert: &Advert) -> bool
    ensures { result ≡ counts peer source.0 advert.now }
{
    match peer {
        None => true,
        Some(peer) => {
            source == peer.ip
                && (advert.priority == peer.priority || advert.priority == 0)
                && advert.interval == peer.interval
        }
    }
}

/// Whether an advertisement from an address is of the interface's virtual router, and of another gateway whose
/// advertisements count.
fn is_from_peer(network: &Network, source: Ip, advert: &Advert) -> bool
    ensures { result ≡ ((advert.now.router == network.now.interface.virtual_router)
        && (not (source.0 == network.now.own_ip.0)
        && counts network.now.peer source.0 advert.now)) }
{
    advert.router == network.interface.virtual_router
        && source != network.own_ip
        && counts(network.peer, source, advert)
}

#[tactic(auto, unfolding(crate::specs::Steps::advert_reading, crate::specs::Steps::is_from_peer))]
#[cold]
fn read_advert(network: &Network, packet: &Ipv4View<'_>) -> Result<Reading, Reason>
    ensures { result ≡ advert_reading network.now packet.now.bytes.now }
{
    let from = packet.source();
    match vrrp_packet::parse(packet) {
        Ok(advert) => {
            if is_from_peer(network, from, &advert) {
                Ok(Reading::Advert(advert, from))
            } else {
                Err(Reason::BadAdvert)
            }
        }
        Err(_fault) => Err(Reason::BadAdvert),
    }
}

#[tactic(auto, unfolding(crate::specs::Steps::virtual_refusal))]
#[inline(always)]
fn test_virtual(network: &Network, frame: &EthView<'_>) -> Result<(), Reason>
    ensures { result_err result ≡ virtual_refusal network.now (frame_of frame.now.bytes.now) }
{
    if is_to_virtual(network, frame.dst()) {
        Ok(())
    } else {
        Err(Reason::NotMine)
    }
}

#[tactic(auto, unfolding(crate::specs::Steps::query_refusal))]
fn read_query(side: Side, view: &Ipv4View<'_>) -> Result<Packet, Reason>
    ensures refusal { result_err result ≡ query_refusal side view.now.bytes.now }
    ensures packet { IfOk result (λ p. p ≡ packet_of view.now.bytes.now) }
{
    match icmp::query_packet(kind_entering(side), view) {
        Ok(packet) => Ok(packet),
        Err(fault) => Err(reason_for_icmp(fault)),
    }
}

#[tactic(auto, unfolding(crate::specs::Steps::error_refusal))]
fn read_error(view: &Ipv4View<'_>) -> Result<ErrorPacket, Reason>
    ensures refusal { result_err result ≡ error_refusal view.now.bytes.now }
    ensures packet { IfOk result (λ p. p ≡ error_packet_of view.now.bytes.now) }
    ensures error { OnOk result (IsErrorPacket view.now.bytes.now) }
{
    match ErrorPacket::parse(view) {
        Ok(packet) => Ok(packet),
        Err(fault) => Err(reason_for_icmp(fault)),
    }
}

#[tactic(auto, unfolding(crate::specs::Steps::ttl_refusal))]
#[inline(always)]
fn test_ttl(packet: &Ipv4View<'_>) -> Result<(), Reason>
    ensures refusal { result_err result ≡ ttl_refusal packet.now.bytes.now }
    ensures ttl { OnOk result (2 ≤ (header_of packet.now.bytes.now).ttl) }
{
    if packet.ttl() < 2 {
        Err(Reason::TtlOver)
    } else {
        Ok(())
    }
}

/// Reads a UDP or TCP packet.
#[tactic(auto, unfolding(crate::specs::Steps::transport_reading, crate::specs::Steps::transport_refusal, crate::specs::Steps::ttl_refusal))]
#[inline(always)]
fn take_transport(view: &Ipv4View<'_>) -> Result<Reading, Reason>
    ensures { result ≡ transport_reading view.now.bytes.now }
{
    match Packet::parse(view) {
        Ok(_) if view.ttl() < 2 => Err(Reason::TtlOver),
        Ok(packet) => Ok(Reading::Packet(packet)),
        Err(fault) => Err(reason_for(fault)),
    }
}

/// Refuses an error unless the packet inside went the other way: a query inside must be of the kind that leaves where
/// the error comes in.
#[tactic(auto, unfolding(crate::specs::Steps::about_refusal))]
fn test_about(side: Side, view: &Ipv4View<'_>) -> Result<(), Reason>
    requires { IsErrorPacket view.now.bytes.now }
    ensures { result_err result ≡ about_refusal side view.now.bytes.now }
{
    if ErrorPacket::is_about(kind_leaving(side), view) {
        Ok(())
    } else {
        Err(Reason::NoBinding)
    }
}

/// Reads an ICMP query.
#[tactic(auto, unfolding(crate::specs::Steps::query_reading))]
fn take_query(side: Side, view: &Ipv4View<'_>) -> Result<Reading, Reason>
    ensures { result ≡ query_reading side view.now.bytes.now }
{
    let packet = read_query(side, view)?;
    test_ttl(view)?;
    Ok(Reading::Packet(packet))
}

/// Reads an ICMP error.
#[tactic(auto, unfolding(crate::specs::Steps::error_reading))]
fn take_error(side: Side, view: &Ipv4View<'_>) -> Result<Reading, Reason>
    ensures { result ≡ error_reading side view.now.bytes.now }
{
    let packet = read_error(view)?;
    test_ttl(view)?;
    test_about(side, view)?;
    Ok(Reading::Error(packet))
}

/// Reads an ICMP packet: as an error where its type is that of one, else as a query.
#[tactic(auto, unfolding(crate::specs::Steps::icmp_reading))]
#[inline(never)]
fn take_icmp(side: Side, view: &Ipv4View<'_>) -> Result<Reading, Reason>
    ensures { result ≡ icmp_reading side view.now.bytes.now }
{
    if icmp::is_error_message(view.payload()) {
        take_error(side, view)
    } else {
        take_query(side, view)
    }
}

/// Reads a packet that isn't VRRP's.
#[tactic(auto, unfolding(crate::specs::Steps::packet_reading))]
#[inline(always)]
fn read_packet(
    side: Side,
    network: &Network,
    frame: &EthView<'_>,
    view: &Ipv4View<'_>,
) -> Result<Reading, Reason>
    requires { view.now.bytes.now ≡ (frame_of frame.now.bytes.now).body }
    ensures reading { result ≡ packet_reading side network.now (frame_of frame.now.bytes.now) }
{
    test_virtual(network, frame)?;
    if view.protocol() == icmp::PROTOCOL {
        return take_icmp(side, view);
    }
    take_transport(view)
}

/// Reads a packet that is no Echo to the gateway.
#[tactic(auto, unfolding(crate::specs::Steps::other_reading))]
#[inline(always)]
fn read_other(
    side: Side,
    network: &Network,
    frame: &EthView<'_>,
    view: &Ipv4View<'_>,
) -> Result<Reading, Reason>
    requires { view.now.bytes.now ≡ (frame_of frame.now.bytes.now).body }
    ensures { result ≡ other_reading side network.now (frame_of frame.now.bytes.now) }
{
    if is_for_vrrp(view) {
        return read_advert(network, view);
    }
    read_packet(side, network, frame, view)
}

/// Reads an Echo to the gateway.
#[cold]
fn read_asked(view: &Ipv4View<'_>) -> Result<Reading, Reason>
    ensures { result ≡ Ok (Asked (asked_of view.now.bytes.now)) }
{
    Ok(Reading::Asked(asked(view)))
}

#[tactic(auto, unfolding(crate::specs::Steps::ipv4_reading))]
#[inline(always)]
fn read_ipv4(
    side: Side,
    network: &Network,
    active: bool,
    frame: &EthView<'_>,
) -> Result<Reading, Reason>
    ensures { result ≡ ipv4_reading side network.now active (frame_of frame.now.bytes.now) }
{
    let packet = view_packet(frame.body())?;
    if is_asked(network, active, frame, &packet) {
        return read_asked(&packet);
    }
    read_other(side, network, frame, &packet)
}

/// Reads a frame at hand, of up to 65,549 bytes, on a side's network, at an interface that is `active` or not, by a
/// gateway that is `up` or not. An Err has the reason of the first step that refuses the frame.
#[inline(always)]
pub fn read_whole(
    side: Side,
    network: &Network,
    active: bool,
    up: bool,
    bytes: &[u8],
) -> Result<Reading, Reason>
    ensures reading { result ≡ reading_of side network.now active up bytes.now }
    ensures carries { IfOk result (Carries side bytes.now) }
    ensures over { IfErr result (λ reason. reason ≡ TtlOver → IsWhole bytes.now) }
{
    readings_law();
    take_steps(side, network, active, up, bytes)
}

#[tactic(auto, unfolding(crate::specs::Steps::up_refusal, crate::specs::Steps::body_reading))]
#[inline(always)]
fn take_steps(
    side: Side,
    network: &Network,
    active: bool,
    up: bool,
    bytes: &[u8],
) -> Result<Reading, Reason>
    ensures { result ≡ reading_of side network.now active up bytes.now }
{
    let frame = view_frame(bytes)?;
    if !up {
        return Err(Reason::NotUp);
    }
    test_destination(network, active, &frame)?;
    if frame.ethertype() == EtherType::ARP {
        return read_arp(frame.body());
    }
    read_ipv4(side, network, active, &frame)
}
