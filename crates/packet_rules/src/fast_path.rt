//! The frames that nearly every packet comes in, read apart from all others: what no step refuses,
//! and what is UDP's or TCP's, is read without a reason on the way.
ghost use Rattle.std.specs.Prelude.{◌≡◌, IfSome, Ok};
ghost use Rattle.frames.specs.Frame.{frame_of};
ghost use Rattle.packet_rules.specs.declared.readings.Reading.TheVariants.{Packet as PacketReading};
ghost use Rattle.packet_rules.specs.Steps.{transport_reading, other_reading, ipv4_reading, reading_of, Carries};

use crate::asking::is_asked;
use crate::laws::readings_law;
use crate::networks::{Network, is_to_virtual};
use crate::steps::{is_for_vrrp, test_destination, view_frame, view_packet};
use frames::{EthView, EtherType};
use ipv4::{Ipv4View, Packet};
use nat_types::Side;

/// Reads a UDP or TCP packet whose time to live isn't over.
#[tactic(auto, unfolding(crate::specs::Steps::transport_reading, crate::specs::Steps::transport_refusal, crate::specs::Steps::ttl_refusal))]
#[inline(always)]
fn transport_in(view: &Ipv4View<'_>) -> Option<Packet>
    ensures { IfSome result (λ p. transport_reading view.now.bytes.now ≡ Ok (PacketReading p)) }
{
    match Packet::parse(view) {
        Ok(packet) if view.ttl() >= 2 => Some(packet),
        Ok(_) | Err(_) => None,
    }
}

/// Reads a UDP or TCP packet to the virtual router.
#[tactic(auto, unfolding(crate::specs::Steps::other_reading, crate::specs::Steps::packet_reading, crate::specs::Steps::virtual_refusal))]
#[inline(always)]
fn other_in(
    side: Side,
    network: &Network,
    frame: &EthView<'_>,
    view: &Ipv4View<'_>,
) -> Option<Packet>
    requires { view.now.bytes.now ≡ (frame_of frame.now.bytes.now).body }
    ensures { IfSome result (λ p. other_reading side network.now (frame_of frame.now.bytes.now)
        ≡ Ok (PacketReading p)) }
{
    if is_for_vrrp(view)
        || !is_to_virtual(network, frame.dst())
        || view.protocol() == icmp::PROTOCOL
    {
        return None;
    }
    transport_in(view)
}

/// Reads a UDP or TCP packet that is no Echo to the gateway.
#[tactic(auto, unfolding(crate::specs::Steps::ipv4_reading))]
#[inline(always)]
fn ipv4_in(side: Side, network: &Network, active: bool, frame: &EthView<'_>) -> Option<Packet>
    ensures { IfSome result (λ p.
        ipv4_reading side network.now active (frame_of frame.now.bytes.now)
        ≡ Ok (PacketReading p)) }
{
    match view_packet(frame.body()) {
        Ok(view) if !is_asked(network, active, frame, &view) => {
            other_in(side, network, frame, &view)
        }
        Ok(_) | Err(_) => None,
    }
}

/// Reads a frame by the very steps of `read_whole`, where it carries a UDP or TCP packet.
#[tactic(auto, unfolding(crate::specs::Steps::up_refusal, crate::specs::Steps::body_reading))]
#[inline(always)]
fn frame_in(side: Side, network: &Network, active: bool, up: bool, bytes: &[u8]) -> Option<Packet>
    ensures { IfSome result (λ p. reading_of side network.now active up bytes.now
        ≡ Ok (PacketReading p)) }
{
    match view_frame(bytes) {
        Ok(frame)
            if up
                && test_destination(network, active, &frame).is_ok()
                && frame.ethertype() == EtherType::IPV4 => {
            ipv4_in(side, network, active, &frame)
        }
        Ok(_) | Err(_) => None,
    }
}

/// Reads a frame at hand as [`read_whole`](crate::read_whole) does, where it carries a UDP or TCP packet that no step
/// refuses. None says nothing of the frame: `read_whole` reads it then.
#[inline(always)]
pub fn read_transport(
    side: Side,
    network: &Network,
    active: bool,
    up: bool,
    bytes: &[u8],
) -> Option<Packet>
    ensures reading { IfSome result (λ p. reading_of side network.now active up bytes.now
        ≡ Ok (PacketReading p)) }
    ensures carries { IfSome result (λ p. Carries side bytes.now (PacketReading p)) }
{
    readings_law();
    frame_in(side, network, active, up, bytes)
}
