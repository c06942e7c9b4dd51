//! ICMP errors about translated packets (RFC 5508, section 4): their way, and the frame by which one
//! is passed on.
ghost use Rattle.std.specs.Prelude.{◌≡◌, ◌+◌, ◌≤◌, ◌++◌, length, take, drop, vec_len, vec_capacity};
ghost use Rattle.frames.specs.Frame.{frame_of};
ghost use Rattle.ipv4.specs.Header.{IsIpv4, header_of};
ghost use Rattle.icmp.specs.Packet.{IsErrorPacket, error_flow};
ghost use Rattle.packet_rules.specs.Errors.{endpoint_about, error_direction as direction_of_error, key_about, new_error_flow, passed_by, passed_frame};
ghost use Rattle.packet_rules.specs.Flows.{error_in};
ghost use Rattle.packet_rules.specs.Frames.{sent_header};
ghost use Rattle.packet_rules.specs.Steps.{IsPassable};
ghost use Rattle.rewrite.specs.PassedOn.{error_from, error_to};

use crate::Reason;
use crate::networks::{Direction, Networks, direction_taken};
use crate::translations::{Translation, inside_address, inside_port, outside_port, readdress};
use addresses::{Ip, Mac, Port};
use frames::append_reserved;
use icmp::{ErrorFlow, ErrorPacket};
use ipv4::Flow;
use nat_types::{Endpoint, Key, Side};

/// Returns the key of the pair by which the packet inside an error went out, if it went out.
pub fn key_inside(flow: ErrorFlow) -> Key
    ensures { result ≡ key_about flow }
{
    Key {
        protocol: flow.inside.protocol,
        port: flow.inside.source_port,
    }
}

/// Returns the endpoint to which the packet inside an error came in, if it came in.
pub fn endpoint_inside(flow: ErrorFlow) -> Endpoint
    ensures { result ≡ endpoint_about flow }
{
    Endpoint {
        protocol: flow.inside.protocol,
        address: flow.inside.destination,
        port: flow.inside.destination_port,
    }
}

/// Returns the way of an error that came in on a side: that of its own addresses, or `NoBinding` where these have none
/// or the packet inside doesn't come from the error's destination.
#[tactic(auto, unfolding(crate::specs::Errors::error_direction))]
pub fn error_direction(
    networks: &Networks,
    side: Side,
    flow: ErrorFlow,
) -> Result<Direction, Reason>
    ensures { result ≡ direction_of_error networks.now side flow }
{
    match direction_taken(
        networks,
        side,
        flow.inside.protocol,
        flow.source,
        flow.destination,
    ) {
        Ok(way) => {
            if flow.inside.source == flow.destination {
                Ok(way)
            } else {
                Err(Reason::NoBinding)
            }
        }
        Err(reason) => Err(reason),
    }
}

/// Returns an error's flow with another source, and with this source and port as the destination of the packet inside.
fn sent_from(flow: ErrorFlow, from: Ip, port: Port) -> ErrorFlow
    ensures { result ≡ error_from from port flow }
{
    ErrorFlow {
        source: from,
        inside: Flow {
            destination: from,
            destination_port: port,
            ..flow.inside
        },
        ..flow
    }
}

/// Returns an error's flow with another destination, and with this destination and port as the source of the packet
/// inside.
fn sent_to(flow: ErrorFlow, to: Ip, port: Port) -> ErrorFlow
    ensures { result ≡ error_to to port flow }
{
    ErrorFlow {
        destination: to,
        inside: Flow {
            source: to,
            source_port: port,
            ..flow.inside
        },
        ..flow
    }
}

/// Returns the flow that an error of this flow has after it is passed on.
fn error_flow_by(networks: &Networks, translation: &Translation, old: ErrorFlow) -> ErrorFlow
    ensures { result ≡ new_error_flow networks.now translation.now old }
{
    let outside = networks.outside.interface.virtual_ip;
    match translation {
        Translation::Outward(pair) => sent_from(old, outside, outside_port(*pair)),
        Translation::Inward(pair) => sent_to(old, inside_address(*pair), inside_port(*pair)),
        Translation::Hairpin(own, other) => {
            let back = sent_to(old, inside_address(*other), inside_port(*other));
            sent_from(back, outside, outside_port(*own))
        }
    }
}

/// Rewrites an error of this flow, in place, into the one that is passed on.
#[tactic(auto, unfolding(crate::specs::Errors::passed_by))]
fn pass(packet: &mut [u8], old: ErrorFlow, networks: &Networks, translation: &Translation)
    requires ipv4 { IsIpv4 packet.old }
    requires error { IsErrorPacket packet.old }
    requires ttl { 2 ≤ (header_of packet.old).ttl }
    requires read { old ≡ error_flow packet.old }
    ensures { packet.new ≡ passed_by networks.now translation.now packet.old }
{
    let new = error_flow_by(networks, translation, old);
    match rewrite::rewrite_error(packet, old, new) {
        Ok(()) => {}
        Err(_ttl_over) => unreachable!(),
    }
}

/// Rewrites the error of a frame, in place, into the one that is passed on.
fn pass_body(frame: &mut [u8], old: ErrorFlow, networks: &Networks, translation: &Translation)
    requires whole { 14 ≤ length frame.old }
    requires ipv4 { IsIpv4 (frame_of frame.old).body }
    requires error { IsErrorPacket (frame_of frame.old).body }
    requires ttl { 2 ≤ (header_of (frame_of frame.old).body).ttl }
    requires read { old ≡ error_flow (frame_of frame.old).body }
    ensures { frame.new
        ≡ take 14 frame.old ++ passed_by networks.now translation.now (drop 14 frame.old) }
{
    let (_header, packet) = frame.split_at_mut(14);
    pass(packet, old, networks, translation);
}

/// Turns a received frame into the one by which its error is passed on, with the padding still after the packet.
#[tactic(auto, using(crate::proofs::Cut::drop_kept))]
fn pass_frame(
    frame: &mut [u8],
    old: ErrorFlow,
    networks: &Networks,
    translation: &Translation,
    next_mac: Mac,
)
    requires whole { 14 ≤ length frame.old }
    requires ipv4 { IsIpv4 (frame_of frame.old).body }
    requires error { IsErrorPacket (frame_of frame.old).body }
    requires ttl { 2 ≤ (header_of (frame_of frame.old).body).ttl }
    requires read { old ≡ error_flow (frame_of frame.old).body }
    ensures bytes { frame.new ≡ sent_header networks.now translation.now next_mac
        ++ passed_by networks.now translation.now (drop 14 frame.old) }
    ensures fourteen { length (sent_header networks.now translation.now next_mac) ≡ 14 }
{
    pass_body(frame, old, networks, translation);
    readdress(frame, networks, translation, next_mac);
}

/// Turns the frame that begins at `start` in a list and ends with the list into the one by which its error is passed
/// on.
fn pass_tail(
    list: &mut Vec<u8>,
    start: usize,
    old: ErrorFlow,
    networks: &Networks,
    translation: &Translation,
    next_mac: Mac,
)
    requires whole { start + 14 ≤ vec_len list.old }
    requires ipv4 { IsIpv4 (frame_of (drop start list.old.items)).body }
    requires error { IsErrorPacket (frame_of (drop start list.old.items)).body }
    requires ttl { 2 ≤ (header_of (frame_of (drop start list.old.items)).body).ttl }
    requires read { old ≡ error_flow (frame_of (drop start list.old.items)).body }
    ensures items { list.new.items ≡ take start list.old.items
        ++ (sent_header networks.now translation.now next_mac
        ++ passed_by networks.now translation.now (drop 14 (drop start list.old.items))) }
    ensures fourteen { length (sent_header networks.now translation.now next_mac) ≡ 14 }
    ensures len { vec_len list.new ≡ vec_len list.old }
    ensures capacity { vec_capacity list.new ≡ vec_capacity list.old }
{
    let (_before, frame) = list.split_at_mut(start);
    pass_frame(frame, old, networks, translation, next_mac);
}

/// Appends the frame by which an error is passed on, without padding, to a list with capacity for the received frame
/// `bytes`, of which `packet` was read.
#[tactic(auto, unfolding(crate::specs::Errors::passed_frame), using(crate::proofs::Cut::tail_cut))]
pub fn append_passed(
    list: &mut Vec<u8>,
    networks: &Networks,
    translation: &Translation,
    next_mac: Mac,
    bytes: &[u8],
    packet: &ErrorPacket,
)
    requires room { vec_len list.old + length bytes.now ≤ vec_capacity list.old }
    requires passable { IsPassable bytes.now }
    requires read { packet.now ≡ error_in bytes.now }
    ensures items { list.new.items
        ≡ list.old.items ++ passed_frame networks.now translation.now next_mac bytes.now }
    ensures len { vec_len list.new ≤ vec_len list.old + length bytes.now }
    ensures capacity { vec_capacity list.old ≤ vec_capacity list.new }
{
    let start = list.len();
    append_reserved(list, bytes);
    pass_tail(list, start, packet.flow, networks, translation, next_mac);
    list.truncate(start + (14 + usize::from(packet.size.length)));
}
