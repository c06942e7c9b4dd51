//! The frame by which a packet is sent on.
ghost use Rattle.std.specs.Prelude.{◌≡◌, ◌+◌, ◌-◌, ◌≤◌, ◌++◌, length, take, drop, vec_len, vec_capacity};
ghost use Rattle.frames.specs.Frame.{frame_of};
ghost use Rattle.ipv4.specs.Header.{IsIpv4, header_of};
ghost use Rattle.ipv4.specs.Flow.{flow_of};
ghost use Rattle.icmp.specs.Query.{IsTranslatable};
ghost use Rattle.packet_rules.specs.Steps.{IsForwardable};
ghost use Rattle.packet_rules.specs.Flows.{packet_in};
ghost use Rattle.packet_rules.specs.Frames.{way_of, new_flow, translated_by, hop_of, sent_header, sent_frame};

use crate::networks::{Direction, Networks, next_hop_outside};
use addresses::{Ip, Mac, Port};
use frames::{EtherType, append_reserved, write_header};
use ipv4::{Flow, Packet};
use nat_types::Pair;

/// The pairs by which a packet is translated, by the packet's way.
#[derive(Clone, Copy, Debug, PartialEq, Eq)]
pub enum Translation {
    /// The packet leaves by the sender's pair.
    Outward(Pair),
    /// The packet comes in by the pair of the outside port that it goes to.
    Inward(Pair),
    /// The packet goes back in, by the sender's own pair and the pair of the outside port that it
    /// goes to, in this order.
    Hairpin(Pair, Pair),
}

pub(crate) fn outside_port(pair: Pair) -> Port
    ensures { result ≡ pair.key.port }
{
    pair.key.port
}

pub(crate) fn inside_address(pair: Pair) -> Ip
    ensures { result ≡ pair.endpoint.address }
{
    pair.endpoint.address
}

pub(crate) fn inside_port(pair: Pair) -> Port
    ensures { result ≡ pair.endpoint.port }
{
    pair.endpoint.port
}

impl Translation {
    /// Returns the way of the packet.
    pub fn direction(&self) -> Direction
        ensures { result ≡ way_of self.now }
    {
        match self {
            Translation::Outward(_) => Direction::Outward,
            Translation::Inward(_) => Direction::Inward,
            Translation::Hairpin(_, _) => Direction::Hairpin,
        }
    }

    /// Returns the next hop of a packet to this destination: outward as [`next_hop_outside`] says,
    /// else the address of the inside endpoint that it goes to.
    pub fn next_hop(&self, networks: &Networks, destination: Ip) -> Ip
        ensures { result.0 ≡ hop_of networks.now self.now destination.0 }
    {
        match self {
            Translation::Outward(_) => next_hop_outside(networks, destination),
            Translation::Inward(pair) => inside_address(*pair),
            Translation::Hairpin(_, other) => inside_address(*other),
        }
    }
}

/// Returns the flow that a packet of this flow has after the translation.
#[inline(always)]
fn flow_by(networks: &Networks, translation: &Translation, old: Flow) -> Flow
    ensures { result ≡ new_flow networks.now translation.now old }
{
    let outside = networks.outside.interface.virtual_ip;
    match translation {
        Translation::Outward(pair) => Flow {
            source: outside,
            source_port: outside_port(*pair),
            ..old
        },
        Translation::Inward(pair) => Flow {
            destination: inside_address(*pair),
            destination_port: inside_port(*pair),
            ..old
        },
        Translation::Hairpin(own, other) => Flow {
            source: outside,
            source_port: outside_port(*own),
            destination: inside_address(*other),
            destination_port: inside_port(*other),
            ..old
        },
    }
}

/// Translates a packet of this flow in place.
#[tactic(auto, unfolding(crate::specs::Frames::translated_by))]
#[inline(always)]
fn translate(packet: &mut [u8], old: Flow, networks: &Networks, translation: &Translation)
    requires ipv4 { IsIpv4 packet.old }
    requires translatable { IsTranslatable packet.old }
    requires ttl { 2 ≤ (header_of packet.old).ttl }
    requires read { old ≡ flow_of packet.old }
    ensures { packet.new ≡ translated_by networks.now translation.now packet.old }
{
    match rewrite::rewrite_packet(packet, old, flow_by(networks, translation, old)) {
        Ok(()) => {}
        Err(_ttl_over) => unreachable!(),
    }
}

/// Translates the packet of a frame in place.
#[inline(always)]
fn translate_body(frame: &mut [u8], old: Flow, networks: &Networks, translation: &Translation)
    requires whole { 14 ≤ length frame.old }
    requires ipv4 { IsIpv4 (frame_of frame.old).body }
    requires translatable { IsTranslatable (frame_of frame.old).body }
    requires ttl { 2 ≤ (header_of (frame_of frame.old).body).ttl }
    requires read { old ≡ flow_of (frame_of frame.old).body }
    ensures { frame.new
        ≡ take 14 frame.old ++ translated_by networks.now translation.now (drop 14 frame.old) }
{
    let (_header, packet) = frame.split_at_mut(14);
    translate(packet, old, networks, translation);
}

/// Writes the Ethernet header with which a frame is sent on to `next_mac` over a frame's own.
#[tactic(auto, using(crate::proofs::Cut::header_length))]
#[inline(always)]
pub(crate) fn readdress(
    frame: &mut [u8],
    networks: &Networks,
    translation: &Translation,
    next_mac: Mac,
)
    requires { 14 ≤ length frame.old }
    ensures bytes { frame.new
        ≡ sent_header networks.now translation.now next_mac ++ drop 14 frame.old }
    ensures fourteen { length (sent_header networks.now translation.now next_mac) ≡ 14 }
{
    let own_mac = networks.of(translation.direction().exit()).own_mac;
    write_header(frame, next_mac, own_mac, EtherType::IPV4);
}

/// Turns a received frame into the one by which its packet is sent on, with the padding still after
/// the packet.
#[tactic(auto, using(crate::proofs::Cut::drop_kept))]
#[inline(always)]
fn translate_frame(
    frame: &mut [u8],
    old: Flow,
    networks: &Networks,
    translation: &Translation,
    next_mac: Mac,
)
    requires whole { 14 ≤ length frame.old }
    requires ipv4 { IsIpv4 (frame_of frame.old).body }
    requires translatable { IsTranslatable (frame_of frame.old).body }
    requires ttl { 2 ≤ (header_of (frame_of frame.old).body).ttl }
    requires read { old ≡ flow_of (frame_of frame.old).body }
    ensures bytes { frame.new ≡ sent_header networks.now translation.now next_mac
        ++ translated_by networks.now translation.now (drop 14 frame.old) }
    ensures fourteen { length (sent_header networks.now translation.now next_mac) ≡ 14 }
{
    translate_body(frame, old, networks, translation);
    readdress(frame, networks, translation, next_mac);
}

/// Translates the frame that begins at `start` in a list and ends with the list.
#[inline(always)]
fn translate_tail(
    list: &mut Vec<u8>,
    start: usize,
    old: Flow,
    networks: &Networks,
    translation: &Translation,
    next_mac: Mac,
)
    requires whole { start + 14 ≤ vec_len list.old }
    requires ipv4 { IsIpv4 (frame_of (drop start list.old.items)).body }
    requires translatable { IsTranslatable (frame_of (drop start list.old.items)).body }
    requires ttl { 2 ≤ (header_of (frame_of (drop start list.old.items)).body).ttl }
    requires read { old ≡ flow_of (frame_of (drop start list.old.items)).body }
    ensures items { list.new.items ≡ take start list.old.items
        ++ (sent_header networks.now translation.now next_mac
        ++ translated_by networks.now translation.now (drop 14 (drop start list.old.items))) }
    ensures fourteen { length (sent_header networks.now translation.now next_mac) ≡ 14 }
    ensures len { vec_len list.new ≡ vec_len list.old }
    ensures capacity { vec_capacity list.new ≡ vec_capacity list.old }
{
    let (_before, frame) = list.split_at_mut(start);
    translate_frame(frame, old, networks, translation, next_mac);
}

/// Appends the frame by which a packet is sent on, without padding, to a list with capacity for the
/// received frame `bytes`, of which `packet` was read.
#[tactic(auto, unfolding(crate::specs::Frames::sent_frame), using(crate::proofs::Cut::tail_cut))]
#[inline(always)]
pub fn append_sent(
    list: &mut Vec<u8>,
    networks: &Networks,
    translation: &Translation,
    next_mac: Mac,
    bytes: &[u8],
    packet: &Packet,
)
    requires room { vec_len list.old + length bytes.now ≤ vec_capacity list.old }
    requires forwardable { IsForwardable bytes.now }
    requires read { packet.now ≡ packet_in bytes.now }
    ensures items { list.new.items
        ≡ list.old.items ++ sent_frame networks.now translation.now next_mac bytes.now }
    ensures len { vec_len list.new ≤ vec_len list.old + length bytes.now }
    ensures capacity { vec_capacity list.old ≤ vec_capacity list.new }
{
    let start = list.len();
    append_reserved(list, bytes);
    translate_tail(list, start, packet.flow, networks, translation, next_mac);
    list.truncate(start + (14 + usize::from(packet.size.length)));
}
