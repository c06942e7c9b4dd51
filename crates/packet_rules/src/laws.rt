//! What follows from the definitions, and the numbers that they take from the code.
ghost use Rattle.std.specs.Prelude.{◌≡◌, ◌≢◌, ◌<◌, ◌^◌, ◌⊎◌, ℕ, Bool, true, false, Ok, Err, Some, List, length};
ghost use Rattle.addresses.specs.declared.ethernet.Mac.{Mac as MacValue};
ghost use Rattle.addresses.specs.declared.internet.Ip.{Ip as IpValue};
ghost use Rattle.arp.specs.declared.packets.ArpPacket.{ArpPacket as ArpValue};
ghost use Rattle.packet_rules.specs.declared.networks.Network.{Network as NetworkValue};
ghost use Rattle.packet_rules.specs.declared.networks.Networks.{Networks as NetworksValue};
ghost use Rattle.packet_rules.specs.declared.networks.Peer.{Peer as PeerValue};
ghost use Rattle.packet_rules.specs.declared.readings.Reading.{Reading as ReadingValue};
ghost use Rattle.packet_rules.specs.declared.translations.Translation.{Translation as TranslationValue};
ghost use Rattle.frames.specs.declared.ethernet.TheConstants.{LONGEST_WHOLE};
ghost use Rattle.vrrp_packet.specs.Message.{IsWritable};
ghost use Rattle.vrrp_packet.specs.declared.Advert.{Advert as AdvertValue};
ghost use Rattle.packet_rules.specs.declared.readings.Reading.TheVariants.{Advert, Asked};
ghost use Rattle.packet_rules.specs.declared.readings.Asked.{Asked as AskedValue};
ghost use Rattle.packet_rules.specs.declared.reasons.Reason.TheVariants.{TtlOver};
ghost use Rattle.frames.specs.Frame.{frame_of};
ghost use Rattle.packet_rules.specs.Asked.{IsWhole, is_asked};
ghost use Rattle.packet_rules.specs.Adverts.{own_advert, advert_frame};
ghost use Rattle.packet_rules.specs.Arping.{answer_frame, request_frame, gratuitous_frame};
ghost use Rattle.packet_rules.specs.Errors.{is_error_frame, passed_frame};
ghost use Rattle.packet_rules.specs.Frames.{sent_frame, is_translation, way_of};
ghost use Rattle.nat_types.specs.declared.gateways.Side.{Side as SideValue};
ghost use Rattle.packet_rules.specs.Flows.{flow_in};
ghost use Rattle.packet_rules.specs.Networks.{IsWired, direction_of, exit_of};
ghost use Rattle.packet_rules.specs.Steps.{counts, reading_of, IsForwardable, IsOfSide, IsPassable, Carries};

use arp::arp_grammar;
use icmp::{ask_grammar, error_packet_grammar, query_packet_grammar};
use ipv4::{ipv4_grammar, transport_grammar};
use vrrp_packet::{advert_grammar, written_is_read};

/// States the length of the longest frame that is read, in bytes: an Ethernet header, and a packet of 65,535.
pub fn limits_law()
    ensures longest_whole { LONGEST_WHOLE ≡ 65549 }
{}

/// States what is known of a frame by its reading, and that a frame whose time to live is over has a whole packet.
pub fn readings_law()
    ensures carries { (side : SideValue) (network : NetworkValue) (active up : Bool)
        (bytes : List ℕ) (reading : ReadingValue)
        → reading_of side network active up bytes ≡ Ok reading → Carries side bytes reading }
    ensures over { (side : SideValue) (network : NetworkValue) (active up : Bool) (bytes : List ℕ)
        → reading_of side network active up bytes ≡ Err TtlOver → IsWhole bytes }
    ensures asked { (side : SideValue) (network : NetworkValue) (active up : Bool) (bytes : List ℕ)
        (asked : AskedValue) → reading_of side network active up bytes ≡ Ok (Asked asked)
        → is_asked network active (frame_of bytes) ≡ true }
{
    arp_grammar();
    ask_grammar();
    ipv4_grammar();
    transport_grammar();
    error_packet_grammar();
    query_packet_grammar();
    advert_grammar();
}

/// States that the frame by which a packet is sent on counts as a translation, and that by which an error is passed on
/// as an error, not as a translation. No frame of ARP or VRRP counts as either.
pub fn frames_law()
    ensures sent { (networks : NetworksValue) (side : SideValue) (t : TranslationValue)
        (next : MacValue) (bytes : List ℕ) → IsWired networks → length next.0 ≡ 6
        → IsForwardable bytes → IsOfSide side bytes → (let flow = flow_in bytes in
        direction_of networks side flow.protocol flow.source.0 flow.destination.0
        ≡ Ok (way_of t))
        → is_translation (exit_of (way_of t)) (sent_frame networks t next bytes) ≡ true }
    ensures passed { (networks : NetworksValue) (t : TranslationValue) (next : MacValue)
        (bytes : List ℕ) → IsWired networks → length next.0 ≡ 6 → IsPassable bytes
        → is_error_frame (passed_frame networks t next bytes) ≡ true }
    ensures passed_apart { (networks : NetworksValue) (exit : SideValue) (t : TranslationValue)
        (next : MacValue) (bytes : List ℕ) → IsWired networks → length next.0 ≡ 6
        → IsPassable bytes → is_translation exit (passed_frame networks t next bytes) ≡ false }
    ensures answer { (exit : SideValue) (network : NetworkValue) (p : ArpValue) (mac : MacValue)
        → length network.own_mac.0 ≡ 6 → length p.sender_mac.0 ≡ 6
        → is_translation exit (answer_frame network p mac) ≡ false }
    ensures request { (exit : SideValue) (network : NetworkValue) (ip : IpValue)
        → length network.own_mac.0 ≡ 6
        → is_translation exit (request_frame network ip) ≡ false }
    ensures gratuitous { (exit : SideValue) (network : NetworkValue)
        → is_translation exit (gratuitous_frame network) ≡ false }
    ensures advert { (exit : SideValue) (network : NetworkValue) (priority interval : ℕ)
        → is_translation exit (advert_frame network priority interval) ≡ false }
    ensures answer_no_error { (network : NetworkValue) (p : ArpValue) (mac : MacValue)
        → length network.own_mac.0 ≡ 6 → length p.sender_mac.0 ≡ 6
        → is_error_frame (answer_frame network p mac) ≡ false }
    ensures request_no_error { (network : NetworkValue) (ip : IpValue)
        → length network.own_mac.0 ≡ 6 → is_error_frame (request_frame network ip) ≡ false }
    ensures gratuitous_no_error { (network : NetworkValue)
        → is_error_frame (gratuitous_frame network) ≡ false }
    ensures advert_no_error { (network : NetworkValue) (priority interval : ℕ)
        → is_error_frame (advert_frame network priority interval) ≡ false }
{}

/// States that where the peer's advertisements alone count, an advertisement that is read has the peer's address, its
/// interval, and its priority or 0.
pub fn peer_alone()
    ensures { (side : SideValue) (network : NetworkValue) (active up : Bool) (frame : List ℕ)
        (advert : AdvertValue) (from : IpValue) (peer : PeerValue) → network.peer ≡ Some peer
        → reading_of side network active up frame ≡ Ok (Advert advert from)
        → (from.0 ≡ peer.ip.0) × (advert.interval ≡ peer.interval)
        × ((advert.priority ≡ peer.priority) ⊎ (advert.priority ≡ 0)) }
{}

/// States that the other gateway reads at its interface what a router advertises, where that counts there.
pub fn advert_law()
    ensures { (side : SideValue) (network peer : NetworkValue) (active : Bool)
        (priority interval : ℕ) → IsWritable (own_advert network priority interval)
        → network.own_ip.0 < 2 ^ 32
        → peer.interface.virtual_router ≡ network.interface.virtual_router
        → peer.own_ip.0 ≢ network.own_ip.0
        → counts peer.peer network.own_ip.0 (own_advert network priority interval) ≡ true
        → reading_of side peer active true (advert_frame network priority interval)
        ≡ Ok (Advert (own_advert network priority interval) network.own_ip) }
{
    ipv4_grammar();
    advert_grammar();
    written_is_read();
}
