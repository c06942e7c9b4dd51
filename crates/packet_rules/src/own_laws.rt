//! Which frames are the gateway's own, and which addresses they show.
ghost use Rattle.std.specs.Prelude.{◌≡◌, ℕ, Bool, true, false, Ok, List, length};
ghost use Rattle.addresses.specs.declared.ethernet.Mac.{Mac as MacValue};
ghost use Rattle.addresses.specs.declared.internet.Ip.{Ip as IpValue};
ghost use Rattle.arp.specs.declared.packets.ArpPacket.{ArpPacket as ArpValue};
ghost use Rattle.frames.specs.Frame.{frame_of};
ghost use Rattle.ipv4.specs.Header.{header_of};
ghost use Rattle.nat_types.specs.declared.gateways.Side.{Side as SideValue};
ghost use Rattle.nat_types.specs.declared.gateways.Side.TheVariants.{Outside};
ghost use Rattle.packet_rules.specs.declared.complaints.Complaint.{Complaint as ComplaintValue};
ghost use Rattle.packet_rules.specs.declared.networks.Network.{Network as NetworkValue};
ghost use Rattle.packet_rules.specs.declared.networks.Networks.{Networks as NetworksValue};
ghost use Rattle.packet_rules.specs.declared.translations.Translation.{Translation as TranslationValue};
ghost use Rattle.packet_rules.specs.Adverts.{advert_frame};
ghost use Rattle.packet_rules.specs.Arping.{answer_frame as arp_frame, request_frame, gratuitous_frame};
ghost use Rattle.packet_rules.specs.Asked.{IsAskable, is_asked};
ghost use Rattle.packet_rules.specs.Errors.{error_direction, passed_frame};
ghost use Rattle.packet_rules.specs.Flows.{error_flow_in, flow_in};
ghost use Rattle.packet_rules.specs.Frames.{sent_frame, way_of};
ghost use Rattle.packet_rules.specs.Networks.{IsPlaced, IsWired, direction_of, exit_of, may_answer, network_of};
ghost use Rattle.packet_rules.specs.Own.{AreBytes, HidesHosts, answer_frame, complaint_frame, is_own_frame, is_told};
ghost use Rattle.packet_rules.specs.Steps.{IsForwardable, IsOfSide, IsPassable};

use icmp::own_packet_law;

/// States that the answer to an Echo to the gateway is an own frame, and so is a complaint about a packet. No packet
/// that is sent on is one, no error that is passed on, and no frame of ARP or VRRP.
pub fn own_frames_law()
    ensures answer { (networks : NetworksValue) (side : SideValue) (active : Bool)
        (next : MacValue) (bytes : List ℕ) → IsWired networks → IsPlaced networks
        → length next.0 ≡ 6 → AreBytes bytes → IsAskable bytes
        → is_asked (network_of networks side) active (frame_of bytes) ≡ true
        → is_own_frame networks side (answer_frame (network_of networks side) next bytes)
        ≡ true }
    ensures complaint { (networks : NetworksValue) (side : SideValue)
        (complaint : ComplaintValue) (next : MacValue) (bytes : List ℕ) → IsWired networks
        → IsPlaced networks → length next.0 ≡ 6 → AreBytes bytes → is_own_frame networks side
        (complaint_frame (network_of networks side) complaint next bytes) ≡ true }
    ensures sent { (networks : NetworksValue) (side : SideValue) (t : TranslationValue)
        (next : MacValue) (bytes : List ℕ) → IsWired networks → IsPlaced networks
        → length next.0 ≡ 6 → IsForwardable bytes → IsOfSide side bytes → AreBytes bytes
        → (let flow = flow_in bytes in
        direction_of networks side flow.protocol flow.source.0 flow.destination.0
        ≡ Ok (way_of t))
        → is_own_frame networks (exit_of (way_of t)) (sent_frame networks t next bytes)
        ≡ false }
    ensures passed { (networks : NetworksValue) (side : SideValue) (t : TranslationValue)
        (next : MacValue) (bytes : List ℕ) → IsWired networks → IsPlaced networks
        → length next.0 ≡ 6 → IsPassable bytes → AreBytes bytes
        → error_direction networks side (error_flow_in bytes) ≡ Ok (way_of t)
        → is_own_frame networks (exit_of (way_of t)) (passed_frame networks t next bytes)
        ≡ false }
    ensures arp { (networks : NetworksValue) (side : SideValue) (network : NetworkValue)
        (p : ArpValue) (mac : MacValue) → length network.own_mac.0 ≡ 6
        → length p.sender_mac.0 ≡ 6
        → is_own_frame networks side (arp_frame network p mac) ≡ false }
    ensures request { (networks : NetworksValue) (side : SideValue) (network : NetworkValue)
        (ip : IpValue) → length network.own_mac.0 ≡ 6
        → is_own_frame networks side (request_frame network ip) ≡ false }
    ensures gratuitous { (networks : NetworksValue) (side : SideValue) (network : NetworkValue)
        → is_own_frame networks side (gratuitous_frame network) ≡ false }
    ensures advert { (networks : NetworksValue) (side : SideValue) (network : NetworkValue)
        (priority interval : ℕ)
        → is_own_frame networks side (advert_frame network priority interval) ≡ false }
{
    own_packet_law();
}

/// States that an own frame at the outside has no address of the inside network as its source or its destination. All
/// else in such a frame is fixed, an `mtu` of the settings, or of the packet that it answers or complains of, which
/// came in there.
pub fn shows_nothing_inside()
    ensures answer { (networks : NetworksValue) (active : Bool) (next : MacValue)
        (bytes : List ℕ) → IsWired networks → IsPlaced networks → length next.0 ≡ 6
        → AreBytes bytes → IsAskable bytes
        → is_asked networks.outside active (frame_of bytes) ≡ true
        → may_answer networks Outside (header_of (frame_of bytes).body).source ≡ true
        → HidesHosts networks (answer_frame networks.outside next bytes) }
    ensures complaint { (networks : NetworksValue) (complaint : ComplaintValue)
        (next : MacValue) (bytes : List ℕ) → IsWired networks → IsPlaced networks
        → length next.0 ≡ 6 → AreBytes bytes
        → is_told networks Outside (frame_of bytes).body ≡ true
        → HidesHosts networks (complaint_frame networks.outside complaint next bytes) }
{
    own_packet_law();
}
