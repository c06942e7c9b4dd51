//! An interface with its state.
ghost use Rattle.std.specs.Prelude.{◌≡◌, true, ℕ, ◌≤◌, ◌+◌, ◌++◌, ◌&&◌, IfOk, IfErr, IfSome, Ok, OnErr, length, vec_len, vec_capacity};
ghost use Rattle.arp.specs.Neighbours.{mac_at, asks_at, has_entry, sent_at};
ghost use Rattle.arp.specs.declared.packets.TheConstants.{ARP_FRAME};
ghost use Rattle.vrrp_packet.specs.declared.TheConstants.{ADVERT_FRAME};
ghost use Rattle.vrrp_states.specs.declared.Action.TheVariants.{Nothing};
ghost use Rattle.vrrp_states.specs.Table.{IsMoment, IsInterval, Start, Stop, Heard, Tick};
ghost use Rattle.packet_rules.specs.Arping.{is_learnable, answer_to};
ghost use Rattle.packet_rules.specs.Adverts.{advert_frame};
ghost use Rattle.packet_rules.specs.Arping.{gratuitous_frame};
ghost use Rattle.packet_rules.specs.Asked.{IsWhole};
ghost use Rattle.packet_rules.specs.declared.readings.Reading.TheVariants.{Packet as PacketReading};
ghost use Rattle.packet_rules.specs.declared.reasons.Reason.TheVariants.{TtlOver};
ghost use Rattle.packet_rules.specs.Steps.{reading_of, Carries};
ghost use Rattle.interfaces.specs.Cables.{is_in, is_whole, plugged};
ghost use Rattle.interfaces.specs.Stations.{is_active, is_active_in, is_on, fixed_of, fixed_on, new_station, IsRouterStep, after_arp, teaches, with_complaint, with_plug, with_reply, IsWired};
ghost use Rattle.interfaces.specs.Tallies.{may_complain, may_reply};
ghost use Rattle.interfaces.specs.Memory.{LacksInterface};
ghost use Rattle.memory.specs.Memory.{WasRefused};

use crate::{Cable, Tally};
use addresses::{Ip, Mac};
use arp::{ArpPacket, Cache, Neighbour};
use ipv4::Packet;
use nat_types::{GatewayId, Side};
use packet_rules::{Network, Networks, Reading, Reason};
use settings::Settings;
use std::alloc::{AllocError, Global};
use std::marker::Model;
use vrrp_packet::Advert;
use vrrp_states::laws::exactly_one_line;
use vrrp_states::{Action, Router, State};

/// One interface of a gateway: its network, its cable, its virtual router, the neighbours that it knows, and the tally
/// of the answers to Echos and of the ICMP errors that the gateway sent there. Each `now` is a time of one clock, in
/// centiseconds.
#[derive(Drop)]
pub struct Interface {
    network: Network,
    cable: Cable,
    /// The time from one advertisement to the next, in centiseconds.
    interval: u16,
    router: Router,
    cache: Cache,
    /// The tally of the answers to Echos and of the ICMP errors that the gateway sent there.
    said: Tally,
}

impl Model for Interface {
    ghost use Rattle.vrrp_states.specs.Table.{IsInterval};
    ghost use Rattle.interfaces.specs.Stations.{Interface as Shown};

    ghost Value = { Shown };

    ghost view = { λ s. record {
      network = s.network;
      cable = s.cable;
      interval = s.interval;
      router = s.router;
      neighbours = s.cache;
      said = s.said;
    } };

    ghost invariant = { λ s. IsInterval s.interval };
}

fn is_on(neighbour: &settings::Neighbour, side: Side) -> bool
    ensures { result ≡ is_on side neighbour.now }
{
    neighbour.side == side
}

fn fixed(neighbour: &settings::Neighbour) -> Neighbour
    ensures { result ≡ fixed_of neighbour.now }
{
    Neighbour {
        address: neighbour.ip,
        mac: neighbour.mac,
    }
}

/// Returns how many static neighbours are on a side.
fn fixed_count(set: &[settings::Neighbour], side: Side) -> usize
    ensures { result ≡ length (fixed_on side set.now) }
{
    set.iter()
        .filter(|neighbour| is_on(neighbour, side))
        .count()
}

/// Returns the static neighbours on a side, in the order of the settings.
fn fixed_neighbours(
    alloc: Global,
    set: &[settings::Neighbour],
    side: Side,
) -> Result<Vec<Neighbour>, AllocError>
    ensures items { IfOk result (λ v. v.items ≡ fixed_on side set.now) }
    ensures refused { OnErr result (WasRefused (length (fixed_on side set.now))) }
{
    let mut there = memory::with_room(alloc, fixed_count(set, side))?;
    for neighbour in set {
        if is_on(neighbour, side) {
            there.push_reserved(fixed(neighbour));
        }
    }
    Ok(there)
}

impl Interface {
    /// Makes the interface of a gateway on a side, with the static neighbours there and its router in Initialize. An
    /// Err says that there is no memory.
    #[tactic(auto, unfolding(crate::specs::Stations::new_station))]
    pub fn new(
        alloc: Global,
        settings: &Settings,
        id: GatewayId,
        side: Side,
    ) -> Result<Interface, AllocError>
        ensures station { IfOk result (λ s. s ≡ new_station settings.now id side) }
        ensures refused { OnErr result (LacksInterface settings.now side) }
    {
        let own = settings.gateway(id);
        let network = Networks::of_gateway(settings, id).of(side);
        let fixed = fixed_neighbours(alloc, &settings.neighbours, side)?;
        let cache = Cache::new(alloc, &fixed)?;
        Ok(Interface {
            network,
            cable: Cable::In(None),
            interval: own.interval,
            router: Router::new(own.priority, own.interval, own.preempt, network.own_ip),
            cache,
            said: Tally::new(),
        })
    }

    /// Reminds the prover that all hardware addresses have six bytes. The call does nothing at run time.
    pub fn recall(&self)
        ensures { IsWired self.now }
    {
        self.network.recall();
        self.cache.recall();
    }

    /// Returns the interface's network.
    pub fn network(&self) -> Network
        ensures { result ≡ self.now.network }
    {
        self.network
    }

    /// Records that the interface's cable is in (`up`) or out. Where the cable is so already, nothing changes.
    pub fn plug(&mut self, up: bool, now: u64)
        ensures { self.new ≡ with_plug self.old up now }
    {
        self.cable = self.cable.plugged(up, now);
    }

    /// Whether the gateway may answer one more Echo there in this second.
    pub fn may_reply(&self, now: u64) -> bool
        ensures { result ≡ may_reply now self.now.said }
    {
        self.said.may_reply(now)
    }

    /// Whether the gateway may send one more ICMP error of its own there in this second.
    pub fn may_complain(&self, now: u64) -> bool
        ensures { result ≡ may_complain now self.now.said }
    {
        self.said.may_complain(now)
    }

    /// Counts an answer to an Echo that the gateway sent there.
    pub fn count_reply(&mut self, now: u64)
        requires { may_reply now self.old.said ≡ true }
        ensures { self.new ≡ with_reply self.old now }
    {
        self.said = self.said.replied(now);
    }

    /// Counts an ICMP error of the gateway's own that it sent there.
    pub fn count_complaint(&mut self, now: u64)
        requires { may_complain now self.old.said ≡ true }
        ensures { self.new ≡ with_complaint self.old now }
    {
        self.said = self.said.complained(now);
    }

    /// Whether the interface's cable is in.
    pub fn is_in(&self) -> bool
        ensures { result ≡ is_in self.now.cable }
    {
        self.cable.is_in()
    }

    /// Whether the interface's cable is in, and didn't come in less than `WHOLE_AFTER` centiseconds ago.
    pub fn is_whole(&self, now: u64) -> bool
        ensures { result ≡ is_whole self.now.cable now }
    {
        self.cable.is_whole(now)
    }

    /// Whether the interface's router is Active. Then the interface answers for the virtual address, and takes the
    /// frames to the virtual router.
    pub fn is_active(&self) -> bool
        ensures { result ≡ is_active self.now }
    {
        match self.router.state() {
            State::Initialize | State::Backup => false,
            State::Active => true,
        }
    }

    /// Starts the router, where the gateway is founded or loaded. Nothing is sent yet (RFC 9568, section 6.4.1).
    pub fn start(&mut self, now: u64)
        requires { IsMoment now }
        ensures { IsRouterStep self.old Start now Nothing self.new }
    {
        exactly_one_line();
        let _action = self.router.start(now);
    }

    /// Moves the router at most once, where its timer is due, and returns what the router sends.
    pub fn tick(&mut self, now: u64) -> Action
        requires { IsMoment now }
        ensures { IsRouterStep self.old Tick now result self.new }
    {
        self.router.tick(now)
    }

    /// Gives the router an advertisement of its virtual router, from another gateway's primary address, and returns
    /// what the router sends.
    pub fn heard(&mut self, advert: &Advert, from: Ip, now: u64) -> Action
        requires { IsMoment now }
        ensures { IsRouterStep self.old (Heard advert.now.priority advert.now.interval from.0) now
            result self.new }
    {
        self.router.heard(advert, from, now)
    }

    /// Stops the router, and returns what the router sends (RFC 9568, sections 6.4.2 and 6.4.3).
    pub fn stop(&mut self) -> Action
        ensures { (now : ℕ) → IsRouterStep self.old Stop now result self.new }
    {
        self.router.stop()
    }

    /// Renews the sender of an ARP packet at `now`, if the sender is one that is learnt. Where its address has no
    /// entry, learns it if the packet is for the interface, or if the sender is `waited_for`: a packet waits there for
    /// it as next hop. Returns whether the sender was learnt or renewed, so that its address has an entry now.
    #[tactic(auto, unfolding(crate::specs::Stations::after_arp))]
    pub fn learn(&mut self, packet: &ArpPacket, waited_for: bool, now: u64) -> bool
        ensures teaches { result ≡ teaches self.old packet.now waited_for }
        ensures has { result ≡ (is_learnable self.old.network packet.now
            && has_entry packet.now.sender_ip.0 self.new.neighbours.learnt) }
        ensures after { self.new ≡ after_arp self.old packet.now waited_for now }
    {
        if !packet_rules::is_learnt(&self.network, packet) {
            return false;
        }
        let may_come_in = packet_rules::is_for_us(&self.network, packet) || waited_for;
        self.cache
            .learn(packet.sender_ip, packet.sender_mac, may_come_in, now)
    }

    /// Returns the hardware address of a neighbour that is static, or was learnt and is valid at `now`, or None where
    /// there is no such neighbour.
    #[inline(always)]
    pub fn mac_of(&self, address: Ip, now: u64) -> Option<Mac>
        ensures mac { result ≡ mac_at address.0 now self.now.neighbours }
        ensures six { IfSome result (λ mac. length mac.0 ≡ 6) }
    {
        self.cache.mac_of(address, now)
    }

    /// Notes that a packet was sent to a neighbour at `now`, and returns whether an ARP request for its address must
    /// follow. That is so where the neighbour isn't static, was learnt or renewed 3,000 centiseconds ago or more or got
    /// another hardware address by its last renewal, and was learnt and last asked for 100 ago or more. The neighbour
    /// then counts as asked for at `now`.
    #[inline(always)]
    pub fn ask(&mut self, address: Ip, now: u64) -> bool
        ensures asks { result ≡ asks_at address.0 now self.old.neighbours }
        ensures after { self.new
            ≡ record self.old { neighbours = sent_at address.0 now self.old.neighbours } }
    {
        self.cache.ask(address, now)
    }

    /// Reads a frame at hand here, of up to 65,549 bytes, on this side of a gateway that is `up` or not. An Err has the
    /// reason of the first step that refuses the frame.
    #[inline(always)]
    pub fn read_whole(&self, side: Side, up: bool, bytes: &[u8]) -> Result<Reading, Reason>
        ensures reading { result
            ≡ reading_of side self.now.network (is_active self.now) up bytes.now }
        ensures carries { IfOk result (Carries side bytes.now) }
        ensures over { IfErr result (λ reason. reason ≡ TtlOver → IsWhole bytes.now) }
    {
        packet_rules::read_whole(side, &self.network, self.is_active(), up, bytes)
    }

    /// Reads a frame at hand here as [`read_whole`](Self::read_whole) does, where it carries a UDP or TCP packet that no
    /// step refuses. None says nothing of the frame.
    #[inline(always)]
    pub fn read_transport(&self, side: Side, up: bool, bytes: &[u8]) -> Option<Packet>
        ensures reading { IfSome result (λ p.
            reading_of side self.now.network (is_active self.now) up bytes.now
            ≡ Ok (PacketReading p)) }
        ensures carries { IfSome result (λ p. Carries side bytes.now (PacketReading p)) }
    {
        packet_rules::read_transport(side, &self.network, self.is_active(), up, bytes)
    }

    /// Returns the hardware address with which an ARP packet is answered here, or None where the packet is no request
    /// for an address of the gateway.
    pub fn answer_to(&self, packet: &ArpPacket) -> Option<Mac>
        ensures { result ≡ answer_to self.now.network (is_active self.now) packet.now }
    {
        packet_rules::answer_to(&self.network, self.is_active(), packet)
    }

    /// Appends the frame of an advertisement with this priority to a list with capacity for it.
    pub fn append_advert(&self, list: &mut Vec<u8>, priority: u8)
        requires { vec_len list.old + ADVERT_FRAME ≤ vec_capacity list.old }
        ensures items { list.new.items
            ≡ list.old.items ++ advert_frame self.now.network priority self.now.interval }
        ensures len { vec_len list.new ≡ vec_len list.old + ADVERT_FRAME }
        ensures capacity { vec_capacity list.old ≤ vec_capacity list.new }
    {
        packet_rules::append_advert(list, &self.network, priority, self.interval);
    }

    /// Appends the gratuitous ARP frame that tells everyone the hardware address of the virtual address to a list with
    /// capacity for it.
    pub fn append_gratuitous(&self, list: &mut Vec<u8>)
        requires { vec_len list.old + ARP_FRAME ≤ vec_capacity list.old }
        ensures items { list.new.items ≡ list.old.items ++ gratuitous_frame self.now.network }
        ensures len { vec_len list.new ≡ vec_len list.old + ARP_FRAME }
        ensures capacity { vec_capacity list.old ≤ vec_capacity list.new }
    {
        packet_rules::append_gratuitous(list, &self.network);
    }
}
