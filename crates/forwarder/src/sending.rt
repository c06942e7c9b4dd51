//! Packets that go on at once.
ghost use Rattle.std.specs.Prelude.{◌≡◌, ◌≤◌, ◌+◌, length, IfSome};
ghost use Rattle.bind_core.specs.Cores.{packet_at};
ghost use Rattle.waiting.specs.Packets.{beyond};
ghost use Rattle.spec_binding.specs.declared.changes.Want.TheVariants.{Port as PortOf};
ghost use Rattle.spec_binding.specs.WellFormed.{IsWellFormedEndpoint};
ghost use Rattle.arp.specs.Neighbours.{asks_at};
ghost use Rattle.nat_types.specs.declared.gateways.Side.{Side as OnSide};
ghost use Rattle.packet_rules.specs.Flows.{packet_in, source_of};
ghost use Rattle.packet_rules.specs.Frames.{sent_frame};
ghost use Rattle.packet_rules.specs.Steps.{IsForwardable};
ghost use Rattle.spec_step.specs.declared.plans.Plan.TheVariants.{Send};
ghost use Rattle.spec_step.specs.Parts.{by_plan, carried_all, carried_by, framed};
ghost use Rattle.spec_step.specs.Parts.{neighbour_sent, renewed_behind};
ghost use Rattle.spec_step.specs.Parts.{remote, wanted_by, wanted_for};
ghost use Rattle.spec_step.specs.Verdict.{exit_by};
ghost use Rattle.spec_step.specs.Shown.{station_on};
ghost use Rattle.forwarder.specs.Forwarder.{scene_on, shown_of};
ghost use Rattle.forwarder.specs.Plans.{IsOwn, looked_at};
ghost use Rattle.forwarder.specs.Room.{HasRoomFor, LeavesPlaces, Spends, a_packet, a_wish};
ghost use Rattle.forwarder.specs.Room.{and_octets, frames_alone, notes_alone};

use crate::Forwarder;
use crate::outgoing::SentFrame;
use activity::{Remote, Way};
use addresses::{Ip, Mac, Port, TcpFlags};
use ipv4::{Flow, Packet};
use nat_types::{Endpoint, Key, Pair, Side};
use output::OutputBuffer;
use packet_rules::Translation;

fn remote_at(address: Ip, port: Port) -> Remote
    ensures { result ≡ remote address port }
{
    Remote { address, port }
}

impl Forwarder {
    /// Asks for a port for an endpoint: its pair is made or proposed, or ports are asked for of the
    /// peer. `looked` is the port that was looked up for it in this state, where one was.
    #[cold]
    pub(crate) fn wish(&mut self, page: &mut OutputBuffer, endpoint: Endpoint, looked: Option<Port>)
        requires formed { IsWellFormedEndpoint endpoint }
        requires looked { IfSome looked (λ port.
            looked_at (shown_of self.old) endpoint ≡ PortOf port) }
        requires room { HasRoomFor a_wish self.old page.old }
        ensures scene { scene_on self.new page.new
            ≡ wanted_by (scene_on self.old page.old) endpoint }
        ensures rest { self.new
            ≡ record self.old { core = self.new.core; link = self.new.link } }
        ensures spends { Spends a_wish self.old page.old self.new page.new }
        ensures places { LeavesPlaces self.old self.new }
    {
        let mut notes = page.take_notes();
        let _given = self
            .core
            .want(endpoint, looked, &mut self.link, self.moment, &mut notes);
        page.put_notes(notes);
    }

    /// Asks for a port for the endpoint of a pair. Where the table has exactly this pair nothing
    /// changes, and the endpoint isn't looked up.
    #[inline(always)]
    fn wish_by(&mut self, page: &mut OutputBuffer, own: Pair)
        requires formed { IsWellFormedEndpoint own.endpoint }
        requires looked { looked_at (shown_of self.old) own.endpoint ≡ PortOf own.key.port }
        requires room { HasRoomFor a_wish self.old page.old }
        ensures scene { scene_on self.new page.new
            ≡ wanted_by (scene_on self.old page.old) own.endpoint }
        ensures rest { self.new
            ≡ record self.old { core = self.new.core; link = self.new.link } }
        ensures spends { Spends a_wish self.old page.old self.new page.new }
        ensures places { LeavesPlaces self.old self.new }
    {
        if !self.core.carries(own) {
            self.wish(page, own.endpoint, Some(own.key.port));
        }
    }

    /// Asks for a port for the source of a packet from the inside; a packet inward needs none.
    #[inline(always)]
    pub(crate) fn wish_for(&mut self, page: &mut OutputBuffer, flow: Flow, by: &Translation)
        requires formed { IsWellFormedEndpoint (source_of flow) }
        requires own { IsOwn (shown_of self.old) flow by.now }
        requires room { HasRoomFor a_wish self.old page.old }
        ensures scene { scene_on self.new page.new
            ≡ wanted_for (scene_on self.old page.old) flow by.now }
        ensures rest { self.new
            ≡ record self.old { core = self.new.core; link = self.new.link } }
        ensures spends { Spends a_wish self.old page.old self.new page.new }
        ensures places { LeavesPlaces self.old self.new }
    {
        match by {
            Translation::Outward(own) | Translation::Hairpin(own, _) => self.wish_by(page, *own),
            Translation::Inward(_) => {}
        }
    }

    /// Notes that the pair of a key carries a packet.
    #[inline(always)]
    fn carry(
        &mut self,
        page: &mut OutputBuffer,
        key: Key,
        remote: Remote,
        way: Way,
        flags: TcpFlags,
    )
        requires room { HasRoomFor (notes_alone 1) self.old page.old }
        ensures scene { let packet = packet_at self.old.core remote way flags self.old.moment in
            scene_on self.new page.new ≡ carried_by (scene_on self.old page.old) key packet }
        ensures rest { self.new ≡ record self.old { core = self.new.core } }
        ensures refresh { self.new.core.inward_refresh ≡ self.old.core.inward_refresh }
        ensures spends { Spends (notes_alone 1) self.old page.old self.new page.new }
    {
        let mut notes = page.take_notes();
        self.core
            .carried(key, remote, way, flags, self.moment, &mut notes);
        page.put_notes(notes);
    }

    /// Notes the packet with each pair that carries it; of a hairpin with the sender's pair first.
    #[inline(always)]
    fn carry_all(&mut self, page: &mut OutputBuffer, flow: Flow, flags: TcpFlags, by: &Translation)
        requires room { HasRoomFor (notes_alone 2) self.old page.old }
        ensures scene { scene_on self.new page.new
            ≡ carried_all (scene_on self.old page.old) flow flags by.now }
        ensures rest { self.new ≡ record self.old { core = self.new.core } }
        ensures spends { Spends (notes_alone 2) self.old page.old self.new page.new }
    {
        match by {
            Translation::Outward(pair) => {
                let there = remote_at(flow.destination, flow.destination_port);
                self.carry(page, pair.key, there, Way::Outward, flags);
            }
            Translation::Inward(pair) => {
                let there = remote_at(flow.source, flow.source_port);
                self.carry(page, pair.key, there, Way::Inward, flags);
            }
            Translation::Hairpin(own, other) => {
                let here = self.networks.outside.interface.virtual_ip;
                let to = remote_at(here, flow.destination_port);
                self.carry(page, own.key, to, Way::Outward, flags);
                let from = remote_at(here, own.key.port);
                self.carry(page, other.key, from, Way::Inward, flags);
            }
        }
    }

    /// Appends the frame by which a packet is sent on to the page.
    #[inline(always)]
    fn send_frame(
        &self,
        page: &mut OutputBuffer,
        by: &Translation,
        next: Mac,
        bytes: &[u8],
        packet: &Packet,
    )
        requires forwardable { IsForwardable bytes.now }
        requires read { packet.now ≡ packet_in bytes.now }
        requires frames { 1 ≤ page.old.room.frames }
        requires octets { beyond (length bytes.now) ≤ page.old.room.octets }
        ensures scene { scene_on self.now page.new
            ≡ framed (scene_on self.now page.old) (exit_by by.now)
            (sent_frame self.now.networks by.now next bytes.now) }
        ensures room { page.old.room ≡ record page.new.room {
          frames = page.new.room.frames + 1;
          octets = page.old.room.octets;
        } }
        ensures octets { page.old.room.octets
            ≤ page.new.room.octets + beyond (length bytes.now) }
    {
        let frame = SentFrame {
            networks: &self.networks,
            by,
            next,
            bytes,
            packet,
        };
        page.make_whole_frame(by.direction().exit(), &frame);
    }

    /// Notes that a packet was sent to a neighbour on a side, and returns whether the neighbour is
    /// to be asked for; if so, it counts as asked for now.
    #[inline(always)]
    fn ask_neighbour(&mut self, exit: Side, hop: Ip) -> bool
        ensures asks { result ≡ asks_at hop.0 self.old.moment
            (station_on (shown_of self.old) exit).neighbours }
        ensures shown { shown_of self.new ≡ neighbour_sent (shown_of self.old) exit hop }
        ensures core { self.new.core ≡ self.old.core }
        ensures link { self.new.link ≡ self.old.link }
        ensures kept { self.new.kept ≡ self.old.kept }
    {
        match exit {
            Side::Inside => self.inside.ask(hop, self.moment),
            Side::Outside => self.outside.ask(hop, self.moment),
        }
    }

    /// Notes that a packet was just sent to a neighbour, and sends an ARP request for it where one
    /// is due.
    #[inline(always)]
    pub(crate) fn ask_behind(&mut self, page: &mut OutputBuffer, exit: Side, hop: Ip)
        requires room { HasRoomFor (frames_alone 1) self.old page.old }
        ensures scene { scene_on self.new page.new
            ≡ renewed_behind (scene_on self.old page.old) exit hop }
        ensures link { self.new.link ≡ self.old.link }
        ensures spends { Spends (frames_alone 1) self.old page.old self.new page.new }
    {
        if self.ask_neighbour(exit, hop) {
            self.send_request(page, exit, hop);
        }
    }

    /// Sends a packet on at once. Needs capacity for two frames on the page: the packet, and an ARP
    /// request after it.
    #[inline(always)]
    pub(crate) fn send(
        &mut self,
        page: &mut OutputBuffer,
        bytes: &[u8],
        packet: Packet,
        by: Translation,
        next: Mac,
    )
        requires forwardable { IsForwardable bytes.now }
        requires read { packet ≡ packet_in bytes.now }
        requires formed { IsWellFormedEndpoint (source_of packet.flow) }
        requires own { IsOwn (shown_of self.old) packet.flow by }
        requires room { HasRoomFor (and_octets a_packet (length bytes.now)) self.old page.old }
        ensures scene { (side : OnSide) → scene_on self.new page.new
            ≡ by_plan (scene_on self.old page.old) side bytes.now packet.flow (Send by next) }
        ensures spends { Spends (and_octets a_packet (length bytes.now)) self.old page.old
            self.new page.new }
        ensures places { LeavesPlaces self.old self.new }
    {
        self.wish_for(page, packet.flow, &by);
        self.send_frame(page, &by, next, bytes, &packet);
        self.carry_all(page, packet.flow, packet.flags, &by);
        let hop = by.next_hop(&self.networks, packet.flow.destination);
        self.ask_behind(page, by.direction().exit(), hop);
    }
}
