//! Packets that have to wait, or are dropped.
ghost use Rattle.std.specs.Prelude.{◌≡◌, ◌≤◌, ◌+◌, length, true};
ghost use Rattle.waiting.specs.declared.waits.WaitsFor.TheVariants.{Hop, Pair};
ghost use Rattle.waiting.specs.Packets.{has_place};
ghost use Rattle.spec_binding.specs.WellFormed.{IsWellFormedEndpoint};
ghost use Rattle.packet_rules.specs.Arping.{request_frame};
ghost use Rattle.packet_rules.specs.Flows.{source_of};
ghost use Rattle.packet_rules.specs.Steps.{IsForwardable};
ghost use Rattle.spec_step.specs.declared.plans.Plan.TheVariants.{Ask, Wait as WaitFor};
ghost use Rattle.spec_step.specs.Parts.{asked_again, by_plan, by_refusal, framed};
ghost use Rattle.spec_step.specs.Shown.{station_on};
ghost use Rattle.spec_step.specs.Verdict.{exit_by};
ghost use Rattle.forwarder.specs.Forwarder.{scene_on, shown_of};
ghost use Rattle.forwarder.specs.Plans.{IsOwn};
ghost use Rattle.forwarder.specs.Room.{HasRoomFor, LeavesPlaces, Spends, a_packet, a_wish, an_ask};
ghost use Rattle.forwarder.specs.Room.{and_octets, frames_alone};

use crate::Forwarder;
use crate::outgoing::Request;
use addresses::Ip;
use ipv4::Flow;
use nat_types::Side;
use output::OutputBuffer;
use packet_rules::{Reason, Translation, exit_for, source_endpoint};
use waiting::{HeldPacket, WaitsFor};

impl Forwarder {
    /// Appends the ARP request for an address to the page, as a broadcast.
    pub(crate) fn send_request(&self, page: &mut OutputBuffer, exit: Side, hop: Ip)
        requires frames { 1 ≤ page.old.room.frames }
        ensures scene { scene_on self.now page.new
            ≡ framed (scene_on self.now page.old) exit
            (request_frame (station_on (shown_of self.now) exit).network hop) }
        ensures room { page.old.room
            ≡ record page.new.room { frames = page.new.room.frames + 1 } }
    {
        let request = Request {
            network: self.station(exit).network(),
            hop,
        };
        page.make_frame(exit, &request);
    }

    /// Keeps a packet until its next hop is known, asks for a port for its source (`wish_for`), and
    /// sends the ARP request for the next hop.
    #[cold]
    pub(crate) fn ask(
        &mut self,
        page: &mut OutputBuffer,
        flow: Flow,
        by: Translation,
        hop: Ip,
        copy: HeldPacket,
    )
        requires formed { IsWellFormedEndpoint (source_of flow) }
        requires own { IsOwn (shown_of self.old) flow by }
        requires place { has_place self.old.kept copy.wait ≡ true }
        requires since { copy.since ≡ self.old.moment }
        requires asked { copy.asked ≡ self.old.moment }
        requires wait { copy.wait ≡ Hop (exit_by by) hop }
        requires room { HasRoomFor an_ask self.old page.old }
        ensures scene { scene_on self.new page.new
            ≡ by_plan (scene_on self.old page.old) copy.side copy.bytes flow (Ask by hop) }
        ensures spends { Spends (and_octets an_ask (length copy.bytes)) self.old page.old
            self.new page.new }
        ensures places { LeavesPlaces self.old self.new }
    {
        self.wish_for(page, flow, &by);
        self.kept.keep(copy);
        self.send_request(page, by.direction().exit(), hop);
    }

    /// Drops a packet since another one waits for the same next hop. The ARP request is sent again
    /// where the last one is 100 cs old or older.
    #[cold]
    pub(crate) fn ask_again(&mut self, page: &mut OutputBuffer, exit: Side, hop: Ip)
        requires room { HasRoomFor (frames_alone 1) self.old page.old }
        ensures scene { scene_on self.new page.new
            ≡ asked_again (scene_on self.old page.old) exit hop }
        ensures rest { self.new ≡ record self.old { kept = self.new.kept } }
        ensures spends { Spends (frames_alone 1) self.old page.old self.new page.new }
    {
        if self.kept.ask_again(WaitsFor::Hop(exit, hop), self.moment) {
            self.send_request(page, exit, hop);
        }
    }

    /// Keeps a packet until the proposal of its endpoint's pair is answered.
    #[cold]
    pub(crate) fn wait(&mut self, page: &mut OutputBuffer, flow: Flow, copy: HeldPacket)
        requires formed { IsWellFormedEndpoint (source_of flow) }
        requires place { has_place self.old.kept copy.wait ≡ true }
        requires since { copy.since ≡ self.old.moment }
        requires asked { copy.asked ≡ self.old.moment }
        requires wait { copy.wait ≡ Pair (source_of flow) }
        requires room { HasRoomFor a_wish self.old page.old }
        ensures scene { scene_on self.new page.new
            ≡ by_plan (scene_on self.old page.old) copy.side copy.bytes flow
            (WaitFor (source_of flow)) }
        ensures spends { Spends (and_octets a_wish (length copy.bytes)) self.old page.old
            self.new page.new }
        ensures places { LeavesPlaces self.old self.new }
    {
        self.wish(page, source_endpoint(flow), None);
        self.kept.keep(copy);
    }

    /// Drops a packet. Where no port was free, ports may be asked for of the peer. Where the packet
    /// is too long, or its time to live is over, its source may get an error.
    #[cold]
    pub(crate) fn refuse(
        &mut self,
        page: &mut OutputBuffer,
        side: Side,
        bytes: &[u8],
        flow: Flow,
        reason: Reason,
    )
        requires forwardable { IsForwardable bytes.now }
        requires formed { IsWellFormedEndpoint (source_of flow) }
        requires room { HasRoomFor a_packet self.old page.old }
        ensures scene { scene_on self.new page.new
            ≡ by_refusal (scene_on self.old page.old) side bytes.now flow reason }
        ensures spends { Spends a_packet self.old page.old self.new page.new }
        ensures places { LeavesPlaces self.old self.new }
    {
        match reason {
            Reason::NoPort => self.wish(page, source_endpoint(flow), None),
            Reason::TooLong | Reason::TtlOver => {
                let exit = exit_for(side, self.way_of(side, flow));
                self.refuse_whole(page, side, exit, bytes, reason);
            }
            _ => {}
        }
    }
}
