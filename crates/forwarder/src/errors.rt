//! ICMP errors about translated packets (RFC 5508, section 4): the plan of an error, and its way
//! on.
ghost use Rattle.std.specs.Prelude.{◌≡◌, ◌≤◌, ◌+◌, true, IfOk, OnErr, OnOk, length};
ghost use Rattle.waiting.specs.declared.waits.WaitsFor.TheVariants.{Hop};
ghost use Rattle.nat_types.specs.declared.gateways.Side.{Side as OnSide};
ghost use Rattle.waiting.specs.Memory.{LacksCopy};
ghost use Rattle.waiting.specs.Packets.{beyond, has_place};
ghost use Rattle.packet_rules.specs.Errors.{passed_frame};
ghost use Rattle.packet_rules.specs.Flows.{error_in};
ghost use Rattle.packet_rules.specs.Steps.{IsPassable};
ghost use Rattle.spec_step.specs.Parts.{by_error_plan, error_taken, framed};
ghost use Rattle.spec_step.specs.declared.events.Outcome.TheVariants.{Waiting};
ghost use Rattle.spec_step.specs.declared.plans.Plan.TheVariants.{Ask, Send};
ghost use Rattle.spec_step.specs.Verdict.{error_on, error_plan, exit_by, outcome_by, pair_in_of, pair_out};
ghost use Rattle.forwarder.specs.Forwarder.{scene_on, shown_of};
ghost use Rattle.forwarder.specs.Room.{HasRoomFor, Spends, and_octets, frames_alone};

use crate::Forwarder;
use crate::outgoing::PassedFrame;
use crate::plans::{if_fits, pair_of};
use crate::takings::{bytes_of, side_of};
use addresses::{Ip, Mac};
use icmp::{ErrorFlow, ErrorPacket};
use nat_types::{NoMemory, Pair, Side};
use output::OutputBuffer;
use packet_rules::{
    Direction, Reason, Translation, endpoint_inside, error_direction, key_inside, limits_law,
};
use spec_step::{Outcome, Plan};
use std::alloc::Global;
use waiting::{HeldPacket, WaitsFor};

impl Forwarder {
    /// Returns the plan of an error, or why it is dropped. Nothing changes.
    fn plan_error(&self, side: Side, packet: ErrorPacket) -> Result<Plan, Reason>
        ensures { result ≡ error_plan (shown_of self.now) side packet.flow packet.size }
    {
        match error_direction(&self.networks, side, packet.flow) {
            Ok(way) => match self.plan_error_on(packet.flow, way) {
                Ok(plan) => if_fits(self.fits_at(way.exit(), packet.size), plan),
                Err(reason) => Err(reason),
            },
            Err(reason) => Err(reason),
        }
    }

    fn plan_error_on(&self, flow: ErrorFlow, way: Direction) -> Result<Plan, Reason>
        ensures { result ≡ error_on (shown_of self.now) flow way }
    {
        match way {
            Direction::Outward => match self.pair_in(flow) {
                Ok(pair) => self.plan_to(flow.destination, Translation::Outward(pair)),
                Err(reason) => Err(reason),
            },
            Direction::Inward => match self.pair_out(flow) {
                Ok(pair) => self.plan_to(flow.destination, Translation::Inward(pair)),
                Err(reason) => Err(reason),
            },
            Direction::Hairpin => match self.pair_out(flow) {
                Ok(other) => match self.pair_in(flow) {
                    Ok(own) => self.plan_to(flow.destination, Translation::Hairpin(own, other)),
                    Err(reason) => Err(reason),
                },
                Err(reason) => Err(reason),
            },
        }
    }

    /// Returns the pair by which the packet inside the error went out.
    fn pair_out(&self, flow: ErrorFlow) -> Result<Pair, Reason>
        ensures { result ≡ pair_out (shown_of self.now) flow }
    {
        pair_of(self.core.table().pair_of_port(key_inside(flow)))
    }

    /// Returns the pair by which the packet inside the error came in.
    fn pair_in(&self, flow: ErrorFlow) -> Result<Pair, Reason>
        ensures { result ≡ pair_in_of (shown_of self.now) flow }
    {
        pair_of(self.core.table().port_of(endpoint_inside(flow)))
    }

    /// Appends the frame by which an error is passed on to the page.
    fn pass_frame(
        &self,
        page: &mut OutputBuffer,
        by: &Translation,
        next: Mac,
        bytes: &[u8],
        packet: &ErrorPacket,
    )
        requires passable { IsPassable bytes.now }
        requires read { packet.now ≡ error_in bytes.now }
        requires frames { 1 ≤ page.old.room.frames }
        requires octets { beyond (length bytes.now) ≤ page.old.room.octets }
        ensures scene { scene_on self.now page.new
            ≡ framed (scene_on self.now page.old) (exit_by by.now)
            (passed_frame self.now.networks by.now next bytes.now) }
        ensures room { page.old.room ≡ record page.new.room {
          frames = page.new.room.frames + 1;
          octets = page.old.room.octets;
        } }
        ensures octets { page.old.room.octets
            ≤ page.new.room.octets + beyond (length bytes.now) }
    {
        let frame = PassedFrame {
            networks: &self.networks,
            by,
            next,
            bytes,
            packet,
        };
        page.make_whole_frame(by.direction().exit(), &frame);
    }

    /// Passes an error on at once. Needs capacity for two frames on the page: the error, and an ARP
    /// request after it.
    fn pass(
        &mut self,
        page: &mut OutputBuffer,
        bytes: &[u8],
        packet: ErrorPacket,
        by: Translation,
        next: Mac,
    )
        requires passable { IsPassable bytes.now }
        requires read { packet ≡ error_in bytes.now }
        requires room { HasRoomFor (and_octets (frames_alone 2) (length bytes.now)) self.old
            page.old }
        ensures scene { (side : OnSide) → scene_on self.new page.new
            ≡ by_error_plan (scene_on self.old page.old) side bytes.now packet.flow
            (Send by next) }
        ensures link { self.new.link ≡ self.old.link }
        ensures spends { Spends (and_octets (frames_alone 2) (length bytes.now)) self.old
            page.old self.new page.new }
    {
        self.pass_frame(page, &by, next, bytes, &packet);
        let hop = by.next_hop(&self.networks, packet.flow.destination);
        self.ask_behind(page, by.direction().exit(), hop);
    }

    /// Keeps an error until its next hop is known, and sends the ARP request for it.
    fn ask_for_error(
        &mut self,
        page: &mut OutputBuffer,
        flow: ErrorFlow,
        by: Translation,
        hop: Ip,
        copy: HeldPacket,
    )
        requires place { has_place self.old.kept copy.wait ≡ true }
        requires since { copy.since ≡ self.old.moment }
        requires asked { copy.asked ≡ self.old.moment }
        requires wait { copy.wait ≡ Hop (exit_by by) hop }
        requires room { HasRoomFor (frames_alone 2) self.old page.old }
        ensures scene { scene_on self.new page.new
            ≡ by_error_plan (scene_on self.old page.old) copy.side copy.bytes flow (Ask by hop) }
        ensures link { self.new.link ≡ self.old.link }
        ensures spends { Spends (and_octets (frames_alone 2) (length copy.bytes)) self.old
            page.old self.new page.new }
    {
        self.kept.keep(copy);
        self.send_request(page, by.direction().exit(), hop);
    }

    /// Takes an error: it is passed on, waits for its next hop, or is dropped. An error that has to
    /// wait is copied. The Err `NoMemory` comes only where there is no memory for the copy; nothing
    /// has changed then.
    #[cold]
    pub fn take_error(
        &mut self,
        alloc: Global,
        page: &mut OutputBuffer,
        side: Side,
        bytes: &[u8],
        packet: ErrorPacket,
    ) -> Result<Outcome, NoMemory>
        requires passable { IsPassable bytes.now }
        requires read { packet ≡ error_in bytes.now }
        requires room { HasRoomFor (and_octets (frames_alone 2) (length bytes.now)) self.old
            page.old }
        ensures outcome { IfOk result (λ o. o
            ≡ outcome_by (error_plan (shown_of self.old) side packet.flow packet.size)) }
        ensures scene { OnOk result (scene_on self.new page.new
            ≡ error_taken (scene_on self.old page.old) side bytes.now packet.flow) }
        ensures err { OnErr result (scene_on self.new page.new ≡ scene_on self.old page.old) }
        ensures waits { OnErr result
            (outcome_by (error_plan (shown_of self.old) side packet.flow packet.size)
            ≡ Waiting) }
        ensures refused { OnErr result (LacksCopy (length bytes.now)) }
        ensures link { self.new.link ≡ self.old.link }
        ensures spends { Spends (and_octets (frames_alone 2) (length bytes.now)) self.old
            page.old self.new page.new }
    {
        limits_law();
        match self.plan_error(side, packet) {
            Ok(Plan::Send { by, next }) => {
                self.pass(page, bytes, packet, by, next);
                Ok(Outcome::Sent)
            }
            Ok(Plan::Ask { by, hop }) => {
                let wait = WaitsFor::Hop(by.direction().exit(), hop);
                let copy = self.kept.copy(alloc, side, bytes, self.moment, wait)?;
                self.ask_for_error(page, packet.flow, by, hop, copy);
                Ok(Outcome::Waiting)
            }
            Ok(Plan::AskAgain { by, hop }) => {
                self.ask_again(page, by.direction().exit(), hop);
                Ok(Outcome::Dropped(Reason::CannotWait))
            }
            Ok(Plan::Wait(_)) => unreachable!(),
            Err(reason) => Ok(Outcome::Dropped(reason)),
        }
    }

    /// Takes a kept error, which was read again.
    pub(crate) fn take_error_again(
        &mut self,
        page: &mut OutputBuffer,
        reading: ErrorPacket,
        packet: HeldPacket,
    )
        requires passable { IsPassable packet.bytes }
        requires read { reading ≡ error_in packet.bytes }
        requires room { HasRoomFor (and_octets (frames_alone 2) (length packet.bytes)) self.old
            page.old }
        ensures scene { scene_on self.new page.new
            ≡ error_taken (scene_on self.old page.old) packet.side packet.bytes reading.flow }
        ensures link { self.new.link ≡ self.old.link }
        ensures spends { Spends (and_octets (frames_alone 2) (length packet.bytes)) self.old
            page.old self.new page.new }
    {
        match self.plan_error(side_of(&packet), reading) {
            Ok(Plan::Send { by, next }) => {
                self.pass(page, bytes_of(&packet), reading, by, next);
                self.kept.reuse(packet);
            }
            Ok(Plan::Ask { by, hop }) => {
                let wait = WaitsFor::Hop(by.direction().exit(), hop);
                let copy = packet.again(self.moment, wait);
                self.ask_for_error(page, reading.flow, by, hop, copy);
            }
            Ok(Plan::AskAgain { by, hop }) => self.ask_again(page, by.direction().exit(), hop),
            Ok(Plan::Wait(_)) => unreachable!(),
            Err(_) => {}
        }
    }
}
