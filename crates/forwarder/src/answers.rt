//! Echos to the gateway itself (RFC 1122, section 3.2.2.6): the plan of an answer, and the answer.
ghost use Rattle.std.specs.Prelude.{◌≡◌, ◌≤◌, ◌+◌, true, IfOk, OnErr, OnOk, Ok, length};
ghost use Rattle.frames.specs.Frame.{frame_of};
ghost use Rattle.interfaces.specs.Stations.{with_reply};
ghost use Rattle.interfaces.specs.Tallies.{may_reply};
ghost use Rattle.addresses.specs.declared.internet.Ip.{Ip as Address};
ghost use Rattle.waiting.specs.declared.waits.WaitsFor.TheVariants.{Hop};
ghost use Rattle.waiting.specs.Memory.{LacksCopy};
ghost use Rattle.waiting.specs.Packets.{beyond, has_place};
ghost use Rattle.packet_rules.specs.Asked.{IsAskable, asked_of};
ghost use Rattle.packet_rules.specs.Networks.{network_of};
ghost use Rattle.packet_rules.specs.Own.{answer_frame as own_answer};
ghost use Rattle.spec_step.specs.Parts.{by_reply, counted, echo_taken, framed};
ghost use Rattle.spec_step.specs.declared.events.Outcome.TheVariants.{Waiting};
ghost use Rattle.spec_step.specs.declared.plans.Reply.TheVariants.{Ask, Send};
ghost use Rattle.spec_step.specs.Shown.{station_on, with_station};
ghost use Rattle.spec_step.specs.Verdict.{hop_back, if_reply_fits, next_back, outcome_reply, reply_to, reply_via};
ghost use Rattle.forwarder.specs.Forwarder.{scene_on, shown_of};
ghost use Rattle.forwarder.specs.Room.{HasRoomFor, Spends, and_octets, frames_alone};

use crate::Forwarder;
use crate::outgoing::OwnAnswer;
use crate::takings::{bytes_of, side_of};
use addresses::{Ip, Mac};
use nat_types::{NoMemory, Side};
use output::OutputBuffer;
use packet_rules::{Asked, Reason, limits_law, may_answer, next_hop_back};
use spec_step::{Outcome, Reply};
use std::alloc::Global;
use waiting::{HeldPacket, WaitsFor};

/// Returns the reply, or the Err `TooLong` where an answer that would be sent or wait is too long
/// for its side.
fn if_reply_fits(fits: bool, reply: Reply) -> Result<Reply, Reason>
    ensures { result ≡ if_reply_fits fits reply }
{
    match reply {
        Reply::AskAgain { .. } => Ok(reply),
        Reply::Send { .. } | Reply::Ask { .. } => {
            if fits {
                Ok(reply)
            } else {
                Err(Reason::TooLong)
            }
        }
    }
}

impl Forwarder {
    /// Returns the plan of an Echo's answer, or why the Echo is dropped. Nothing changes.
    fn plan_reply(&self, side: Side, echo: Asked) -> Result<Reply, Reason>
        ensures { result ≡ reply_to (shown_of self.now) side echo }
    {
        if !may_answer(&self.networks, side, echo.source) {
            Err(Reason::NoBinding)
        } else if !self.may_reply(side) {
            Err(Reason::TooMany)
        } else {
            let reply = self.reply_via(side, echo.source);
            if_reply_fits(self.fits_at(side, echo.size), reply)
        }
    }

    /// Returns the plan of an answer to this source: to be sent, or to wait for its next hop.
    fn reply_via(&self, side: Side, source: Ip) -> Reply
        ensures { let g = shown_of self.now in
            Ok result ≡ reply_via g side (hop_back g side source) (next_back g side source) }
    {
        let hop = next_hop_back(&self.networks, side, source);
        match self.station(side).mac_of(hop, self.moment) {
            Some(next) => Reply::Send { next },
            None => {
                if self.kept.has_place(WaitsFor::Hop(side, hop)) {
                    Reply::Ask { hop }
                } else {
                    Reply::AskAgain { hop }
                }
            }
        }
    }

    /// Whether one more Echo may be answered at a side in this second.
    fn may_reply(&self, side: Side) -> bool
        ensures { result ≡ may_reply self.now.moment (station_on (shown_of self.now) side).said }
    {
        self.station(side).may_reply(self.moment)
    }

    /// Counts an Echo that was answered at a side.
    fn count_reply(&mut self, side: Side)
        requires may { may_reply self.old.moment (station_on (shown_of self.old) side).said
            ≡ true }
        ensures shown { shown_of self.new ≡ with_station (shown_of self.old) side
            (with_reply (station_on (shown_of self.old) side) self.old.moment) }
        ensures core { self.new.core ≡ self.old.core }
        ensures link { self.new.link ≡ self.old.link }
        ensures kept { self.new.kept ≡ self.old.kept }
    {
        match side {
            Side::Inside => self.inside.count_reply(self.moment),
            Side::Outside => self.outside.count_reply(self.moment),
        }
    }

    /// Appends the frame that answers an Echo to the page.
    fn answer_frame(&self, page: &mut OutputBuffer, side: Side, bytes: &[u8], next: Mac)
        requires askable { IsAskable bytes.now }
        requires frames { 1 ≤ page.old.room.frames }
        requires octets { beyond (length bytes.now) ≤ page.old.room.octets }
        ensures scene { scene_on self.now page.new ≡ framed (scene_on self.now page.old) side
            (own_answer (network_of self.now.networks side) next bytes.now) }
        ensures room { page.old.room ≡ record page.new.room {
          frames = page.new.room.frames + 1;
          octets = page.old.room.octets;
        } }
        ensures octets { page.old.room.octets
            ≤ page.new.room.octets + beyond (length bytes.now) }
    {
        let frame = OwnAnswer {
            network: self.networks.of(side),
            next,
            bytes,
        };
        page.make_whole_frame(side, &frame);
    }

    /// Appends the frame that answers an Echo to the page, and counts it.
    fn send_answer(&mut self, page: &mut OutputBuffer, side: Side, bytes: &[u8], next: Mac)
        requires askable { IsAskable bytes.now }
        requires may { may_reply self.old.moment (station_on (shown_of self.old) side).said
            ≡ true }
        requires room { HasRoomFor (and_octets (frames_alone 1) (length bytes.now)) self.old
            page.old }
        ensures scene { let s = scene_on self.old page.old in
            let frame = own_answer (network_of self.old.networks side) next bytes.now in
            scene_on self.new page.new ≡ counted (framed s side frame) side
            (with_reply (station_on s.shown side) s.shown.moment) }
        ensures link { self.new.link ≡ self.old.link }
        ensures spends { Spends (and_octets (frames_alone 1) (length bytes.now)) self.old
            page.old self.new page.new }
    {
        self.answer_frame(page, side, bytes, next);
        self.count_reply(side);
    }

    /// Answers an Echo at once. Needs capacity for two frames on the page: the answer, and an ARP
    /// request after it.
    fn reply(&mut self, page: &mut OutputBuffer, side: Side, bytes: &[u8], source: Ip, next: Mac)
        requires askable { IsAskable bytes.now }
        requires may { may_reply self.old.moment (station_on (shown_of self.old) side).said
            ≡ true }
        requires room { HasRoomFor (and_octets (frames_alone 2) (length bytes.now)) self.old
            page.old }
        ensures scene { scene_on self.new page.new
            ≡ by_reply (scene_on self.old page.old) side bytes.now source (Send next) }
        ensures link { self.new.link ≡ self.old.link }
        ensures spends { Spends (and_octets (frames_alone 2) (length bytes.now)) self.old
            page.old self.new page.new }
    {
        self.send_answer(page, side, bytes, next);
        let hop = next_hop_back(&self.networks, side, source);
        self.ask_behind(page, side, hop);
    }

    /// Keeps an Echo until the next hop of its answer is known, and sends the ARP request for it.
    fn ask_for_reply(&mut self, page: &mut OutputBuffer, side: Side, hop: Ip, copy: HeldPacket)
        requires place { has_place self.old.kept copy.wait ≡ true }
        requires side { copy.side ≡ side }
        requires since { copy.since ≡ self.old.moment }
        requires asked { copy.asked ≡ self.old.moment }
        requires wait { copy.wait ≡ Hop side hop }
        requires room { HasRoomFor (frames_alone 1) self.old page.old }
        ensures scene { (source : Address) → scene_on self.new page.new
            ≡ by_reply (scene_on self.old page.old) side copy.bytes source (Ask hop) }
        ensures link { self.new.link ≡ self.old.link }
        ensures spends { Spends (and_octets (frames_alone 1) (length copy.bytes)) self.old
            page.old self.new page.new }
    {
        self.kept.keep(copy);
        self.send_request(page, side, hop);
    }

    /// Takes an Echo to the gateway itself: it is answered, waits for the next hop of its answer,
    /// or is dropped. An Echo that has to wait is copied. The Err `NoMemory` comes only where there
    /// is no memory for the copy; nothing has changed then.
    #[cold]
    pub fn take_echo(
        &mut self,
        alloc: Global,
        page: &mut OutputBuffer,
        side: Side,
        bytes: &[u8],
        echo: Asked,
    ) -> Result<Outcome, NoMemory>
        requires askable { IsAskable bytes.now }
        requires read { echo ≡ asked_of (frame_of bytes.now).body }
        requires room { HasRoomFor (and_octets (frames_alone 2) (length bytes.now)) self.old
            page.old }
        ensures outcome { IfOk result (λ o. o
            ≡ outcome_reply (reply_to (shown_of self.old) side echo)) }
        ensures scene { OnOk result (scene_on self.new page.new
            ≡ echo_taken (scene_on self.old page.old) side bytes.now echo) }
        ensures err { OnErr result (scene_on self.new page.new ≡ scene_on self.old page.old) }
        ensures waits { OnErr result
            (outcome_reply (reply_to (shown_of self.old) side echo) ≡ Waiting) }
        ensures refused { OnErr result (LacksCopy (length bytes.now)) }
        ensures link { self.new.link ≡ self.old.link }
        ensures spends { Spends (and_octets (frames_alone 2) (length bytes.now)) self.old
            page.old self.new page.new }
    {
        limits_law();
        match self.plan_reply(side, echo) {
            Ok(Reply::Send { next }) => {
                self.reply(page, side, bytes, echo.source, next);
                Ok(Outcome::Sent)
            }
            Ok(Reply::Ask { hop }) => {
                let wait = WaitsFor::Hop(side, hop);
                let copy = self.kept.copy(alloc, side, bytes, self.moment, wait)?;
                self.ask_for_reply(page, side, hop, copy);
                Ok(Outcome::Waiting)
            }
            Ok(Reply::AskAgain { hop }) => {
                self.ask_again(page, side, hop);
                Ok(Outcome::Dropped(Reason::CannotWait))
            }
            Err(reason) => {
                self.refuse_whole(page, side, side, bytes, reason);
                Ok(Outcome::Dropped(reason))
            }
        }
    }

    /// Takes a kept Echo, which was read again.
    pub(crate) fn take_echo_again(
        &mut self,
        page: &mut OutputBuffer,
        echo: Asked,
        packet: HeldPacket,
    )
        requires askable { IsAskable packet.bytes }
        requires read { echo ≡ asked_of (frame_of packet.bytes).body }
        requires room { HasRoomFor (and_octets (frames_alone 2) (length packet.bytes)) self.old
            page.old }
        ensures scene { scene_on self.new page.new
            ≡ echo_taken (scene_on self.old page.old) packet.side packet.bytes echo }
        ensures link { self.new.link ≡ self.old.link }
        ensures spends { Spends (and_octets (frames_alone 2) (length packet.bytes)) self.old
            page.old self.new page.new }
    {
        let side = side_of(&packet);
        let bytes = bytes_of(&packet);
        match self.plan_reply(side, echo) {
            Ok(Reply::Send { next }) => {
                self.reply(page, side, bytes, echo.source, next);
                self.kept.reuse(packet);
            }
            Ok(Reply::Ask { hop }) => {
                let copy = packet.again(self.moment, WaitsFor::Hop(side, hop));
                self.ask_for_reply(page, side, hop, copy);
            }
            Ok(Reply::AskAgain { hop }) => self.ask_again(page, side, hop),
            Err(reason) => self.refuse_whole(page, side, side, bytes, reason),
        }
    }
}
