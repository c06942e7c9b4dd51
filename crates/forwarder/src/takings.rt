//! Packets that came in, and kept packets whose wait is over.
ghost use Rattle.std.specs.Prelude.{◌≡◌, ◌≤◌, [], IfOk, OnErr, OnOk, length, vec_capacity};
ghost use Rattle.waiting.specs.declared.waits.Ended.TheVariants.{One, AllPairs};
ghost use Rattle.waiting.specs.Memory.{LacksCopy};
ghost use Rattle.spec_binding.specs.WellFormed.{IsWellFormedEndpoint};
ghost use Rattle.packet_rules.specs.Flows.{packet_in, source_of};
ghost use Rattle.packet_rules.specs.Steps.{IsForwardable};
ghost use Rattle.spec_step.specs.declared.events.Outcome.TheVariants.{Waiting};
ghost use Rattle.spec_step.specs.Parts.{flow_taken, released, taken_again};
ghost use Rattle.spec_step.specs.Verdict.{outcome_by, plan_of};
ghost use Rattle.forwarder.specs.Forwarder.{scene_on, shown_of};
ghost use Rattle.forwarder.specs.Room.{HasRoomFor, LeavesPlaces, Spends, a_packet, all_for_pairs};
ghost use Rattle.forwarder.specs.Room.{and_kept, and_octets};

use crate::Forwarder;
use ipv4::Packet;
use nat_types::{NoMemory, Side};
use output::OutputBuffer;
use packet_rules::{Reading, Reason, limits_law};
use spec_step::{Outcome, Plan};
use std::alloc::Global;
use waiting::{Ended, HeldPacket, WaitsFor};

/// Reminds the prover that a packet that is translated comes from a port above 0; it does nothing
/// when it runs.
fn recall_source(bytes: &[u8], packet: Packet)
    requires forwardable { IsForwardable bytes.now }
    requires read { packet ≡ packet_in bytes.now }
    ensures { IsWellFormedEndpoint (source_of packet.flow) }
{
    let _ = packet.flow.source.0;
    let _ = packet.flow.source_port.0;
}

/// Returns the side on which a kept packet came in.
#[inline(always)]
pub(crate) fn side_of(packet: &HeldPacket) -> Side
    ensures { result ≡ packet.now.side }
{
    packet.side
}

/// Returns the frame of a kept packet, as it came.
#[inline(always)]
pub(crate) fn bytes_of(packet: &HeldPacket) -> &[u8]
    ensures { result.now ≡ packet.now.bytes }
{
    &packet.bytes
}

impl Forwarder {
    /// Takes a packet: it goes on, waits, or is dropped. A packet that has to wait is copied. The
    /// Err `NoMemory` comes only where there is no memory for the copy; nothing has changed then.
    #[inline(always)]
    pub fn take_packet(
        &mut self,
        alloc: Global,
        page: &mut OutputBuffer,
        side: Side,
        bytes: &[u8],
        packet: Packet,
    ) -> Result<Outcome, NoMemory>
        requires forwardable { IsForwardable bytes.now }
        requires read { packet ≡ packet_in bytes.now }
        requires room { HasRoomFor (and_octets a_packet (length bytes.now)) self.old page.old }
        ensures outcome { IfOk result (λ o. o
            ≡ outcome_by (plan_of (shown_of self.old) side packet.flow packet.size)) }
        ensures scene { OnOk result (scene_on self.new page.new
            ≡ flow_taken (scene_on self.old page.old) side bytes.now packet.flow) }
        ensures err { OnErr result (scene_on self.new page.new ≡ scene_on self.old page.old) }
        ensures waits { OnErr result
            (outcome_by (plan_of (shown_of self.old) side packet.flow packet.size)
            ≡ Waiting) }
        ensures refused { OnErr result (LacksCopy (length bytes.now)) }
        ensures spends { Spends (and_octets a_packet (length bytes.now)) self.old page.old
            self.new page.new }
        ensures places { LeavesPlaces self.old self.new }
    {
        limits_law();
        recall_source(bytes, packet);
        match self.plan(side, packet) {
            Ok(Plan::Send { by, next }) => {
                self.send(page, bytes, packet, by, next);
                Ok(Outcome::Sent)
            }
            Ok(Plan::Ask { by, hop }) => {
                let wait = WaitsFor::Hop(by.direction().exit(), hop);
                let copy = self.kept.copy(alloc, side, bytes, self.moment, wait)?;
                self.ask(page, packet.flow, by, hop, copy);
                Ok(Outcome::Waiting)
            }
            Ok(Plan::AskAgain { by, hop }) => {
                self.ask_again(page, by.direction().exit(), hop);
                Ok(Outcome::Dropped(Reason::CannotWait))
            }
            Ok(Plan::Wait(endpoint)) => {
                let wait = WaitsFor::Pair(endpoint);
                let copy = self.kept.copy(alloc, side, bytes, self.moment, wait)?;
                self.wait(page, packet.flow, copy);
                Ok(Outcome::Waiting)
            }
            Err(reason) => {
                self.refuse(page, side, bytes, packet.flow, reason);
                Ok(Outcome::Dropped(reason))
            }
        }
    }

    /// Takes a kept packet, which was read again.
    fn take_flow_again(&mut self, page: &mut OutputBuffer, reading: Packet, packet: HeldPacket)
        requires forwardable { IsForwardable packet.bytes }
        requires read { reading ≡ packet_in packet.bytes }
        requires room { HasRoomFor (and_octets a_packet (length packet.bytes)) self.old page.old }
        ensures scene { scene_on self.new page.new
            ≡ flow_taken (scene_on self.old page.old) packet.side packet.bytes reading.flow }
        ensures spends { Spends (and_octets a_packet (length packet.bytes)) self.old page.old
            self.new page.new }
        ensures places { LeavesPlaces self.old self.new }
    {
        recall_source(bytes_of(&packet), reading);
        let flow = reading.flow;
        match self.plan(side_of(&packet), reading) {
            Ok(Plan::Send { by, next }) => {
                self.send(page, bytes_of(&packet), reading, by, next);
                self.kept.reuse(packet);
            }
            Ok(Plan::Ask { by, hop }) => {
                let wait = WaitsFor::Hop(by.direction().exit(), hop);
                let copy = packet.again(self.moment, wait);
                self.ask(page, flow, by, hop, copy);
            }
            Ok(Plan::AskAgain { by, hop }) => self.ask_again(page, by.direction().exit(), hop),
            Ok(Plan::Wait(endpoint)) => {
                let copy = packet.again(self.moment, WaitsFor::Pair(endpoint));
                self.wait(page, flow, copy);
            }
            Err(reason) => {
                self.refuse(page, side_of(&packet), bytes_of(&packet), flow, reason);
            }
        }
    }

    /// Takes a kept packet as if it came in now: its frame is read again from the first step on.
    fn take_again(&mut self, page: &mut OutputBuffer, packet: HeldPacket)
        requires room { HasRoomFor (and_octets a_packet (length packet.bytes)) self.old page.old }
        ensures scene { scene_on self.new page.new
            ≡ taken_again (scene_on self.old page.old) packet }
        ensures spends { Spends (and_octets a_packet (length packet.bytes)) self.old page.old
            self.new page.new }
        ensures places { LeavesPlaces self.old self.new }
    {
        match self.read_whole(side_of(&packet), bytes_of(&packet)) {
            Ok(Reading::Packet(reading)) => self.take_flow_again(page, reading, packet),
            Ok(Reading::Error(reading)) => self.take_error_again(page, reading, packet),
            Ok(Reading::Arp(_)) => {}
            Ok(Reading::Advert(_, _)) => {}
            Ok(Reading::Asked(echo)) => self.take_echo_again(page, echo, packet),
            Err(reason) => {
                self.refuse_unread(page, side_of(&packet), bytes_of(&packet), reason);
            }
        }
    }

    /// Ends the wait of the packet that waited for this, if one did, and takes it again.
    pub fn release_one(&mut self, page: &mut OutputBuffer, wait: WaitsFor)
        requires room { HasRoomFor (and_kept a_packet self.old) self.old page.old }
        ensures scene { scene_on self.new page.new
            ≡ released (scene_on self.old page.old) (One wait) }
        ensures spends { Spends a_packet self.old page.old self.new page.new }
        ensures places { LeavesPlaces self.old self.new }
    {
        match self.kept.take_one(wait) {
            Some(packet) => self.take_again(page, packet),
            None => {}
        }
    }

    /// Ends the waits of the packets that waited for pairs, and takes these again, in the order in
    /// which they were kept. `list` is an empty list with capacity for all packets that wait.
    pub fn release_all(&mut self, page: &mut OutputBuffer, list: Vec<HeldPacket>)
        requires empty { list.items ≡ [] }
        requires list { length self.old.kept ≤ vec_capacity list }
        requires room { HasRoomFor (and_kept all_for_pairs self.old) self.old page.old }
        ensures scene { scene_on self.new page.new
            ≡ released (scene_on self.old page.old) AllPairs }
        ensures spends { Spends all_for_pairs self.old page.old self.new page.new }
        ensures places { LeavesPlaces self.old self.new }
    {
        let mut ended = list;
        self.kept.take_ended(Ended::AllPairs, &mut ended);
        for packet in ended {
            self.take_again(page, packet);
        }
    }
}
