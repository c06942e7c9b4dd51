//! ICMP errors of the gateway's own, to the source of a packet that is dropped (RFC 792; RFC 1812,
//! sections 4.3.2 and 5.3.1).
ghost use Rattle.std.specs.Prelude.{◌≡◌, ◌≢◌, ◌≤◌, ◌+◌, true, length};
ghost use Rattle.frames.specs.Frame.{frame_of};
ghost use Rattle.interfaces.specs.Stations.{with_complaint};
ghost use Rattle.interfaces.specs.Tallies.{may_complain};
ghost use Rattle.packet_rules.specs.Asked.{IsWhole};
ghost use Rattle.packet_rules.specs.declared.reasons.Reason.TheVariants.{TooLong, TtlOver};
ghost use Rattle.packet_rules.specs.Networks.{network_of};
ghost use Rattle.packet_rules.specs.Own.{complaint_frame};
ghost use Rattle.spec_step.specs.Parts.{complained_to, counted, framed, refused, sender_in};
ghost use Rattle.spec_step.specs.Shown.{station_on, with_station};
ghost use Rattle.spec_step.specs.Verdict.{next_back};
ghost use Rattle.forwarder.specs.Forwarder.{scene_on, shown_of};
ghost use Rattle.forwarder.specs.Room.{HasRoomFor, Spends, frames_alone};

use crate::Forwarder;
use crate::outgoing::OwnComplaint;
use addresses::{Ip, Mac};
use ipv4::Ipv4View;
use nat_types::Side;
use output::OutputBuffer;
use packet_rules::{Complaint, Reason, complaint_of, next_hop_back};

/// Returns the bytes after a frame's Ethernet header.
fn body_of(bytes: &[u8]) -> &[u8]
    requires { 14 ≤ length bytes.now }
    ensures { result.now ≡ (frame_of bytes.now).body }
{
    &bytes[14..]
}

/// Returns the source address of the packet in a frame that is known to have one.
fn sender_of(bytes: &[u8]) -> Ip
    requires { IsWhole bytes.now }
    ensures { result ≡ sender_in bytes.now }
{
    match Ipv4View::parse(body_of(bytes)) {
        Ok(packet) => packet.source(),
        Err(_fault) => unreachable!(),
    }
}

impl Forwarder {
    /// Whether one more error may be sent at a side in this second.
    fn may_complain(&self, side: Side) -> bool
        ensures { result
            ≡ may_complain self.now.moment (station_on (shown_of self.now) side).said }
    {
        self.station(side).may_complain(self.moment)
    }

    /// Counts an error that was sent at a side.
    fn count_complaint(&mut self, side: Side)
        requires may { may_complain self.old.moment (station_on (shown_of self.old) side).said
            ≡ true }
        ensures shown { shown_of self.new ≡ with_station (shown_of self.old) side
            (with_complaint (station_on (shown_of self.old) side) self.old.moment) }
        ensures core { self.new.core ≡ self.old.core }
        ensures link { self.new.link ≡ self.old.link }
        ensures kept { self.new.kept ≡ self.old.kept }
    {
        match side {
            Side::Inside => self.inside.count_complaint(self.moment),
            Side::Outside => self.outside.count_complaint(self.moment),
        }
    }

    /// Appends the frame of the error about a dropped packet to the page.
    fn complaint_frame(
        &self,
        page: &mut OutputBuffer,
        side: Side,
        bytes: &[u8],
        complaint: Complaint,
        next: Mac,
    )
        requires whole { IsWhole bytes.now }
        requires frames { 1 ≤ page.old.room.frames }
        ensures scene { scene_on self.now page.new ≡ framed (scene_on self.now page.old) side
            (complaint_frame (network_of self.now.networks side) complaint next bytes.now) }
        ensures room { page.old.room
            ≡ record page.new.room { frames = page.new.room.frames + 1 } }
    {
        let frame = OwnComplaint {
            network: self.networks.of(side),
            complaint,
            next,
            bytes,
        };
        page.make_frame(side, &frame);
    }

    /// Appends the frame of the error about a dropped packet to the page, and counts it.
    fn send_complaint(
        &mut self,
        page: &mut OutputBuffer,
        side: Side,
        bytes: &[u8],
        complaint: Complaint,
        next: Mac,
    )
        requires whole { IsWhole bytes.now }
        requires may { may_complain self.old.moment (station_on (shown_of self.old) side).said
            ≡ true }
        requires room { HasRoomFor (frames_alone 1) self.old page.old }
        ensures scene { let s = scene_on self.old page.old in
            let frame = complaint_frame (network_of self.old.networks side) complaint next bytes.now in
            scene_on self.new page.new ≡ counted (framed s side frame) side
            (with_complaint (station_on s.shown side) s.shown.moment) }
        ensures link { self.new.link ≡ self.old.link }
        ensures spends { Spends (frames_alone 1) self.old page.old self.new page.new }
    {
        self.complaint_frame(page, side, bytes, complaint, next);
        self.count_complaint(side);
    }

    /// Sends the error about a dropped packet, where its next hop is known and not too many were
    /// sent in this second. Needs capacity for two frames on the page: the error, and an ARP
    /// request after it.
    fn complain(&mut self, page: &mut OutputBuffer, side: Side, bytes: &[u8], complaint: Complaint)
        requires whole { IsWhole bytes.now }
        requires room { HasRoomFor (frames_alone 2) self.old page.old }
        ensures scene { scene_on self.new page.new
            ≡ complained_to (scene_on self.old page.old) side bytes.now complaint
            (next_back (shown_of self.old) side (sender_in bytes.now)) }
        ensures link { self.new.link ≡ self.old.link }
        ensures spends { Spends (frames_alone 2) self.old page.old self.new page.new }
    {
        let hop = next_hop_back(&self.networks, side, sender_of(bytes));
        match self.station(side).mac_of(hop, self.moment) {
            Some(next) => {
                if self.may_complain(side) {
                    self.send_complaint(page, side, bytes, complaint, next);
                    self.ask_behind(page, side, hop);
                }
            }
            None => {}
        }
    }

    /// Drops a packet that would have left at `exit`. Its source gets an ICMP error where the
    /// reason is one for which the gateway sends errors.
    #[cold]
    pub fn refuse_whole(
        &mut self,
        page: &mut OutputBuffer,
        side: Side,
        exit: Side,
        bytes: &[u8],
        reason: Reason,
    )
        requires whole { IsWhole bytes.now }
        requires room { HasRoomFor (frames_alone 2) self.old page.old }
        ensures scene { scene_on self.new page.new
            ≡ refused (scene_on self.old page.old) side exit bytes.now reason }
        ensures link { self.new.link ≡ self.old.link }
        ensures spends { Spends (frames_alone 2) self.old page.old self.new page.new }
    {
        match reason {
            Reason::TtlOver | Reason::TooLong => {
                match complaint_of(&self.networks, side, exit, reason, bytes) {
                    Some(complaint) => self.complain(page, side, bytes, complaint),
                    None => {}
                }
            }
            _ => {}
        }
    }

    /// Drops a frame that can't be read further. The source of its packet may get an error where
    /// the time to live is over.
    pub(crate) fn refuse_unread(
        &mut self,
        page: &mut OutputBuffer,
        side: Side,
        bytes: &[u8],
        reason: Reason,
    )
        requires over { reason ≡ TtlOver → IsWhole bytes.now }
        requires fits { reason ≢ TooLong }
        requires room { HasRoomFor (frames_alone 2) self.old page.old }
        ensures scene { scene_on self.new page.new
            ≡ refused (scene_on self.old page.old) side side bytes.now reason }
        ensures link { self.new.link ≡ self.old.link }
        ensures spends { Spends (frames_alone 2) self.old page.old self.new page.new }
    {
        match reason {
            Reason::TtlOver => self.refuse_whole(page, side, side, bytes, reason),
            _ => {}
        }
    }
}
