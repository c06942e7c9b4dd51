//! ARP packets that came in (RFC 826).
ghost use Rattle.std.specs.Prelude.{◌≡◌};
ghost use Rattle.interfaces.specs.Stations.{after_arp, teaches};
ghost use Rattle.spec_step.specs.Parts.{answered_by, arp_taken, waits_for_sender};
ghost use Rattle.spec_step.specs.Shown.{station_on, with_station};
ghost use Rattle.forwarder.specs.Forwarder.{scene_on, shown_of};
ghost use Rattle.forwarder.specs.Room.{HasRoomFor, LeavesPlaces, Spends, an_arp_packet, and_kept};
ghost use Rattle.forwarder.specs.Room.{frames_alone};

use crate::Forwarder;
use crate::outgoing::ArpReply;
use addresses::Mac;
use arp::ArpPacket;
use nat_types::Side;
use output::OutputBuffer;
use waiting::WaitsFor;

impl Forwarder {
    /// Whether a packet waits for the sender of an ARP packet, as its next hop on that side.
    fn waits_for_sender(&self, side: Side, packet: &ArpPacket) -> bool
        ensures { result ≡ waits_for_sender (shown_of self.now) side packet.now }
    {
        !self.kept.has_place(WaitsFor::Hop(side, packet.sender_ip))
    }

    /// Learns or renews the sender of a packet, where it is one that the interface learns, and
    /// returns whether it is. `waited_for` says whether a packet waits there for the sender.
    fn hear(&mut self, side: Side, packet: &ArpPacket, waited_for: bool) -> bool
        ensures taught { result
            ≡ teaches (station_on (shown_of self.old) side) packet.now waited_for }
        ensures shown { let station = station_on (shown_of self.old) side in
            shown_of self.new ≡ with_station (shown_of self.old) side
            (after_arp station packet.now waited_for self.old.moment) }
        ensures core { self.new.core ≡ self.old.core }
        ensures link { self.new.link ≡ self.old.link }
        ensures kept { self.new.kept ≡ self.old.kept }
    {
        match side {
            Side::Inside => self.inside.learn(packet, waited_for, self.moment),
            Side::Outside => self.outside.learn(packet, waited_for, self.moment),
        }
    }

    /// Appends the answer to a request to the page, where there is a hardware address to answer
    /// with.
    fn answer(&self, page: &mut OutputBuffer, side: Side, packet: &ArpPacket, mac: Option<Mac>)
        requires room { HasRoomFor (frames_alone 1) self.now page.old }
        ensures scene { scene_on self.now page.new
            ≡ answered_by (scene_on self.now page.old) side packet.now mac }
        ensures spends { Spends (frames_alone 1) self.now page.old self.now page.new }
    {
        match mac {
            Some(mac) => {
                let network = self.station(side).network();
                let answer = ArpReply {
                    network,
                    packet,
                    mac,
                };
                page.make_frame(side, &answer);
            }
            None => {}
        }
    }

    /// Takes an ARP packet: its sender may be learnt or renewed, and a request is answered. Where
    /// the sender was learnt or renewed, the packet that waited for its hardware address is taken
    /// again.
    #[cold]
    pub fn take_arp(&mut self, page: &mut OutputBuffer, side: Side, packet: &ArpPacket)
        requires room { HasRoomFor (and_kept an_arp_packet self.old) self.old page.old }
        ensures scene { scene_on self.new page.new
            ≡ arp_taken (scene_on self.old page.old) side packet.now }
        ensures spends { Spends an_arp_packet self.old page.old self.new page.new }
        ensures places { LeavesPlaces self.old self.new }
    {
        let mac = self.station(side).answer_to(packet);
        let waited_for = self.waits_for_sender(side, packet);
        let taught = self.hear(side, packet, waited_for);
        self.answer(page, side, packet, mac);
        if taught {
            self.release_one(page, WaitsFor::Hop(side, packet.sender_ip));
        }
    }
}
