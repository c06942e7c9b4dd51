//! The frames that a gateway sends, each of which writes its bytes directly to the page.
ghost use Rattle.std.specs.Prelude.{◌≡◌, length, ⊤};
ghost use Rattle.arp.specs.declared.packets.TheConstants.{ARP_FRAME};
ghost use Rattle.packet_rules.specs.declared.complaints.TheConstants.{COMPLAINT_FRAME};
ghost use Rattle.packet_rules.specs.Arping.{answer_frame, request_frame};
ghost use Rattle.packet_rules.specs.Asked.{IsAskable, IsWhole};
ghost use Rattle.packet_rules.specs.Errors.{passed_frame};
ghost use Rattle.packet_rules.specs.Flows.{error_in, packet_in};
ghost use Rattle.packet_rules.specs.Frames.{sent_frame};
ghost use Rattle.packet_rules.specs.Own.{answer_frame as own_answer, complaint_frame};
ghost use Rattle.packet_rules.specs.Steps.{IsForwardable, IsPassable};

use addresses::{Ip, Mac};
use arp::ArpPacket;
use icmp::ErrorPacket;
use ipv4::Packet;
use output::WriteBytes;
use packet_rules::{
    Complaint, Network, Networks, Translation, append_answer, append_complaint, append_echo_reply,
    append_passed, append_request, append_sent,
};

/// A packet's frame, translated and sent on.
#[derive(Drop)]
pub(crate) struct SentFrame<'a> {
    pub networks: &'a Networks,
    pub by: &'a Translation,
    pub next: Mac,
    /// The bytes of the frame that came in.
    pub bytes: &'a [u8],
    /// The packet that was read from these bytes.
    pub packet: &'a Packet,
}

impl WriteBytes for SentFrame<'_> {
    ghost can_write = { λ f. IsForwardable f.bytes.now × (f.packet.now ≡ packet_in f.bytes.now) };

    ghost bytes = { λ f. sent_frame f.networks.now f.by.now f.next f.bytes.now };

    ghost room = { λ f. length f.bytes.now };

    #[inline(always)]
    fn write_to(&self, list: &mut Vec<u8>) {
        append_sent(
            list,
            self.networks,
            self.by,
            self.next,
            self.bytes,
            self.packet,
        );
    }
}

/// An ICMP error's frame, translated and passed on.
#[derive(Drop)]
pub(crate) struct PassedFrame<'a> {
    pub networks: &'a Networks,
    pub by: &'a Translation,
    pub next: Mac,
    /// The bytes of the frame that came in.
    pub bytes: &'a [u8],
    /// The error that was read from these bytes.
    pub packet: &'a ErrorPacket,
}

impl WriteBytes for PassedFrame<'_> {
    ghost can_write = { λ f. IsPassable f.bytes.now × (f.packet.now ≡ error_in f.bytes.now) };

    ghost bytes = { λ f. passed_frame f.networks.now f.by.now f.next f.bytes.now };

    ghost room = { λ f. length f.bytes.now };

    fn write_to(&self, list: &mut Vec<u8>) {
        append_passed(
            list,
            self.networks,
            self.by,
            self.next,
            self.bytes,
            self.packet,
        );
    }
}

/// The frame that answers an Echo to the gateway itself.
#[derive(Drop)]
pub(crate) struct OwnAnswer<'a> {
    pub network: Network,
    pub next: Mac,
    /// The bytes of the Echo's frame.
    pub bytes: &'a [u8],
}

impl WriteBytes for OwnAnswer<'_> {
    ghost can_write = { λ f. IsAskable f.bytes.now };

    ghost bytes = { λ f. own_answer f.network f.next f.bytes.now };

    ghost room = { λ f. length f.bytes.now };

    fn write_to(&self, list: &mut Vec<u8>) {
        append_echo_reply(list, &self.network, self.next, self.bytes);
    }
}

/// The frame of an ICMP error about a packet that is dropped.
#[derive(Drop)]
pub(crate) struct OwnComplaint<'a> {
    pub network: Network,
    pub complaint: Complaint,
    pub next: Mac,
    /// The bytes of the frame that is dropped.
    pub bytes: &'a [u8],
}

impl WriteBytes for OwnComplaint<'_> {
    ghost can_write = { λ f. IsWhole f.bytes.now };

    ghost bytes = { λ f. complaint_frame f.network f.complaint f.next f.bytes.now };

    ghost room = { λ _. COMPLAINT_FRAME };

    fn write_to(&self, list: &mut Vec<u8>) {
        append_complaint(list, &self.network, self.complaint, self.next, self.bytes);
    }
}

/// The frame of an ARP request for an address, a broadcast.
#[derive(Drop)]
pub(crate) struct Request {
    pub network: Network,
    pub hop: Ip,
}

impl WriteBytes for Request {
    ghost can_write = { λ _. ⊤ };

    ghost bytes = { λ f. request_frame f.network f.hop };

    ghost room = { λ _. ARP_FRAME };

    fn write_to(&self, list: &mut Vec<u8>) {
        append_request(list, &self.network, self.hop);
    }
}

/// The frame that answers an ARP request.
#[derive(Drop)]
pub(crate) struct ArpReply<'a> {
    pub network: Network,
    pub packet: &'a ArpPacket,
    /// The hardware address that is asked for.
    pub mac: Mac,
}

impl WriteBytes for ArpReply<'_> {
    ghost can_write = { λ _. ⊤ };

    ghost bytes = { λ f. answer_frame f.network f.packet.now f.mac };

    ghost room = { λ _. ARP_FRAME };

    fn write_to(&self, list: &mut Vec<u8>) {
        append_answer(list, &self.network, self.packet, self.mac);
    }
}
