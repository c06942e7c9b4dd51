//! Frames that came in.
ghost use Rattle.std.specs.Prelude.{◌≡◌, ◌≤◌, IfOk, Ok, OnErr, OnOk, length};
ghost use Rattle.vrrp_states.specs.Table.{IsMoment};
ghost use Rattle.packet_rules.specs.Steps.{Carries};
ghost use Rattle.spec_step.specs.declared.events.Outcome.TheVariants.{Waiting};
ghost use Rattle.spec_step.specs.Steps.{FrameDoes};
ghost use Rattle.spec_step.specs.Verdict.{outcome_read};
ghost use Rattle.forwarder.specs.Forwarder.{scene_on, shown_of};
ghost use Rattle.forwarder.specs.Room.{HasRoomFor};
ghost use Rattle.gateway.specs.Lacks.{WasUncopied};
ghost use Rattle.gateway.specs.Rooms.{reading_needs};

use crate::NoMemory;
use crate::routers::{Cue, cue_router};
use forwarder::Forwarder;
use nat_types::Side;
use output::OutputBuffer;
use packet_rules::Reading;
use spec_step::Outcome;
use std::alloc::Global;

/// Takes a frame that was read. The Err `NoMemory` comes only where the packet has to wait and
/// there is no memory for its copy; nothing has changed then. No other function unfolds
/// `WasUncopied`.
#[inline(always)]
#[tactic(auto, unfolding(crate::specs::Lacks::WasUncopied))]
pub(crate) fn take_reading(
    alloc: Global,
    forwarder: &mut Forwarder,
    page: &mut OutputBuffer,
    side: Side,
    bytes: &[u8],
    reading: Reading,
) -> Result<Outcome, NoMemory>
    requires carries { Carries side bytes.now reading }
    requires moment { IsMoment forwarder.old.moment }
    requires room { HasRoomFor (reading_needs reading (length bytes.now) forwarder.old)
        forwarder.old page.old }
    ensures outcome { IfOk result (λ o. o
        ≡ outcome_read (shown_of forwarder.old) side (Ok reading)) }
    ensures does { OnOk result (FrameDoes (scene_on forwarder.old page.old) side bytes.now
        (Ok reading) (scene_on forwarder.new page.new)) }
    ensures datagrams { page.new.room.datagrams ≡ page.old.room.datagrams }
    ensures err { OnErr result (scene_on forwarder.new page.new
        ≡ scene_on forwarder.old page.old) }
    ensures waits { OnErr result
        (outcome_read (shown_of forwarder.old) side (Ok reading) ≡ Waiting) }
    ensures refused { OnErr result (WasUncopied (shown_of forwarder.old) side bytes.now) }
{
    match reading {
        Reading::Arp(packet) => {
            forwarder.take_arp(page, side, &packet);
            Ok(Outcome::Done)
        }
        Reading::Advert(advert, from) => {
            cue_router(forwarder, page, side, Cue::Heard(advert, from));
            Ok(Outcome::Done)
        }
        Reading::Packet(packet) => forwarder.take_packet(alloc, page, side, bytes, packet),
        Reading::Error(packet) => forwarder.take_error(alloc, page, side, bytes, packet),
        Reading::Asked(echo) => forwarder.take_echo(alloc, page, side, bytes, echo),
    }
}
