//! Datagrams of the other gateway.
ghost use Rattle.std.specs.Prelude.{◌≡◌, ◌≤◌, ℕ, [], Ok, false, true, length, vec_capacity};
ghost use Rattle.std.specs.Prelude.{if◌then◌else◌};
ghost use Rattle.link.specs.declared.datagrams.Datagram.{Datagram};
ghost use Rattle.link.specs.declared.datagrams.TheConstants.{RECORDS_IN_A_DATAGRAM};
ghost use Rattle.link.specs.Link.{free_places, is_restart, occupied, taking};
ghost use Rattle.link.specs.Reading.{reading};
ghost use Rattle.spec_binding.specs.Resets.{restart_batch};
ghost use Rattle.bindings.specs.Ports.{key_count};
ghost use Rattle.vrrp_states.specs.Table.{IsMoment};
ghost use Rattle.spec_step.specs.Founding.{link_places};
ghost use Rattle.spec_step.specs.Parts.{datagram_taken, reset as reset_of};
ghost use Rattle.spec_step.specs.Steps.{outcome_heard};
ghost use Rattle.forwarder.specs.Forwarder.{scene_on, shown_of};
ghost use Rattle.forwarder.specs.Room.{HasRoomFor, Spends, and_kept, places_for_answers};
ghost use Rattle.gateway.specs.Rooms.{records_need, restart_needs, waiting_needs};

use crate::records::take_records;
use arrayvec::ArrayVec;
use forwarder::Forwarder;
use link::limits_law;
use output::OutputBuffer;
use packet_rules::Reason;
use spec_step::Outcome;
use waiting::HeldPacket;

/// Follows a restart of the peer: the core begins anew, and the packets that waited for pairs are
/// taken again. `list` is an empty list with capacity for all packets that wait.
fn reset(forwarder: &mut Forwarder, page: &mut OutputBuffer, list: Vec<HeldPacket>)
    requires empty { list.items ≡ [] }
    requires list { length forwarder.old.kept ≤ vec_capacity list }
    requires begins { occupied forwarder.old.link ≡ 0 }
    requires acknowledged { forwarder.old.link.acknowledged ≡ 0 }
    requires places { forwarder.old.link.capacity
        ≡ link_places forwarder.old.core.table.zero forwarder.old.core.table.one }
    requires room { HasRoomFor (and_kept (waiting_needs forwarder.old) forwarder.old)
        forwarder.old page.old }
    ensures scene { scene_on forwarder.new page.new ≡ reset_of (scene_on forwarder.old page.old) }
    ensures spends { Spends (waiting_needs forwarder.old) forwarder.old page.old
        forwarder.new page.new }
    ensures places { places_for_answers ≤ free_places forwarder.new.link }
    ensures moment { forwarder.new.moment ≡ forwarder.old.moment }
{
    limits_law();
    forwarder.core.recall();
    let mut notes = page.take_notes();
    let now = forwarder.moment;
    forwarder
        .core
        .peer_restarted(&mut forwarder.link, now, &mut notes);
    page.put_notes(notes);
    forwarder.release_all(page, list);
}

/// Follows a restart of the peer (`reset`), where there was one.
fn reset_where(
    forwarder: &mut Forwarder,
    page: &mut OutputBuffer,
    restarted: bool,
    list: Vec<HeldPacket>,
)
    requires empty { list.items ≡ [] }
    requires list { length forwarder.old.kept ≤ vec_capacity list }
    requires begins { restarted ≡ true → occupied forwarder.old.link ≡ 0 }
    requires acknowledged { restarted ≡ true → forwarder.old.link.acknowledged ≡ 0 }
    requires places { forwarder.old.link.capacity
        ≡ link_places forwarder.old.core.table.zero forwarder.old.core.table.one }
    requires room { HasRoomFor (and_kept (waiting_needs forwarder.old) forwarder.old)
        forwarder.old page.old }
    ensures scene { let s = scene_on forwarder.old page.old
        in scene_on forwarder.new page.new ≡ (if restarted then reset_of s else s) }
    ensures spends { Spends (waiting_needs forwarder.old) forwarder.old page.old
        forwarder.new page.new }
    ensures places { (more : ℕ) → more ≤ places_for_answers
        → more ≤ free_places forwarder.old.link
        → more ≤ free_places forwarder.new.link }
    ensures moment { forwarder.new.moment ≡ forwarder.old.moment }
{
    if restarted {
        reset(forwarder, page, list);
    }
}

/// Takes a datagram that may begin a new session, or drops it. `list` is an empty list with
/// capacity for all packets that wait.
pub(crate) fn take_first(
    forwarder: &mut Forwarder,
    page: &mut OutputBuffer,
    bytes: &[u8],
    list: Vec<HeldPacket>,
) -> Outcome
    requires empty { list.items ≡ [] }
    requires list { length forwarder.old.kept ≤ vec_capacity list }
    requires moment { IsMoment forwarder.old.moment }
    requires places { forwarder.old.link.capacity
        ≡ link_places forwarder.old.core.table.zero forwarder.old.core.table.one }
    requires room { HasRoomFor (and_kept (restart_needs forwarder.old) forwarder.old)
        forwarder.old page.old }
    ensures scene { scene_on forwarder.new page.new
        ≡ datagram_taken (scene_on forwarder.old page.old) bytes.now }
    ensures outcome { result ≡ outcome_heard (taking forwarder.old.link (reading bytes.now)) }
    ensures datagrams { page.new.room.datagrams ≡ page.old.room.datagrams }
{
    let now = forwarder.moment;
    let mut records = ArrayVec::new();
    match forwarder.link.take_into(bytes, now, &mut records) {
        Ok(restarted) => {
            reset_where(forwarder, page, restarted, list);
            take_records(forwarder, page, records.as_slice());
            Outcome::Done
        }
        Err(_fault) => Outcome::Dropped(Reason::BadDatagram),
    }
}

/// Takes a datagram that can't begin a new session, or drops it.
pub(crate) fn take_further(
    forwarder: &mut Forwarder,
    page: &mut OutputBuffer,
    bytes: &[u8],
) -> Outcome
    requires further { (d : Datagram) → reading bytes.now ≡ Ok d
        → is_restart forwarder.old.link d ≡ false }
    requires moment { IsMoment forwarder.old.moment }
    requires room { HasRoomFor (and_kept (records_need RECORDS_IN_A_DATAGRAM) forwarder.old)
        forwarder.old page.old }
    ensures scene { scene_on forwarder.new page.new
        ≡ datagram_taken (scene_on forwarder.old page.old) bytes.now }
    ensures outcome { result ≡ outcome_heard (taking forwarder.old.link (reading bytes.now)) }
    ensures datagrams { page.new.room.datagrams ≡ page.old.room.datagrams }
{
    let now = forwarder.moment;
    let mut records = ArrayVec::new();
    match forwarder.link.take_into(bytes, now, &mut records) {
        Ok(_restarted) => {
            take_records(forwarder, page, records.as_slice());
            Outcome::Done
        }
        Err(_fault) => Outcome::Dropped(Reason::BadDatagram),
    }
}
