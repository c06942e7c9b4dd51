//! The records of the peer: the record table of a synced gateway, and the loading of another one.
ghost use Rattle.std.specs.Prelude.{◌≡◌, ◌+◌, ◌<◌, ◌≤◌, ◌++◌, ℕ, [], true, vec_len, vec_capacity};
ghost use Rattle.std.specs.Prelude.{false, List, ◌∷◌, suc};
ghost use Rattle.link.specs.Grammar.{IsWellFormedRecord};
ghost use Rattle.link.specs.Link.{free_places, needs_answer};
ghost use Rattle.nat_types.specs.declared.records.Record.{Record as Rec};
ghost use Rattle.spec_binding.specs.Machine.{Stands, Works, IsTurn};
ghost use Rattle.spec_binding.specs.Books.{is_synced as is_synced_at, is_lone as is_lone_at, load_of};
ghost use Rattle.spec_binding.specs.Rows.{is_takeable as is_takeable_in, proposed_row, install_row};
ghost use Rattle.spec_binding.specs.Rows.{told_row, grant_row, want_row, synced_row, noted_by};
ghost use Rattle.spec_binding.specs.Rows.{answered, row_of, unsynced_after, unsynced_what};
ghost use Rattle.spec_binding.specs.Rows.{behind, taken_answer, taken_behind, taken_ended, taken_what};
ghost use Rattle.bind_core.specs.Changes.{LivesOn};
ghost use Rattle.resync.specs.Loading.{loaded};
ghost use Rattle.spec_binding.specs.Ledgers.{ledger_after, lives_loaded, rests_for, taken_ledger};
ghost use Rattle.bind_core.specs.Cores.{book_of, core_behind, ledger_of};
ghost use Rattle.spec_pair.specs.Box.{Letter};

use crate::Core;
use crate::deeds::{lies_in_either, note};
use crate::grants::{choose_granted, higher, lower};
use crate::loads::{loading_of, stage_after};
use crate::rows::{accept, answering, ask, ending, gives_way, no, quiet, refuse, row, taking, yes};
use bindings::Entry;
use link::Link;
use nat_types::{Endpoint, Granted, Note, NoteKind, Pair, Record};
use spec_binding::{
    Change, Transition, answers_fit, books_keep, record_works, rows_fit, rows_leave,
};

impl Core {
    /// Whether a pair of the peer's may be taken: its key is the peer's and has no entry, and its
    /// endpoint has no Held pair.
    fn is_takeable(&self, pair: Pair) -> bool
        ensures { result ≡ is_takeable_in (book_of self.now) pair }
    {
        lies_in_either(self.bounds, pair.key.port)
            && !self.table.owns(pair.key.port)
            && self.table.pair_of_port(pair.key).is_none()
            && self.table.held_of(pair.endpoint).is_none()
    }

    fn proposed(&self, pair: Pair, other: Option<Entry>) -> Transition
        ensures { result ≡ proposed_row (book_of self.now) pair other }
    {
        match other {
            None => taking(pair),
            Some(entry) => {
                if gives_way(self.id, entry.state) {
                    let change = Change::Yield(entry.pair.key, pair);
                    let accept = Some(Record::Accept(pair.key));
                    let row = row(change, accept, Some(NoteKind::Retaken(pair)));
                    ending(pair.endpoint, row)
                } else {
                    answering(Record::Refuse(pair.key))
                }
            }
        }
    }

    fn install(&self, pair: Pair) -> Transition
        ensures { result ≡ install_row (book_of self.now) pair }
    {
        if self.is_takeable(pair) {
            self.proposed(pair, self.table.port_of(pair.endpoint))
        } else {
            answering(Record::Refuse(pair.key))
        }
    }

    fn told(&self, pair: Pair) -> Transition
        ensures { result ≡ told_row (book_of self.now) pair }
    {
        if self.is_takeable(pair) {
            taking(pair)
        } else {
            answering(Record::Refuse(pair.key))
        }
    }

    fn grant_taken(&self, granted: Granted) -> Transition
        ensures { result ≡ grant_row (book_of self.now) granted }
    {
        if self.wants {
            row(Change::Gain(granted), None, None)
        } else {
            quiet()
        }
    }

    fn want_taken(&self) -> Transition
        ensures { result ≡ want_row (book_of self.now) }
    {
        let highest = higher(self.bounds.zero.highest, self.bounds.one.highest);
        let lowest = lower(self.bounds.zero.lowest, self.bounds.one.lowest);
        self.recall();
        let granted = choose_granted(&self.table, lowest, highest, self.rules.ahead);
        row(Change::Give(granted), Some(Record::Grant(granted)), None)
    }

    /// Returns the row of a record at a gateway that is synced and has no batch to draw.
    fn synced_row_of(&self, entry: Record, rests: bool) -> Transition
        ensures { result ≡ synced_row (book_of self.now) rests entry }
    {
        match entry {
            Record::Install(pair) => self.install(pair),
            Record::Accept(key) => accept(self.table.pair_of_port(key)),
            Record::Refuse(key) => refuse(self.table.pair_of_port(key)),
            Record::Ask(key) => ask(key, rests, self.table.pair_of_port(key)),
            Record::Yes(key) => yes(self.table.pair_of_port(key)),
            Record::No(key) => no(self.table.pair_of_port(key)),
            Record::Want => self.want_taken(),
            Record::Grant(granted) => self.grant_taken(granted),
            Record::Tell(pair) => self.told(pair),
            Record::Begin | Record::Put(_) | Record::Done | Record::Owner { .. } => quiet(),
        }
    }

    /// Whether the record is an Ask of a pair that is idle, or came by Install or Tell and carried
    /// nothing since.
    fn rests(&self, entry: &Record, now: u64) -> bool
        ensures { result ≡ rests_for now (ledger_of self.now) entry.now }
    {
        match entry {
            Record::Ask(key) => self.table.idle(*key, now) || self.table.unused(*key),
            _ => false,
        }
    }

    /// Returns the row of a record at a gateway that is synced; nothing changes while its batch is
    /// being drawn.
    fn row_for(&self, entry: Record, now: u64) -> Transition
        ensures { let rests = rests_for now (ledger_of self.now) entry
            in result ≡ row_of (book_of self.now) rests entry }
    {
        if self.cursor.is_over() {
            let rests = self.rests(&entry, now);
            self.synced_row_of(entry, rests)
        } else {
            quiet()
        }
    }

    // ---- carried out

    /// Takes a record at a gateway that is synced, and returns the endpoint whose packets needn't
    /// wait any more.
    fn take_synced(
        &mut self,
        entry: Record,
        link: &mut Link,
        now: u64,
        notes: &mut Vec<Note>,
    ) -> Option<Endpoint>
        requires synced { is_synced_at self.old.stage ≡ true }
        requires formed { IsWellFormedRecord entry }
        requires ready { 0 < self.old.table.ready }
        requires places { needs_answer entry ≡ true → 0 < free_places link.old }
        requires reserved { vec_len notes.old < vec_capacity notes.old }
        ensures ended { let rests = rests_for now (ledger_of self.old) entry in
            let row = row_of (book_of self.old) rests entry
            in result ≡ row.ended }
        ensures core { let rests = rests_for now (ledger_of self.old) entry in
            let row = row_of (book_of self.old) rests entry
            in self.new ≡ core_behind now self.old link.old row }
        ensures link { let rests = rests_for now (ledger_of self.old) entry in
            let row = row_of (book_of self.old) rests entry
            in link.new ≡ answered (answered link.old row.answer)
            (behind (book_of self.old) link.old row).answer }
        ensures pasts { let rests = rests_for now (ledger_of self.old) entry in
            let row = row_of (book_of self.old) rests entry
            in LivesOn now row.change self.old.table self.new.table }
        ensures notes { let rests = rests_for now (ledger_of self.old) entry in
            let row = row_of (book_of self.old) rests entry
            in notes.new.items ≡ notes.old.items ++ noted_by self.old.id now row.what }
        ensures len { vec_len notes.new ≤ vec_len notes.old + 1 }
        ensures capacity { vec_capacity notes.new ≡ vec_capacity notes.old }
    {
        self.recall();
        rows_fit();
        rows_leave();
        answers_fit();
        books_keep();
        let row = self.row_for(entry, now);
        let ended = row.ended;
        self.carry_out(link, notes, now, row);
        ended
    }

    /// Takes a record at a gateway that isn't synced. A record out of its place changes nothing.
    fn load(&mut self, entry: Record, now: u64, notes: &mut Vec<Note>)
        requires unsynced { is_synced_at self.old.stage ≡ false }
        requires formed { IsWellFormedRecord entry }
        requires ready { 0 < self.old.table.ready }
        requires reserved { vec_len notes.old < vec_capacity notes.old }
        ensures book { book_of self.new ≡ unsynced_after (book_of self.old) entry }
        ensures notes { notes.new.items ≡ notes.old.items ++ noted_by self.old.id now
            (unsynced_what (book_of self.old) entry) }
        ensures lives { let load = loaded (load_of (book_of self.old)) entry
            in self.new.table.lives
            ≡ lives_loaded now entry self.old.table.entries self.old.table.lives load }
        ensures refresh { self.new.inward_refresh ≡ self.old.inward_refresh }
        ensures hashers { self.new.table.hashers ≡ self.old.table.hashers }
        ensures ready { self.old.table.ready ≤ self.new.table.ready + 1 }
        ensures len { vec_len notes.new ≤ vec_len notes.old + 1 }
        ensures capacity { vec_capacity notes.new ≡ vec_capacity notes.old }
    {
        books_keep();
        let loads = loading_of(&entry);
        match self.loading.take(&mut self.table, entry, now) {
            Ok(_) => {
                self.stage = stage_after(self.stage, loads.is_whole);
                note(notes, self.id, now, true, loads.what);
            }
            Err(_out_of_place) => {}
        }
    }

    /// Takes a record of the peer's. Returns the endpoint whose packets needn't wait for the peer
    /// any more, or None.
    pub fn take(
        &mut self,
        entry: Record,
        link: &mut Link,
        now: u64,
        notes: &mut Vec<Note>,
    ) -> Option<Endpoint>
        requires formed { IsWellFormedRecord entry }
        requires ready { 0 < self.old.table.ready }
        requires places { needs_answer entry ≡ true → 0 < free_places link.old }
        requires reserved { vec_len notes.old < vec_capacity notes.old }
        ensures ended { result
            ≡ taken_ended (book_of self.old) (rests_for now (ledger_of self.old) entry) entry }
        // Behind a Grant that brought a port, ports may be asked for again.
        ensures ledger { let rests = rests_for now (ledger_of self.old) entry in
            let more = taken_behind (book_of self.old) link.old rests entry in ledger_of self.new
            ≡ ledger_after now more.change (taken_ledger now (ledger_of self.old) entry) }
        ensures ready { self.old.table.ready ≤ self.new.table.ready + 1 }
        ensures link { let rests = rests_for now (ledger_of self.old) entry
            in link.new ≡ answered (answered link.old (taken_answer (book_of self.old) rests entry))
            (taken_behind (book_of self.old) link.old rests entry).answer }
        ensures pasts { is_synced_at self.old.stage ≡ true
            → let rests = rests_for now (ledger_of self.old) entry in
            LivesOn now (row_of (book_of self.old) rests entry).change self.old.table
            self.new.table }
        ensures notes { let rests = rests_for now (ledger_of self.old) entry
            in notes.new.items ≡ notes.old.items
            ++ noted_by self.old.id now (taken_what (book_of self.old) rests entry) }
        ensures len { vec_len notes.new ≤ vec_len notes.old + 1 }
        ensures capacity { vec_capacity notes.new ≡ vec_capacity notes.old }
        // The record is the next one of its letter (a datagram in flight); a lone gateway has none
        // to take.
        ensures works { (h : List Rec) (n : ℕ) (l : Letter) (offset : ℕ)
            → is_lone_at self.old.stage ≡ false → Stands (book_of self.old) link.old h
            → IsTurn link.old n l offset entry
            → let rests = rests_for now (ledger_of self.old) entry in
            Works now (l ∷ []) [] (book_of self.old) link.old n (book_of self.new) link.new
            (suc n) (noted_by self.old.id now (taken_what (book_of self.old) rests entry)) h }
    {
        self.recall();
        record_works();
        if self.is_synced() {
            self.take_synced(entry, link, now, notes)
        } else {
            self.load(entry, now, notes);
            None
        }
    }
}
