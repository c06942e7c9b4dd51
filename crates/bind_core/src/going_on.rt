//! Going on without the peer: what a tick marks while the gateway is apart, and what it tells the
//! peer of afterwards.
ghost use Rattle.std.specs.Prelude.{◌≡◌, ◌+◌, ◌<◌, ◌≤◌, ◌++◌, ℕ, [], true, length, vec_len};
ghost use Rattle.std.specs.Prelude.{vec_capacity, Some, List, if◌then◌else◌};
ghost use Rattle.nat_types.specs.declared.pairs.Key.{Key as OutsidePort};
ghost use Rattle.nat_types.specs.declared.records.Record.{Record as Rec};
ghost use Rattle.spec_binding.specs.Machine.{Stands, Works};
ghost use Rattle.spec_binding.specs.Books.{is_apart as is_apart_at};
ghost use Rattle.spec_binding.specs.Rows.{alone_row, noted_by, answered, is_full};
ghost use Rattle.bindings.specs.declared.entries.Entry.{Entry as Known};
ghost use Rattle.bindings.specs.Entries.{is_pair, slot_of, translates};
ghost use Rattle.bindings.specs.Lists.{first_after};
ghost use Rattle.spec_binding.specs.Ledgers.{is_sought, sought_keys, go_on_all, ledger_after};
ghost use Rattle.bind_core.specs.Cores.{book_of, ledger_of};
ghost use Rattle.resync.specs.Batch.{CanBeSent};

use crate::Core;
use crate::deeds::{is_link_full, key_of};
use crate::rows::{is_paired, quiet, seek};
use bindings::{Entry, Table};
use link::Link;
use nat_types::{Key, Note};
use spec_binding::{
    Transition, alone_rows, alone_waits_for_nobody, alone_works, works_join, works_nothing,
};

/// Returns the next entry after a key to mark, where the gateway is apart, or else the next of
/// which the peer is to be told.
fn next_sought(table: &Table, apart: bool, last: Option<Key>) -> Option<Entry>
    ensures { result ≡ first_after (is_sought apart) last table.now.entries }
{
    if apart {
        table.waiting_after(last)
    } else {
        table.alone_after(last)
    }
}

/// Appends the keys of the entries to mark, where the gateway is apart, or else of those of which
/// the peer is to be told, by protocol (icmp first) and port.
fn append_sought(table: &Table, apart: bool, keys: &mut Vec<Key>)
    requires sent { CanBeSent table.now }
    requires room { vec_len keys.old + length table.now.entries ≤ vec_capacity keys.old }
    ensures items { keys.new.items ≡ keys.old.items ++ sought_keys apart table.now.entries }
    ensures capacity { vec_capacity keys.new ≡ vec_capacity keys.old }
{
    table.recall();
    let mut last = None;
    while let Some(entry) = next_sought(table, apart, last) {
        let key = key_of(&entry);
        keys.push_reserved(key);
        last = Some(key);
    }
}

impl Core {
    fn alone_row_of(&self, apart: bool, full: bool, key: Key) -> Transition
        ensures { result ≡ alone_row (book_of self.now) apart full key }
    {
        if is_paired(self.stage) {
            seek(apart, full, self.table.pair_of_port(key))
        } else {
            quiet()
        }
    }

    /// Lists the keys of the entries to mark, where the gateway is apart, or else of those of which
    /// the peer is to be told. Where there are none, no entry is looked at.
    fn list_sought(&mut self, apart: bool)
        ensures { self.new ≡ record self.old {
          idle = sought_keys apart self.old.table.entries;
        } }
    {
        self.table.recall();
        self.idle.clear();
        append_sought(&self.table, apart, &mut self.idle);
    }

    fn go_on(&mut self, apart: bool, key: Key, link: &mut Link, now: u64, notes: &mut Vec<Note>)
        requires reserved { vec_len notes.old < vec_capacity notes.old }
        ensures ledger { let row = alone_row (book_of self.old) apart (is_full link.old) key
            in ledger_of self.new ≡ ledger_after now row.change (ledger_of self.old) }
        ensures link { let row = alone_row (book_of self.old) apart (is_full link.old) key
            in link.new ≡ answered link.old row.answer }
        ensures notes { let row = alone_row (book_of self.old) apart (is_full link.old) key
            in notes.new.items ≡ notes.old.items ++ noted_by self.old.id now row.what }
        ensures ready { self.new.table.ready ≡ self.old.table.ready }
        ensures idle { self.new.idle ≡ self.old.idle }
        // Only a gateway that is apart notes anything.
        ensures len { vec_len notes.new ≤ vec_len notes.old + (if apart then 1 else 0) }
        ensures capacity { vec_capacity notes.new ≡ vec_capacity notes.old }
    {
        self.recall();
        alone_rows();
        let full = is_link_full(link);
        let row = self.alone_row_of(apart, full, key);
        self.perform(link, notes, now, row);
    }

    /// Goes on without the peer, or tells it so, in the table's order. Where the gateway is apart,
    /// each pair that waits for an answer is marked and noted: it translates, so no packet waits
    /// for a pair afterwards. Where it is neither apart nor lone, the peer is told of each pair
    /// that was made alone, except where the link is full. Where there is none of these, no pair is
    /// looked at.
    pub fn mark_or_tell(&mut self, link: &mut Link, now: u64, notes: &mut Vec<Note>)
        requires reserved { vec_len notes.old < vec_capacity notes.old }
        requires marks { is_apart_at (book_of self.old) link.old now ≡ true
            → vec_len notes.old + length self.old.table.entries < vec_capacity notes.old }
        ensures ledger { let apart = is_apart_at (book_of self.old) link.old now in
            let keys = sought_keys apart self.old.table.entries
            in ledger_of self.new
            ≡ (go_on_all apart now keys (ledger_of self.old) link.old).ledger }
        ensures link { let apart = is_apart_at (book_of self.old) link.old now in
            let keys = sought_keys apart self.old.table.entries
            in link.new ≡ (go_on_all apart now keys (ledger_of self.old) link.old).link }
        ensures notes { let apart = is_apart_at (book_of self.old) link.old now in
            let keys = sought_keys apart self.old.table.entries
            in notes.new.items ≡ notes.old.items
            ++ (go_on_all apart now keys (ledger_of self.old) link.old).notes }
        ensures translate { is_apart_at (book_of self.old) link.old now ≡ true
            → (key : OutsidePort) (x : Known) → slot_of self.new.table.entries key ≡ Some x
            → is_pair x.state ≡ true → translates x.state ≡ true }
        ensures ready { self.new.table.ready ≡ self.old.table.ready }
        ensures len { vec_len notes.new ≤ vec_len notes.old + length self.old.table.entries }
        ensures capacity { vec_capacity notes.new ≡ vec_capacity notes.old }
        ensures works { (h : List Rec) (n : ℕ) → Stands (book_of self.old) link.old h
            → let apart = is_apart_at (book_of self.old) link.old now in
            let keys = sought_keys apart self.old.table.entries in
            Works now [] [] (book_of self.old) link.old n (book_of self.new) link.new n
            (go_on_all apart now keys (ledger_of self.old) link.old).notes h }
    {
        self.recall();
        alone_works();
        alone_waits_for_nobody();
        works_join();
        works_nothing();
        let apart = self.is_apart(link, now);
        self.list_sought(apart);
        for i in 0..self.idle_count() {
            let key = self.idle_key_at(i);
            self.go_on(apart, key, link, now, notes);
        }
    }
}
