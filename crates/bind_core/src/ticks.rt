//! The idle pairs of a tick: released one after the other, by the peer's leave or without it.
ghost use Rattle.std.specs.Prelude.{◌≡◌, ◌+◌, ◌<◌, ◌≤◌, ◌++◌, ℕ, [], true, length, vec_len};
ghost use Rattle.std.specs.Prelude.{vec_capacity, slice_get, Some, List, ◌||◌, nat_lt};
ghost use Rattle.nat_types.specs.declared.records.Record.{Record as Rec};
ghost use Rattle.spec_binding.specs.Machine.{Stands, Works};
ghost use Rattle.spec_binding.specs.Books.{is_apart as is_apart_at, is_lone as is_lone_at};
ghost use Rattle.spec_binding.specs.Rows.{noted_by, answered, idle_row};
ghost use Rattle.bindings.specs.Table.{alone_keys_of, idle_keys_of};
ghost use Rattle.bind_core.specs.Cores.{book_of, ledger_of, looked_at, may_end};
ghost use Rattle.bindings.specs.Entries.{is_alone, state_count};
ghost use Rattle.spec_binding.specs.Ledgers.{ledger_after, release_all, may_ask as may_ask_at};

use crate::Core;
use crate::deeds::is_reached;
use crate::rows::{is_lone, is_synced, quiet, release};
use link::Link;
use nat_types::{Key, Note};
use spec_binding::{
    Transition, answers_fit, books_keep, idle_works, rows_fit, works_join, works_nothing,
};

impl Core {
    fn idle_row_of(&self, ask: bool, key: Key) -> Transition
        ensures { result ≡ idle_row (book_of self.now) ask key }
    {
        if is_synced(self.stage) {
            release(is_lone(self.stage), ask, self.table.pair_of_port(key))
        } else {
            quiet()
        }
    }

    fn list_idle(&mut self, now: u64)
        ensures { let lone = is_lone_at self.old.stage
            in self.new ≡ record self.old { idle = idle_keys_of self.old.table lone now } }
    {
        self.table.recall();
        self.idle.clear();
        let lone = is_lone(self.stage);
        match self.table.idle_keys(lone, now, &mut self.idle) {
            Ok(()) => {}
            Err(_no_room) => unreachable!(),
        }
    }

    fn list_alone(&mut self, now: u64)
        ensures { self.new ≡ record self.old { idle = alone_keys_of self.old.table now } }
    {
        self.table.recall();
        self.idle.clear();
        match self.table.alone_keys(now, &mut self.idle) {
            Ok(()) => {}
            Err(_no_room) => unreachable!(),
        }
    }

    pub(crate) fn idle_key_at(&self, i: usize) -> Key
        requires { i < length self.now.idle }
        ensures { slice_get self.now.idle i ≡ Some result }
    {
        self.idle[i]
    }

    pub(crate) fn idle_count(&self) -> usize
        ensures { result ≡ length self.now.idle }
    {
        self.idle.len()
    }

    /// Whether the peer may be asked for an idle pair's end: the gateway isn't apart, the peer was
    /// heard at most 300 cs ago, and the link isn't full.
    fn may_ask(&self, link: &Link, now: u64) -> bool
        ensures { result ≡ may_ask_at now (book_of self.now) link.now }
    {
        !self.is_apart(link, now) && is_reached(link, now)
    }

    /// Whether an idle pair that the peer has too may end: the gateway is lone, or may ask the peer.
    fn may_end(&self, link: &Link, now: u64) -> bool
        ensures { result ≡ may_end self.now link.now now }
    {
        self.is_lone() || self.may_ask(link, now)
    }

    /// Whether any pair may be released: one that the peer has too may end, or the gateway has one
    /// of which the peer has nothing.
    fn may_release(&self, link: &Link, now: u64) -> bool
        ensures { result ≡ (may_end self.now link.now now
            || nat_lt 0 (state_count is_alone self.now.table.entries)) }
    {
        self.may_end(link, now) || self.table.alone_count() > 0
    }

    /// Lists the keys of the idle pairs that may be released. While none that the peer has too may
    /// end, these are Alone, and no other is looked at.
    fn list_looked_at(&mut self, link: &Link, now: u64)
        ensures { self.new ≡ record self.old { idle = looked_at self.old link.now now } }
    {
        if self.may_end(link, now) {
            self.list_idle(now);
        } else {
            self.list_alone(now);
        }
    }

    fn release(&mut self, key: Key, link: &mut Link, now: u64, notes: &mut Vec<Note>)
        requires reserved { vec_len notes.old < vec_capacity notes.old }
        ensures ledger { let ask = may_ask_at now (book_of self.old) link.old in
            let row = idle_row (book_of self.old) ask key
            in ledger_of self.new ≡ ledger_after now row.change (ledger_of self.old) }
        ensures link { let ask = may_ask_at now (book_of self.old) link.old in
            let row = idle_row (book_of self.old) ask key
            in link.new ≡ answered link.old row.answer }
        ensures notes { let ask = may_ask_at now (book_of self.old) link.old in
            let row = idle_row (book_of self.old) ask key
            in notes.new.items ≡ notes.old.items ++ noted_by self.old.id now row.what }
        ensures ready { self.new.table.ready ≡ self.old.table.ready }
        ensures idle { self.new.idle ≡ self.old.idle }
        ensures len { vec_len notes.new ≤ vec_len notes.old + 1 }
        ensures capacity { vec_capacity notes.new ≡ vec_capacity notes.old }
    {
        self.recall();
        rows_fit();
        answers_fit();
        books_keep();
        let ask = self.may_ask(link, now);
        let row = self.idle_row_of(ask, key);
        self.perform(link, notes, now, row);
    }

    /// Carries out the rows of all idle pairs, in the table's order. Those that can't be released
    /// have rows that do nothing, and are left out.
    fn release_idle(&mut self, link: &mut Link, now: u64, notes: &mut Vec<Note>)
        requires reserved { vec_len notes.old + length self.old.table.entries
            < vec_capacity notes.old }
        ensures ledger { let keys = idle_keys_of self.old.table (is_lone_at self.old.stage) now
            in ledger_of self.new ≡ (release_all now keys (ledger_of self.old) link.old).ledger }
        ensures link { let keys = idle_keys_of self.old.table (is_lone_at self.old.stage) now
            in link.new ≡ (release_all now keys (ledger_of self.old) link.old).link }
        ensures notes { let keys = idle_keys_of self.old.table (is_lone_at self.old.stage) now
            in notes.new.items ≡ notes.old.items
            ++ (release_all now keys (ledger_of self.old) link.old).notes }
        ensures ready { self.new.table.ready ≡ self.old.table.ready }
        ensures len { vec_len notes.new ≤ vec_len notes.old + length self.old.table.entries }
        ensures capacity { vec_capacity notes.new ≡ vec_capacity notes.old }
        ensures apart { is_apart_at (book_of self.new) link.new now
            ≡ is_apart_at (book_of self.old) link.old now }
        // A gateway that is apart notes no more pairs than leave its table.
        ensures few { is_apart_at (book_of self.old) link.old now ≡ true
            → vec_len notes.new + length self.new.table.entries
            ≤ vec_len notes.old + length self.old.table.entries }
        ensures works { (h : List Rec) (n : ℕ) → Stands (book_of self.old) link.old h
            → Works now [] [] (book_of self.old) link.old n (book_of self.new) link.new n
            (release_all now (idle_keys_of self.old.table (is_lone_at self.old.stage) now)
            (ledger_of self.old) link.old).notes h }
    {
        idle_works();
        works_join();
        works_nothing();
        self.list_looked_at(link, now);
        for i in 0..self.idle_count() {
            let key = self.idle_key_at(i);
            self.release(key, link, now, notes);
        }
    }

    /// Releases idle pairs, one after the other. A lone gateway drops each. Another one drops each
    /// Alone one, and asks the peer for the end of each Live one, where the gateway isn't apart,
    /// the peer was heard at most 300 cs ago and the link isn't full then. While it may not ask,
    /// the Live ones cost nothing. Where no pair may be released, no pair is looked at.
    pub fn tick(&mut self, link: &mut Link, now: u64, notes: &mut Vec<Note>)
        requires reserved { vec_len notes.old + length self.old.table.entries
            < vec_capacity notes.old }
        ensures ledger { let keys = idle_keys_of self.old.table (is_lone_at self.old.stage) now
            in ledger_of self.new ≡ (release_all now keys (ledger_of self.old) link.old).ledger }
        ensures link { let keys = idle_keys_of self.old.table (is_lone_at self.old.stage) now
            in link.new ≡ (release_all now keys (ledger_of self.old) link.old).link }
        ensures notes { let keys = idle_keys_of self.old.table (is_lone_at self.old.stage) now
            in notes.new.items ≡ notes.old.items
            ++ (release_all now keys (ledger_of self.old) link.old).notes }
        ensures ready { self.new.table.ready ≡ self.old.table.ready }
        ensures len { vec_len notes.new ≤ vec_len notes.old + length self.old.table.entries }
        ensures capacity { vec_capacity notes.new ≡ vec_capacity notes.old }
        ensures apart { is_apart_at (book_of self.new) link.new now
            ≡ is_apart_at (book_of self.old) link.old now }
        // A gateway that is apart notes no more pairs than leave its table.
        ensures few { is_apart_at (book_of self.old) link.old now ≡ true
            → vec_len notes.new + length self.new.table.entries
            ≤ vec_len notes.old + length self.old.table.entries }
        ensures works { (h : List Rec) (n : ℕ) → Stands (book_of self.old) link.old h
            → Works now [] [] (book_of self.old) link.old n (book_of self.new) link.new n
            (release_all now (idle_keys_of self.old.table (is_lone_at self.old.stage) now)
            (ledger_of self.old) link.old).notes h }
    {
        works_nothing();
        if self.may_release(link, now) {
            self.release_idle(link, now, notes);
        }
    }
}
