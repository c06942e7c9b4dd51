//! The loading of a table from the peer's batch.
ghost use Rattle.std.specs.Prelude.{◌≡◌, ◌+◌, ◌-◌, ◌<◌, ◌≤◌, ◌&&◌, ℕ, Bool, true, false, not, List, []};
ghost use Rattle.std.specs.Prelude.{OnOk, OnErr, IfOk, Some, None, if◌then◌else◌};
ghost use Rattle.addresses.specs.declared.transport.Port.{Port as PortNumber};
ghost use Rattle.nat_types.specs.declared.pairs.EntryState.TheVariants.{Live, Held};
ghost use Rattle.nat_types.specs.declared.records.Record.TheVariants as record_of;
ghost use Rattle.activity.specs.Lives.{came};
ghost use Rattle.bindings.specs.Entries.{slot_of, entry_in, rank_of, is_taken};
ghost use Rattle.bindings.specs.Lists.{put_in};
ghost use Rattle.bindings.specs.Lives.{KeepsOthers};
ghost use Rattle.bindings.specs.Ports.{in_either};
ghost use Rattle.bindings.specs.Runs.{all_ports, without_port};
ghost use Rattle.bindings.specs.Table.{IsPast, AreInRanges};
ghost use Rattle.resync.specs.Loading.{loaded, loaded_state, all_in, unnamed, is_new, is_beside};
ghost use Rattle.resync.specs.Loading.{names_run, none_yet, begun, load_of, what_of, adds_pair};
ghost use Rattle.resync.specs.Loading.{ready_after, is_own_entry};
ghost use Rattle.resync.specs.Loading.{lives_taken, LivesGoOn};

use addresses::Port;
use bindings::{Entry, PortBounds, Table};
use nat_types::{Endpoint, EntryState, Key, Pair, Record};
use std::marker::Model;
use thiserror::Error;

/// The effect of a record in its place on the table.
#[derive(Clone, Copy, Debug, PartialEq, Eq)]
pub enum Loaded {
    /// The record was Begin or an Owner: the loading began, or ports were named.
    Prepared,
    /// The record's pair was added to the table.
    Paired,
    /// The record was Done: the table is whole.
    Whole,
}

/// The refusal of a record that isn't in its place in a batch, and changed nothing.
#[derive(Clone, Copy, Debug, PartialEq, Eq, Error)]
#[error("the record is out of place")]
pub struct OutOfPlace;

/// The progress of loading a table whose ports lie in these two ranges.
#[derive(Clone, Copy, Debug)]
pub struct Loading {
    zero: PortBounds,
    one: PortBounds,
    /// Whether Begin was taken, and Done not yet.
    begun: bool,
    /// The last port that an Owner named, or 0.
    named: Port,
}

impl Model for Loading {
    ghost use Rattle.resync.specs.Loading.{Progress};

    ghost Value = { Progress };

    ghost view = { λ l. record { zero = l.zero; one = l.one; begun = l.begun; named = l.named.0 } };

    ghost inverse = { λ v. record {
      zero = v.zero;
      one = v.one;
      begun = v.begun;
      named = record { 0 = v.named };
    } };
}

fn lies_in_ranges(zero: PortBounds, one: PortBounds, port: u16) -> bool
    ensures { result ≡ in_either zero one port }
{
    zero.holds(Port(port)) || one.holds(Port(port))
}

/// Whether all ports of a run, from `first` to `last`, lie in the ranges.
fn lie_in_ranges(zero: PortBounds, one: PortBounds, first: Port, last: Port) -> bool
    requires { first.0 ≤ last.0 }
    ensures { result ≡ all_in zero one first.0 (last.0 + 1 - first.0) }
{
    for port in first.0..last.0 {
        if !lies_in_ranges(zero, one, port) {
            return false;
        }
    }
    lies_in_ranges(zero, one, last.0)
}

/// Removes a port from those that the gateway is to own.
fn give_up(table: &mut Table, port: u16)
    requires { table.old.entries ≡ [] }
    ensures { table.new ≡ record table.old { owned = without_port port table.old.owned } }
{
    if table.owns(Port(port)) {
        table.disown(Port(port));
    }
}

/// Removes the ports of a run from those that the gateway is to own.
fn give_up_run(table: &mut Table, first: Port, last: Port)
    requires order { first.0 ≤ last.0 }
    requires entries { table.old.entries ≡ [] }
    ensures { table.new ≡ record table.old { owned = unnamed first.0 last.0 table.old.owned } }
{
    for port in first.0..last.0 {
        give_up(table, port);
    }
    give_up(table, last.0);
}

fn key_of(pair: Pair) -> Key
    ensures { result ≡ pair.key }
{
    pair.key
}

fn endpoint_of(pair: Pair) -> Endpoint
    ensures { result ≡ pair.endpoint }
{
    pair.endpoint
}

/// Returns the state of a loaded pair: Live on a port that the gateway is to own, else Held.
fn state_on(table: &Table, port: Port) -> EntryState
    ensures { result ≡ loaded_state table.now.owned port.0 }
{
    if table.owns(port) {
        EntryState::Live
    } else {
        EntryState::Held
    }
}

/// Whether there is an entry of an own pair.
fn is_own(entry: Option<Entry>) -> bool
    ensures { result ≡ is_own_entry entry }
{
    match entry {
        Some(entry) => match entry.state {
            EntryState::Doomed | EntryState::Held => false,
            EntryState::Pending { .. }
            | EntryState::Live
            | EntryState::Closing { .. }
            | EntryState::Alone => true,
        },
        None => false,
    }
}

/// Whether an endpoint has a pair that is loaded in the same state as one on this port would be.
fn has_pair_on(table: &Table, port: Port, endpoint: Endpoint) -> bool
    ensures { result ≡ is_taken (rank_of (loaded_state table.now.owned port.0)) table.now.entries
        endpoint }
{
    if table.owns(port) {
        is_own(table.port_of(endpoint))
    } else {
        table.held_of(endpoint).is_some()
    }
}

/// Adds a pair on a port of the ranges. Its key is new, and its endpoint has no pair on a port of the
/// same gateway.
fn put(table: &mut Table, pair: Pair, now: u64)
    requires ready { 0 < table.old.ready }
    requires within { AreInRanges table.old }
    requires inside { in_either table.old.zero table.old.one pair.key.port.0 ≡ true }
    requires key { slot_of table.old.entries pair.key ≡ None }
    requires endpoint { is_taken (rank_of (loaded_state table.old.owned pair.key.port.0))
        table.old.entries pair.endpoint ≡ false }
    ensures entries { table.new.entries
        ≡ put_in (entry_in (loaded_state table.old.owned pair.key.port.0) pair) table.old.entries }
    ensures lives { table.new.lives
        ≡ lives_taken now (record_of.Put pair) table.old.entries table.old.lives }
    ensures begins { IsPast table.new pair.key (came false now) }
    ensures others { KeepsOthers pair.key table.old.entries table.old.lives table.new.entries
        table.new.lives }
    ensures same { table.new ≡ record table.old {
      entries = table.new.entries;
      lives = table.new.lives;
      ready = table.old.ready - 1;
    } }
    ensures within { AreInRanges table.new }
{
    table.recall();
    let key = key_of(pair);
    let state = state_on(table, key.port);
    match table.add(pair, state, false, now) {
        Ok(()) => {}
        Err(_) => unreachable!(),
    }
}

impl Loading {
    ghost use Rattle.resync.specs.Loading.{fresh};

    /// Returns the progress of a loading that has not begun, for a table with these two ranges.
    pub fn new(zero: PortBounds, one: PortBounds) -> Loading
        ensures { result ≡ fresh zero one }
    {
        Loading {
            zero,
            one,
            begun: false,
            named: Port(0),
        }
    }

    fn names(&self, table: &Table, first: Port, last: Port) -> bool
        requires zero { self.now.zero ≡ table.now.zero }
        requires one { self.now.one ≡ table.now.one }
        ensures { result ≡ (self.now.begun && (none_yet table.now.entries
            && names_run (load_of self.now table.now) first.0 last.0)) }
    {
        self.begun
            && table.len() == 0
            && self.named.0 < first.0
            && first.0 <= last.0
            && lie_in_ranges(self.zero, self.one, first, last)
    }

    /// Whether a pair is a Put's in its place.
    fn is_new(&self, table: &Table, pair: Pair) -> bool
        requires zero { self.now.zero ≡ table.now.zero }
        requires one { self.now.one ≡ table.now.one }
        ensures { result ≡ (self.now.begun && is_new (load_of self.now table.now) pair) }
    {
        let key = key_of(pair);
        self.begun
            && lies_in_ranges(self.zero, self.one, key.port.0)
            && table.pair_of_port(key).is_none()
            && table.port_of(endpoint_of(pair)).is_none()
    }

    /// Whether a pair is a Tell's in its place.
    fn is_beside(&self, table: &Table, pair: Pair) -> bool
        requires zero { self.now.zero ≡ table.now.zero }
        requires one { self.now.one ≡ table.now.one }
        ensures { result ≡ (self.now.begun && is_beside (load_of self.now table.now) pair) }
    {
        let key = key_of(pair);
        self.begun
            && lies_in_ranges(self.zero, self.one, key.port.0)
            && table.pair_of_port(key).is_none()
            && !has_pair_on(table, key.port, endpoint_of(pair))
    }

    fn begin(&mut self, table: &mut Table)
        ensures progress { self.new ≡ record self.old { begun = true; named = 0 } }
        ensures table { table.new ≡ record table.old {
          entries = [];
          lives = [];
          owned = all_ports table.old.zero table.old.one;
        } }
    {
        table.clear();
        table.own_all();
        self.begun = true;
        self.named = Port(0);
    }

    fn take_run(&mut self, table: &mut Table, first: Port, last: Port) -> Result<Loaded, OutOfPlace>
        requires zero { self.old.zero ≡ table.old.zero }
        requires one { self.old.one ≡ table.old.one }
        ensures ok { OnOk result (loaded (load_of self.old table.old) (record_of.Owner first last)
            ≡ Some (load_of self.new table.new)) }
        ensures what { IfOk result (λ w. w ≡ what_of (record_of.Owner first last)) }
        ensures refused { OnErr result (loaded (load_of self.old table.old)
            (record_of.Owner first last) ≡ None) }
        ensures kept { OnErr result (self.new ≡ self.old) }
        ensures err { OnErr result (table.new ≡ table.old) }
        ensures progress { self.new ≡ record self.old { named = self.new.named } }
        ensures same { table.new ≡ record table.old { owned = table.new.owned } }
    {
        if !self.names(table, first, last) {
            return Err(OutOfPlace);
        }
        give_up_run(table, first, last);
        self.named = last;
        Ok(Loaded::Prepared)
    }

    fn take_put(&mut self, table: &mut Table, pair: Pair, now: u64) -> Result<Loaded, OutOfPlace>
        requires zero { self.old.zero ≡ table.old.zero }
        requires one { self.old.one ≡ table.old.one }
        requires within { AreInRanges table.old }
        requires ready { 0 < table.old.ready }
        ensures ok { OnOk result (loaded (load_of self.old table.old) (record_of.Put pair)
            ≡ Some (load_of self.new table.new)) }
        ensures what { IfOk result (λ w. w ≡ what_of (record_of.Put pair)) }
        ensures refused { OnErr result (loaded (load_of self.old table.old) (record_of.Put pair)
            ≡ None) }
        ensures kept { self.new ≡ self.old }
        ensures err { OnErr result (table.new ≡ table.old) }
        ensures lives { OnOk result (table.new.lives
            ≡ lives_taken now (record_of.Put pair) table.old.entries table.old.lives) }
        ensures pasts { OnOk result (LivesGoOn now (record_of.Put pair) table.old table.new) }
        ensures same { OnOk result (table.new ≡ record table.old {
          entries = table.new.entries;
          lives = table.new.lives;
          ready = table.old.ready - 1;
        }) }
        ensures within { AreInRanges table.new }
    {
        if !self.is_new(table, pair) {
            return Err(OutOfPlace);
        }
        put(table, pair, now);
        Ok(Loaded::Paired)
    }

    fn take_tell(&mut self, table: &mut Table, pair: Pair, now: u64) -> Result<Loaded, OutOfPlace>
        requires zero { self.old.zero ≡ table.old.zero }
        requires one { self.old.one ≡ table.old.one }
        requires within { AreInRanges table.old }
        requires ready { 0 < table.old.ready }
        ensures ok { OnOk result (loaded (load_of self.old table.old) (record_of.Tell pair)
            ≡ Some (load_of self.new table.new)) }
        ensures what { IfOk result (λ w. w ≡ what_of (record_of.Tell pair)) }
        ensures refused { OnErr result (loaded (load_of self.old table.old) (record_of.Tell pair)
            ≡ None) }
        ensures kept { self.new ≡ self.old }
        ensures err { OnErr result (table.new ≡ table.old) }
        ensures lives { OnOk result (table.new.lives
            ≡ lives_taken now (record_of.Tell pair) table.old.entries table.old.lives) }
        ensures pasts { OnOk result (LivesGoOn now (record_of.Tell pair) table.old table.new) }
        ensures same { OnOk result (table.new ≡ record table.old {
          entries = table.new.entries;
          lives = table.new.lives;
          ready = table.old.ready - 1;
        }) }
        ensures within { AreInRanges table.new }
    {
        if !self.is_beside(table, pair) {
            return Err(OutOfPlace);
        }
        put(table, pair, now);
        Ok(Loaded::Paired)
    }

    fn take_end(&mut self) -> Result<Loaded, OutOfPlace>
        ensures ok { OnOk result (self.old.begun ≡ true) }
        ensures ended { OnOk result (self.new ≡ record self.old { begun = false }) }
        ensures what { IfOk result (λ w. w ≡ what_of record_of.Done) }
        ensures refused { OnErr result (self.old.begun ≡ false) }
        ensures kept { OnErr result (self.new ≡ self.old) }
    {
        if !self.begun {
            return Err(OutOfPlace);
        }
        self.begun = false;
        Ok(Loaded::Whole)
    }

    /// Takes a record of the peer's batch. Begin empties the table, which is then to own all ports
    /// of both ranges. An Owner removes its run from them. A Put or a Tell adds its pair, whose life
    /// begins now (centiseconds). Done ends the loading. A record out of its place is refused and
    /// changes nothing. Before a Put or a Tell, the table must be ready for one more pair.
    pub fn take(&mut self, table: &mut Table, item: Record, now: u64) -> Result<Loaded, OutOfPlace>
        requires zero { self.old.zero ≡ table.old.zero }
        requires one { self.old.one ≡ table.old.one }
        requires within { AreInRanges table.old }
        requires ready { adds_pair item ≡ true → 0 < table.old.ready }
        ensures ok { OnOk result (loaded (load_of self.old table.old) item
            ≡ Some (load_of self.new table.new)) }
        ensures what { IfOk result (λ w. w ≡ what_of item) }
        ensures refused { OnErr result (loaded (load_of self.old table.old) item ≡ None) }
        ensures kept { OnErr result (self.new ≡ self.old) }
        ensures err { OnErr result (table.new ≡ table.old) }
        ensures lives { OnOk result (table.new.lives
            ≡ lives_taken now item table.old.entries table.old.lives) }
        ensures pasts { OnOk result (LivesGoOn now item table.old table.new) }
        ensures progress { self.new ≡ record self.old {
          begun = self.new.begun;
          named = self.new.named;
        } }
        ensures same { OnOk result (table.new ≡ record table.old {
          entries = table.new.entries;
          lives = table.new.lives;
          owned = table.new.owned;
          ready = ready_after item table.old.ready;
        }) }
        ensures within { AreInRanges table.new }
    {
        match item {
            Record::Begin => {
                self.begin(table);
                Ok(Loaded::Prepared)
            }
            Record::Owner { first, last } => self.take_run(table, first, last),
            Record::Put(pair) => self.take_put(table, pair, now),
            Record::Tell(pair) => self.take_tell(table, pair, now),
            Record::Done => self.take_end(),
            Record::Install(_)
            | Record::Accept(_)
            | Record::Refuse(_)
            | Record::Ask(_)
            | Record::Yes(_)
            | Record::No(_)
            | Record::Want
            | Record::Grant(_) => Err(OutOfPlace),
        }
    }
}
