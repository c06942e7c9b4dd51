//! A table's batch (Begin, Owners, Puts and Tells, Done), drawn record by record.
ghost use Rattle.std.specs.Prelude.{◌≡◌, ◌+◌, ◌<◌, ◌≤◌, ◌==◌, ◌++◌, ◌∷◌, ℕ, List, [], length, take, drop};
ghost use Rattle.std.specs.Prelude.{IfSome, IfNone, Some};
ghost use Rattle.std.specs.List.{AllByRecursion};
ghost use Rattle.arrayvec.specs.ArrayVec.{array_vec_len};
ghost use Rattle.bindings.specs.declared.entries.Entry.{Entry as Row};
ghost use Rattle.bindings.specs.Entries.{pairs_in};
ghost use Rattle.bindings.specs.Lists.{key_place};
ghost use Rattle.bindings.specs.Runs.{first_of, runs_of};
ghost use Rattle.link.specs.Grammar.{IsWellFormedRun, IsWellFormedPair, IsWellFormedRecord};
ghost use Rattle.resync.specs.Batch.{is_settled, is_second as comes_second, batch_of, CanBeSent};
ghost use Rattle.resync.specs.Batch.{record_for as record_said, HasNoPending};
ghost use Rattle.resync.specs.Cursor.{runs_from, pairs_behind, to_come, coming, ports_ahead};
ghost use Rattle.resync.specs.Cursor.{is_settled_below as settled_below};
ghost use Rattle.resync.specs.declared.cursor.Cursor.TheVariants as at;

use addresses::Port;
use arrayvec::ArrayVec;
use bindings::{Entry, PortBounds, Table};
use nat_types::{Endpoint, EntryState, Key, Pair, Record};

/// The place in a table's batch up to which its records are drawn. A cursor copies nothing of the
/// table, which may get proposals and close pairs between two draws.
#[derive(Clone, Copy, Debug, PartialEq, Eq)]
pub enum Cursor {
    /// No record is drawn.
    Begin,
    /// Begin is drawn, and an Owner for each run below this port; `None` where no port is above the
    /// last run.
    Owners(Option<Port>),
    /// All Owners are drawn, and a Put or a Tell for each pair up to this key.
    Puts(Option<Key>),
    /// All records are drawn.
    Over,
}

fn is_settled_state(state: EntryState) -> bool
    ensures { result ≡ is_settled state }
{
    match state {
        EntryState::Pending { .. } | EntryState::Doomed | EntryState::Alone => false,
        EntryState::Live | EntryState::Closing { .. } | EntryState::Held => true,
    }
}

/// Returns the next higher port, or None for 65535.
fn port_above(port: Port) -> Option<Port>
    ensures some { IfSome result (λ p. p.0 ≡ port.0 + 1) }
    ensures none { IfNone result (port.0 ≡ 65535) }
{
    if port.0 < u16::MAX {
        Some(Port(port.0 + 1))
    } else {
        None
    }
}

/// Returns the first run of owned ports at or above a port, and the first port after the run.
fn next_run(table: &Table, from: Option<Port>) -> Option<(PortBounds, Option<Port>)>
    requires { CanBeSent table.now }
    ensures some { IfSome result (λ r. runs_from from table.now.owned
        ≡ r.0 ∷ runs_from r.1 table.now.owned) }
    ensures none { IfNone result (runs_from from table.now.owned ≡ []) }
    ensures formed { IfSome result (λ r. IsWellFormedRun r.0.lowest r.0.highest) }
    ensures further { IfSome result (λ r. ports_ahead r.1 < ports_ahead from) }
{
    table.recall();
    match from {
        Some(port) => match table.first_run(port) {
            Some(run) => Some((run, port_above(run.highest))),
            None => None,
        },
        None => None,
    }
}

/// Returns how many unbroken runs the owned ports have.
fn run_count(table: &Table) -> usize
    requires { CanBeSent table.now }
    ensures exact { result ≡ length (runs_of table.now.owned) }
    ensures few { result ≤ 65536 }
{
    let mut count = 0;
    let mut from = Some(Port(0));
    while let Some((_, next)) = next_run(table, from) {
        count += 1;
        from = next;
    }
    count
}

/// Returns how many records the batch of a table has. No entry of the table may be Pending.
pub fn batch_len(table: &Table) -> usize
    requires sent { CanBeSent table.now }
    requires settled { HasNoPending table.now.entries }
    ensures { result ≡ length (batch_of table.now.owned table.now.entries) }
{
    table.recall();
    run_count(table) + table.len() + 2
}

fn pair_of(entry: Entry) -> Pair
    ensures { result ≡ entry.pair }
{
    entry.pair
}

fn key_of(entry: Entry) -> Key
    ensures { result ≡ entry.pair.key }
{
    entry.pair.key
}

fn endpoint_of(pair: Pair) -> Endpoint
    ensures { result ≡ pair.endpoint }
{
    pair.endpoint
}

/// Returns a key's place in the order by protocol (icmp first) and port.
fn place_of(key: Key) -> u32
    ensures { result ≡ key_place key }
{
    65536 * u32::from(key.protocol.number()) + u32::from(key.port.0)
}

/// Whether there is an entry, it is settled, and it is before this key.
fn is_settled_below(key: Key, entry: Option<Entry>) -> bool
    ensures { result ≡ settled_below key entry }
{
    match entry {
        Some(entry) => is_settled_state(entry.state) && place_of(key_of(entry)) < place_of(key),
        None => false,
    }
}

/// Whether the endpoint of a pair has a settled pair before it.
fn is_second(table: &Table, pair: Pair) -> bool
    ensures { result ≡ comes_second (pairs_in is_settled table.now.entries) pair }
{
    table.recall();
    let endpoint = endpoint_of(pair);
    let first = is_settled_below(pair.key, table.port_of(endpoint));
    first || is_settled_below(pair.key, table.held_of(endpoint))
}

/// Returns the record of a settled pair: a Tell where its endpoint has a settled pair before it,
/// else a Put.
fn record_for(table: &Table, pair: Pair) -> Record
    ensures { result ≡ record_said (pairs_in is_settled table.now.entries) pair }
{
    if is_second(table, pair) {
        Record::Tell(pair)
    } else {
        Record::Put(pair)
    }
}

/// Returns the first settled pair (Live, Closing or Held) after a key, or the first of all where
/// there is no key.
fn next_pair(table: &Table, last: Option<Key>) -> Option<Pair>
    requires { CanBeSent table.now }
    ensures some { IfSome result (λ p. pairs_behind last table.now.entries
        ≡ p ∷ pairs_behind (Some p.key) table.now.entries) }
    ensures none { IfNone result (pairs_behind last table.now.entries ≡ []) }
    ensures formed { IfSome result (λ p. IsWellFormedPair p) }
{
    table.recall();
    let mut last = last;
    while let Some(entry) = table.entry_after(last) {
        if is_settled_state(entry.state) {
            return Some(pair_of(entry));
        }
        last = Some(key_of(entry));
    }
    None
}

impl Cursor {
    /// Returns a cursor at the beginning of a batch.
    pub fn new() -> Cursor
        ensures start { result ≡ at.Begin }
        ensures whole { (owned : List ℕ) → (entries : List Row) → to_come result owned entries
            ≡ batch_of owned entries }
    {
        Cursor::Begin
    }

    /// Whether the whole batch is drawn.
    pub fn is_over(&self) -> bool
        ensures { (owned : List ℕ) → (entries : List Row) → result
            ≡ (length (to_come self.now owned entries) == 0) }
    {
        match *self {
            Cursor::Over => true,
            Cursor::Begin | Cursor::Owners(_) | Cursor::Puts(_) => false,
        }
    }

    fn next_put(&mut self, table: &Table, last: Option<Key>) -> Option<Record>
        requires { CanBeSent table.now }
        ensures first { result ≡ first_of (coming (at.Puts last) table.now) }
        ensures rest { coming self.new table.now ≡ drop 1 (coming (at.Puts last) table.now) }
        ensures formed { IfSome result (λ r. IsWellFormedRecord r) }
    {
        match next_pair(table, last) {
            Some(pair) => {
                *self = Cursor::Puts(Some(pair.key));
                Some(record_for(table, pair))
            }
            None => {
                *self = Cursor::Over;
                Some(Record::Done)
            }
        }
    }

    fn next_owner(&mut self, table: &Table, from: Option<Port>) -> Option<Record>
        requires { CanBeSent table.now }
        ensures first { result ≡ first_of (coming (at.Owners from) table.now) }
        ensures rest { coming self.new table.now ≡ drop 1 (coming (at.Owners from) table.now) }
        ensures formed { IfSome result (λ r. IsWellFormedRecord r) }
    {
        match next_run(table, from) {
            Some((run, behind)) => {
                *self = Cursor::Owners(behind);
                Some(Record::Owner {
                    first: run.lowest,
                    last: run.highest,
                })
            }
            None => self.next_put(table, None),
        }
    }

    fn next(&mut self, table: &Table) -> Option<Record>
        requires { CanBeSent table.now }
        ensures first { result ≡ first_of (coming self.old table.now) }
        ensures rest { coming self.new table.now ≡ drop 1 (coming self.old table.now) }
        ensures formed { IfSome result (λ r. IsWellFormedRecord r) }
    {
        match *self {
            Cursor::Begin => {
                *self = Cursor::Owners(Some(Port(0)));
                Some(Record::Begin)
            }
            Cursor::Owners(from) => self.next_owner(table, from),
            Cursor::Puts(last) => self.next_put(table, last),
            Cursor::Over => None,
        }
    }

    /// Appends the next `n` records of the batch, or all that are left.
    pub fn draw(&mut self, table: &Table, n: usize, out: &mut ArrayVec<Record, 64>)
        requires room { array_vec_len out.old + n ≤ 64 }
        requires sent { CanBeSent table.now }
        ensures drawn { out.new.items ≡ out.old.items ++ take n (coming self.old table.now) }
        ensures left { coming self.new table.now ≡ drop n (coming self.old table.now) }
        ensures formed { AllByRecursion IsWellFormedRecord out.old.items
            → AllByRecursion IsWellFormedRecord out.new.items }
    {
        for _ in 0..n {
            match self.next(table) {
                Some(item) => out.push(item),
                None => return,
            }
        }
    }
}
