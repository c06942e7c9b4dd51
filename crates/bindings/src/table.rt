//! The table of pairs of a gateway.
ghost use Rattle.std.specs.Prelude.{◌≡◌, ◌+◌, ◌-◌, ◌<◌, ◌≤◌, ℕ, [], None, Some, true, false, ◌==◌, ◌++◌, ◌&&◌, length, map, max, vec_len, vec_capacity, IsOk, if◌then◌else◌, IfOk, IfErr, IfSome, IfNone, OnOk, OnErr};
ghost use Rattle.memory.specs.Memory.{WasRefused};
ghost use Rattle.slots.specs.Memory.{LacksEndpoints};
ghost use Rattle.bindings.specs.Memory.{LacksTable};
ghost use Rattle.nat_types.specs.declared.pairs.Key.{Key as OutsidePort};
ghost use Rattle.activity.specs.Lives.{History, came, with_packet, renewed, is_idle, is_unused};
ghost use Rattle.bindings.specs.declared.entries.Entry.{Entry as Row};
ghost use Rattle.slots.specs.declared.ranks.Rank.{Rank as Which};
ghost use Rattle.bindings.specs.Entries.{is_alone, is_markable, is_of_rank, is_pair, translates, waits, with_mark};
ghost use Rattle.bindings.specs.Entries.{slot_of, entry_of, held_entry_of, set_at, refusal_of, entry_in, pairs_in, pairs_of, state_count};
ghost use Rattle.bindings.specs.Lists.{put_in, after_key, first_after};
ghost use Rattle.bindings.specs.Revivals.{revived_entries, revived_slot, lives_of_pairs};
ghost use Rattle.bindings.specs.Table.{empty_table};
ghost use Rattle.bindings.specs.Runs.{own_in, without_port, all_ports, first_run, port_at};
ghost use Rattle.bindings.specs.Lives.{KeepsOthers, is_among, may_go, rests_at, is_unused_at, use_counts_at};
ghost use Rattle.bindings.specs.Ports.{AreBounds, in_either, key_count, is_open_in, is_vacant, is_spare, chosen_port, drawn_port, open_ports, ports_in};
ghost use Rattle.bindings.specs.Table.{IsTable, IsPast, owns, alone_keys_of, idle_keys_of, is_alone_at, is_marked_at, with_entry_state, without_entry};
ghost use Rattle.bindings.specs.Dues.{watched_keys};
ghost use Rattle.bindings.specs.Lives.{lives_with};
ghost use Rattle.bindings.specs.Lists.{place_in};
ghost use Rattle.std.specs.List.{insert};
ghost use Rattle.port_range.specs.Drawn.{IsLike};
ghost use Rattle.port_range.specs.Ports.{IsChosen};
ghost use Rattle.port_range.specs.Searches.{IsLastBelow};
ghost use Rattle.activity.specs.Lives.{life_begun, life_carried, life_renewed};

use crate::entries::{is_alone_state, is_marked_state, key_of, marked_state};
use crate::ports::{Ports, highest_port, lowest_port};
use crate::revivals::{drop_doomed, renew_all, wake};
use crate::rows::{count_idle, is_vacant_port, list_idle, list_pairs, next_sought, refusal};
use crate::runs::{find_run, list_owned};
use crate::store::Store;
use crate::tallies::Sought;
use crate::watches::Watch;
use crate::{Entry, PortBounds, TableFault};
use activity::{Activity, Packet};
use addresses::{Ip, Parity, Port, Protocol};
use memory::reserve_exact;
use nat_types::{Endpoint, EntryState, Key, Pair};
use slots::{Hashers, Rank};
use std::alloc::{AllocError, Global};
use std::marker::Model;

/// A table of entries by protocol (icmp first) and port. Keys are distinct, and so are the endpoints of the own pairs,
/// and those of the Held ones. An endpoint may have a pair of each kind; a Doomed entry is no pair.
#[derive(Drop)]
pub struct Table {
    alloc: Global,
    store: Store,
    ports: Ports,
    zero: PortBounds,
    one: PortBounds,
    capacity: usize,
    ready: usize,
}

impl Model for Table {
    ghost use Rattle.bindings.specs.Table.{Table as Seen, IsStored};

    ghost Value = { Seen };

    ghost view = { λ t. record {
      entries = t.store.entries;
      lives = t.store.lives;
      owned = t.ports.tcp.owned;
      zero = t.zero;
      one = t.one;
      capacity = t.capacity;
      ready = t.ready;
      hashers = t.store.hashers;
    } };

    ghost use Rattle.std.specs.Prelude.{◌≤◌};

    ghost invariant = { λ t. IsStored t.store.entries t.store.lives t.ports t.zero t.one t.capacity
        t.store.room × (t.ready ≤ t.store.spare) };
}

fn port_count(bounds: PortBounds) -> usize
    requires { bounds.lowest.0 ≤ bounds.highest.0 }
    ensures { result ≡ ports_in bounds }
{
    usize::from(bounds.highest.0 - bounds.lowest.0) + 1
}

impl Table {
    /// Makes an empty table for the ranges of both gateways, with capacity for all their ports for each protocol. The
    /// table owns no port, and hashes endpoints by the caller's hashers. An Err says that there is no memory, or that
    /// there are too many slots (`LacksTable`).
    pub fn new(
        alloc: Global,
        zero: PortBounds,
        one: PortBounds,
        hashers: Hashers,
    ) -> Result<Table, AllocError>
        requires zero { AreBounds zero }
        requires one { AreBounds one }
        ensures entries { IfOk result (λ t. t.entries ≡ []) }
        ensures owned { IfOk result (λ t. (port : ℕ) → owns t port ≡ false) }
        ensures zero { IfOk result (λ t. t.zero ≡ zero) }
        ensures one { IfOk result (λ t. t.one ≡ one) }
        ensures capacity { IfOk result (λ t. t.capacity ≡ key_count zero one) }
        ensures hashers { IfOk result (λ t. t.hashers ≡ hashers) }
        ensures empty { IfOk result (λ t. t ≡ empty_table zero one hashers) }
        ensures refused { OnErr result (LacksTable zero one) }
    {
        let capacity = 3 * (port_count(zero) + port_count(one));
        let ports = Ports::new(alloc, lowest_port(zero, one), highest_port(zero, one))?;
        let Ok(store) = Store::new(alloc, capacity, hashers) else {
            drop(ports);
            return Err(AllocError);
        };
        Ok(Table {
            alloc,
            store,
            ports,
            zero,
            one,
            capacity,
            ready: 0,
        })
    }

    /// Reminds the prover of what each table keeps. The call does nothing at run time.
    pub fn recall(&self)
        ensures { IsTable self.now }
    {
        self.ports.tcp.recall();
    }

    /// Returns the entry of an outside port, whatever its state, or None where the port has none.
    #[inline(always)]
    pub fn pair_of_port(&self, key: Key) -> Option<Entry>
        ensures { result ≡ slot_of self.now.entries key }
    {
        self.store.entry(key)
    }

    /// Returns how many entries there are, whatever their state.
    pub fn len(&self) -> usize
        ensures { result ≡ length self.now.entries }
    {
        self.store.len()
    }

    /// Returns the entry that follows a key in the order by protocol (icmp first) and port, whatever its state, or the
    /// first entry for None. The key needs no entry of its own.
    pub fn entry_after(&self, last: Option<Key>) -> Option<Entry>
        ensures { result ≡ after_key last self.now.entries }
    {
        self.store.entry_after(last)
    }

    /// Returns the entry of an endpoint's pair, or None where the endpoint has none. That is its own pair, whatever the
    /// state, or where there is none its Held one. A Doomed entry doesn't count.
    #[inline(always)]
    pub fn port_of(&self, endpoint: Endpoint) -> Option<Entry>
        ensures { result ≡ entry_of self.now.entries endpoint }
    {
        self.store.entry_of(endpoint)
    }

    /// Returns the entry of an endpoint's Held pair, also where it has an own pair too, or None where the endpoint has no
    /// Held pair.
    pub fn held_of(&self, endpoint: Endpoint) -> Option<Entry>
        ensures { result ≡ held_entry_of self.now.entries endpoint }
    {
        self.store.entry_on(Rank::Second, endpoint)
    }

    /// Returns how many pairs an inside address has, of all protocols together and whatever their state. Doomed entries
    /// don't count.
    pub fn pairs_of(&self, address: Ip) -> u32
        ensures { result ≡ pairs_of address self.now.entries }
    {
        self.store.pairs_of(address)
    }

    /// Makes the table ready for as many calls of `add` as there are endpoints, until the next call of `ready`. Each
    /// later `add` that succeeds uses one of them up, whatever its endpoint. So a caller passes one endpoint for each
    /// `add` that may come: a record gives at most one, its own or that of the one packet whose wait it ends. An Err
    /// says that there is no memory, or that there would be more than 4,294,967,295 entries, and changes nothing.
    pub fn ready(&mut self, endpoints: &[Endpoint]) -> Result<(), AllocError>
        ensures ok { OnOk result (self.new ≡ record self.old { ready = length endpoints.now }) }
        ensures err { OnErr result (self.new ≡ self.old) }
        ensures succeeds { length endpoints.now ≤ self.old.ready → IsOk result }
        ensures refused { OnErr result (LacksEndpoints (length endpoints.now)
            (length self.old.entries)) }
    {
        let more = endpoints.len();
        self.store.ready(more)?;
        self.ready = more;
        Ok(())
    }

    /// Adds a pair in a state. Its life begins at `now`. An own pair comes in beside a Held one of its endpoint, and a Held
    /// one beside an own one.
    pub fn add(
        &mut self,
        pair: Pair,
        state: EntryState,
        by_install: bool,
        now: u64,
    ) -> Result<(), TableFault>
        requires { 0 < self.old.ready }
        ensures ok { OnOk result (refusal_of self.old.capacity self.old.entries (entry_in state
            pair) ≡ None) }
        ensures refused { IfErr result (λ fault. refusal_of self.old.capacity self.old.entries
            (entry_in state pair) ≡ Some fault) }
        ensures entries { OnOk result (self.new.entries
            ≡ put_in (entry_in state pair) self.old.entries) }
        ensures slots { OnOk result ((q : OutsidePort) → slot_of self.new.entries q
            ≡ set_at (slot_of self.old.entries) pair.key (Some (entry_in state pair)) q) }
        ensures begins { OnOk result (IsPast self.new pair.key (came by_install now)) }
        ensures lives { OnOk result (self.new.lives ≡ insert self.old.lives
            (place_in pair self.old.entries) (life_begun by_install now)) }
        ensures others { OnOk result (KeepsOthers pair.key self.old.entries self.old.lives
            self.new.entries self.new.lives) }
        ensures same { OnOk result (self.new ≡ record self.old {
          entries = self.new.entries;
          lives =
              self.new.lives;
          ready = self.old.ready - 1;
        }) }
        ensures err { OnErr result (self.new ≡ self.old) }
    {
        if let Some(fault) = refusal(&self.store, self.capacity, pair, state) {
            return Err(fault);
        }
        self.store
            .add(pair, state, Activity::begin(by_install, now));
        self.ports.take(key_of(pair));
        self.ready -= 1;
        Ok(())
    }

    /// Sets the state of a key's entry. An own pair remains one or becomes Doomed, and so does a Held one; a Doomed entry
    /// remains Doomed. A key without an entry changes nothing.
    pub fn set_state(&mut self, key: Key, state: EntryState)
        requires { (entry : Row) → slot_of self.old.entries key ≡ Some entry
            → (r : Which) → is_of_rank r state ≡ true → is_of_rank r entry.state ≡ true }
        ensures entries { self.new ≡ with_entry_state self.old key state }
        ensures slots { (entry : Row) → slot_of self.old.entries key ≡ Some entry
            → (q : OutsidePort) → slot_of self.new.entries q
            ≡ set_at (slot_of self.old.entries) key (Some (entry_in state entry.pair)) q }
        ensures pasts { (q : OutsidePort) → (past : History) → IsPast self.old q past
            → IsPast self.new q past }
    {
        self.store.turn(key, state);
    }

    /// Marks a key's entry, which must be Pending or Closing: its pair goes on though an answer is awaited. A key without
    /// an entry changes nothing.
    pub fn mark(&mut self, key: Key)
        requires { (entry : Row) → slot_of self.old.entries key ≡ Some entry
            → is_markable entry.state ≡ true }
        ensures entries { (entry : Row) → slot_of self.old.entries key ≡ Some entry
            → self.new ≡ with_entry_state self.old key (with_mark entry.state) }
        ensures slots { (entry : Row) → slot_of self.old.entries key ≡ Some entry
            → (q : OutsidePort) → slot_of self.new.entries q
            ≡ set_at (slot_of self.old.entries) key (Some (entry_in (with_mark entry.state)
            entry.pair)) q }
        ensures absent { slot_of self.old.entries key ≡ None → self.new ≡ self.old }
        ensures pasts { (q : OutsidePort) → (past : History) → IsPast self.old q past
            → IsPast self.new q past }
    {
        if let Some(entry) = self.store.entry(key) {
            self.store.turn(key, marked_state(entry.state));
        }
    }

    /// Whether a key's entry is marked. A key without an entry isn't.
    pub fn marked(&self, key: Key) -> bool
        ensures { result ≡ is_marked_at self.now key }
    {
        match self.store.entry(key) {
            Some(entry) => is_marked_state(entry.state),
            None => false,
        }
    }

    /// Whether a key's entry is Alone. A key without an entry isn't.
    pub fn is_alone(&self, key: Key) -> bool
        ensures { result ≡ is_alone_at self.now key }
    {
        match self.store.entry(key) {
            Some(entry) => is_alone_state(entry.state),
            None => false,
        }
    }

    /// Returns how many entries wait for an answer of the peer without a mark: the Pending and Closing ones that don't
    /// translate. It takes no walk over the entries.
    pub fn waiting_count(&self) -> usize
        ensures { result ≡ state_count waits self.now.entries }
    {
        self.store.count(Sought::ToMark)
    }

    /// Returns the first entry after a key in the order by protocol (icmp first) and port that waits for an answer
    /// without a mark, or the first of all such for None. Where none waits at all, it takes no walk over the entries.
    pub fn waiting_after(&self, last: Option<Key>) -> Option<Entry>
        ensures { result ≡ first_after waits last self.now.entries }
    {
        next_sought(&self.store, Sought::ToMark, last)
    }

    /// Returns how many entries are Alone. It takes no walk over the entries.
    pub fn alone_count(&self) -> usize
        ensures { result ≡ state_count is_alone self.now.entries }
    {
        self.store.count(Sought::ToTell)
    }

    /// Returns the first entry after a key in the order by protocol (icmp first) and port that is Alone, or the first of
    /// all such for None. Where none is Alone at all, it takes no walk over the entries.
    pub fn alone_after(&self, last: Option<Key>) -> Option<Entry>
        ensures { result ≡ first_after is_alone last self.now.entries }
    {
        next_sought(&self.store, Sought::ToTell, last)
    }

    /// Removes a key's entry. A key without an entry changes nothing.
    pub fn remove(&mut self, key: Key)
        ensures entries { self.new ≡ without_entry self.old key }
        ensures slots { (q : OutsidePort) → slot_of self.new.entries q
            ≡ set_at (slot_of self.old.entries) key None q }
        ensures others { KeepsOthers key self.old.entries self.old.lives self.new.entries
            self.new.lives }
    {
        self.store.take_out(key);
        self.ports.put_back(key);
    }

    /// Changes the entries as the peer begins anew, or is off for good: Pending, Closing and Alone pairs, marked or not,
    /// become Live, with the lives that they have, and Doomed entries (proposals given up) are removed.
    pub fn revive(&mut self)
        ensures entries { self.new.entries ≡ revived_entries self.old.entries }
        ensures slots { (q : OutsidePort) → slot_of self.new.entries q
            ≡ revived_slot (slot_of self.old.entries q) }
        ensures pasts { (q : OutsidePort) → (entry : Row) → (past : History)
            → slot_of self.old.entries q ≡ Some entry → is_pair entry.state ≡ true
            → IsPast self.old q past → IsPast self.new q past }
        ensures lives { self.new.lives ≡ lives_of_pairs self.old.entries self.old.lives }
        ensures same { self.new ≡ record self.old {
          entries = self.new.entries;
          lives = self.new.lives;
        } }
    {
        drop_doomed(&mut self.store, &mut self.ports);
        wake(&mut self.store);
    }

    /// Begins the life of every pair anew at `now`, as the operator says that the peer is off. The peer may have
    /// carried packets until then, so the lists of packets begin empty.
    pub fn renew_all(&mut self, now: u64)
        ensures lives { self.new ≡ record self.old {
          lives = map (life_renewed now) self.old.lives;
        } }
        ensures pasts { (q : OutsidePort) → (past : History) → IsPast self.old q past
            → IsPast self.new q (renewed now past) }
    {
        renew_all(&mut self.store, now);
    }

    /// Removes all entries, and makes all ports unowned. The table remains ready for as many calls of `add` as before.
    pub fn clear(&mut self)
        ensures { self.new ≡ record self.old { entries = []; lives = []; owned = [] } }
    {
        self.store.clear();
        self.ports.reset();
    }

    /// Returns all pairs but Doomed ones, by protocol (icmp first) and port.
    pub fn pairs(&self) -> Result<Vec<Pair>, AllocError>
        ensures items { IfOk result (λ v. v.items ≡ pairs_in is_pair self.now.entries) }
        ensures refused { OnErr result (WasRefused 1) }
    {
        list_pairs(self.alloc, &self.store, false)
    }

    /// Returns the pairs that translate, by protocol (icmp first) and port: the Live, Alone, Held and marked ones.
    pub fn translating(&self) -> Result<Vec<Pair>, AllocError>
        ensures items { IfOk result (λ v. v.items ≡ pairs_in translates self.now.entries) }
        ensures refused { OnErr result (WasRefused 1) }
    {
        list_pairs(self.alloc, &self.store, true)
    }

    /// Returns the lowest owned port with that parity that is free for the protocol, else the lowest owned free one
    /// (RFC 4787, section 4.2.2), or None where no owned port is free for the protocol.
    pub fn free_like(&self, protocol: Protocol, parity: Parity) -> Option<Port>
        ensures chosen { result ≡ chosen_port self.now.entries self.now.owned self.now.zero
            self.now.one protocol parity }
        ensures like { IfSome result (IsChosen (is_open_in self.now.entries self.now.owned protocol)
            parity) }
        ensures none { IfNone result ((port : ℕ)
            → is_open_in self.now.entries self.now.owned protocol port ≡ false) }
    {
        self.ports.free_like(protocol, parity)
    }

    /// Returns the port that is drawn by two numbers, those of `numbers`, or None where no owned port is free for the
    /// protocol. Taken is the block with the number `x` modulo their count among the blocks, of 64 ports each, that have
    /// an owned port of the parity that is free for the protocol, and in it the place with the number `y` modulo their
    /// count among its owned ports of the parity. The port is the first of these from the place on that is free for the
    /// protocol, or else from the block's beginning (RFC 6056, section 3.3.3, within a block). Where no block has one, it
    /// is drawn of the other parity.
    pub fn drawn(&self, protocol: Protocol, parity: Parity, x: u32, y: u32) -> Option<Port>
        ensures chosen { result ≡ drawn_port self.now.entries self.now.owned protocol parity x y }
        ensures like { IfSome result (IsLike (is_open_in self.now.entries self.now.owned protocol)
            parity) }
        ensures none { IfNone result ((port : ℕ)
            → is_open_in self.now.entries self.now.owned protocol port ≡ false) }
    {
        self.ports.drawn(protocol, parity, x, y)
    }

    /// Returns how many owned ports are free for the protocol, of both parities together. The count is kept, so no port
    /// is looked at.
    pub fn free_count(&self, protocol: Protocol) -> u32
        ensures { result ≡ length (open_ports self.now.entries self.now.owned protocol) }
    {
        self.ports.free_count(protocol)
    }

    /// Whether the gateway owns a port or, while a table is loaded, is to own it.
    pub fn owns(&self, port: Port) -> bool
        ensures { result ≡ owns self.now port.0 }
    {
        self.ports.tcp.owns(port)
    }

    /// Makes the gateway the owner of a port of the two ranges.
    pub fn own(&mut self, port: Port)
        requires within { in_either self.old.zero self.old.one port.0 ≡ true }
        requires foreign { owns self.old port.0 ≡ false }
        ensures owned { (p : ℕ) → owns self.new p ≡ (if p == port.0 then true
            else owns self.old p) }
        ensures list { self.new.owned ≡ own_in port.0 self.old.owned }
        ensures same { self.new ≡ record self.old { owned = self.new.owned } }
    {
        self.ports.own(port);
    }

    /// Makes the gateway the owner of all ports of the two ranges.
    pub fn own_all(&mut self)
        ensures { self.new ≡ record self.old { owned = all_ports self.old.zero self.old.one } }
    {
        self.ports.own_all(self.zero, self.one);
    }

    /// Makes the gateway the owner no more of an owned port that no entry has.
    pub fn disown(&mut self, port: Port)
        requires owned { owns self.old port.0 ≡ true }
        requires vacant { is_vacant self.old.entries port.0 ≡ true }
        ensures owned { (p : ℕ) → owns self.new p ≡ (if p == port.0 then false
            else owns self.old p) }
        ensures list { self.new.owned ≡ without_port port.0 self.old.owned }
        ensures same { self.new ≡ record self.old { owned = self.new.owned } }
    {
        self.ports.disown(port);
    }

    /// Returns the owned ports, rising. While a table is loaded, these are the ports that the gateway is to own.
    pub fn owned(&self) -> Result<Vec<Port>, AllocError>
        ensures items { IfOk result (λ v. v.items ≡ map port_at self.now.owned) }
        ensures refused { OnErr result (WasRefused 1) }
    {
        let lowest = lowest_port(self.zero, self.one);
        let highest = highest_port(self.zero, self.one);
        list_owned(self.alloc, &self.ports.tcp, lowest, highest)
    }

    /// Returns the first unbroken run of the owned ports from `from` on, to its end, or None where no such port is
    /// owned. A run may go from one range into the other.
    pub fn first_run(&self, from: Port) -> Option<PortBounds>
        ensures { result ≡ first_run from.0 self.now.owned }
    {
        find_run(&self.ports.tcp, from, highest_port(self.zero, self.one))
    }

    /// Whether no entry of any protocol has a port.
    pub fn is_vacant(&self, port: Port) -> bool
        ensures { result ≡ is_vacant self.now.entries port.0 }
    {
        is_vacant_port(&self.store, port)
    }

    /// Whether a port is owned and no entry has it, so that it may be given away.
    pub fn is_spare(&self, port: Port) -> bool
        ensures { result ≡ is_spare self.now.entries self.now.owned port.0 }
    {
        self.owns(port) && self.is_vacant(port)
    }

    /// Returns the greatest port below `end` that may be given away, or None where there is none.
    pub fn spare_below(&self, end: usize) -> Option<Port>
        requires { end ≤ 65536 }
        ensures some { IfSome result (λ port. IsLastBelow (is_spare self.now.entries
            self.now.owned) end port.0) }
        ensures none { IfNone result ((port : ℕ) → port < end
            → is_spare self.now.entries self.now.owned port ≡ false) }
    {
        self.ports.spare_below(end)
    }

    /// Adds a packet that the pair of a key carried, to or from a remote host, to the pair's life, and returns whether
    /// the use that the packet makes counts. The flags of a UDP packet aren't read; `inward_refresh` of the packet says
    /// whether what comes inward sets the last use. A key without an entry changes nothing, and its use doesn't count.
    #[inline(always)]
    pub fn carried(&mut self, key: Key, packet: Packet) -> bool
        ensures counts { result ≡ use_counts_at self.old.entries self.old.lives key packet }
        ensures longer { (past : History) → IsPast self.old key past
            → IsPast self.new key (with_packet packet past) }
        ensures lives { self.new.lives ≡ lives_with (life_carried key.protocol packet) key
            self.old.entries self.old.lives }
        ensures others { KeepsOthers key self.old.entries self.old.lives self.new.entries
            self.new.lives }
        ensures same { self.new ≡ record self.old { lives = self.new.lives } }
    {
        self.store.carry(key, packet)
    }

    /// Begins the life of a key's pair anew at `now`, with an empty list of packets. A key without an entry changes
    /// nothing.
    pub fn renew(&mut self, key: Key, now: u64)
        ensures renewed { (past : History) → IsPast self.old key past
            → IsPast self.new key (renewed now past) }
        ensures lives { self.new.lives ≡ lives_with (life_renewed now) key
            self.old.entries self.old.lives }
        ensures others { KeepsOthers key self.old.entries self.old.lives self.new.entries
            self.new.lives }
        ensures same { self.new ≡ record self.old { lives = self.new.lives } }
    {
        self.store.renew(key, now);
    }

    /// Whether a key's pair is idle at `now`. A key without an entry isn't.
    pub fn idle(&self, key: Key, now: u64) -> bool
        ensures idle { (past : History) → IsPast self.now key past → result
            ≡ is_idle key.protocol past now }
        ensures exact { result ≡ rests_at self.now.entries self.now.lives key now }
    {
        self.store.is_idle(key, now)
    }

    /// Whether a key's pair came by Install and carried nothing since. A key without an entry didn't.
    pub fn unused(&self, key: Key) -> bool
        ensures unused { (past : History) → IsPast self.now key past → result ≡ is_unused past }
        ensures exact { result ≡ is_unused_at self.now.entries self.now.lives key }
    {
        self.store.is_unused(key)
    }

    /// Appends the keys of the idle entries of a watch, each once, by protocol (icmp first) and port. An Err says that
    /// there is no memory, and changes nothing.
    fn append_idle(&mut self, watch: Watch, now: u64, keys: &mut Vec<Key>) -> Result<(), AllocError>
        ensures keys { OnOk result (keys.new.items
            ≡ keys.old.items ++ watched_keys watch now self.old.entries self.old.lives) }
        ensures same { self.new ≡ self.old }
        ensures err { OnErr result (keys.new.items ≡ keys.old.items) }
        ensures room { vec_len keys.old + length (watched_keys watch now self.old.entries
            self.old.lives) ≤ vec_capacity keys.old → IsOk result }
        ensures capacity { vec_capacity keys.old ≤ vec_capacity keys.new }
        ensures exact { OnOk result (vec_capacity keys.new ≡ max (vec_capacity keys.old)
            (vec_len keys.old + length (watched_keys watch now self.old.entries
            self.old.lives))) }
        ensures refused { OnErr result (WasRefused (length (watched_keys watch now
            self.old.entries self.old.lives))) }
    {
        self.store.find_due(watch, now);
        let count = count_idle(&self.store, self.store.found(), watch, now);
        reserve_exact(keys, count)?;
        list_idle(&self.store, self.store.found(), watch, now, keys);
        Ok(())
    }

    /// Appends the keys of the idle entries that may be released, each once, by protocol (icmp first) and port: of the
    /// Live and the Alone ones, and where the gateway is lone of the Held ones too. Capacity for as many keys as there
    /// are entries is enough. An Err says that there is no memory, and changes nothing.
    pub fn idle_keys(&mut self, lone: bool, now: u64, keys: &mut Vec<Key>) -> Result<(), AllocError>
        ensures keys { OnOk result (keys.new.items
            ≡ keys.old.items ++ idle_keys_of self.old lone now) }
        ensures listed { (key : OutsidePort) → (entry : Row) → (past : History)
            → slot_of self.old.entries key ≡ Some entry → IsPast self.old key past
            → is_among key (idle_keys_of self.old lone now)
            ≡ (may_go lone entry.state && is_idle key.protocol past now) }
        ensures same { self.new ≡ self.old }
        ensures err { OnErr result (keys.new.items ≡ keys.old.items) }
        ensures few { length (idle_keys_of self.old lone now) ≤ length self.old.entries }
        ensures room { vec_len keys.old + length (idle_keys_of self.old lone now)
            ≤ vec_capacity keys.old → IsOk result }
        ensures capacity { vec_capacity keys.old ≤ vec_capacity keys.new }
        ensures exact { OnOk result (vec_capacity keys.new ≡ max (vec_capacity keys.old)
            (vec_len keys.old + length (idle_keys_of self.old lone now))) }
        ensures refused { OnErr result (WasRefused (length (idle_keys_of self.old lone now))) }
    {
        self.recall();
        self.append_idle(Watch::of(lone), now, keys)
    }

    /// Appends the keys of the idle Alone entries, each once, by protocol (icmp first) and port: of those that may be
    /// released where the peer can't be asked. The Live entries cost nothing then, but the first `idle_keys` afterwards
    /// looks at each. Capacity and Err are as for `idle_keys`.
    pub fn alone_keys(&mut self, now: u64, keys: &mut Vec<Key>) -> Result<(), AllocError>
        ensures keys { OnOk result (keys.new.items ≡ keys.old.items ++ alone_keys_of self.old now) }
        ensures same { self.new ≡ self.old }
        ensures err { OnErr result (keys.new.items ≡ keys.old.items) }
        ensures few { length (alone_keys_of self.old now) ≤ length self.old.entries }
        ensures room { vec_len keys.old + length (alone_keys_of self.old now)
            ≤ vec_capacity keys.old → IsOk result }
        ensures capacity { vec_capacity keys.old ≤ vec_capacity keys.new }
        ensures exact { OnOk result (vec_capacity keys.new ≡ max (vec_capacity keys.old)
            (vec_len keys.old + length (alone_keys_of self.old now))) }
        ensures refused { OnErr result (WasRefused (length (alone_keys_of self.old now))) }
    {
        self.append_idle(Watch::OnlyAlone, now, keys)
    }
}
