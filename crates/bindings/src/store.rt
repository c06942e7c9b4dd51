//! The entries of a table in slots, each with its life. A slot is found by key, and by endpoint and rank.
ghost use Rattle.std.specs.Prelude.{◌≡◌, ◌+◌, ◌<◌, ◌≤◌, [], Some, None, true, false, not, ◌&&◌, if◌then◌else◌, length, IfOk, IsOk, OnOk, OnErr};
ghost use Rattle.nat_types.specs.declared.pairs.Endpoint.{Endpoint as InsidePort};
ghost use Rattle.addresses.specs.declared.internet.Ip.{Ip as Address};
ghost use Rattle.slots.specs.declared.ranks.Rank.{Rank as Which};
ghost use Rattle.slots.specs.Endpoints.{slot_on, count_in};
ghost use Rattle.slots.specs.Memory.{LacksEndpoints};
ghost use Rattle.bindings.specs.Memory.{LacksStore};
ghost use Rattle.bindings.specs.Stores.{one_of};
ghost use Rattle.std.specs.Prelude.{IsSome};
ghost use Rattle.std.specs.List.{insert};
ghost use Rattle.std.specs.Option.{option_map};
ghost use Rattle.bindings.specs.declared.entries.Entry.{Entry as Row};
ghost use Rattle.bindings.specs.Entries.{is_of_rank, is_pair, is_pair_of, is_sought, pairs_of, serves, slot_of, entry_of, entry_on, entry_in, state_count, HasDistinctEndpoints};
ghost use Rattle.bindings.specs.Lists.{put_in, place_in, without, with_state, after_key, key_place, RisesUp};
ghost use Rattle.bindings.specs.Lives.{life_in, lives_with, lives_without, rests_at, is_unused_at, use_counts_at, use_counts_by};
ghost use Rattle.activity.specs.Lives.{Activity as Lived, History, Agrees, with_packet, renewed, life_carried, life_renewed};
ghost use Rattle.slots.specs.Rows.{item_of, number_of, with_item};
ghost use Rattle.std.specs.Prelude.{IfSome};
ghost use Rattle.std.specs.List.Sorted.{IsPermutation, IsNonDecreasingBy};
ghost use Rattle.nat_types.specs.declared.pairs.Key.{Key as OutsidePort};
ghost use Rattle.bindings.specs.declared.store.Item.{Item as Kept};
ghost use Rattle.std.specs.Prelude.{vec_capacity};
ghost use Rattle.timers.specs.Due.{is_due};
ghost use Rattle.slots.specs.Dues.{moment_of};
ghost use Rattle.bindings.specs.Stores.{AreKeyed};
ghost use Rattle.bindings.specs.Dues.{AreListed, AreTimed, AreTimedBut, IsTimedAt, KeepsDues, idle_among, watched_keys};

use crate::Entry;
use crate::entries::{endpoint_of, is_pair_state, key_of, rank_of_state};
use crate::tallies::{Sought, Tally};
use crate::watches::Watch;
use activity::{Activity, Packet};
use addresses::Ip;
use memory::with_room;
use nat_types::{Endpoint, EntryState, Key, Pair};
use slots::{Dues, EndpointIndex, Hashers, PortSlots, Rank, SlotNumber};
use std::alloc::{AllocError, Global};
use std::marker::Model;

/// The content of a slot: an entry and its life.
#[derive(Drop)]
pub(crate) struct Item {
    entry: Entry,
    life: Activity,
}

/// Entries by protocol (icmp first) and port, each with its life.
#[derive(Drop)]
pub(crate) struct Store {
    slots: PortSlots<Item>,
    // The slot of each pair, by its endpoint and rank, and how many pairs each inside address has. A Doomed entry isn't
    // a pair.
    index: EndpointIndex<Hashers>,
    // How many entries a tick has to mark, and how many to tell, so that it finds without a walk that there are none.
    tally: Tally,
    // The time at which each entry of the watch is looked at again, which is not after the entry is idle. A slot that
    // no such entry has any more may be due too. Its entry is then looked at once too often.
    dues: Dues,
    // Which entries are looked at. A lone gateway looks at the Held ones too, and one that may release only Alone ones
    // at no others.
    watch: Watch,
    // The keys that are to be looked at now, with capacity for one of each slot.
    found: Vec<Key>,
}

impl Model for Store {
    ghost use Rattle.bindings.specs.Stores.{Store as Seen};

    ghost Value = { Seen };

    ghost use Rattle.bindings.specs.Stores.{entries_of, lives_of, IsIndexed, IsTally};
    ghost use Rattle.bindings.specs.Dues.{AreWatched};
    ghost use Rattle.std.specs.Prelude.{vec_capacity};

    ghost view = { λ s. record {
      entries = entries_of s.slots.rows;
      lives = lives_of s.slots.rows;
      room = s.slots.room;
      spare = s.index.spare;
      hashers = s.index.hasher;
      found = s.found.items;
    } };

    ghost invariant = { λ s. IsIndexed s.slots.rows s.index
        × AreWatched s.watch s.dues.moments s.slots (vec_capacity s.found)
        × IsTally (entries_of s.slots.rows) s.tally };
}

fn entry_of_item(item: &Item) -> Entry
    ensures { result ≡ item.now.entry }
{
    item.entry
}

fn item_with(pair: Pair, state: EntryState, life: Activity) -> Item
    ensures { result ≡ record { entry = entry_in state pair; life = life } }
{
    let entry = Entry { pair, state };
    Item { entry, life }
}

/// Adds the endpoint of a new entry to the index, where the entry is a pair.
fn list_pair(index: &mut EndpointIndex<Hashers>, pair: Pair, state: EntryState, number: SlotNumber)
    requires spare { 0 < index.old.spare }
    requires small { number.0 < 4294967295 }
    requires free { (r : Which) → is_of_rank r state ≡ true
        → slot_on index.old r pair.endpoint ≡ None }
    ensures slots { (r : Which) → (x : InsidePort) → slot_on index.new r x
        ≡ (if serves r x (entry_in state pair) then Some number else slot_on index.old r x) }
    ensures counts { (a : Address) → count_in index.new a
        ≡ count_in index.old a + one_of a (entry_in state pair) }
    ensures spare { index.old.spare ≤ index.new.spare + 1 }
    ensures hasher { index.new.hasher ≡ index.old.hasher }
{
    if let Some(rank) = rank_of_state(state) {
        index.put(rank, endpoint_of(pair), number);
    }
}

/// Removes the endpoint of an entry that is removed from the index, where the entry is a pair.
fn unlist(index: &mut EndpointIndex<Hashers>, pair: Pair, state: EntryState)
    requires held { (r : Which) → is_of_rank r state ≡ true
        → IsSome (slot_on index.old r pair.endpoint) }
    ensures slots { (r : Which) → (x : InsidePort) → slot_on index.new r x
        ≡ (if serves r x (entry_in state pair) then None else slot_on index.old r x) }
    ensures counts { (a : Address) → count_in index.old a
        ≡ count_in index.new a + one_of a (entry_in state pair) }
    ensures spare { index.old.spare ≤ index.new.spare }
    ensures hasher { index.new.hasher ≡ index.old.hasher }
{
    if let Some(rank) = rank_of_state(state) {
        index.remove(rank, endpoint_of(pair));
    }
}

/// Removes the endpoint of an entry from the index, where the entry is a pair before the change of its state and not
/// after.
fn unlist_turned(index: &mut EndpointIndex<Hashers>, pair: Pair, was: EntryState, state: EntryState)
    requires held { (r : Which) → is_of_rank r was ≡ true
        → IsSome (slot_on index.old r pair.endpoint) }
    ensures slots { (r : Which) → (x : InsidePort) → slot_on index.new r x
        ≡ (if serves r x (entry_in was pair) && not (is_pair state) then None
        else slot_on index.old r x) }
    ensures counts { (a : Address) → count_in index.old a ≡ count_in index.new a
        + (if is_pair_of a (entry_in was pair) && not (is_pair state) then 1 else 0) }
    ensures spare { index.old.spare ≤ index.new.spare }
    ensures hasher { index.new.hasher ≡ index.old.hasher }
{
    if !is_pair_state(state) {
        unlist(index, pair, was);
    }
}

/// Returns the entry in a slot that is in use.
fn entry_at(slots: &PortSlots<Item>, number: SlotNumber) -> Option<Entry>
    ensures { (key : OutsidePort) → (item : Kept) → number_of slots.now.rows key ≡ Some number
        → item_of slots.now.rows key ≡ Some item → result ≡ Some item.entry }
{
    match slots.at(number) {
        Some(item) => Some(entry_of_item(item)),
        None => None,
    }
}

/// Sets the state of the pair in a key's slot.
fn put_state(slots: &mut PortSlots<Item>, key: Key, pair: Pair, state: EntryState)
    ensures some { (item : Kept) → item_of slots.old.rows key ≡ Some item → slots.new
        ≡ record slots.old {
          rows = with_item key (record item { entry = entry_in state pair }) slots.old.rows;
        } }
    ensures none { item_of slots.old.rows key ≡ None → slots.new ≡ slots.old }
    ensures limit { slots.new.limit ≡ slots.old.limit }
{
    if let Some(item) = slots.get_mut(key) {
        item.entry = Entry { pair, state };
    }
}

/// Adds a packet to the life in a key's slot, and returns whether the use that the packet makes counts.
#[inline(always)]
fn put_packet(slots: &mut PortSlots<Item>, key: Key, packet: Packet) -> bool
    ensures counts { result ≡ use_counts_by key packet
        (option_map (λ i. i.life) (item_of slots.old.rows key)) }
    ensures some { (item : Kept) → item_of slots.old.rows key ≡ Some item → slots.new
        ≡ record slots.old {
          rows = with_item key (record item {
            life = life_carried key.protocol packet item.life;
          }) slots.old.rows;
        } }
    ensures none { item_of slots.old.rows key ≡ None → slots.new ≡ slots.old }
    ensures limit { slots.new.limit ≡ slots.old.limit }
    ensures agrees { (item : Kept) → (past : History)
        → item_of slots.old.rows key ≡ Some item → Agrees
        key.protocol past item.life → Agrees key.protocol (with_packet packet past)
        (life_carried key.protocol packet item.life) }
{
    match slots.get_mut(key) {
        Some(item) => item.life.carried(key.protocol, packet),
        None => false,
    }
}

/// Begins the life in a key's slot anew, with an empty list of packets.
fn put_renewal(slots: &mut PortSlots<Item>, key: Key, now: u64)
    ensures some { (item : Kept) → item_of slots.old.rows key ≡ Some item → slots.new
        ≡ record slots.old {
          rows = with_item key (record item { life = life_renewed now item.life }) slots.old.rows;
        } }
    ensures none { item_of slots.old.rows key ≡ None → slots.new ≡ slots.old }
    ensures limit { slots.new.limit ≡ slots.old.limit }
    ensures agrees { (item : Kept) → (past : History)
        → item_of slots.old.rows key ≡ Some item → Agrees
        key.protocol past item.life → Agrees key.protocol (renewed now past)
        (life_renewed now item.life) }
{
    if let Some(item) = slots.get_mut(key) {
        item.life.renew(now);
    }
}

/// Makes a key's slot due not later than its entry is idle, where the entry is looked at. A slot that is due before
/// that is left, and is set again after it was looked at.
#[inline(always)]
fn set_in_time(slots: &PortSlots<Item>, dues: &mut Dues, watch: Watch, key: Key)
    requires count { length dues.old.moments ≡ slots.now.limit }
    ensures timed { IsTimedAt watch dues.new.moments slots.now.rows key }
    ensures others { KeepsDues slots.now.rows key dues.old.moments dues.new.moments }
    ensures count { length dues.new.moments ≡ length dues.old.moments }
{
    slots.recall();
    if let Some(number) = slots.number_of(key)
        && let Some(item) = slots.at(number)
        && watch.sees(item.entry.state)
    {
        let due = item.life.due(key.protocol);
        if !is_due_by(dues, number, due) {
            dues.set(number, due);
        }
    }
}

/// Whether a slot is due at that time or before.
fn is_due_by(dues: &Dues, number: SlotNumber, moment: u64) -> bool
    requires { number.0 < length dues.now.moments }
    ensures { result ≡ is_due moment (moment_of dues.now.moments number) }
{
    match dues.get(number) {
        Some(due) => due <= moment,
        None => false,
    }
}

/// Sets the slots of those keys again that came due and whose entries are looked at.
fn set_again(slots: &PortSlots<Item>, dues: &mut Dues, watch: Watch, keys: &[Key])
    requires count { length dues.old.moments ≡ slots.now.limit }
    requires timed { AreTimedBut watch keys.now dues.old.moments slots.now.rows }
    ensures timed { AreTimed watch dues.new.moments slots.now.rows }
    ensures count { length dues.new.moments ≡ length dues.old.moments }
{
    for key in keys.iter() {
        set_in_time(slots, dues, watch, *key);
    }
}

/// Sets the slots of all keys whose entries are looked at.
fn set_all(slots: &PortSlots<Item>, dues: &mut Dues, watch: Watch)
    requires count { length dues.old.moments ≡ slots.now.limit }
    requires keyed { AreKeyed slots.now.rows }
    ensures timed { AreTimed watch dues.new.moments slots.now.rows }
    ensures count { length dues.new.moments ≡ length dues.old.moments }
{
    slots.recall();
    let mut last = None;
    while let Some(key) = slots.key_after(last) {
        set_in_time(slots, dues, watch, key);
        last = Some(key);
    }
}

/// Goes over from one watch to another. Where that looks at more entries, the slots of all its entries are set.
fn set_watch(slots: &PortSlots<Item>, dues: &mut Dues, was: Watch, watch: Watch)
    requires count { length dues.old.moments ≡ slots.now.limit }
    requires keyed { AreKeyed slots.now.rows }
    requires timed { AreTimed was dues.old.moments slots.now.rows }
    ensures timed { AreTimed watch dues.new.moments slots.now.rows }
    ensures count { length dues.new.moments ≡ length dues.old.moments }
{
    if !was.covers(watch) {
        set_all(slots, dues, watch);
    }
}

/// Returns the key that has a slot, or None where no key has it.
fn key_at(slots: &PortSlots<Item>, number: SlotNumber) -> Option<Key>
    requires { AreKeyed slots.now.rows }
    ensures own { (key : OutsidePort) → number_of slots.now.rows key ≡ Some number
        → result ≡ Some key }
    ensures held { IfSome result (λ key. number_of slots.now.rows key ≡ Some number) }
{
    match slots.at(number) {
        Some(item) => Some(key_of(entry_of_item(item).pair)),
        None => None,
    }
}

/// Lists the keys of the slots that were found due, in any order.
fn list_keys(slots: &PortSlots<Item>, dues: &mut Dues, keys: &mut Vec<Key>)
    requires keyed { AreKeyed slots.now.rows }
    requires empty { keys.old.items ≡ [] }
    requires room { length dues.old.found ≤ vec_capacity keys.old }
    ensures listed { AreListed slots.now.rows dues.old.found keys.new.items }
    ensures moments { dues.new.moments ≡ dues.old.moments }
    ensures capacity { vec_capacity keys.new ≡ vec_capacity keys.old }
{
    while let Some(number) = dues.pop() {
        if let Some(key) = key_at(slots, number) {
            keys.push_reserved(key);
        }
    }
}

/// Returns a key's place in the order by protocol (icmp first) and port.
fn place(key: Key) -> u32
    ensures { result ≡ key_place key }
{
    65536 * u32::from(key.protocol.number()) + u32::from(key.port.0)
}

fn sort_keys(keys: &mut Vec<Key>)
    ensures order { IsNonDecreasingBy key_place keys.new.items }
    ensures permutation { IsPermutation keys.old.items keys.new.items }
    ensures capacity { vec_capacity keys.new ≡ vec_capacity keys.old }
{
    keys.sort_unstable_by_key(|key| place(*key));
}

impl Store {
    /// Makes a store without entries, with capacity for `room` entries. An Err says that there is no memory, or that
    /// there are too many slots.
    pub(crate) fn new(alloc: Global, room: usize, hashers: Hashers) -> Result<Store, AllocError>
        ensures entries { IfOk result (λ s. s.entries ≡ []) }
        ensures lives { IfOk result (λ s. s.lives ≡ []) }
        ensures room { IfOk result (λ s. s.room ≡ room) }
        ensures hashers { IfOk result (λ s. s.hashers ≡ hashers) }
        ensures refused { OnErr result (LacksStore room) }
    {
        let slots = PortSlots::new(alloc, room)?;
        let Ok(dues) = Dues::new(alloc, slots.limit()) else {
            drop(slots);
            return Err(AllocError);
        };
        let Ok(found) = with_room(alloc, slots.limit()) else {
            drop(slots);
            drop(dues);
            return Err(AllocError);
        };
        let index = EndpointIndex::new(alloc, hashers);
        Ok(Store {
            slots,
            index,
            tally: Tally::none(),
            dues,
            watch: Watch::Own,
            found,
        })
    }

    /// Reminds the prover of the order of the entries. The call does nothing at run time.
    pub(crate) fn recall(&self)
        ensures order { RisesUp 0 self.now.entries }
        ensures alike { length self.now.lives ≡ length self.now.entries }
    {
        self.slots.recall();
    }

    pub(crate) fn len(&self) -> usize
        ensures { result ≡ length self.now.entries }
    {
        self.slots.len()
    }

    /// Reserves capacity in the index for `more` more pairs.
    pub(crate) fn ready(&mut self, more: usize) -> Result<(), AllocError>
        ensures ok { OnOk result (more ≤ self.new.spare) }
        ensures spare { self.old.spare ≤ self.new.spare }
        ensures same { self.new ≡ record self.old { spare = self.new.spare } }
        ensures succeeds { more ≤ self.old.spare → IsOk result }
        ensures refused { OnErr result (LacksEndpoints more (length self.old.entries)) }
    {
        self.index.ready(more)
    }

    /// Returns the entry of a key, or None where the key has none.
    #[inline(always)]
    pub(crate) fn entry(&self, key: Key) -> Option<Entry>
        ensures { result ≡ slot_of self.now.entries key }
    {
        match self.slots.get(key) {
            Some(item) => Some(entry_of_item(item)),
            None => None,
        }
    }

    /// Returns the entry of an endpoint's own pair, or where there is none that of its Held pair, or None where the
    /// endpoint has neither. A Doomed entry doesn't count.
    #[inline(always)]
    pub(crate) fn entry_of(&self, endpoint: Endpoint) -> Option<Entry>
        ensures { result ≡ entry_of self.now.entries endpoint }
    {
        self.slots.recall();
        match self.index.get(endpoint) {
            Some(number) => entry_at(&self.slots, number),
            None => None,
        }
    }

    /// Returns the entry of an endpoint's pair of that rank, or None where the endpoint has none.
    pub(crate) fn entry_on(&self, rank: Rank, endpoint: Endpoint) -> Option<Entry>
        ensures { result ≡ entry_on rank self.now.entries endpoint }
    {
        self.slots.recall();
        match self.index.get_of(rank, endpoint) {
            Some(number) => entry_at(&self.slots, number),
            None => None,
        }
    }

    /// Returns how many entries there are of those that a tick looks for.
    pub(crate) fn count(&self, sought: Sought) -> usize
        ensures { result ≡ state_count (is_sought sought) self.now.entries }
    {
        self.tally.get(sought)
    }

    /// Returns how many pairs an inside address has. Doomed entries don't count.
    pub(crate) fn pairs_of(&self, address: Ip) -> u32
        ensures { result ≡ pairs_of address self.now.entries }
    {
        self.index.count_of(address)
    }

    /// Returns the first entry after a key in the order, or the first of all for None.
    pub(crate) fn entry_after(&self, last: Option<Key>) -> Option<Entry>
        ensures { result ≡ after_key last self.now.entries }
    {
        self.slots.recall();
        match self.slots.key_after(last) {
            Some(key) => self.entry(key),
            None => None,
        }
    }

    /// Adds an entry with its life.
    pub(crate) fn add(&mut self, pair: Pair, state: EntryState, life: Activity)
        requires vacant { slot_of self.old.entries pair.key ≡ None }
        requires free { (r : Which) → is_of_rank r state ≡ true
            → entry_on r self.old.entries pair.endpoint ≡ None }
        requires room { length self.old.entries < self.old.room }
        requires spare { 0 < self.old.spare }
        ensures entries { self.new.entries ≡ put_in (entry_in state pair) self.old.entries }
        ensures lives { self.new.lives ≡ insert self.old.lives (place_in pair
            self.old.entries) life }
        ensures room { self.new.room ≡ self.old.room }
        ensures spare { self.old.spare ≤ self.new.spare + 1 }
        ensures hashers { self.new.hashers ≡ self.old.hashers }
    {
        self.slots.recall_few();
        let key = key_of(pair);
        let number = self.slots.insert(key, item_with(pair, state, life));
        list_pair(&mut self.index, pair, state, number);
        self.tally = self.tally.plus(state);
        set_in_time(&self.slots, &mut self.dues, self.watch, key);
    }

    /// Sets the state of a key's entry. A pair remains one of its rank, or becomes Doomed, and a Doomed entry remains
    /// Doomed.
    pub(crate) fn turn(&mut self, key: Key, state: EntryState)
        requires pair { (e : Row) → slot_of self.old.entries key ≡ Some e
            → (r : Which) → is_of_rank r state ≡ true → is_of_rank r e.state ≡ true }
        requires endpoints { (e : Row) → slot_of self.old.entries key ≡ Some e
            → is_pair e.state ≡ true → is_pair state ≡ false → HasDistinctEndpoints
            self.old.entries }
        ensures entries { self.new.entries ≡ with_state key state self.old.entries }
        ensures lives { self.new.lives ≡ self.old.lives }
        ensures room { self.new.room ≡ self.old.room }
        ensures spare { self.old.spare ≤ self.new.spare }
        ensures hashers { self.new.hashers ≡ self.old.hashers }
    {
        self.slots.recall();
        self.slots.recall_few();
        if let Some(entry) = self.entry(key) {
            let Entry { pair, state: was } = entry;
            unlist_turned(&mut self.index, pair, was, state);
            put_state(&mut self.slots, key, pair, state);
            self.tally = self.tally.minus(was).plus(state);
            set_in_time(&self.slots, &mut self.dues, self.watch, key);
        }
    }

    /// Removes a key's entry and its life.
    pub(crate) fn take_out(&mut self, key: Key)
        requires { (e : Row) → slot_of self.old.entries key ≡ Some e
            → is_pair e.state ≡ true
            → HasDistinctEndpoints self.old.entries }
        ensures entries { self.new.entries ≡ without key self.old.entries }
        ensures lives { self.new.lives ≡ lives_without key self.old.entries self.old.lives }
        ensures room { self.new.room ≡ self.old.room }
        ensures spare { self.old.spare ≤ self.new.spare }
        ensures hashers { self.new.hashers ≡ self.old.hashers }
    {
        self.slots.recall();
        if let Some(item) = self.slots.remove(key) {
            let Entry { pair, state } = entry_of_item(&item);
            unlist(&mut self.index, pair, state);
            self.tally = self.tally.minus(state);
        }
    }

    /// Removes all entries.
    pub(crate) fn clear(&mut self)
        ensures entries { self.new.entries ≡ [] }
        ensures lives { self.new.lives ≡ [] }
        ensures room { self.new.room ≡ self.old.room }
        ensures spare { self.old.spare ≤ self.new.spare }
        ensures hashers { self.new.hashers ≡ self.old.hashers }
    {
        self.slots.clear();
        self.index.clear();
        self.tally = Tally::none();
    }

    /// Adds a packet that a key's pair carried to its life, and returns whether the use that the packet makes counts.
    #[inline(always)]
    pub(crate) fn carry(&mut self, key: Key, packet: Packet) -> bool
        ensures counts { result ≡ use_counts_at self.old.entries self.old.lives key packet }
        ensures lives { self.new ≡ record self.old {
          lives = lives_with (life_carried key.protocol packet) key self.old.entries self.old.lives;
        } }
        ensures agrees { (life : Lived) → (past : History)
            → life_in self.old.entries self.old.lives
            key ≡ Some life → Agrees key.protocol past life → Agrees key.protocol (with_packet
            packet past) (life_carried key.protocol packet life) }
    {
        self.slots.recall();
        let counts = put_packet(&mut self.slots, key, packet);
        set_in_time(&self.slots, &mut self.dues, self.watch, key);
        counts
    }

    /// Begins the life of a key's pair anew at `now`, with an empty list of packets.
    pub(crate) fn renew(&mut self, key: Key, now: u64)
        ensures lives { self.new ≡ record self.old {
          lives = lives_with (life_renewed now) key self.old.entries self.old.lives;
        } }
        ensures agrees { (life : Lived) → (past : History)
            → life_in self.old.entries self.old.lives
            key ≡ Some life → Agrees key.protocol past life → Agrees key.protocol (renewed
            now past) (life_renewed now life) }
    {
        self.slots.recall();
        put_renewal(&mut self.slots, key, now);
        set_in_time(&self.slots, &mut self.dues, self.watch, key);
    }

    /// Finds the keys that are to be looked at, in order. The keys of all idle entries of the watch are among them.
    pub(crate) fn find_due(&mut self, watch: Watch, now: u64)
        ensures among { watched_keys watch now self.old.entries self.old.lives
            ≡ idle_among watch now self.old.entries self.old.lives self.new.found }
        ensures same { self.new ≡ record self.old { found = self.new.found } }
    {
        self.slots.recall();
        set_watch(&self.slots, &mut self.dues, self.watch, watch);
        self.watch = watch;
        self.dues.find(now);
        self.found.clear();
        list_keys(&self.slots, &mut self.dues, &mut self.found);
        sort_keys(&mut self.found);
        set_again(&self.slots, &mut self.dues, watch, &self.found);
    }

    /// Returns the keys that the last `find_due` found.
    pub(crate) fn found(&self) -> &[Key]
        ensures { result.now ≡ self.now.found }
    {
        &self.found
    }

    /// Whether a key's pair is idle.
    pub(crate) fn is_idle(&self, key: Key, now: u64) -> bool
        ensures { result ≡ rests_at self.now.entries self.now.lives key now }
    {
        match self.slots.get(key) {
            Some(item) => item.life.is_idle(key.protocol, now),
            None => false,
        }
    }

    /// Whether a key's pair came by Install and carried nothing since.
    pub(crate) fn is_unused(&self, key: Key) -> bool
        ensures { result ≡ is_unused_at self.now.entries self.now.lives key }
    {
        match self.slots.get(key) {
            Some(item) => item.life.is_unused(),
            None => false,
        }
    }
}
