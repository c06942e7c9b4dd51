//! Items in slots, with a cell for each protocol and port.
ghost use Rattle.std.specs.Prelude.{◌≡◌, ◌+◌, ◌<◌, ◌≤◌, [], None, Some, length, IfOk, IfSome, OnErr, OnSome, option_copied};
ghost use Rattle.std.specs.List.{find};
ghost use Rattle.std.specs.Borrow.{sem};
ghost use Rattle.std.specs.Option.{option_map, option_copied_mut};
ghost use Rattle.memory.specs.Memory.{IsSmall, WasRefused};
ghost use Rattle.nat_types.specs.declared.pairs.Key.{Key as OutsidePort};
ghost use Rattle.slots.specs.Cells.{cell_of, cell_behind, first_cell, key_at, protocol_at};
ghost use Rattle.slots.specs.Memory.{HasPlaces, LacksPlaces};
ghost use Rattle.slots.specs.Rows.{row_of, item_of, number_of, put_in, without, stands_behind, Rises, HasDistinctNumbers, AreBelow};

use crate::SlotNumber;
use crate::cells::Cells;
use addresses::{Port, Protocol};
use nat_types::Key;
use slab::Slab;
use std::alloc::{AllocError, Global};
use std::marker::Model;

/// The number of cells: one for each port of each protocol.
const CELLS: usize = 196_608;

/// The number of blocks of 256 cells.
const BLOCKS: usize = 768;

/// The most slots that are made: `timers` has no more. The number of each fits in 32 bits.
const MOST_SLOTS: usize = 2_147_483_647;

/// Items in slots, in the order of their protocols (icmp first) and ports.
#[derive(Drop)]
pub struct PortSlots<T> {
    slots: Slab<T>,
    cells: Cells,
    room: usize,
}

impl<T> Model for PortSlots<T> {
    ghost use Rattle.slots.specs.Rows.{PortSlots as Seen};

    ghost Value = { Seen T };

    ghost use Rattle.slots.specs.Cells.{rows_from, item_at, IsStored};

    ghost view = { λ s. record {
      rows = rows_from (item_at s.slots) 0 s.cells;
      room = s.room;
      limit = s.slots.capacity;
    } };

    ghost invariant = { λ s. IsStored s.slots s.cells s.room };
}

/// Returns the first cell of a protocol.
fn first_cell_of(protocol: Protocol) -> usize
    ensures { result ≡ first_cell protocol }
{
    match protocol {
        Protocol::Icmp => 0,
        Protocol::Tcp => 65536,
        Protocol::Udp => 131072,
    }
}

/// Returns the protocol to which a cell belongs.
fn protocol_of_cell(cell: usize) -> Protocol
    requires { cell < 196608 }
    ensures protocol { result ≡ protocol_at cell }
    ensures begins { first_cell result ≤ cell }
    ensures ends { cell < first_cell result + 65536 }
{
    if cell < 65536 {
        Protocol::Icmp
    } else if cell < 131072 {
        Protocol::Tcp
    } else {
        Protocol::Udp
    }
}

fn cell_of_key(key: Key) -> usize
    ensures cell { result ≡ cell_of key }
    ensures within { result < 196608 }
    ensures key { key_at result ≡ key }
{
    first_cell_of(key.protocol) + usize::from(key.port.0)
}

fn key_of_cell(cell: usize) -> Key
    requires { cell < 196608 }
    ensures { result ≡ key_at cell }
{
    let protocol = protocol_of_cell(cell);
    let port = Port((cell - first_cell_of(protocol)) as u16);
    Key { protocol, port }
}

/// Returns the cell after a key's, or the first of all for None.
fn first_cell_behind(last: Option<Key>) -> usize
    ensures cell { result ≡ cell_behind last }
    ensures key { IfSome last (λ key. key_at (cell_of key) ≡ key) }
{
    match last {
        Some(key) => cell_of_key(key) + 1,
        None => 0,
    }
}

/// Makes empty slots for `room` items. An Err says that there is no memory.
#[tactic(auto, unfolding(memory::specs::Memory::WasRefused, crate::specs::Memory::HasPlaces))]
fn empty_slots<T: Drop>(alloc: Global, room: usize) -> Result<Slab<T>, AllocError>
    requires small { IsSmall T.row }
    ensures empty { IfOk result (λ s. s.slots ≡ []) }
    ensures capacity { IfOk result (λ s. room ≤ s.capacity) }
    ensures given { IfOk result (λ s. HasPlaces room s.capacity) }
    ensures refused { OnErr result (WasRefused room) }
{
    Slab::with_capacity(alloc, room)
}

impl<T: Drop> PortSlots<T> {
    /// Makes slots without items, with capacity for `room` items. An Err says that there is no memory, or that there
    /// are too many slots.
    pub fn new(alloc: Global, room: usize) -> Result<PortSlots<T>, AllocError>
        requires small { IsSmall T.row }
        ensures rows { IfOk result (λ s. s.rows ≡ []) }
        ensures room { IfOk result (λ s. s.room ≡ room) }
        ensures least { IfOk result (λ s. room ≤ s.limit) }
        ensures most { IfOk result (λ s. s.limit ≤ 2147483647) }
        ensures given { IfOk result (λ s. HasPlaces room s.limit) }
        ensures refused { OnErr result (LacksPlaces room) }
    {
        let slots = empty_slots(alloc, room)?;
        if slots.capacity() > MOST_SLOTS {
            return Err(AllocError);
        }
        let cells = Cells::new(alloc, CELLS, BLOCKS)?;
        Ok(PortSlots { slots, cells, room })
    }

    /// Removes all items.
    pub fn clear(&mut self)
        ensures { self.new ≡ record self.old { rows = [] } }
    {
        self.slots.clear();
        self.cells.clear();
    }
}

impl<T> PortSlots<T> {
    ghost use Rattle.slots.specs.Lends.{lends_item};

    /// Reminds the prover of the order of the items and of their slots. The call does nothing at run time.
    pub fn recall(&self)
        ensures order { Rises 0 self.now.rows }
        ensures numbers { HasDistinctNumbers self.now.rows }
        ensures below { AreBelow self.now.limit self.now.rows }
    {
        let _ = &self.room;
    }

    /// Reminds the prover that there are few items. The call does nothing at run time.
    pub fn recall_few(&self)
        ensures { length self.now.rows ≤ 2147483647 }
    {
        let _ = self.slots.capacity();
    }

    /// Returns a limit above the numbers of all slots that there are or may be. The limit never changes.
    pub fn limit(&self) -> usize
        ensures { result ≡ self.now.limit }
    {
        self.slots.capacity()
    }

    /// Returns how many items there are.
    pub fn len(&self) -> usize
        ensures { result ≡ length self.now.rows }
    {
        self.slots.len()
    }

    /// Returns the slot of a key, or None where the key has no item.
    pub fn number_of(&self, key: Key) -> Option<SlotNumber>
        ensures { result ≡ number_of self.now.rows key }
    {
        self.cells.get(cell_of_key(key))
    }

    /// Returns the item of a key, or None where the key has none.
    #[inline(always)]
    pub fn get(&self, key: Key) -> Option<&T>
        ensures { option_copied result ≡ item_of self.now.rows key }
    {
        match self.cells.get(cell_of_key(key)) {
            Some(number) => self.slots.get(number.0),
            None => None,
        }
    }

    /// Returns the item in a slot, where a key has the slot.
    #[inline(always)]
    pub fn at(&self, number: SlotNumber) -> Option<&T>
        ensures item { (key : OutsidePort) → number_of self.now.rows key ≡ Some number
            → option_copied result ≡ item_of self.now.rows key }
        ensures used { OnSome result ((key : OutsidePort)
            × (number_of self.now.rows key ≡ Some number)) }
    {
        self.slots.get(number.0)
    }

    /// Returns the first key after `last` that has an item, or the first of all for None. The key `last` needs no item
    /// of its own.
    pub fn key_after(&self, last: Option<Key>) -> Option<Key>
        ensures { result ≡ option_map (λ r. r.key) (find (stands_behind last) self.now.rows) }
    {
        match self.cells.next(first_cell_behind(last)) {
            Some(cell) => Some(key_of_cell(cell)),
            None => None,
        }
    }

    /// Puts an item under a key that has none, and returns its slot, which no other key has.
    pub fn insert(&mut self, key: Key, item: T) -> SlotNumber
        requires vacant { row_of self.old.rows key ≡ None }
        requires room { length self.old.rows < self.old.room }
        ensures rows { self.new ≡ record self.old {
          rows = put_in (record { key = key; number = result; item = item }) self.old.rows;
        } }
        ensures fresh { (q : OutsidePort) → number_of self.old.rows q ≡ Some result → ⊥ }
        ensures small { result.0 < 2147483647 }
    {
        let number = SlotNumber(self.slots.insert_reserved(item));
        self.cells.fill(cell_of_key(key), number);
        number
    }

    /// Returns the item of a key for writing, or None where the key has none.
    #[inline(always)]
    pub fn get_mut(&mut self, key: Key) -> Option<&mut T>
        ensures* writes_back { sem 𝓛 (lends_item T.row self.entry key result) }
        ensures value { option_copied_mut result ≡ item_of self.old.rows key }
    {
        match self.cells.get(cell_of_key(key)) {
            Some(number) => self.slots.get_mut(number.0),
            None => None,
        }
    }

    /// Removes a key's item and returns it. A key without an item changes nothing.
    pub fn remove(&mut self, key: Key) -> Option<T>
        ensures item { result ≡ item_of self.old.rows key }
        ensures rows { self.new ≡ record self.old { rows = without key self.old.rows } }
    {
        let cell = cell_of_key(key);
        match self.cells.get(cell) {
            Some(number) => {
                self.cells.empty(cell);
                Some(self.slots.remove(number.0))
            }
            None => None,
        }
    }
}
