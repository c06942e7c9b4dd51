//! An index from endpoints to slots.
ghost use Rattle.std.specs.Prelude.{◌≡◌, ◌+◌, ◌<◌, ◌≤◌, None, Some, IsSome, IsOk, OnOk, OnErr, if◌then◌else◌};
ghost use Rattle.indexmap.specs.IndexMap.{KeepsRoom, UsesRoomOf, spare};
ghost use Rattle.addresses.specs.declared.internet.Ip.{Ip as Address};
ghost use Rattle.nat_types.specs.declared.pairs.Endpoint.{Endpoint as InsidePort};
ghost use Rattle.slots.specs.declared.ranks.Rank.{Rank as Which};
ghost use Rattle.slots.specs.Counts.{one_at};
ghost use Rattle.slots.specs.Ranks.{slot_count, slot_in};
ghost use Rattle.slots.specs.Endpoints.{look_up, slot_on, slot_of, set_on, count_in, slots_among, AreRewritten, AreServed};
ghost use Rattle.slots.specs.Memory.{LacksEndpoints};

use crate::SlotNumber;
use crate::address_counts::AddressCounts;
use crate::maps::reserve;
use crate::ranks::{Places, Rank};
use addresses::Ip;
use indexmap::IndexMap;
use nat_types::Endpoint;
use std::alloc::{AllocError, Global};
use std::hash::BuildHasher;
use std::marker::Model;

/// The most slots of an index, so that the count of each address fits in 32 bits.
const MOST: usize = 4_294_967_295;

/// The slots of each endpoint that has some, at most one of each rank, and for each address how many slots its
/// endpoints have.
#[derive(Drop)]
pub struct EndpointIndex<S: BuildHasher + Copy + Drop> {
    places: IndexMap<Endpoint, Places, S>,
    counts: AddressCounts<S>,
    // How many slots all endpoints have.
    slots: usize,
}

impl<S: BuildHasher + Copy + Drop> Model for EndpointIndex<S> {
    ghost use Rattle.std.specs.Prelude.{◌≡◌, ◌<◌};
    ghost use Rattle.slots.specs.Endpoints.{EndpointIndex as Seen, AreCounted, AreServed, slots_among, spare_of};

    ghost Value = { Seen S };

    ghost use Rattle.indexmap.specs.IndexMap.{hasher_of, spare};

    ghost view = { λ i. record {
      entries = i.places.entries;
      spare = spare_of i.slots (spare i.places) i.counts.spare;
      hasher = hasher_of i.places;
    } };

    ghost invariant = { λ i. AreCounted i.places.entries i.counts × AreServed i.places.entries
        × (i.slots ≡ slots_among i.places.entries) × (i.slots < 4294967296) };
}

#[inline(always)]
fn places_of<S: BuildHasher>(map: &IndexMap<Endpoint, Places, S>, endpoint: Endpoint) -> Places
    ensures { result ≡ look_up map.now.entries endpoint }
{
    map.get(&endpoint).copied().unwrap_or(Places::none())
}

/// Gives an endpoint these slots, of which there is one at least, in place of those that it had.
fn insert<S: BuildHasher>(
    map: &mut IndexMap<Endpoint, Places, S>,
    endpoint: Endpoint,
    places: Places,
)
    requires spare { 0 < spare map.old }
    requires some { 0 < slot_count places }
    ensures rewritten { AreRewritten map.old.entries endpoint places map.new.entries }
    ensures served { AreServed map.old.entries → AreServed map.new.entries }
    ensures room { UsesRoomOf map.old 1 map.new }
{
    match map.insert(endpoint, places) {
        Ok(_) => {}
        Err(_) => unreachable!(),
    }
}

/// Replaces the slots of an endpoint that has some. An endpoint of which none is left takes no memory.
fn rewrite<S: BuildHasher>(
    map: &mut IndexMap<Endpoint, Places, S>,
    endpoint: Endpoint,
    places: Places,
)
    requires { 0 < slot_count (look_up map.old.entries endpoint) }
    ensures rewritten { AreRewritten map.old.entries endpoint places map.new.entries }
    ensures served { AreServed map.old.entries → AreServed map.new.entries }
    ensures room { KeepsRoom map.old map.new }
{
    if places.is_empty() {
        map.swap_remove(&endpoint);
    } else if let Some(held) = map.get_mut(&endpoint) {
        *held = places;
    }
}

impl<S: BuildHasher + Copy + Drop> EndpointIndex<S> {
    /// Makes an index of no endpoints, which hashes endpoints and addresses by the caller's hasher.
    pub fn new(alloc: Global, hasher: S) -> EndpointIndex<S>
        ensures slots { (r : Which) → (x : InsidePort) → slot_on result r x ≡ None }
        ensures counts { (a : Address) → count_in result a ≡ 0 }
        ensures hasher { result.hasher ≡ hasher }
    {
        EndpointIndex {
            places: IndexMap::with_hasher(alloc, hasher),
            counts: AddressCounts::new(alloc, hasher),
            slots: 0,
        }
    }

    /// Reserves capacity for `more` more slots, each of an endpoint of its own. An Err says that there is no memory, or
    /// that there would be more than 4,294,967,295 slots, and changes no look-up.
    pub fn ready(&mut self, more: usize) -> Result<(), AllocError>
        ensures room { OnOk result (more ≤ self.new.spare) }
        ensures spare { self.old.spare ≤ self.new.spare }
        ensures same { self.new.entries ≡ self.old.entries }
        ensures hasher { self.new.hasher ≡ self.old.hasher }
        ensures succeeds { more ≤ self.old.spare → IsOk result }
        ensures refused { OnErr result (LacksEndpoints more (slots_among self.old.entries)) }
    {
        if more > MOST - self.slots {
            return Err(AllocError);
        }
        reserve(&mut self.places, more)?;
        self.counts.ready(more)
    }

    /// Returns the slot of an endpoint of the first rank, or where there is none that of the second, or None where the
    /// endpoint has neither.
    #[inline(always)]
    pub fn get(&self, endpoint: Endpoint) -> Option<SlotNumber>
        ensures { result ≡ slot_of self.now endpoint }
    {
        match self.places.get(&endpoint) {
            Some(places) => places.first(),
            None => None,
        }
    }

    /// Returns the slot of an endpoint of that rank, or None where the endpoint has none.
    pub fn get_of(&self, rank: Rank, endpoint: Endpoint) -> Option<SlotNumber>
        ensures { result ≡ slot_on self.now rank endpoint }
    {
        places_of(&self.places, endpoint).get(rank)
    }

    /// Returns how many slots the endpoints of an address have.
    pub fn count_of(&self, address: Ip) -> u32
        ensures { result ≡ count_in self.now address }
    {
        self.counts.get(address)
    }

    /// Gives an endpoint a slot, in place of the one of that rank that the endpoint had.
    pub fn put(&mut self, rank: Rank, endpoint: Endpoint, number: SlotNumber)
        requires spare { 0 < self.old.spare }
        requires small { number.0 < 4294967295 }
        ensures slots { (r : Which) → (x : InsidePort) → slot_on self.new r x
            ≡ set_on (slot_on self.old) rank endpoint (Some number) r x }
        ensures counted { slot_on self.old rank endpoint ≡ None
            → (a : Address) → count_in self.new a
            ≡ count_in self.old a + one_at endpoint.address a }
        ensures recounted { IsSome (slot_on self.old rank endpoint)
            → (a : Address) → count_in self.new a ≡ count_in self.old a }
        ensures spare { self.old.spare ≤ self.new.spare + 1 }
        ensures hasher { self.new.hasher ≡ self.old.hasher }
    {
        let places = places_of(&self.places, endpoint);
        insert(&mut self.places, endpoint, places.with(rank, number));
        if places.get(rank).is_none() {
            self.slots += 1;
            self.counts.add_one(endpoint.address);
        }
    }

    /// Removes the slot of an endpoint of that rank. An endpoint without such a slot changes nothing.
    pub fn remove(&mut self, rank: Rank, endpoint: Endpoint)
        ensures slots { (r : Which) → (x : InsidePort) → slot_on self.new r x
            ≡ set_on (slot_on self.old) rank endpoint None r x }
        ensures counted { IsSome (slot_on self.old rank endpoint)
            → (a : Address) → count_in self.old a
            ≡ count_in self.new a + one_at endpoint.address a }
        ensures absent { slot_on self.old rank endpoint ≡ None
            → (a : Address) → count_in self.new a ≡ count_in self.old a }
        ensures spare { self.old.spare ≤ self.new.spare }
        ensures hasher { self.new.hasher ≡ self.old.hasher }
    {
        let places = places_of(&self.places, endpoint);
        if places.get(rank).is_some() {
            rewrite(&mut self.places, endpoint, places.without(rank));
            self.slots -= 1;
            self.counts.take_one(endpoint.address);
        }
    }

    /// Removes all endpoints, and keeps the capacity.
    pub fn clear(&mut self)
        ensures slots { (r : Which) → (x : InsidePort) → slot_on self.new r x ≡ None }
        ensures counts { (a : Address) → count_in self.new a ≡ 0 }
        ensures spare { self.old.spare ≤ self.new.spare }
        ensures hasher { self.new.hasher ≡ self.old.hasher }
    {
        self.places.clear();
        self.counts.clear();
        self.slots = 0;
    }
}
