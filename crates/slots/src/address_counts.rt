//! How many slots the endpoints of each inside address have.
ghost use Rattle.std.specs.Prelude.{◌≡◌, ◌+◌, ◌-◌, ◌<◌, ◌≤◌, IsOk, OnErr, OnOk, if◌then◌else◌};
ghost use Rattle.indexmap.specs.IndexMap.{spare};
ghost use Rattle.memory.specs.Memory.{WasRefused};
ghost use Rattle.addresses.specs.declared.internet.Ip.{Ip as Address};
ghost use Rattle.slots.specs.Counts.{count_at, is_address, one_at, AreHeld};

use crate::maps::reserve;
use addresses::Ip;
use indexmap::IndexMap;
use std::alloc::{AllocError, Global};
use std::hash::BuildHasher;
use std::marker::Model;

/// The count of each address. An address that has none takes no memory.
#[derive(Drop)]
pub(crate) struct AddressCounts<S: BuildHasher + Drop> {
    counts: IndexMap<Ip, u32, S>,
}

impl<S: BuildHasher + Drop> Model for AddressCounts<S> {
    ghost use Rattle.slots.specs.Counts.{AddressCounts as Seen};

    ghost Value = { Seen };

    ghost use Rattle.indexmap.specs.IndexMap.{spare};

    ghost view = { λ c. record { entries = c.counts.entries; spare = spare c.counts } };

    ghost use Rattle.slots.specs.Counts.{AreHeld};

    ghost invariant = { λ c. AreHeld c.counts.entries };
}

/// Replaces the count of an address that has one.
fn rewrite<S: BuildHasher>(counts: &mut IndexMap<Ip, u32, S>, address: Ip, count: u32)
    requires { 0 < count_at counts.old.entries address }
    ensures counts { (a : Address) → count_at counts.new.entries a
        ≡ (if is_address address a then count else count_at counts.old.entries a) }
    ensures held { 0 < count → AreHeld counts.old.entries → AreHeld counts.new.entries }
    ensures spare { spare counts.old ≤ spare counts.new }
{
    if let Some(held) = counts.get_mut(&address) {
        *held = count;
    }
}

impl<S: BuildHasher + Drop> AddressCounts<S> {
    /// Makes counts of 0 for each address, with the caller's hasher.
    pub(crate) fn new(alloc: Global, hasher: S) -> AddressCounts<S>
        ensures { (a : Address) → count_at result.entries a ≡ 0 }
    {
        AddressCounts {
            counts: IndexMap::with_hasher(alloc, hasher),
        }
    }

    /// Reserves capacity for `more` more addresses. An Err says that there is no memory, and
    /// changes no count.
    pub(crate) fn ready(&mut self, more: usize) -> Result<(), AllocError>
        ensures room { OnOk result (more ≤ self.new.spare) }
        ensures spare { self.old.spare ≤ self.new.spare }
        ensures same { self.new.entries ≡ self.old.entries }
        ensures succeeds { more ≤ self.old.spare → IsOk result }
        ensures refused { OnErr result (WasRefused more) }
    {
        reserve(&mut self.counts, more)
    }

    pub(crate) fn get(&self, address: Ip) -> u32
        ensures { result ≡ count_at self.now.entries address }
    {
        self.counts.get(&address).copied().unwrap_or(0)
    }

    /// Counts one more slot of an address.
    pub(crate) fn add_one(&mut self, address: Ip)
        requires room { 0 < self.old.spare }
        requires small { count_at self.old.entries address < 4294967295 }
        ensures counts { (a : Address) → count_at self.new.entries a
            ≡ count_at self.old.entries a + one_at address a }
        ensures spare { self.old.spare ≤ self.new.spare + 1 }
    {
        let count = self.get(address);
        match self.counts.insert(address, count + 1) {
            Ok(_) => {}
            Err(_) => unreachable!(),
        }
    }

    /// Counts one slot fewer of an address. An address that has none changes nothing.
    pub(crate) fn take_one(&mut self, address: Ip)
        ensures counts { (a : Address) → count_at self.new.entries a
            ≡ count_at self.old.entries a - one_at address a }
        ensures spare { self.old.spare ≤ self.new.spare }
    {
        let count = self.get(address);
        if count > 1 {
            rewrite(&mut self.counts, address, count - 1);
        } else {
            self.counts.swap_remove(&address);
        }
    }

    pub(crate) fn clear(&mut self)
        ensures counts { (a : Address) → count_at self.new.entries a ≡ 0 }
        ensures spare { self.old.spare ≤ self.new.spare }
    {
        self.counts.clear();
    }
}
