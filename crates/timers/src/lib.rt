//! The times at which numbered slots are due.
#![tactic(auto)]

ghost use Rattle.std.specs.Prelude.{◌≡◌, ◌+◌, ◌<◌, ◌≤◌, None, Some, length, map, max, take, drop, replicate, slice_set, vec_len, vec_capacity, IfOk, OnOk, OnErr, IsOk};
ghost use Rattle.std.proofs.Common.{get_or};
ghost use Rattle.std.specs.List.Sorted.{IsPermutation};
ghost use Rattle.memory.specs.Memory.{WasRefused};
ghost use Rattle.timers.specs.Due.{due_slots, cleared, set_count};
ghost use Rattle.timers.specs.Memory.{LacksTimers};

mod links;
mod packed;
mod wheel;

pub use crate::links::{Links, Slots};
use crate::packed::PackedSlots;
pub use crate::wheel::Wheel;
use std::alloc::{AllocError, Global};
use std::marker::Model;

/// The time at which each slot that is set is due, in centiseconds. The slots are numbered from 0 on.
#[derive(Drop)]
pub struct Timers {
    wheel: Wheel,
    links: PackedSlots,
}

impl Model for Timers {
    ghost use Rattle.std.specs.Prelude.{ℕ, List, Option};
    ghost use Rattle.timers.specs.Chains.{moments};
    ghost use Rattle.timers.specs.Linked.{IsLinked};
    ghost use Rattle.timers.specs.Packed.{all_unpacked};

    ghost Value = { List (Option ℕ) };

    ghost view = { λ t. moments (all_unpacked t.links.list.items) };

    ghost invariant = { λ t. IsLinked t.wheel (all_unpacked t.links.list.items) };
}

impl Timers {
    /// Makes `count` slots, none of them set. An Err says that there is no memory, or that there are more slots than
    /// 31-bit numbers.
    pub fn with_capacity(alloc: Global, count: usize) -> Result<Timers, AllocError>
        ensures unset { IfOk result (λ timers. timers ≡ replicate count None) }
        ensures refused { OnErr result (LacksTimers count) }
    {
        let wheel = Wheel::new(alloc)?;
        let links = PackedSlots::unset(alloc, count)?;
        Ok(Timers { wheel, links })
    }

    /// Returns the time at which a slot is due, in centiseconds, or None where the slot isn't set.
    pub fn get(&self, slot: usize) -> Option<u64>
        requires { slot < length self.now }
        ensures { result ≡ get_or self.now slot None }
    {
        self.links.due(slot)
    }

    /// Makes a slot due at the time `due` (centiseconds), and at no other.
    pub fn set(&mut self, slot: usize, due: u64)
        requires { slot < length self.old }
        ensures { self.new ≡ slice_set self.old slot (Some due) }
    {
        self.wheel.set(&mut self.links, slot, due);
    }

    /// Unsets a slot, which then is never due.
    pub fn clear(&mut self, slot: usize)
        requires { slot < length self.old }
        ensures { self.new ≡ slice_set self.old slot None }
    {
        self.wheel.clear(&mut self.links, slot);
    }

    /// Appends the numbers of the slots that are due at `now` or before, in any order, and unsets these slots. The call
    /// reserves capacity for all slots that are set.
    pub fn due(&mut self, now: u64, out: &mut Vec<usize>) -> Result<(), AllocError>
        ensures kept { take (length out.old.items) out.new.items ≡ out.old.items }
        ensures found { OnOk result (IsPermutation (due_slots now self.old) (drop (length
            out.old.items) out.new.items)) }
        ensures cleared { OnOk result (self.new ≡ map (cleared now) self.old) }

        // An error changes nothing, and comes only where there is no memory for as many numbers as slots are set.
        ensures err_slots { OnErr result (self.new ≡ self.old) }
        ensures err_list { OnErr result (out.new.items ≡ out.old.items) }
        ensures room { vec_len out.old + set_count self.old ≤ vec_capacity out.old
            → IsOk result }
        ensures refused { OnErr result (WasRefused (set_count self.old)) }
        ensures capacity { vec_capacity out.old ≤ vec_capacity out.new }
        ensures exact { OnOk result (vec_capacity out.new
            ≡ max (vec_capacity out.old) (vec_len out.old + set_count self.old)) }
    {
        self.wheel.due(&mut self.links, now, out)
    }
}
