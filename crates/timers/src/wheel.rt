//! A timing wheel: slots in chains by the times at which they are due.
ghost use Rattle.std.specs.Prelude.{◌≡◌, ◌+◌, ◌<◌, ◌≤◌, ◌^◌, ℕ, List, None, Some, length, map, max, ◌/◌, take, drop, slice_set, vec_len, vec_capacity, All, IfOk, OnOk, OnErr, IsOk};
ghost use Rattle.std.specs.List.Sorted.{IsPermutation};
ghost use Rattle.memory.specs.Memory.{WasRefused};
ghost use Rattle.timers.specs.Due.{due_slots, cleared, set_count};
ghost use Rattle.timers.specs.declared.links.Links.{Links};
ghost use Rattle.timers.specs.Chains.{AreChains, unset_links, links_of, moments};
ghost use Rattle.timers.specs.Chains.{chain_of as chain_number};
ghost use Rattle.timers.specs.Linked.{IsLinked, turns_of};
ghost use Rattle.timers.specs.Steps.{without, with_head, passed, chain_count, AreTaken, HasNoneDue, AreNoneDue};

use crate::links::{Links, Slots, set_next, set_previous};
use memory::{copies_of, reserve_exact};
use std::alloc::{AllocError, Global};

/// The slots that are set, in 1,024 chains of slots that are due at about the same time. The links of the chains are in
/// the slots.
#[derive(Drop)]
pub struct Wheel {
    // The first slot of each chain.
    heads: Vec<Option<usize>>,
    // How often the wheel has turned. One turn, by a chain, takes 1,024 centiseconds.
    turns: u64,
    // How many slots are set.
    count: usize,
}

/// Returns the number of the chain of a time, on a wheel that has turned `turns` times.
fn chain_of(turns: u64, due: u64) -> usize
    ensures chain { result ≡ chain_number turns due }
    ensures within { result < 1024 }
{
    (turns.max(due / 1024) % 1024) as usize
}

/// Returns how many chains there are from the present one to that of `now`, each counted once.
fn chains_until(turns: u64, now: u64) -> usize
    ensures { result ≡ chain_count turns now }
{
    (now / 1024).saturating_sub(turns).min(1023) as usize + 1
}

/// Makes the next slot the head of a chain, where the slot with these links was the head and is removed.
fn set_head(heads: &mut Vec<Option<usize>>, chain: usize, links: Links)
    requires { chain < length heads.old.items }
    ensures { heads.new.items ≡ with_head heads.old.items chain links }
{
    if links.previous.is_none() {
        heads[chain] = links.next;
    }
}

impl Wheel {
    /// Makes a wheel at time 0, with no slot set. An Err says that there is no memory.
    pub fn new(alloc: Global) -> Result<Wheel, AllocError>
        ensures linked { IfOk result (λ wheel. (links : List Links) → length links < 2 ^ 64
            → All (λ slot. slot ≡ unset_links) links → IsLinked wheel links) }
        ensures refused { OnErr result (WasRefused 1024) }
    {
        let heads = copies_of(alloc, None, 1024)?;
        Ok(Wheel {
            heads,
            turns: 0,
            count: 0,
        })
    }

    /// Makes a slot due at the time `due` (centiseconds), and at no other.
    pub fn set<S: Slots>(&mut self, slots: &mut S, slot: usize, due: u64)
        requires linked { IsLinked self.old (S.all slots.old) }
        requires within { slot < length (S.all slots.old) }
        ensures linked { IsLinked self.new (S.all slots.new) }
        ensures moments { moments (S.all slots.new)
            ≡ slice_set (moments (S.all slots.old)) slot (Some due) }
        ensures rest { S.rest slots.new ≡ S.rest slots.old }
    {
        self.clear(slots, slot);
        self.link(slots, slot, due);
    }

    /// Unsets a slot, which then is never due.
    pub fn clear<S: Slots>(&mut self, slots: &mut S, slot: usize)
        requires linked { IsLinked self.old (S.all slots.old) }
        requires within { slot < length (S.all slots.old) }
        ensures linked { IsLinked self.new (S.all slots.new) }
        ensures moments { moments (S.all slots.new)
            ≡ slice_set (moments (S.all slots.old)) slot None }
        ensures rest { S.rest slots.new ≡ S.rest slots.old }
    {
        let links = slots.links(slot);
        if let Some(due) = links.due {
            self.unlink(slots, slot, due);
        }
    }

    /// Appends the numbers of the slots that are due at `now` or before, in any order, and unsets these slots. The call
    /// reserves capacity for all slots that are set, and visits no chain twice.
    pub fn due<S: Slots>(
        &mut self,
        slots: &mut S,
        now: u64,
        out: &mut Vec<usize>,
    ) -> Result<(), AllocError>
        requires linked { IsLinked self.old (S.all slots.old) }
        ensures linked { IsLinked self.new (S.all slots.new) }
        ensures kept { take (length out.old.items) out.new.items ≡ out.old.items }
        ensures found { OnOk result (IsPermutation (due_slots now (moments (S.all slots.old)))
            (drop (length out.old.items) out.new.items)) }
        ensures cleared { OnOk result (moments (S.all slots.new)
            ≡ map (cleared now) (moments (S.all slots.old))) }
        ensures rest { S.rest slots.new ≡ S.rest slots.old }

        // An error changes nothing, and comes only where there is no memory for as many numbers as slots are set.
        ensures err_wheel { OnErr result (self.new ≡ self.old) }
        ensures err_slots { OnErr result (S.all slots.new ≡ S.all slots.old) }
        ensures err_list { OnErr result (out.new.items ≡ out.old.items) }
        ensures room { vec_len out.old + set_count (moments (S.all slots.old))
            ≤ vec_capacity out.old → IsOk result }
        ensures refused { OnErr result (WasRefused (set_count (moments (S.all slots.old)))) }
        ensures capacity { vec_capacity out.old ≤ vec_capacity out.new }
        ensures exact { OnOk result (vec_capacity out.new ≡ max (vec_capacity out.old)
            (vec_len out.old + set_count (moments (S.all slots.old)))) }

        // A later call doesn't visit the chains before that of `now` again.
        ensures turns { OnOk result (turns_of self.new ≡ max (turns_of self.old) (now / 1024)) }
    {
        reserve_exact(out, self.count)?;
        self.pass_chains(slots, now, out);
        self.turns = self.turns.max(now / 1024);
        Ok(())
    }

    /// Sets a slot that isn't set.
    fn link<S: Slots>(&mut self, slots: &mut S, slot: usize, due: u64)
        requires linked { IsLinked self.old (S.all slots.old) }
        requires within { slot < length (S.all slots.old) }
        requires unset { (links_of (S.all slots.old) slot).due ≡ None }
        ensures linked { IsLinked self.new (S.all slots.new) }
        ensures moments { moments (S.all slots.new)
            ≡ slice_set (moments (S.all slots.old)) slot (Some due) }
        ensures rest { S.rest slots.new ≡ S.rest slots.old }
    {
        slots.recall();
        let chain = chain_of(self.turns, due);
        let next = self.heads[chain];
        set_previous(slots, next, Some(slot));
        let links = Links {
            next,
            previous: None,
            due: Some(due),
        };
        slots.set_links(slot, links);
        self.heads[chain] = Some(slot);
        self.count += 1;
    }

    /// Removes a slot that is due at the time `due` from its chain, and leaves it unset.
    fn unlink<S: Slots>(&mut self, slots: &mut S, slot: usize, due: u64)
        requires linked { IsLinked self.old (S.all slots.old) }
        requires within { slot < length (S.all slots.old) }
        requires set { (links_of (S.all slots.old) slot).due ≡ Some due }
        ensures linked { IsLinked self.new (S.all slots.new) }
        ensures chains { (chains : ℕ → List ℕ)
            → AreChains self.old.heads.items self.old.turns (S.all slots.old) chains
            → AreChains self.new.heads.items self.new.turns (S.all slots.new)
            (λ chain. without slot (chains chain)) }
        ensures turns { self.new.turns ≡ self.old.turns }
        ensures count { self.new.count + 1 ≡ self.old.count }
        ensures moments { moments (S.all slots.new)
            ≡ slice_set (moments (S.all slots.old)) slot None }
        ensures rest { S.rest slots.new ≡ S.rest slots.old }
    {
        let links = slots.links(slot);
        let chain = chain_of(self.turns, due);
        set_next(slots, links.previous, links.next);
        set_previous(slots, links.next, links.previous);
        slots.set_links(slot, Links::unset());
        set_head(&mut self.heads, chain, links);
        self.count -= 1;
    }

    /// Unsets a slot and appends its number, where it is due, and returns the next slot of the chain.
    fn pass_slot<S: Slots>(
        &mut self,
        slots: &mut S,
        slot: usize,
        now: u64,
        out: &mut Vec<usize>,
    ) -> Option<usize>
        requires linked { IsLinked self.old (S.all slots.old) }
        requires within { slot < length (S.all slots.old) }
        requires room { vec_len out.old + self.old.count ≤ vec_capacity out.old }
        ensures next { result ≡ (links_of (S.all slots.old) slot).next }
        ensures linked { IsLinked self.new (S.all slots.new) }
        ensures chains { (chains : ℕ → List ℕ)
            → AreChains self.old.heads.items self.old.turns (S.all slots.old) chains
            → AreChains self.new.heads.items self.new.turns (S.all slots.new)
            (λ chain. passed now (S.all slots.old) slot (chains chain)) }
        ensures turns { self.new.turns ≡ self.old.turns }
        ensures taken { AreTaken now (moments (S.all slots.old)) (moments (S.all slots.new))
            out.old.items out.new.items }
        ensures room { vec_len out.new + self.new.count ≤ vec_capacity out.new }
        ensures capacity { vec_capacity out.new ≡ vec_capacity out.old }
        ensures rest { S.rest slots.new ≡ S.rest slots.old }
    {
        let links = slots.links(slot);
        if let Some(due) = links.due
            && due <= now
        {
            self.unlink(slots, slot, due);
            out.push_reserved(slot);
        }
        links.next
    }

    /// Unsets the due slots of a chain, and appends their numbers.
    fn pass_chain<S: Slots>(&mut self, slots: &mut S, chain: usize, now: u64, out: &mut Vec<usize>)
        requires linked { IsLinked self.old (S.all slots.old) }
        requires within { chain < 1024 }
        requires room { vec_len out.old + self.old.count ≤ vec_capacity out.old }
        ensures linked { IsLinked self.new (S.all slots.new) }
        ensures passed { HasNoneDue self.new.turns chain now (S.all slots.new) }
        ensures turns { self.new.turns ≡ self.old.turns }
        ensures taken { AreTaken now (moments (S.all slots.old)) (moments (S.all slots.new))
            out.old.items out.new.items }
        ensures room { vec_len out.new + self.new.count ≤ vec_capacity out.new }
        ensures capacity { vec_capacity out.new ≡ vec_capacity out.old }
        ensures rest { S.rest slots.new ≡ S.rest slots.old }
    {
        let mut at = self.heads[chain];
        while let Some(slot) = at {
            at = self.pass_slot(slots, slot, now, out);
        }
    }

    /// Unsets all due slots, and appends their numbers. The due slots are in the chains from the wheel's present one to
    /// that of `now`.
    fn pass_chains<S: Slots>(&mut self, slots: &mut S, now: u64, out: &mut Vec<usize>)
        requires linked { IsLinked self.old (S.all slots.old) }
        requires room { vec_len out.old + self.old.count ≤ vec_capacity out.old }
        ensures linked { IsLinked self.new (S.all slots.new) }
        ensures passed { AreNoneDue now (S.all slots.new) }
        ensures turns { self.new.turns ≡ self.old.turns }
        ensures taken { AreTaken now (moments (S.all slots.old)) (moments (S.all slots.new))
            out.old.items out.new.items }
        ensures capacity { vec_capacity out.new ≡ vec_capacity out.old }
        ensures rest { S.rest slots.new ≡ S.rest slots.old }
    {
        let first = (self.turns % 1024) as usize;
        for passed in 0..chains_until(self.turns, now) {
            self.pass_chain(slots, (first + passed) % 1024, now, out);
        }
    }
}
