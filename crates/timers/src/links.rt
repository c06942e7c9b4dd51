//! The part of a wheel that each slot of its caller keeps.
ghost use Rattle.std.specs.Prelude.{◌≡◌, ◌<◌, ◌≤◌, ◌^◌, ⊤, ℕ, List, length, slice_set};
ghost use Rattle.timers.specs.declared.links.Links.{Links};
ghost use Rattle.timers.specs.Chains.{due_of, unset_links, links_of, IsSlot, IsBelow};
ghost use Rattle.timers.specs.Steps.{with_next, with_previous};

/// A slot's neighbours in its chain, and the time at which it is due, in centiseconds, where it is
/// set.
#[derive(Clone, Copy, Debug, PartialEq, Eq)]
pub struct Links {
    pub(crate) next: Option<usize>,
    pub(crate) previous: Option<usize>,
    pub(crate) due: Option<u64>,
}

impl Links {
    /// Returns the links of a slot that isn't set.
    pub fn unset() -> Links
        ensures { result ≡ unset_links }
    {
        Links {
            next: None,
            previous: None,
            due: None,
        }
    }

    /// Returns the time at which the slot is due, in centiseconds, or None where it isn't set.
    pub fn due(&self) -> Option<u64>
        ensures { result ≡ due_of self.now }
    {
        self.due
    }
}

/// A store of slots, numbered from 0 on, that keeps the links of a wheel.
pub trait Slots {
    // The part of the store that a wheel doesn't change.
    ghost Rest: { Type 0 };

    ghost rest: { Self → Self.Rest };

    // The links of each slot.
    ghost all: { Self → List Links };

    // Above the number of each slot that links name.
    ghost limit: { ℕ };

    /// Reminds the prover of how many slots there may be. The call does nothing at run time.
    fn recall(&self)
        ensures { length (all self.now) ≤ limit };

    /// Returns the links of a slot.
    fn links(&self, slot: usize) -> Links
        requires { slot < length (all self.now) }
        ensures links { result ≡ links_of (all self.now) slot }
        ensures next { IsBelow limit result.next }
        ensures previous { IsBelow limit result.previous };

    /// Sets the links of a slot, and changes nothing else.
    fn set_links(&mut self, slot: usize, links: Links)
        requires within { slot < length (all self.old) }
        requires next { IsBelow limit links.next }
        requires previous { IsBelow limit links.previous }
        ensures all { all self.new ≡ slice_set (all self.old) slot links }
        ensures rest { rest self.new ≡ rest self.old };
}

/// Returns the slot as it is, with a contract that says that its number fits in 64 bits.
fn in_range(slot: Option<usize>) -> Option<usize>
    ensures same { result ≡ slot }
    ensures below { IsBelow 18446744073709551616 result }
{
    match slot {
        Some(slot) => Some(slot),
        None => None,
    }
}

impl Slots for Vec<Links> {
    ghost Rest = { ⊤ };

    ghost rest = { λ _. tt };

    ghost all = { λ slots. slots.items };

    ghost limit = { 18446744073709551616 };

    fn recall(&self) {
        let _count = self.len();
    }

    fn links(&self, slot: usize) -> Links {
        let links = self[slot];
        Links {
            next: in_range(links.next),
            previous: in_range(links.previous),
            due: links.due,
        }
    }

    fn set_links(&mut self, slot: usize, links: Links) {
        self[slot] = links;
    }
}

/// Makes `next` the slot after a slot, if there is one.
pub(crate) fn set_next<S: Slots>(slots: &mut S, slot: Option<usize>, next: Option<usize>)
    requires slot { IsSlot (S.all slots.old) slot }
    requires next { IsBelow S.limit next }
    ensures all { S.all slots.new ≡ with_next (S.all slots.old) slot next }
    ensures rest { S.rest slots.new ≡ S.rest slots.old }
{
    if let Some(slot) = slot {
        let links = slots.links(slot);
        slots.set_links(slot, Links { next, ..links });
    }
}

/// Makes `previous` the slot before a slot, if there is one.
pub(crate) fn set_previous<S: Slots>(slots: &mut S, slot: Option<usize>, previous: Option<usize>)
    requires slot { IsSlot (S.all slots.old) slot }
    requires previous { IsBelow S.limit previous }
    ensures all { S.all slots.new ≡ with_previous (S.all slots.old) slot previous }
    ensures rest { S.rest slots.new ≡ S.rest slots.old }
{
    if let Some(slot) = slot {
        let links = slots.links(slot);
        slots.set_links(slot, Links { previous, ..links });
    }
}
