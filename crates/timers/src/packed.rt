//! Links in a third of the bytes that their fields take: two words of 32 bits and a time of 64.
ghost use Rattle.std.specs.Prelude.{◌≡◌, ◌<◌, ◌≤◌, ◌%◌, ⊤, IfOk, OnErr, length, map, replicate};
ghost use Rattle.timers.specs.Chains.{IsBelow, links_of, unset_links};
ghost use Rattle.timers.specs.Memory.{LacksSlots};
ghost use Rattle.timers.specs.Packed.{slot_in, unpacked, all_unpacked};

use crate::links::{Links, Slots};
use memory::copies_of;
use std::alloc::{AllocError, Global};

/// The most slots whose numbers fit in a word.
const MOST: usize = 2_147_483_647;

/// The links of a slot. Each word is twice one more than its neighbour's number, or 0 without a neighbour. The lowest
/// bit of the first word says whether the slot is set, so that the last time that `u64` has can be set too.
#[derive(Clone, Copy)]
pub struct Packed {
    next: u32,
    previous: u32,
    due: u64,
}

/// Returns the word for a slot's number, or 0 for None.
fn word_of(slot: Option<usize>) -> u32
    requires { IsBelow 2147483647 slot }
    ensures value { slot_in result ≡ slot }
    ensures even { result % 2 ≡ 0 }
{
    match slot {
        Some(slot) => 2 * (slot as u32 + 1),
        None => 0,
    }
}

/// Returns the slot's number in a word, or None where the word has none.
fn slot_of(word: u32) -> Option<usize>
    ensures value { result ≡ slot_in word }
    ensures below { IsBelow 2147483647 result }
{
    match word / 2 {
        0 => None,
        more => Some(more as usize - 1),
    }
}

fn due_of(packed: Packed) -> Option<u64>
    ensures { result ≡ (unpacked packed).due }
{
    if packed.next % 2 == 0 {
        None
    } else {
        Some(packed.due)
    }
}

fn pack(links: Links) -> Packed
    requires next { IsBelow 2147483647 links.next }
    requires previous { IsBelow 2147483647 links.previous }
    ensures { unpacked result ≡ links }
{
    let next = word_of(links.next);
    let previous = word_of(links.previous);
    match links.due {
        Some(due) => Packed {
            next: next + 1,
            previous,
            due,
        },
        None => Packed {
            next,
            previous,
            due: 0,
        },
    }
}

fn unpack(packed: Packed) -> Links
    ensures links { result ≡ unpacked packed }
    ensures next { IsBelow 2147483647 result.next }
    ensures previous { IsBelow 2147483647 result.previous }
{
    Links {
        next: slot_of(packed.next),
        previous: slot_of(packed.previous),
        due: due_of(packed),
    }
}

/// A store of slots whose numbers fit in words of 32 bits.
#[derive(Drop)]
pub struct PackedSlots {
    list: Vec<Packed>,
    ghost few: { length list.items ≤ 2147483647 },
}

impl PackedSlots {
    /// Makes `count` slots that aren't set. An Err says that there is no memory, or that there are more slots than
    /// 31-bit numbers.
    pub fn unset(alloc: Global, count: usize) -> Result<PackedSlots, AllocError>
        ensures unset { IfOk result (λ slots. all_unpacked slots.list.items
            ≡ replicate count unset_links) }
        ensures refused { OnErr result (LacksSlots count) }
    {
        if count > MOST {
            return Err(AllocError);
        }
        let unset = Packed {
            next: 0,
            previous: 0,
            due: 0,
        };
        let list = copies_of(alloc, unset, count)?;
        Ok(PackedSlots { list })
    }

    /// Returns the time at which a slot is due, in centiseconds, or None where it isn't set.
    pub fn due(&self, slot: usize) -> Option<u64>
        requires { slot < length (all_unpacked self.now.list.items) }
        ensures { result ≡ (links_of (all_unpacked self.now.list.items) slot).due }
    {
        due_of(self.list[slot])
    }
}

impl Slots for PackedSlots {
    ghost Rest = { ⊤ };

    ghost rest = { λ _. tt };

    ghost all = { λ slots. all_unpacked slots.list.items };

    ghost limit = { 2147483647 };

    fn recall(&self) {
        let _list = &self.list;
    }

    fn links(&self, slot: usize) -> Links {
        unpack(self.list[slot])
    }

    fn set_links(&mut self, slot: usize, links: Links) {
        self.list[slot] = pack(links);
    }
}
