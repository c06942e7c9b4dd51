//! Cells by protocol and port, each with the number of a slot or empty.
ghost use Rattle.std.specs.Prelude.{◌≡◌, ℕ, ◌+◌, ◌*◌, ◌<◌, ◌≤◌, None, Some, length, slice_set, IsSome, IfOk, IfSome, IfNone, OnErr};
ghost use Rattle.std.proofs.Common.{get_or};
ghost use Rattle.slots.specs.Cells.{AreMarked, HasBlocks};
ghost use Rattle.slots.specs.Memory.{LacksCells};

use crate::SlotNumber;
use crate::small_numbers::SmallNumber;
use memory::copies_of;
use std::alloc::{AllocError, Global};
use std::marker::Model;

/// A cell for each protocol and port. A search goes through the cells in blocks of 256, and passes over blocks without
/// a number.
#[derive(Drop)]
pub(crate) struct Cells {
    numbers: Vec<SmallNumber>,
    // The blocks that had a number since the last `clear`.
    marks: Vec<bool>,
}

impl Model for Cells {
    ghost use Rattle.std.specs.Prelude.{◌≤◌, List, Option, length};
    ghost use Rattle.slots.specs.declared.numbers.SlotNumber.{SlotNumber as Number};
    ghost use Rattle.slots.specs.Cells.{AreMarked, HasBlocks};

    ghost Value = { List (Option Number) };

    ghost view = { λ c. c.numbers.items };

    ghost invariant = { λ c. AreMarked c.numbers.items c.marks.items
        × HasBlocks c.numbers.items c.marks.items × (length c.numbers.items ≤ 196608) };
}

/// Returns the first cell from `from` on that has a number, or None where there is none.
fn next_used(numbers: &[SmallNumber], marks: &[bool], from: usize) -> Option<usize>
    requires marked { AreMarked numbers.now marks.now }
    requires blocks { HasBlocks numbers.now marks.now }
    requires count { length numbers.now ≤ 196608 }
    ensures within { IfSome result (λ i. (from ≤ i) × (i < length numbers.now)) }
    ensures used { IfSome result (λ i. IsSome (get_or numbers.now i None)) }
    ensures before { IfSome result (λ i. (k : ℕ) → from ≤ k → k < i
        → get_or numbers.now k None ≡ None) }
    ensures none { IfNone result ((k : ℕ) → from ≤ k → get_or numbers.now k None ≡ None) }
{
    let mut cell = from;
    while cell < numbers.len() {
        if !marks[cell / 256] {
            cell = 256 * (cell / 256) + 256;
        } else if numbers[cell].is_some() {
            return Some(cell);
        } else {
            cell += 1;
        }
    }
    None
}

fn empty_all(numbers: &mut [SmallNumber])
    ensures length { length numbers.new ≡ length numbers.old }
    ensures none { (k : ℕ) → get_or numbers.new k None ≡ None }
{
    for number in numbers.iter_mut() {
        *number = SmallNumber::none();
    }
}

fn unmark_all(marks: &mut [bool])
    ensures { length marks.new ≡ length marks.old }
{
    for mark in marks.iter_mut() {
        *mark = false;
    }
}

impl Cells {
    /// Makes `count` empty cells, in `blocks` blocks of 256. An Err says that there is no memory.
    pub(crate) fn new(alloc: Global, count: usize, blocks: usize) -> Result<Cells, AllocError>
        requires blocks { count ≤ 256 * blocks }
        requires count { count ≤ 196608 }
        ensures length { IfOk result (λ c. length c ≡ count) }
        ensures none { IfOk result (λ c. (k : ℕ) → get_or c k None ≡ None) }
        ensures refused { OnErr result (LacksCells count blocks) }
    {
        let numbers = copies_of(alloc, SmallNumber::none(), count)?;
        let marks = copies_of(alloc, false, blocks)?;
        Ok(Cells { numbers, marks })
    }

    pub(crate) fn get(&self, cell: usize) -> Option<SlotNumber>
        requires { cell < length self.now }
        ensures { result ≡ get_or self.now cell None }
    {
        self.numbers[cell].number()
    }

    pub(crate) fn fill(&mut self, cell: usize, number: SlotNumber)
        requires cell { cell < length self.old }
        requires number { number.0 < 4294967295 }
        ensures { self.new ≡ slice_set self.old cell (Some number) }
    {
        self.numbers[cell] = SmallNumber::of(number);
        self.marks[cell / 256] = true;
    }

    pub(crate) fn empty(&mut self, cell: usize)
        requires { cell < length self.old }
        ensures { self.new ≡ slice_set self.old cell None }
    {
        self.numbers[cell] = SmallNumber::none();
    }

    /// Returns the first cell from `from` on that has a number, or None where there is none.
    pub(crate) fn next(&self, from: usize) -> Option<usize>
        ensures within { IfSome result (λ i. (from ≤ i) × (i < length self.now)) }
        ensures used { IfSome result (λ i. IsSome (get_or self.now i None)) }
        ensures before { IfSome result (λ i. (k : ℕ) → from ≤ k → k < i
            → get_or self.now k None ≡ None) }
        ensures none { IfNone result
            ((k : ℕ) → from ≤ k → get_or self.now k None ≡ None) }
    {
        next_used(&self.numbers, &self.marks, from)
    }

    /// Empties all cells.
    pub(crate) fn clear(&mut self)
        ensures length { length self.new ≡ length self.old }
        ensures none { (k : ℕ) → get_or self.new k None ≡ None }
    {
        empty_all(&mut self.numbers);
        unmark_all(&mut self.marks);
    }
}
