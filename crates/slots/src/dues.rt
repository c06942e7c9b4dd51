//! The times at which slots are due.
ghost use Rattle.std.specs.Prelude.{◌≡◌, ◌<◌, ◌≤◌, ◌++◌, [], ◌∷◌, None, Some, length, map, slice_set, vec_capacity, IfOk, IfNone, IfSome, OnErr};
ghost use Rattle.timers.specs.Due.{cleared};
ghost use Rattle.slots.specs.declared.numbers.SlotNumber.{SlotNumber as Number};
ghost use Rattle.slots.specs.Dues.{moment_of, AreDue};
ghost use Rattle.slots.specs.Memory.{LacksDues};

use crate::SlotNumber;
use memory::with_room;
use std::alloc::{AllocError, Global};
use std::marker::Model;
use timers::Timers;

/// The time at which each slot that is set is due, in centiseconds, and the slots that were found
/// due.
#[derive(Drop)]
pub struct Dues {
    timers: Timers,
    // The numbers of the slots that were found due, with capacity for all slots.
    found: Vec<usize>,
}

impl Model for Dues {
    ghost use Rattle.std.specs.Prelude.{◌≤◌, length, vec_capacity};
    ghost use Rattle.slots.specs.Dues.{Dues as Seen};

    ghost Value = { Seen };

    ghost view = { λ d. record { moments = d.timers; found = d.found.items } };

    ghost invariant = { λ d. length d.timers ≤ vec_capacity d.found };
}

/// Unsets the due slots of the timers, and lists them.
fn list_due(timers: &mut Timers, now: u64, found: &mut Vec<usize>)
    requires empty { found.old.items ≡ [] }
    requires room { length timers.old ≤ vec_capacity found.old }
    ensures cleared { timers.new ≡ map (cleared now) timers.old }
    ensures found { AreDue now timers.old found.new.items }
    ensures few { length found.new.items ≤ length timers.old }
    ensures capacity { vec_capacity found.old ≤ vec_capacity found.new }
{
    match timers.due(now, found) {
        Ok(()) => {}
        Err(_) => unreachable!(),
    }
}

impl Dues {
    /// Makes `count` slots, none of them set. An Err says that there is no memory, or that there
    /// are too many slots.
    pub fn new(alloc: Global, count: usize) -> Result<Dues, AllocError>
        ensures count { IfOk result (λ d. length d.moments ≡ count) }
        ensures none { IfOk result (λ d. (number : Number) → moment_of d.moments number ≡ None) }
        ensures found { IfOk result (λ d. d.found ≡ []) }
        ensures refused { OnErr result (LacksDues count) }
    {
        let found = with_room(alloc, count)?;
        let timers = Timers::with_capacity(alloc, count)?;
        Ok(Dues { timers, found })
    }

    /// Returns the time at which a slot is due, in centiseconds, or None where the slot isn't set.
    pub fn get(&self, number: SlotNumber) -> Option<u64>
        requires { number.0 < length self.now.moments }
        ensures { result ≡ moment_of self.now.moments number }
    {
        self.timers.get(number.0)
    }

    /// Makes a slot due at the time `due` (centiseconds), and at no other.
    pub fn set(&mut self, number: SlotNumber, due: u64)
        requires { number.0 < length self.old.moments }
        ensures { self.new ≡ record self.old {
          moments = slice_set self.old.moments number.0 (Some due);
        } }
    {
        self.timers.set(number.0, due);
    }

    /// Finds the slots that are due at `now` or before, and unsets them. The found slots replace
    /// those that an earlier call found.
    pub fn find(&mut self, now: u64)
        ensures found { AreDue now self.old.moments self.new.found }
        ensures few { length self.new.found ≤ length self.old.moments }
        ensures cleared { self.new.moments ≡ map (cleared now) self.old.moments }
    {
        self.found.clear();
        list_due(&mut self.timers, now, &mut self.found);
    }

    /// Returns a slot that was found, and removes it from those found, or None where none is left.
    pub fn pop(&mut self) -> Option<SlotNumber>
        ensures some { IfSome result (λ number. self.old.found ≡ self.new.found ++ number.0 ∷ []) }
        ensures none { IfNone result (self.old.found ≡ []) }
        ensures moments { self.new.moments ≡ self.old.moments }
    {
        match self.found.pop() {
            Some(number) => Some(SlotNumber(number)),
            None => None,
        }
    }
}
