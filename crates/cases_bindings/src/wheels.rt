//! Lines on the times at which slots are due.
ghost use Rattle.std.specs.Prelude.{◌≡◌, length};

use crate::listing::list_all;
use cases_words::{Actor, Case};
use std::alloc::{AllocError, Global};
use std::mem;
use timers::Timers;

/// The slots that the lines so far have set, and their number.
#[derive(Drop)]
pub(crate) struct TimerCase {
    timers: Timers,
    count: usize,
    ghost sized: { length timers ≡ count },
}

impl TimerCase {
    pub(crate) fn new(alloc: Global, count: usize) -> Result<TimerCase, AllocError> {
        let timers = Timers::with_capacity(alloc, count)?;
        Ok(TimerCase { timers, count })
    }

    fn begin(&mut self, case: &mut Case) {
        match TimerCase::new(case.alloc, case.count()) {
            Ok(new) => drop(mem::replace(self, new)),
            Err(_) => case.fault(),
        }
    }

    fn set(&mut self, case: &mut Case) {
        let (slot, due) = (case.count(), case.number());
        if slot >= self.count {
            case.refuse("no such slot");
        } else {
            self.timers.set(slot, due);
        }
    }

    fn clear(&mut self, case: &mut Case) {
        let slot = case.count();
        if slot >= self.count {
            case.refuse("no such slot");
        } else {
            self.timers.clear(slot);
        }
    }

    /// Prints how many slots were due, and which, sorted, since `due` returns them in any order.
    fn tell_due(&mut self, case: &mut Case) {
        case.title("", ": ");
        let now = case.number();
        let mut slots = Vec::new(case.alloc);
        case.keep(self.timers.due(now, &mut slots));
        slots.sort_unstable();
        list_all(slots.as_slice(), case);
        case.end();
    }
}

impl Actor for TimerCase {
    fn act(&mut self, case: &mut Case) {
        let _part = case.word();
        match case.word() {
            "new" => self.begin(case),
            "set" => self.set(case),
            "clear" => self.clear(case),
            "due" => self.tell_due(case),
            _ => case.fault(),
        }
    }
}
