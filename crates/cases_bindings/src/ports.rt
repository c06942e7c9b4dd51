//! Lines on one range of ports.

use crate::listing::tell_found;
use addresses::{Parity, Port};
use cases_words::{Actor, Case};
use port_range::{Range, RangeFault};
use std::alloc::Global;

const PARITIES: [(&str, Parity); 2] = [("even", Parity::Even), ("odd", Parity::Odd)];

/// Reads a parity: `even` or `odd`.
pub(crate) fn parity(case: &mut Case) -> Parity {
    case.pick(&PARITIES, Parity::Even)
}

/// The range of ports after the lines so far.
#[derive(Drop)]
pub(crate) struct PortCase {
    range: Range,
}

impl PortCase {
    /// Makes the first range of the sample settings.
    pub(crate) fn sample(alloc: Global) -> Result<PortCase, RangeFault> {
        let range = Range::new(alloc, Port(20000), Port(30000))?;
        Ok(PortCase { range })
    }

    fn begin(&mut self, made: Result<Range, RangeFault>, case: &mut Case) {
        match made {
            Ok(range) => self.range = range,
            Err(fault) => case.refuse(fault),
        }
    }

    fn take(&mut self, port: Port, case: &mut Case) {
        if self.range.is_free(port) {
            self.range.take(port);
        } else {
            case.refuse("it isn't free");
        }
    }

    fn put_back(&mut self, port: Port, case: &mut Case) {
        if !self.range.holds(port) || self.range.is_free(port) {
            case.refuse("it isn't taken");
        } else {
            self.range.put_back(port);
        }
    }

    fn own(&mut self, port: Port, case: &mut Case) {
        if !self.range.holds(port) || self.range.owns(port) {
            case.refuse("it isn't foreign");
        } else {
            self.range.own(port);
        }
    }

    fn disown(&mut self, port: Port, case: &mut Case) {
        if !self.range.owns(port) || !self.range.is_free(port) {
            case.refuse("it isn't owned and free");
        } else {
            self.range.disown(port);
        }
    }

    fn answer(&self, case: &mut Case) {
        case.back();
        case.title("", ": ");
        match case.word() {
            "free_like" => tell_found(self.range.free_like(parity(case)), case),
            _ => self.tell(case),
        }
        case.end();
    }

    fn tell(&self, case: &mut Case) {
        case.back();
        let told = match case.word() {
            "holds" => self.range.holds(case.port()),
            "is_free" => self.range.is_free(case.port()),
            "owns" => self.range.owns(case.port()),
            _ => return case.fault(),
        };
        case.put(told);
    }
}

impl Actor for PortCase {
    /// Does the call of a line. A call without an answer prints nothing, unless it is refused.
    fn act(&mut self, case: &mut Case) {
        let _part = case.word();
        match case.word() {
            "new" => {
                let made = Range::new(case.alloc, case.port(), case.port());
                self.begin(made, case);
            }
            "unowned" => {
                let made = Range::unowned(case.alloc, case.port(), case.port());
                self.begin(made, case);
            }
            "take" => self.take(case.port(), case),
            "put_back" => self.put_back(case.port(), case),
            "own" => self.own(case.port(), case),
            "disown" => self.disown(case.port(), case),
            "reset" => self.range.reset(),
            _ => self.answer(case),
        }
    }
}
