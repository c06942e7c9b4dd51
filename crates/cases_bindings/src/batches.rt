//! Two tables, one drawn and the other loaded: each line of a file has a call with its arguments, and the program
//! prints what the call answers, or why the line is refused.

ghost use Rattle.bindings.specs.Ports.{AreBounds};

use crate::loader::Loader;
use crate::sender::Sender;
use crate::telling::tell_record;
use addresses::Port;
use bindings::PortBounds;
use cases_words::{Actor, Case, beside};
use nat_types::Record;
use std::alloc::AllocError;
use std::mem;

/// The table that is drawn, and the table that is loaded.
#[derive(Drop)]
pub(crate) struct Tables {
    sender: Sender,
    loader: Loader,
}

/// Reads the first and the last port of a range. Where they aren't one, the line is wrong, and the result is any range.
pub(crate) fn bounds(case: &mut Case) -> PortBounds
    ensures { AreBounds result }
{
    let (lowest, highest) = (case.port(), case.port());
    if lowest.0 < 1024 || highest.0 < lowest.0 {
        case.fault();
        let (lowest, highest) = (Port(1024), Port(1024));
        return PortBounds { lowest, highest };
    }
    PortBounds { lowest, highest }
}

impl Tables {
    fn new(zero: PortBounds, one: PortBounds, case: &mut Case) -> Result<Tables, AllocError>
        requires zero { AreBounds zero }
        requires one { AreBounds one }
    {
        let sender = Sender::new(zero, one, case)?;
        let (sender, loader) = beside(sender, Loader::new(case.alloc, zero, one))?;
        Ok(Tables { sender, loader })
    }

    pub(crate) fn sample(case: &mut Case) -> Result<Tables, AllocError> {
        let zero = PortBounds {
            lowest: Port(20000),
            highest: Port(20001),
        };
        let one = PortBounds {
            lowest: Port(40000),
            highest: Port(40003),
        };
        Tables::new(zero, one, case)
    }

    fn begin(&mut self, case: &mut Case) {
        let zero = bounds(case);
        let one = bounds(case);
        match Tables::new(zero, one, case) {
            Ok(new) => drop(mem::replace(self, new)),
            Err(_) => case.fault(),
        }
    }

    fn ask(&mut self, case: &mut Case) {
        case.back();
        case.title("", ": ");
        match case.word() {
            "draw" => self.draw(case),
            "take" => self.take(case),
            "loaded" => self.loader.tell(case),
            _ => case.fault(),
        }
        case.end();
    }

    /// Draws records, and gives them to the other table.
    fn draw(&mut self, case: &mut Case) {
        let records = self.sender.draw(case.count());
        self.hand_on(records.as_slice(), case);
        drop(records);
        if self.sender.cursor.is_over() {
            case.put("; over");
        }
    }

    /// Prints how many records there are, and each of them, and gives them to the other table.
    fn hand_on(&mut self, records: &[Record], case: &mut Case) {
        case.put(records.len());
        for item in records {
            case.put("; ");
            tell_record(item, case);
            if self.loader.take(*item, case).is_none() {
                case.fault();
            }
        }
    }

    fn take(&mut self, case: &mut Case) {
        let item = case.record();
        match self.loader.take(item, case) {
            Some(what) => case.show("", what),
            None => case.put("out of place"),
        }
    }
}

impl Actor for Tables {
    /// Does the call of a line. A call without an answer prints nothing, unless it is refused.
    fn act(&mut self, case: &mut Case) {
        match case.word() {
            "new" => self.begin(case),
            "own" => self.sender.own(case.port(), case),
            "disown" => self.sender.disown(case.port(), case),
            "add" => self.sender.add(case.pair(), case.state(), case),
            "set_state" => self.sender.set_state(case.key(), case.state(), case),
            _ => self.ask(case),
        }
    }
}
