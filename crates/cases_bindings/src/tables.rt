//! Lines on one table.
ghost use Rattle.std.specs.Prelude.{◌≡◌, IfSome};
ghost use Rattle.bindings.specs.Ports.{AreBounds};

use crate::listing::{list, tell_found};
use crate::ports::parity;
use crate::states::{is_markable, may_turn, state_name};
use activity::Packet;
use addresses::Port;
use bindings::{Entry, Hashers, PortBounds, Table};
use cases_words::{Actor, Case};
use nat_types::{EntryState, Key};
use std::alloc::AllocError;
use std::mem;

/// The table after the lines so far, and the ranges for which it was made.
#[derive(Drop)]
pub(crate) struct TableCase {
    table: Table,
    zero: PortBounds,
    one: PortBounds,
    /// Whether what comes inward keeps its pair.
    inward_refresh: bool,
    ghost first: { table.zero ≡ zero },
    ghost second: { table.one ≡ one },
}

/// Prints an entry, if there is one.
fn show(entry: Option<Entry>, case: &mut Case) {
    match entry {
        Some(entry) => {
            case.put(entry.pair);
            case.say(" ", state_name(entry.state));
        }
        None => case.put("none"),
    }
}

/// Reads the first and the last port of a range. None says that the line is refused.
fn bounds(case: &mut Case) -> Option<PortBounds>
    ensures { IfSome result AreBounds }
{
    let (lowest, highest) = (case.port(), case.port());
    if lowest.0 < 1024 || highest.0 < lowest.0 {
        case.title("", ": refused, no bounds ");
        case.put(lowest);
        case.say(" ", highest);
        case.end();
        return None;
    }
    Some(PortBounds { lowest, highest })
}

impl TableCase {
    /// Makes a table of the ranges of the sample settings.
    pub(crate) fn sample(case: &mut Case) -> Result<TableCase, AllocError> {
        let zero = PortBounds {
            lowest: Port(20000),
            highest: Port(30000),
        };
        let one = PortBounds {
            lowest: Port(40000),
            highest: Port(50000),
        };
        TableCase::new(zero, one, case)
    }

    /// Makes an empty table, whose gateway owns the first range.
    fn new(zero: PortBounds, one: PortBounds, case: &mut Case) -> Result<TableCase, AllocError>
        requires zero { AreBounds zero }
        requires one { AreBounds one }
    {
        let table = Table::new(case.alloc, zero, one, Hashers::fixed())?;
        let mut made = TableCase {
            table,
            zero,
            one,
            inward_refresh: true,
        };
        made.own_first(case);
        Ok(made)
    }

    /// Makes the table's gateway own the first range.
    fn own_first(&mut self, case: &mut Case) {
        for port in self.zero.lowest.0..=self.zero.highest.0 {
            self.own(Port(port), case);
        }
    }

    /// Does a call without an answer. The call prints nothing, unless it is refused.
    fn change(&mut self, case: &mut Case) {
        case.back();
        match case.word() {
            "new" => self.begin(case),
            "own" => self.own(case.port(), case),
            "disown" => self.disown(case.port(), case),
            "refresh" => self.inward_refresh = case.is_first("all", "outward"),
            "carried" => self.carry(case),
            "renew" => self.table.renew(case.key(), case.number()),
            "renew_all" => self.table.renew_all(case.number()),
            "set_state" => self.set_state(case),
            "mark" => self.mark(case),
            "remove" => self.table.remove(case.key()),
            "revive" => self.table.revive(),
            "clear" => self.table.clear(),
            "own_all" => self.table.own_all(),
            _ => self.ask(case),
        }
    }

    fn ask(&mut self, case: &mut Case) {
        case.title("", ": ");
        self.answer(case);
        case.end();
    }

    fn answer(&mut self, case: &mut Case) {
        case.back();
        match case.word() {
            "pair_of_port" => show(self.table.pair_of_port(case.key()), case),
            "port_of" => show(self.table.port_of(case.endpoint()), case),
            "first_entry" => show(self.table.entry_after(None), case),
            "entry_after" => show(self.table.entry_after(Some(case.key())), case),
            "owned" => list(self.table.owned(), case),
            "pairs" => list(self.table.pairs(), case),
            "translating" => list(self.table.translating(), case),
            "idle_keys" => self.tell_idle(case),
            "free_like" => self.choose(case),
            "first_run" => self.tell_run(case),
            _ => self.tell(case),
        }
    }

    fn tell(&self, case: &mut Case) {
        case.back();
        let told = match case.word() {
            "owns" => self.table.owns(case.port()),
            "idle" => self.table.idle(case.key(), case.number()),
            "unused" => self.table.unused(case.key()),
            "marked" => self.table.marked(case.key()),
            "is_alone" => self.table.is_alone(case.key()),
            "is_vacant" => self.table.is_vacant(case.port()),
            "is_spare" => self.table.is_spare(case.port()),
            _ => return self.count(case),
        };
        case.put(told);
    }

    fn count(&self, case: &mut Case) {
        case.back();
        match case.word() {
            "len" => case.put(self.table.len()),
            "pairs_of" => {
                let count = self.table.pairs_of(case.ip());
                case.put(count);
            }
            _ => case.fault(),
        }
    }

    fn begin(&mut self, case: &mut Case) {
        let Some(zero) = bounds(case) else {
            return;
        };
        let Some(one) = bounds(case) else {
            return;
        };
        match TableCase::new(zero, one, case) {
            Ok(new) => drop(mem::replace(self, new)),
            Err(_) => case.fault(),
        }
    }

    fn own(&mut self, port: Port, case: &mut Case) {
        if !self.zero.holds(port) && !self.one.holds(port) {
            case.refuse("it lies in no range");
        } else if self.table.owns(port) {
            case.refuse("it is owned");
        } else {
            self.table.own(port);
        }
    }

    fn disown(&mut self, port: Port, case: &mut Case) {
        if !self.table.owns(port) {
            case.refuse("it isn't owned");
        } else if !self.table.is_vacant(port) {
            case.refuse("it has an entry");
        } else {
            self.table.disown(port);
        }
    }

    /// Adds a pair that comes by Install, `installed`, or by this gateway's choice, `chosen`.
    fn add(&mut self, case: &mut Case) {
        let (pair, state) = (case.pair(), case.state());
        let by_install = case.is_first("installed", "chosen");
        let now = case.number();
        if self.table.ready(&[pair.endpoint]).is_err() {
            return case.fault();
        }
        match self.table.add(pair, state, by_install, now) {
            Ok(()) => case.title("", ": added\n"),
            Err(fault) => case.refuse(fault),
        }
    }

    fn carry(&mut self, case: &mut Case) {
        let key = case.key();
        let packet = Packet {
            remote: case.remote(),
            way: case.way(),
            flags: case.flags(),
            inward_refresh: self.inward_refresh,
            at: case.number(),
        };
        self.table.carried(key, packet);
    }

    fn set_state(&mut self, case: &mut Case) {
        let (key, state) = (case.key(), case.state());
        match self.table.pair_of_port(key) {
            Some(entry) if entry.state == EntryState::Doomed => case.refuse("it is Doomed"),
            Some(entry) if !may_turn(entry.state, state) => {
                case.refuse("its side is another");
            }
            _ => self.table.set_state(key, state),
        }
    }

    fn mark(&mut self, case: &mut Case) {
        let key = case.key();
        match self.table.pair_of_port(key) {
            Some(entry) if is_markable(entry.state) => self.table.mark(key),
            _ => case.refuse("it is neither Pending nor Closing"),
        }
    }

    fn choose(&self, case: &mut Case) {
        let (protocol, parity) = (case.protocol(), parity(case));
        tell_found(self.table.free_like(protocol, parity), case);
    }

    /// Prints the first run of owned ports from a port on.
    fn tell_run(&self, case: &mut Case) {
        match self.table.first_run(case.port()) {
            Some(run) => {
                case.put(run.lowest);
                case.say(" to ", run.highest);
            }
            None => case.put("none"),
        }
    }

    /// Prints how many keys have idle entries that a gateway may release, which is `alone` or
    /// `paired`, and which keys these are.
    fn tell_idle(&mut self, case: &mut Case) {
        let is_alone = case.is_first("alone", "paired");
        let now = case.number();
        let mut keys = Vec::new(case.alloc);
        case.keep(self.table.idle_keys(is_alone, now, &mut keys));
        tell_keys(keys.as_slice(), case);
    }
}

fn tell_keys(keys: &[Key], case: &mut Case) {
    case.put(keys.len());
    for key in keys {
        case.say(", ", key.protocol);
        case.say(" ", key.port);
    }
}

impl Actor for TableCase {
    fn act(&mut self, case: &mut Case) {
        let _part = case.word();
        match case.word() {
            "add" => self.add(case),
            _ => self.change(case),
        }
    }
}
