//! The table that is drawn, with its cursor.
ghost use Rattle.std.specs.Prelude.{◌≡◌};
ghost use Rattle.bindings.specs.Ports.{AreBounds};
ghost use Rattle.resync.specs.Batch.{CanBeSent};

use crate::spelled::is_spelled_pair;
use crate::states::may_turn;
use addresses::Port;
use anyhow::{Result, bail};
use arrayvec::ArrayVec;
use bindings::{Hashers, PortBounds, Table};
use cases_words::Case;
use nat_types::{EntryState, Key, Pair, Record};
use resync::Cursor;
use std::alloc::AllocError;

/// A table whose pairs have a spelling on the link, with the cursor of its batch.
#[derive(Drop)]
pub(crate) struct Sender {
    table: Table,
    zero: PortBounds,
    one: PortBounds,
    pub(crate) cursor: Cursor,
    ghost sent: { CanBeSent table },
    ghost first: { table.zero ≡ zero },
    ghost second: { table.one ≡ one },
}

impl Sender {
    /// Makes an empty table, whose gateway owns the first range.
    pub(crate) fn new(
        zero: PortBounds,
        one: PortBounds,
        case: &mut Case,
    ) -> Result<Sender, AllocError>
        requires zero { AreBounds zero }
        requires one { AreBounds one }
    {
        let table = Table::new(case.alloc, zero, one, Hashers::fixed())?;
        let cursor = Cursor::new();
        let mut sender = Sender {
            table,
            zero,
            one,
            cursor,
        };
        sender.own_first(case);
        Ok(sender)
    }

    /// Makes the table's gateway own the first range.
    fn own_first(&mut self, case: &mut Case) {
        for port in self.zero.lowest.0..=self.zero.highest.0 {
            self.own(Port(port), case);
        }
    }

    pub(crate) fn own(&mut self, port: Port, case: &mut Case) {
        if !self.zero.holds(port) && !self.one.holds(port) {
            case.refuse("it lies in no range");
        } else if self.table.owns(port) {
            case.refuse("it is owned");
        } else {
            self.table.own(port);
        }
    }

    pub(crate) fn disown(&mut self, port: Port, case: &mut Case) {
        if self.table.is_spare(port) {
            self.table.disown(port);
        } else {
            case.refuse("it isn't spare");
        }
    }

    pub(crate) fn add(&mut self, pair: Pair, state: EntryState, case: &mut Case) {
        if let Err(fault) = self.added(pair, state) {
            case.refuse(fault);
        }
    }

    fn added(&mut self, pair: Pair, state: EntryState) -> Result<()> {
        if !is_spelled_pair(pair) {
            bail!("a port is 0");
        }
        self.table.ready(&[pair.endpoint])?;
        self.table.add(pair, state, false, 0)?;
        Ok(())
    }

    pub(crate) fn set_state(&mut self, key: Key, state: EntryState, case: &mut Case) {
        match self.table.pair_of_port(key) {
            Some(entry) if entry.state == EntryState::Doomed => case.refuse("it is Doomed"),
            Some(entry) if !may_turn(entry.state, state) => {
                case.refuse("its side is another");
            }
            _ => self.table.set_state(key, state),
        }
    }

    /// Draws so many records, at most 64, or all that are left.
    pub(crate) fn draw(&mut self, count: usize) -> ArrayVec<Record, 64> {
        let mut records = ArrayVec::new();
        self.cursor.draw(&self.table, count.min(64), &mut records);
        records
    }
}
