//! Ports that the peer is asked for: where no port is free, and ahead of that.
ghost use Rattle.std.specs.Prelude.{◌≡◌, ◌<◌, IfSome, IsTrue, is_some};
ghost use Rattle.link.specs.Grammar.{IsWellFormedRecord};
ghost use Rattle.link.specs.Link.{free_places};
ghost use Rattle.bind_core.specs.Changes.{wants_after};
ghost use Rattle.bind_core.specs.Cores.{book_of};
ghost use Rattle.bind_core.specs.Looks.{asked_row};
ghost use Rattle.spec_binding.specs.Rows.{answered, is_full, wanting_row};
ghost use Rattle.spec_binding.specs.Rows.{is_cause as is_cause_in, is_short as is_short_in};
ghost use Rattle.spec_binding.specs.Rows.{is_short_after as is_short_after_in};

use crate::Core;
use crate::deeds::{gains_any, is_link_full, is_made, is_wanting, push_answer};
use crate::rows::{is_paired, quiet, row};
use addresses::Protocol;
use link::Link;
use nat_types::Record;
use spec_binding::{Change, Transition};

impl Core {
    /// Returns the row that asks the peer for ports, where it may be asked.
    pub(crate) fn wanting(&self, full: bool) -> Transition
        ensures { result ≡ wanting_row (book_of self.now) full }
    {
        if is_paired(self.stage) && !self.wants && !full {
            row(Change::Want, Some(Record::Want), None)
        } else {
            quiet()
        }
    }

    /// Returns what is asked for behind a change that was made, where the change is a cause to ask for
    /// ports ahead.
    fn asked(&self, is_cause: bool, full: bool, change: Change) -> Transition
        ensures { result ≡ asked_row is_cause (book_of self.now) full change }
    {
        if is_cause && self.is_short_after(change) {
            self.wanting(full)
        } else {
            quiet()
        }
    }

    /// Asks the peer for ports behind a change that was made, where the change is a cause to ask for
    /// ports ahead, the gateway is short after it, and the peer may be asked.
    fn ask_ahead(&mut self, link: &mut Link, is_cause: bool, change: Change)
        ensures core { let row = asked_row is_cause (book_of self.old) (is_full link.old) change
            in self.new ≡ record self.old { wants = wants_after row.change self.old.wants } }
        ensures link { let row = asked_row is_cause (book_of self.old) (is_full link.old) change
            in link.new ≡ answered link.old row.answer }
    {
        let row = self.asked(is_cause, is_link_full(link), change);
        push_answer(link, row.answer);
        self.wants = is_wanting(&row.change, self.wants);
    }

    /// Pushes the answer of a row, whose change was made, and asks for ports behind it.
    pub(crate) fn answer(
        &mut self,
        link: &mut Link,
        is_cause: bool,
        change: Change,
        answer: Option<Record>,
    )
        requires places { IsTrue (is_some answer) → 0 < free_places link.old }
        requires formed { IfSome answer IsWellFormedRecord }
        ensures core { let full = is_full (answered link.old answer) in
            let more = asked_row is_cause (book_of self.old) full change
            in self.new ≡ record self.old { wants = wants_after more.change self.old.wants } }
        ensures link { let full = is_full (answered link.old answer) in
            let more = asked_row is_cause (book_of self.old) full change
            in link.new ≡ answered (answered link.old answer) more.answer }
    {
        push_answer(link, answer);
        self.ask_ahead(link, is_cause, change);
    }

    /// Whether a change is a cause to ask for ports ahead: a pair is made, or a granted port becomes
    /// owned.
    pub(crate) fn is_cause(&self, change: Change) -> bool
        ensures { result ≡ is_cause_in (book_of self.now) change }
    {
        match change {
            Change::Add(entry) => is_made(entry.state),
            Change::Gain(granted) => gains_any(&self.table, self.bounds, granted),
            _ => false,
        }
    }

    /// Whether fewer of the owned ports are free for a protocol than are asked for ahead.
    fn is_short(&self, protocol: Protocol) -> bool
        ensures { result ≡ is_short_in (book_of self.now) protocol }
    {
        self.table.free_count(protocol) < u32::from(self.rules.ahead)
    }

    /// Whether the gateway is short after a change: of a pair in its protocol, else in some protocol.
    fn is_short_after(&self, change: Change) -> bool
        ensures { result ≡ is_short_after_in (book_of self.now) change }
    {
        match change {
            Change::Add(entry) => self.is_short(entry.pair.key.protocol),
            _ => {
                self.is_short(Protocol::Icmp)
                    || self.is_short(Protocol::Tcp)
                    || self.is_short(Protocol::Udp)
            }
        }
    }
}
