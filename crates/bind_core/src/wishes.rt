//! The wishes of packets: what a packet of an endpoint has to do, and what comes of it.
ghost use Rattle.std.specs.Prelude.{◌≡◌, ◌+◌, ◌<◌, ◌≤◌, ◌++◌, ℕ, [], vec_len, vec_capacity, IfSome, Some, is_some, List};
ghost use Rattle.nat_types.specs.declared.records.Record.{Record as Rec};
ghost use Rattle.spec_binding.specs.Machine.{Stands, Works};
ghost use Rattle.spec_binding.specs.Books.{is_apart as is_apart_at};
ghost use Rattle.spec_binding.specs.Rows.{behind, new_wish, is_at_limit as is_at_limit_in, wish_of};
ghost use Rattle.spec_binding.specs.Rows.{noted_by, answered, is_full, port_for, unknown_wish};
ghost use Rattle.spec_binding.specs.declared.changes.Want.TheVariants.{Port as PortOf};
ghost use Rattle.bind_core.specs.Looks.{given_answer, offered_answer};
ghost use Rattle.bind_core.specs.Changes.{LivesOn};
ghost use Rattle.bind_core.specs.Cores.{book_of, ledger_of};
ghost use Rattle.spec_binding.specs.WellFormed.{IsWellFormedEndpoint};
ghost use Rattle.spec_binding.specs.Ledgers.{ledger_after};

use crate::Core;
use crate::deeds::is_link_full;
use crate::rows::{add_row, is_lone, is_synced, known, paired, quiet, wish};
use addresses::{Ip, Port};
use bindings::numbers;
use link::Link;
use nat_types::{Endpoint, EntryState, Key, Note, NoteKind, Pair};
use spec_binding::{Choice, PortRequest, Want, answers_fit, books_keep, rows_fit, wish_works};

/// Returns the answer to a packet of an endpoint whose pair would be made at once, on this port or on
/// none.
fn given(port: Option<Port>) -> Want
    ensures { result ≡ given_answer port }
{
    match port {
        Some(port) => Want::Port(port),
        None => Want::NoPort,
    }
}

/// Returns the answer to a packet of an endpoint whose pair would be proposed, where a port is free
/// for it.
fn offered(has_port: bool, full: bool) -> Want
    ensures { result ≡ offered_answer has_port full }
{
    if !has_port {
        return Want::NoPort;
    }
    if full { Want::NotNow } else { Want::Wait }
}

impl Core {
    /// Returns the port that an endpoint without a pair gets, or None where none is free: the lowest
    /// one, or the one that is drawn by the endpoint's numbers.
    fn port_for(&self, endpoint: Endpoint) -> Option<Port>
        ensures { result ≡ port_for (book_of self.now) endpoint }
    {
        let parity = endpoint.port.parity();
        match &self.rules.choice {
            Choice::Lowest => self.table.free_like(endpoint.protocol, parity),
            Choice::Drawn(key) => {
                if !self.has_port(endpoint) {
                    return None;
                }
                let (x, y) = numbers(key, endpoint);
                self.table.drawn(endpoint.protocol, parity, x, y)
            }
        }
    }

    /// Whether a port is free for an endpoint without a pair. No port is drawn.
    fn has_port(&self, endpoint: Endpoint) -> bool
        ensures { result ≡ is_some (port_for (book_of self.now) endpoint) }
    {
        self.table
            .free_like(endpoint.protocol, endpoint.port.parity())
            .is_some()
    }

    fn new_pair(&self, apart: bool, full: bool, pair: Pair) -> PortRequest
        ensures { result ≡ new_wish (book_of self.now) apart full pair.endpoint (Some
            pair.key.port) }
    {
        if is_lone(self.stage) {
            let what = Some(NoteKind::Retaken(pair));
            let row = add_row(pair, EntryState::Live, None, what);
            return wish(Want::Port(pair.key.port), row);
        }
        paired(apart, full, pair)
    }

    fn new_wish_for(
        &self,
        apart: bool,
        full: bool,
        endpoint: Endpoint,
        port: Option<Port>,
    ) -> PortRequest
        ensures { result ≡ new_wish (book_of self.now) apart full endpoint port }
    {
        match port {
            None => wish(Want::NoPort, self.wanting(full)),
            Some(port) => {
                let key = Key {
                    protocol: endpoint.protocol,
                    port,
                };
                self.new_pair(apart, full, Pair::new(key, endpoint.address, endpoint.port))
            }
        }
    }

    /// Whether an inside address has as many pairs as it may have, or more: those of both gateways
    /// count.
    fn is_at_limit(&self, address: Ip) -> bool
        ensures { result ≡ is_at_limit_in (book_of self.now) address }
    {
        match self.rules.limit {
            None => false,
            Some(limit) => u32::from(limit) <= self.table.pairs_of(address),
        }
    }

    /// Returns the answer and the row for an endpoint without a pair. `looked` is the port that
    /// `look` answered, if it was one: the port isn't chosen again then.
    fn unknown_wish_for(
        &self,
        apart: bool,
        full: bool,
        endpoint: Endpoint,
        looked: Option<Port>,
    ) -> PortRequest
        requires { IfSome looked (λ port. (unknown_wish (book_of self.now) apart full
            endpoint).answer ≡ PortOf port) }
        ensures { result ≡ unknown_wish (book_of self.now) apart full endpoint }
    {
        if looked.is_some() {
            return self.new_wish_for(apart, full, endpoint, looked);
        }
        if self.is_at_limit(endpoint.address) {
            return wish(Want::HostLimit, quiet());
        }
        self.new_wish_for(apart, full, endpoint, self.port_for(endpoint))
    }

    #[inline(always)]
    fn wish_for(
        &self,
        apart: bool,
        full: bool,
        endpoint: Endpoint,
        looked: Option<Port>,
    ) -> PortRequest
        requires { IfSome looked (λ port. (wish_of (book_of self.now) apart full endpoint).answer
            ≡ PortOf port) }
        ensures { result ≡ wish_of (book_of self.now) apart full endpoint }
    {
        if !is_synced(self.stage) {
            return wish(Want::NotNow, quiet());
        }
        match self.table.port_of(endpoint) {
            Some(entry) => known(entry.pair, entry.state),
            None => self.unknown_wish_for(apart, full, endpoint, looked),
        }
    }

    /// Returns what `want` would answer, and changes nothing.
    #[inline(always)]
    pub fn look(&self, link: &Link, endpoint: Endpoint, now: u64) -> Want
        ensures { let apart = is_apart_at (book_of self.now) link.now now
            in result ≡ (wish_of (book_of self.now) apart (is_full link.now) endpoint).answer }
    {
        if !is_synced(self.stage) {
            return Want::NotNow;
        }
        match self.table.port_of(endpoint) {
            Some(entry) => known(entry.pair, entry.state).answer,
            None => self.look_for_new(link, endpoint, now),
        }
    }

    /// Returns what `want` would answer for an endpoint without a pair. The port is chosen only where
    /// the pair would be made at once.
    #[cold]
    fn look_for_new(&self, link: &Link, endpoint: Endpoint, now: u64) -> Want
        ensures { let apart = is_apart_at (book_of self.now) link.now now in
            result ≡ (unknown_wish (book_of self.now) apart (is_full link.now) endpoint).answer }
    {
        if self.is_at_limit(endpoint.address) {
            return Want::HostLimit;
        }
        if is_lone(self.stage) || self.is_apart(link, now) {
            return given(self.port_for(endpoint));
        }
        offered(self.has_port(endpoint), is_link_full(link))
    }

    /// Returns what a packet of an endpoint has to do: go out by its pair's port, wait, or be
    /// dropped for now. Where the endpoint has no pair, a new one may be made or proposed, or ports
    /// asked for of the peer. A gateway that is apart makes it alone. Behind a pair that is made,
    /// ports are asked for ahead. `looked` is the port that `look` answers for the endpoint now: it
    /// isn't chosen again then. It may be left out.
    pub fn want(
        &mut self,
        endpoint: Endpoint,
        looked: Option<Port>,
        link: &mut Link,
        now: u64,
        notes: &mut Vec<Note>,
    ) -> Want
        requires formed { IsWellFormedEndpoint endpoint }
        requires looked { IfSome looked (λ port. let apart = is_apart_at (book_of self.old) link.old
            now in (wish_of (book_of self.old) apart (is_full link.old) endpoint).answer
            ≡ PortOf port) }
        requires ready { 0 < self.old.table.ready }
        requires reserved { vec_len notes.old < vec_capacity notes.old }
        ensures answer { let apart = is_apart_at (book_of self.old) link.old now
            in result ≡ (wish_of (book_of self.old) apart (is_full link.old) endpoint).answer }
        ensures link { let apart = is_apart_at (book_of self.old) link.old now in
            let row = (wish_of (book_of self.old) apart (is_full link.old) endpoint).row
            in link.new ≡ answered (answered link.old row.answer)
            (behind (book_of self.old) link.old row).answer }
        ensures ledger { let apart = is_apart_at (book_of self.old) link.old now in
            let row = (wish_of (book_of self.old) apart (is_full link.old) endpoint).row
            in ledger_of self.new ≡ ledger_after now (behind (book_of self.old) link.old row).change
            (ledger_after now row.change (ledger_of self.old)) }
        ensures ready { self.old.table.ready ≤ self.new.table.ready + 1 }
        ensures pasts { let apart = is_apart_at (book_of self.old) link.old now in
            let row = (wish_of (book_of self.old) apart (is_full link.old) endpoint).row
            in LivesOn now row.change self.old.table self.new.table }
        ensures notes { let apart = is_apart_at (book_of self.old) link.old now in
            let row = (wish_of (book_of self.old) apart (is_full link.old) endpoint).row
            in notes.new.items ≡ notes.old.items ++ noted_by self.old.id now row.what }
        ensures len { vec_len notes.new ≤ vec_len notes.old + 1 }
        ensures capacity { vec_capacity notes.new ≡ vec_capacity notes.old }
        ensures works { (h : List Rec) (n : ℕ) → Stands (book_of self.old) link.old h
            → let apart = is_apart_at (book_of self.old) link.old now in
            let row = (wish_of (book_of self.old) apart (is_full link.old) endpoint).row in
            Works now [] [] (book_of self.old) link.old n (book_of self.new) link.new n
            (noted_by self.old.id now row.what) h }
    {
        self.recall();
        rows_fit();
        answers_fit();
        books_keep();
        wish_works();
        let full = is_link_full(link);
        let apart = self.is_apart(link, now);
        let wish = self.wish_for(apart, full, endpoint, looked);
        let answer = wish.answer;
        self.carry_out(link, notes, now, wish.row);
        answer
    }
}
