//! The free and owned ports of a table, for each protocol.
ghost use Rattle.std.specs.Prelude.{◌≡◌, ℕ, [], length, true, false, IfOk, OnErr, IfSome, IfNone, if◌then◌else◌, ◌&&◌, ◌||◌, ◌==◌, ◌+◌, ◌*◌, ◌<◌, ◌≤◌};
ghost use Rattle.addresses.specs.declared.transport.Protocol.{Protocol as Transport};
ghost use Rattle.nat_types.specs.declared.pairs.Key.{Key as OutsidePort};
ghost use Rattle.nat_types.specs.Same.{same_key};
ghost use Rattle.port_range.specs.Ports.{is_bad, is_within, is_free, is_owned, IsRange, chosen_port, open_ports};
ghost use Rattle.port_range.specs.Drawn.{drawn_port};
ghost use Rattle.port_range.specs.Memory.{LacksMarks};
ghost use Rattle.port_range.specs.Searches.{IsLastBelow};
ghost use Rattle.port_range.specs.Words.{is_set};
ghost use Rattle.bindings.specs.Ports.{range_of, is_free_at, is_spare_in, in_bounds, in_either, lowest_of, highest_of, AreAlike, SameBounds, SameOwned, SameFree};
ghost use Rattle.bindings.specs.Runs.{own_in, without_port, all_ports};

use crate::PortBounds;
use addresses::{Parity, Port, Protocol};
use nat_types::Key;
use port_range::{Range, RangeFault, highest_below};
use std::alloc::{AllocError, Global};

/// A range of ports for each protocol.
#[derive(Drop)]
pub(crate) struct Ports {
    pub icmp: Range,
    pub tcp: Range,
    pub udp: Range,
}

/// Returns the lowest port of two ranges.
pub(crate) fn lowest_port(zero: PortBounds, one: PortBounds) -> Port
    ensures { result.0 ≡ lowest_of zero one }
{
    if zero.lowest.0 < one.lowest.0 {
        zero.lowest
    } else {
        one.lowest
    }
}

/// Returns the highest port of two ranges.
pub(crate) fn highest_port(zero: PortBounds, one: PortBounds) -> Port
    ensures { result.0 ≡ highest_of zero one }
{
    if zero.highest.0 < one.highest.0 {
        one.highest
    } else {
        zero.highest
    }
}

fn unowned(alloc: Global, lowest: Port, highest: Port) -> Result<Range, AllocError>
    requires { is_bad lowest.0 highest.0 ≡ false }
    ensures lowest { IfOk result (λ r. r.lowest ≡ lowest.0) }
    ensures highest { IfOk result (λ r. r.highest ≡ highest.0) }
    ensures free { IfOk result (λ r. (port : ℕ) → is_free r port
        ≡ is_within lowest.0 highest.0 port) }
    ensures owned { IfOk result (λ r. (port : ℕ) → is_owned r port ≡ false) }
    ensures list { IfOk result (λ r. r.owned ≡ []) }
    ensures refused { OnErr result LacksMarks }
{
    match Range::unowned(alloc, lowest, highest) {
        Ok(range) => Ok(range),
        Err(RangeFault::NoMemory) => Err(AllocError),
        Err(RangeFault::BadRange) => unreachable!(),
    }
}

/// Takes a port of the range, where it is free, so that it is free no more.
fn take_in(range: &mut Range, port: Port)
    ensures free { (p : ℕ) → is_free range.new p ≡ (if p == port.0 then false
        else is_free range.old p) }
    ensures owned { range.new.owned ≡ range.old.owned }
    ensures lowest { range.new.lowest ≡ range.old.lowest }
    ensures highest { range.new.highest ≡ range.old.highest }
{
    if range.is_free(port) {
        range.take(port);
    }
}

/// Makes a port of the range free.
fn put_back_in(range: &mut Range, port: Port)
    ensures free { let within = is_within range.old.lowest range.old.highest port.0 in (p : ℕ)
        → is_free range.new p ≡ (if p == port.0 then within else is_free range.old p) }
    ensures owned { range.new.owned ≡ range.old.owned }
    ensures lowest { range.new.lowest ≡ range.old.lowest }
    ensures highest { range.new.highest ≡ range.old.highest }
{
    range.recall();
    if range.holds(port) && !range.is_free(port) {
        range.put_back(port);
    }
}

impl Ports {
    /// Makes ranges of free ports, none of them owned. An Err says that there is no memory.
    pub(crate) fn new(alloc: Global, lowest: Port, highest: Port) -> Result<Ports, AllocError>
        requires { is_bad lowest.0 highest.0 ≡ false }
        ensures alike { IfOk result (AreAlike lowest.0 highest.0) }
        ensures free { IfOk result (λ p. (q : OutsidePort) → is_free_at p q
            ≡ is_within lowest.0 highest.0 q.port.0) }
        ensures owned { IfOk result (λ p. (port : ℕ) → is_owned p.tcp port ≡ false) }
        ensures list { IfOk result (λ p. p.tcp.owned ≡ []) }
        ensures refused { OnErr result LacksMarks }
    {
        let icmp = unowned(alloc, lowest, highest)?;
        let Ok(tcp) = unowned(alloc, lowest, highest) else {
            drop(icmp);
            return Err(AllocError);
        };
        let Ok(udp) = unowned(alloc, lowest, highest) else {
            drop(icmp);
            drop(tcp);
            return Err(AllocError);
        };
        Ok(Ports { icmp, tcp, udp })
    }

    /// Takes a key that is free, so that it is free no more, and leaves any other key as it is.
    pub(crate) fn take(&mut self, key: Key)
        ensures free { (q : OutsidePort) → is_free_at self.new q ≡ (if same_key key q then false
            else is_free_at self.old q) }
        ensures owned { SameOwned self.old self.new }
        ensures bounds { SameBounds self.old self.new }
    {
        match key.protocol {
            Protocol::Icmp => take_in(&mut self.icmp, key.port),
            Protocol::Tcp => take_in(&mut self.tcp, key.port),
            Protocol::Udp => take_in(&mut self.udp, key.port),
        }
    }

    /// Makes a key of the ranges free.
    pub(crate) fn put_back(&mut self, key: Key)
        requires { AreAlike self.old.tcp.lowest self.old.tcp.highest self.old }
        ensures free { let within = is_within self.old.tcp.lowest self.old.tcp.highest key.port.0
            in (q : OutsidePort) → is_free_at self.new q ≡ (if same_key key q then within
            else is_free_at self.old q) }
        ensures owned { SameOwned self.old self.new }
        ensures bounds { SameBounds self.old self.new }
    {
        match key.protocol {
            Protocol::Icmp => put_back_in(&mut self.icmp, key.port),
            Protocol::Tcp => put_back_in(&mut self.tcp, key.port),
            Protocol::Udp => put_back_in(&mut self.udp, key.port),
        }
    }

    /// Makes a port of the ranges owned, for each protocol.
    pub(crate) fn own(&mut self, port: Port)
        requires alike { AreAlike self.old.tcp.lowest self.old.tcp.highest self.old }
        requires within { is_within self.old.tcp.lowest self.old.tcp.highest port.0 ≡ true }
        requires foreign { is_owned self.old.tcp port.0 ≡ false }
        ensures icmp { (p : ℕ) → is_owned self.new.icmp p ≡ (if p == port.0 then true
            else is_owned self.old.icmp p) }
        ensures tcp { (p : ℕ) → is_owned self.new.tcp p ≡ (if p == port.0 then true
            else is_owned self.old.tcp p) }
        ensures udp { (p : ℕ) → is_owned self.new.udp p ≡ (if p == port.0 then true
            else is_owned self.old.udp p) }
        ensures list { self.new.tcp.owned ≡ own_in port.0 self.old.tcp.owned }
        ensures free { SameFree self.old self.new }
        ensures bounds { SameBounds self.old self.new }
    {
        self.tcp.recall();
        self.icmp.own(port);
        self.tcp.own(port);
        self.udp.own(port);
        self.tcp.recall();
    }

    /// Makes the ports of a range that lies in these owned, for each protocol.
    fn own_range(&mut self, bounds: PortBounds)
        requires alike { AreAlike self.old.tcp.lowest self.old.tcp.highest self.old }
        requires low { self.old.tcp.lowest ≤ bounds.lowest.0 }
        requires high { bounds.highest.0 ≤ self.old.tcp.highest }
        ensures tcp { (p : ℕ) → is_owned self.new.tcp p ≡ (is_owned self.old.tcp p
            || in_bounds bounds p) }
        ensures alike { AreAlike self.old.tcp.lowest self.old.tcp.highest self.new }
        ensures free { SameFree self.old self.new }
    {
        let PortBounds { lowest, highest } = bounds;
        self.icmp.own_between(lowest, highest);
        self.tcp.own_between(lowest, highest);
        self.udp.own_between(lowest, highest);
    }

    /// Makes all ports of the ranges owned. No other port is owned before the call.
    pub(crate) fn own_all(&mut self, zero: PortBounds, one: PortBounds)
        requires alike { AreAlike (lowest_of zero one) (highest_of zero one) self.old }
        requires inside { (p : ℕ) → is_owned self.old.tcp p ≡ true
            → in_either zero one p ≡ true }
        ensures list { self.new.tcp.owned ≡ all_ports zero one }
        ensures alike { AreAlike (lowest_of zero one) (highest_of zero one) self.new }
        ensures free { SameFree self.old self.new }
    {
        self.tcp.recall();
        self.own_range(zero);
        self.own_range(one);
        self.tcp.recall();
    }

    /// Makes all ports free, and none of them owned.
    pub(crate) fn reset(&mut self)
        requires { AreAlike self.old.tcp.lowest self.old.tcp.highest self.old }
        ensures alike { AreAlike self.old.tcp.lowest self.old.tcp.highest self.new }
        ensures free { let low = self.old.tcp.lowest in (q : OutsidePort) → is_free_at self.new q
            ≡ is_within low self.old.tcp.highest q.port.0 }
        ensures owned { self.new.tcp.owned ≡ [] }
    {
        self.icmp.reset();
        self.tcp.reset();
        self.udp.reset();
    }

    /// Makes an owned port that is free for each protocol unowned.
    pub(crate) fn disown(&mut self, port: Port)
        requires alike { AreAlike self.old.tcp.lowest self.old.tcp.highest self.old }
        requires owned { is_owned self.old.tcp port.0 ≡ true }
        requires icmp_free { is_free self.old.icmp port.0 ≡ true }
        requires tcp_free { is_free self.old.tcp port.0 ≡ true }
        requires udp_free { is_free self.old.udp port.0 ≡ true }
        ensures icmp { (p : ℕ) → is_owned self.new.icmp p ≡ (if p == port.0 then false
            else is_owned self.old.icmp p) }
        ensures tcp { (p : ℕ) → is_owned self.new.tcp p ≡ (if p == port.0 then false
            else is_owned self.old.tcp p) }
        ensures udp { (p : ℕ) → is_owned self.new.udp p ≡ (if p == port.0 then false
            else is_owned self.old.udp p) }
        ensures list { self.new.tcp.owned ≡ without_port port.0 self.old.tcp.owned }
        ensures free { SameFree self.old self.new }
        ensures bounds { SameBounds self.old self.new }
    {
        self.tcp.recall();
        self.icmp.disown(port);
        self.tcp.disown(port);
        self.udp.disown(port);
        self.tcp.recall();
    }

    /// Returns, as bits, the ports among the 64 from `64 * index` on that are owned, and free for each protocol.
    fn spare_word(&self, index: usize) -> u64
        requires { index < 1024 }
        ensures { (i : ℕ) → i < 64 → is_set result i ≡ is_spare_in self.now (index * 64 + i) }
    {
        self.tcp.owned_word(index)
            & self.icmp.free_word(index)
            & self.tcp.free_word(index)
            & self.udp.free_word(index)
    }

    /// Returns the greatest port below `end` that is owned, and free for each protocol, or None where there is none.
    pub(crate) fn spare_below(&self, end: usize) -> Option<Port>
        requires { end ≤ 65536 }
        ensures some { IfSome result (λ port. IsLastBelow (is_spare_in self.now) end port.0) }
        ensures none { IfNone result ((port : ℕ) → port < end
            → is_spare_in self.now port ≡ false) }
    {
        let mut rest = end;
        while 0 < rest {
            let index = (rest - 1) / 64;
            if let Some(bit) = highest_below(self.spare_word(index), rest - index * 64) {
                return Some(Port((index * 64 + bit) as u16));
            }
            rest = index * 64;
        }
        None
    }

    fn range(&self, protocol: Protocol) -> &Range
        ensures { result.now ≡ range_of self.now protocol }
    {
        match protocol {
            Protocol::Icmp => &self.icmp,
            Protocol::Tcp => &self.tcp,
            Protocol::Udp => &self.udp,
        }
    }

    pub(crate) fn free_like(&self, protocol: Protocol, parity: Parity) -> Option<Port>
        ensures chosen { result ≡ chosen_port (range_of self.now protocol) parity }
        ensures range { IsRange (range_of self.now protocol) }
    {
        let range = self.range(protocol);
        range.recall();
        range.free_like(parity)
    }

    pub(crate) fn drawn(&self, protocol: Protocol, parity: Parity, x: u32, y: u32) -> Option<Port>
        ensures chosen { result ≡ drawn_port (range_of self.now protocol) parity x y }
        ensures range { IsRange (range_of self.now protocol) }
    {
        let range = self.range(protocol);
        range.recall();
        range.drawn(parity, x, y)
    }

    pub(crate) fn free_count(&self, protocol: Protocol) -> u32
        ensures count { result ≡ length (open_ports (range_of self.now protocol)) }
        ensures range { IsRange (range_of self.now protocol) }
        ensures first { IsRange self.now.tcp }
    {
        let range = self.range(protocol);
        range.recall();
        self.tcp.recall();
        range.free_count()
    }
}
