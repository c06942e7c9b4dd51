//! The ports of a range: which are free, which are owned, and which one an endpoint gets.
#![tactic(auto)]

ghost use Rattle.std.specs.Prelude.{◌≡◌, ℕ, [], true, false, OnOk, IfOk, IfErr, Err, IfSome, IfNone, ◌+◌, ◌*◌, ◌<◌, ◌≤◌, ◌==◌, ◌&&◌, ◌||◌, not, length, if◌then◌else◌};
ghost use Rattle.port_range.specs.Ports.{is_free, is_owned, is_available, is_within, is_bad, IsReason, IsRange, IsChosen, chosen_port, open_ports};
ghost use Rattle.port_range.specs.Searches.{IsFirstFrom};
ghost use Rattle.port_range.specs.Words.{is_set};
ghost use Rattle.port_range.specs.Marks.{words_looked_at};
ghost use Rattle.port_range.specs.Drawn.{drawn_port, words_drawn_at, IsLike};
ghost use Rattle.port_range.specs.Memory.{LacksMarks};
ghost use Rattle.port_range.specs.declared.RangeFault.TheVariants.{NoMemory};

mod laws;
mod marks;
mod words;

use crate::marks::{Marks, other_parity};
use addresses::{Parity, Port};
pub use laws::limits_law;
use std::alloc::{AllocError, Global};
use std::marker::Model;
use thiserror::Error;
pub use words::highest_below;

/// The first port that isn't well known (RFC 6335, section 6).
pub const FIRST_PORT: Port = Port(1024);

/// The reason why a range can't be made.
#[derive(Clone, Copy, Debug, PartialEq, Eq, Error)]
pub enum RangeFault {
    #[error("not a range from 1024 to 65535")]
    BadRange,
    #[error("out of memory")]
    NoMemory,
}

impl From<AllocError> for RangeFault {
    ghost use Rattle.port_range.specs.declared.RangeFault.TheVariants.{NoMemory};

    ghost from_gives = { λ _ fault. fault ≡ NoMemory };

    fn from(_error: AllocError) -> RangeFault {
        RangeFault::NoMemory
    }
}

/// The ports from a lowest to a highest one. Each is free or taken, and owned or not. A free port that is owned may be given out.
#[derive(Drop)]
pub struct Range {
    lowest: Port,
    highest: Port,
    marks: Marks,
}

impl Model for Range {
    ghost use Rattle.port_range.specs.Ports.{Range as Ports};
    ghost use Rattle.port_range.specs.Marks.{ranged, HasMarks};

    ghost Value = { Ports };

    ghost view = { λ r. ranged r.lowest.0 r.highest.0 r.marks };

    ghost invariant = { λ r. HasMarks r.lowest.0 r.highest.0 r.marks };
}

impl Range {
    /// Makes a range whose ports are all free, and all owned or none. An Err is BadRange where the range isn't one from
    /// 1024 to 65535, else NoMemory.
    fn begin(alloc: Global, lowest: Port, highest: Port, owned: bool) -> Result<Range, RangeFault>
        ensures good { OnOk result (is_bad lowest.0 highest.0 ≡ false) }
        ensures refused { IfErr result (IsReason lowest.0 highest.0) }
        ensures memory { result ≡ Err NoMemory → LacksMarks }
        ensures lowest { IfOk result (λ r. r.lowest ≡ lowest.0) }
        ensures highest { IfOk result (λ r. r.highest ≡ highest.0) }
        ensures free { IfOk result (λ r. (port : ℕ) → is_free r port
            ≡ is_within lowest.0 highest.0 port) }
        ensures owned { IfOk result (λ r. (port : ℕ) → is_owned r port
            ≡ (owned && is_within lowest.0 highest.0 port)) }
    {
        if lowest.0 < FIRST_PORT.0 || highest.0 < lowest.0 {
            return Err(RangeFault::BadRange);
        }
        let mut marks = Marks::new(alloc)?;
        marks.fill(lowest, highest, owned);
        Ok(Range {
            lowest,
            highest,
            marks,
        })
    }

    /// Makes a range whose ports are all free and owned. An Err is BadRange where the range isn't one from 1024 to
    /// 65535, else NoMemory.
    pub fn new(alloc: Global, lowest: Port, highest: Port) -> Result<Range, RangeFault>
        ensures good { OnOk result (is_bad lowest.0 highest.0 ≡ false) }
        ensures refused { IfErr result (IsReason lowest.0 highest.0) }
        ensures memory { result ≡ Err NoMemory → LacksMarks }
        ensures lowest { IfOk result (λ r. r.lowest ≡ lowest.0) }
        ensures highest { IfOk result (λ r. r.highest ≡ highest.0) }
        ensures free { IfOk result (λ r. (port : ℕ) → is_free r port
            ≡ is_within lowest.0 highest.0 port) }
        ensures owned { IfOk result (λ r. (port : ℕ) → is_owned r port
            ≡ is_within lowest.0 highest.0 port) }
    {
        Range::begin(alloc, lowest, highest, true)
    }

    /// Makes a range whose ports are all free, and none of them owned. An Err is BadRange where the range isn't one
    /// from 1024 to 65535, else NoMemory.
    pub fn unowned(alloc: Global, lowest: Port, highest: Port) -> Result<Range, RangeFault>
        ensures good { OnOk result (is_bad lowest.0 highest.0 ≡ false) }
        ensures refused { IfErr result (IsReason lowest.0 highest.0) }
        ensures memory { result ≡ Err NoMemory → LacksMarks }
        ensures lowest { IfOk result (λ r. r.lowest ≡ lowest.0) }
        ensures highest { IfOk result (λ r. r.highest ≡ highest.0) }
        ensures free { IfOk result (λ r. (port : ℕ) → is_free r port
            ≡ is_within lowest.0 highest.0 port) }
        ensures owned { IfOk result (λ r. (port : ℕ) → is_owned r port ≡ false) }
    {
        Range::begin(alloc, lowest, highest, false)
    }

    /// Reminds the prover of what each range keeps. The call does nothing at run time.
    pub fn recall(&self)
        ensures { IsRange self.now }
    {
        let _ = &self.marks;
    }

    /// Returns the lowest free owned port with that parity, else the lowest free owned port, or None where there is
    /// none (RFC 4787, section 4.2.2).
    pub fn free_like(&self, parity: Parity) -> Option<Port>
        ensures chosen { result ≡ chosen_port self.now parity }
        ensures like { IfSome result (IsChosen (is_available self.now) parity) }
        ensures none { IfNone result ((port : ℕ) → is_available self.now port ≡ false) }
    {
        self.free_like_counted(parity).0
    }

    /// Returns the port that `free_like` returns, and how many words the search looks at.
    pub fn free_like_counted(&self, parity: Parity) -> (Option<Port>, u32)
        ensures port { result.0 ≡ chosen_port self.now parity }
        ensures like { IfSome result.0 (IsChosen (is_available self.now) parity) }
        ensures none { IfNone result.0 ((port : ℕ) → is_available self.now port ≡ false) }
        ensures looked { result.1 ≡ words_looked_at parity result.0 }
        ensures few { result.1 ≤ 34 }
    {
        let (like, looked) = self.marks.lowest(parity);
        match like {
            Some(port) => (Some(port), looked),
            None => {
                let (other, more) = self.marks.lowest(other_parity(parity));
                (other, looked + more)
            }
        }
    }

    /// Returns the port that is drawn by two numbers, or None where no port is free and owned. Taken is the block with
    /// the number `x` modulo their count among the blocks, of 64 ports each, that have a free owned port of the parity,
    /// and in it the place with the number `y` modulo their count among its owned ports of the parity. The port is the
    /// first free owned one of the parity from the place on, or else from the block's beginning. Where no block has
    /// one, it is drawn of the other parity.
    pub fn drawn(&self, parity: Parity, x: u32, y: u32) -> Option<Port>
        ensures chosen { result ≡ drawn_port self.now parity x y }
        ensures like { IfSome result (IsLike (is_available self.now) parity) }
        ensures none { IfNone result ((port : ℕ) → is_available self.now port ≡ false) }
    {
        self.drawn_counted(parity, x, y).0
    }

    /// Returns the port that `drawn` returns, and how many words the draw looks at.
    pub fn drawn_counted(&self, parity: Parity, x: u32, y: u32) -> (Option<Port>, u32)
        ensures port { result.0 ≡ drawn_port self.now parity x y }
        ensures like { IfSome result.0 (IsLike (is_available self.now) parity) }
        ensures none { IfNone result.0 ((port : ℕ) → is_available self.now port ≡ false) }
        ensures looked { result.1 ≡ words_drawn_at parity result.0 }
        ensures few { result.1 ≤ 35 }
    {
        let (like, looked) = self.marks.drawn(parity, x, y);
        match like {
            Some(port) => (Some(port), looked),
            None => {
                let (other, more) = self.marks.drawn(other_parity(parity), x, y);
                (other, looked + more)
            }
        }
    }

    /// Returns how many ports are free and owned. The count is kept, so no word is looked at.
    pub fn free_count(&self) -> u32
        ensures { result ≡ length (open_ports self.now) }
    {
        self.marks.open_count()
    }

    /// Whether a port lies in the range.
    pub fn holds(&self, port: Port) -> bool
        ensures { result ≡ is_within self.now.lowest self.now.highest port.0 }
    {
        self.lowest.0 <= port.0 && port.0 <= self.highest.0
    }

    /// Whether a port of the range is free. A port outside the range isn't.
    pub fn is_free(&self, port: Port) -> bool
        ensures { result ≡ is_free self.now port.0 }
    {
        self.marks.is_free(port)
    }

    /// Whether a port is owned. A port outside the range isn't.
    pub fn owns(&self, port: Port) -> bool
        ensures { result ≡ is_owned self.now port.0 }
    {
        self.marks.is_owned(port)
    }

    /// Returns the lowest owned port that is at least `from`, or None where there is none.
    pub fn next_owned(&self, from: Port) -> Option<Port>
        ensures some { IfSome result (λ port. IsFirstFrom (is_owned self.now) from.0 port.0) }
        ensures none { IfNone result ((port : ℕ) → from.0 ≤ port
            → is_owned self.now port ≡ false) }
    {
        self.marks.next_owned(from, true)
    }

    /// Returns the lowest port that is at least `from` and isn't owned, or None where there is none. The port may lie
    /// outside the range.
    pub fn next_unowned(&self, from: Port) -> Option<Port>
        ensures some { IfSome result (λ port. IsFirstFrom (λ q. not (is_owned self.now q)) from.0
            port.0) }
        ensures none { IfNone result ((port : ℕ) → from.0 ≤ port → port < 65536
            → is_owned self.now port ≡ true) }
    {
        self.marks.next_owned(from, false)
    }

    /// Returns the free ports among the 64 ports from `64 * index` on, as bits, the lowest bit first.
    pub fn free_word(&self, index: usize) -> u64
        requires { index < 1024 }
        ensures { (i : ℕ) → i < 64 → is_set result i ≡ is_free self.now (index * 64 + i) }
    {
        self.marks.free_word(index)
    }

    /// Returns the owned ports among the 64 ports from `64 * index` on, as bits, the lowest bit first.
    pub fn owned_word(&self, index: usize) -> u64
        requires { index < 1024 }
        ensures { (i : ℕ) → i < 64 → is_set result i ≡ is_owned self.now (index * 64 + i) }
    {
        self.marks.owned_word(index)
    }

    /// Takes a free port, owned or not, so that it is free no more.
    pub fn take(&mut self, port: Port)
        requires { is_free self.old port.0 ≡ true }
        ensures free { (p : ℕ) → is_free self.new p ≡ (if p == port.0 then false
            else is_free self.old p) }
        ensures owned { self.new.owned ≡ self.old.owned }
        ensures lowest { self.new.lowest ≡ self.old.lowest }
        ensures highest { self.new.highest ≡ self.old.highest }
    {
        self.marks.put_free(port, false);
    }

    /// Makes a taken port free.
    pub fn put_back(&mut self, port: Port)
        requires within { is_within self.old.lowest self.old.highest port.0 ≡ true }
        requires taken { is_free self.old port.0 ≡ false }
        ensures free { (p : ℕ) → is_free self.new p ≡ (if p == port.0 then true
            else is_free self.old p) }
        ensures owned { self.new.owned ≡ self.old.owned }
        ensures lowest { self.new.lowest ≡ self.old.lowest }
        ensures highest { self.new.highest ≡ self.old.highest }
    {
        self.marks.put_free(port, true);
    }

    /// Makes a port of the range owned, whether the port is free or taken.
    pub fn own(&mut self, port: Port)
        requires within { is_within self.old.lowest self.old.highest port.0 ≡ true }
        requires foreign { is_owned self.old port.0 ≡ false }
        ensures owned { (p : ℕ) → is_owned self.new p ≡ (if p == port.0 then true
            else is_owned self.old p) }
        ensures free { self.new.free ≡ self.old.free }
        ensures lowest { self.new.lowest ≡ self.old.lowest }
        ensures highest { self.new.highest ≡ self.old.highest }
    {
        self.marks.put_owned(port, true);
    }

    /// Makes the ports from `lowest` to `highest`, which lie in the range, owned.
    pub fn own_between(&mut self, lowest: Port, highest: Port)
        requires low { self.old.lowest ≤ lowest.0 }
        requires high { highest.0 ≤ self.old.highest }
        ensures owned { (p : ℕ) → is_owned self.new p ≡ (is_owned self.old p
            || is_within lowest.0 highest.0 p) }
        ensures free { self.new.free ≡ self.old.free }
        ensures lowest { self.new.lowest ≡ self.old.lowest }
        ensures highest { self.new.highest ≡ self.old.highest }
    {
        self.marks.own_between(lowest, highest);
    }

    /// Makes a free owned port unowned.
    pub fn disown(&mut self, port: Port)
        requires owned { is_owned self.old port.0 ≡ true }
        requires free { is_free self.old port.0 ≡ true }
        ensures owned { (p : ℕ) → is_owned self.new p ≡ (if p == port.0 then false
            else is_owned self.old p) }
        ensures free { self.new.free ≡ self.old.free }
        ensures lowest { self.new.lowest ≡ self.old.lowest }
        ensures highest { self.new.highest ≡ self.old.highest }
    {
        self.marks.put_owned(port, false);
    }

    /// Makes all ports of the range free, and none of them owned.
    pub fn reset(&mut self)
        ensures free { (port : ℕ) → is_free self.new port
            ≡ is_within self.old.lowest self.old.highest port }
        ensures owned { self.new.owned ≡ [] }
        ensures lowest { self.new.lowest ≡ self.old.lowest }
        ensures highest { self.new.highest ≡ self.old.highest }
    {
        self.marks.fill(self.lowest, self.highest, false);
    }
}
