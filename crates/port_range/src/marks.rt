//! Free and owned ports as bits by their numbers, and for each parity a summary that the search for
//! a port goes through.
ghost use Rattle.std.specs.Prelude.{◌≡◌, ℕ, ◌+◌, ◌*◌, ◌/◌, ◌<◌, ◌≤◌, ◌==◌, ◌&&◌, ◌||◌, false, length, slice_index, nat_lt, bit_and, IfOk, OnErr, IfSome, IfNone, if◌then◌else◌};
ghost use Rattle.addresses.specs.Transport.{parity_of};
ghost use Rattle.port_range.specs.Ports.{is_within};
ghost use Rattle.port_range.specs.Searches.{IsFirstFrom};
ghost use Rattle.port_range.specs.Words.{is_set, has_bit, agrees};
ghost use Rattle.port_range.specs.Memory.{LacksMarks};
ghost use Rattle.port_range.specs.Marks.{has_both, other_parity, mask_of, open_count, open_word, IsSummary, IsLowestOf};
ghost use Rattle.port_range.specs.Counts.{one_if};
ghost use Rattle.port_range.specs.Drawn.{drawn_in, drawn_like};

use crate::words::{
    drawn_bit, ends_of, fill_between, has_bit, lowest_bit, next_bit, nth_number, put_bit,
    set_between, zeros,
};
use addresses::{Parity, Port};
use std::alloc::{AllocError, Global};
use std::marker::Model;

/// The number of words, of 64 ports each, that cover all ports.
const WORDS: usize = 1024;

/// The number of words of a summary, which has a bit for each word of ports.
const SUMMARY_WORDS: usize = 16;

pub(crate) fn other_parity(parity: Parity) -> Parity
    ensures { result ≡ other_parity parity }
{
    match parity {
        Parity::Even => Parity::Odd,
        Parity::Odd => Parity::Even,
    }
}

/// Returns the bits of a word at the numbers of a parity.
fn mask_of(parity: Parity) -> u64
    ensures { result ≡ mask_of parity }
{
    match parity {
        Parity::Even => 0x5555_5555_5555_5555,
        Parity::Odd => 0xAAAA_AAAA_AAAA_AAAA,
    }
}

/// Returns the ports of a parity, free and owned, in the word at `index`.
fn open_word(free: &[u64], owned: &[u64], parity: Parity, index: usize) -> u64
    requires free { index < length free.now }
    requires owned { index < length owned.now }
    ensures { result ≡ open_word parity free.now owned.now index }
{
    free[index] & owned[index] & mask_of(parity)
}

/// Updates a summary's bit for the word at `index`: whether the word has a free owned port of the
/// parity.
fn sum_up(summary: &mut [u64], free: &[u64], owned: &[u64], parity: Parity, index: usize)
    requires summary { index < 64 * length summary.old }
    requires free { index < length free.now }
    requires owned { index < length owned.now }
    ensures bits { (n : ℕ) → has_bit summary.new n ≡ (if n == index then
        nat_lt 0 (open_word parity free.now owned.now index) else has_bit summary.old n) }
    ensures size { length summary.new ≡ length summary.old }
{
    let some = 0 < open_word(free, owned, parity, index);
    put_bit(summary, index, some);
}

/// Fills a summary for all words.
fn sum_up_all(summary: &mut [u64], free: &[u64], owned: &[u64], parity: Parity)
    requires size { length summary.old ≡ 16 }
    requires free { length free.now ≡ 1024 }
    requires owned { length owned.now ≡ 1024 }
    ensures { IsSummary parity free.now owned.now summary.new }
{
    for index in 0..WORDS {
        sum_up(summary, free, owned, parity, index);
    }
}

/// Updates a summary's bits for the words from `first` to `last`.
fn sum_up_between(
    summary: &mut [u64],
    free: &[u64],
    owned: &[u64],
    parity: Parity,
    first: usize,
    last: usize,
)
    requires summary { length summary.old ≡ 16 }
    requires free { length free.now ≡ 1024 }
    requires owned { length owned.now ≡ 1024 }
    requires last { last < 1024 }
    ensures bits { (n : ℕ) → has_bit summary.new n ≡ (if is_within first last n then
        nat_lt 0 (open_word parity free.now owned.now n) else has_bit summary.old n) }
    ensures size { length summary.new ≡ length summary.old }
{
    for index in first..last + 1 {
        sum_up(summary, free, owned, parity, index);
    }
}

/// Returns the lowest port of a parity that is free and owned, or None where there is none, and how
/// many words the search looked at.
fn lowest_open(summary: &[u64], free: &[u64], owned: &[u64], parity: Parity) -> (Option<Port>, u32)
    requires free { length free.now ≡ 1024 }
    requires owned { length owned.now ≡ 1024 }
    requires summary { IsSummary parity free.now owned.now summary.now }
    ensures some { IfSome result.0 (IsLowestOf (has_both free.now owned.now) parity) }
    ensures none { IfNone result.0 ((port : ℕ) → parity_of port ≡ parity
        → has_both free.now owned.now port ≡ false) }
    ensures looked_some { IfSome result.0 (λ port. result.1 ≡ port.0 / 4096 + 3) }
    ensures looked_none { IfNone result.0 (result.1 ≡ 16) }
{
    let (index, looked) = lowest_bit(summary);
    match index {
        None => (None, looked),
        Some(index) => {
            let word = open_word(free, owned, parity, index);
            let port = index * 64 + word.trailing_zeros() as usize;
            (Some(Port(port as u16)), looked + 2)
        }
    }
}

/// Returns the port of a parity that is drawn in a block by `y`, or None where the block has no port
/// of it that is free and owned.
fn drawn_in(free: &[u64], owned: &[u64], parity: Parity, y: u32, block: usize) -> Option<Port>
    requires free { length free.now ≡ 1024 }
    requires owned { length owned.now ≡ 1024 }
    requires block { block < 1024 }
    ensures { result ≡ drawn_in (has_both free.now owned.now) (has_bit owned.now) parity y block }
{
    let mine = owned[block] & mask_of(parity);
    match drawn_bit(mine, free[block] & mine, y) {
        Some(bit) => Some(Port((block * 64 + bit) as u16)),
        None => None,
    }
}

/// Returns the port of a parity that is drawn by `x` and `y`, or None where no port of it is free
/// and owned, and how many words the draw looked at.
fn drawn_open(
    summary: &[u64],
    free: &[u64],
    owned: &[u64],
    parity: Parity,
    x: u32,
    y: u32,
) -> (Option<Port>, u32)
    requires free { length free.now ≡ 1024 }
    requires owned { length owned.now ≡ 1024 }
    requires summary { IsSummary parity free.now owned.now summary.now }
    ensures chosen { result.0 ≡ drawn_like (has_both free.now owned.now) (has_bit owned.now)
        parity x y }
    ensures looked_some { IfSome result.0 (λ port. result.1 ≡ 19) }
    ensures looked_none { IfNone result.0 (result.1 ≡ 16) }
{
    let looked = summary.len() as u32;
    let ends = ends_of(summary);
    let count = ends[SUMMARY_WORDS - 1];
    if count == 0 {
        return (None, looked);
    }
    match nth_number(summary, &ends, x % count) {
        Some(block) => (drawn_in(free, owned, parity, y, block), looked + 3),
        None => (None, looked),
    }
}

/// Whether a port is free and owned.
fn has_both(free: &[u64], owned: &[u64], number: usize) -> bool
    requires free { number < 64 * length free.now }
    requires owned { number < 64 * length owned.now }
    ensures { result ≡ has_both free.now owned.now number }
{
    has_bit(free, number) && has_bit(owned, number)
}

/// Counts the ports that are free and owned. All words are looked at.
fn count_both(free: &[u64], owned: &[u64]) -> u32
    requires free { length free.now ≡ 1024 }
    requires owned { length owned.now ≡ 1024 }
    ensures { result ≡ open_count free.now owned.now }
{
    let mut count = 0;
    for index in 0..WORDS {
        count += (free[index] & owned[index]).count_ones();
    }
    count
}

/// Returns a count after one of what it counts has come or gone.
fn recounted(count: u32, was: bool, is: bool) -> u32
    requires some { one_if was ≤ count }
    requires few { count ≤ 65536 }
    ensures { result + one_if was ≡ count + one_if is }
{
    count + u32::from(is) - u32::from(was)
}

/// The bits of the free and of the owned ports, with a summary for each parity.
#[derive(Drop)]
pub(crate) struct Marks {
    free: Vec<u64>,
    owned: Vec<u64>,
    /// The summary of the words that have an even port, free and owned.
    even: Vec<u64>,
    /// The summary of the words that have an odd port, free and owned.
    odd: Vec<u64>,
    /// How many ports are free and owned.
    available: u32,
}

impl Model for Marks {
    ghost use Rattle.port_range.specs.Marks.{Marked, AreMarks};

    ghost Value = { Marked };

    ghost view = { λ m. record { free = m.free.items; owned = m.owned.items } };

    ghost invariant = { λ m. AreMarks m.free.items m.owned.items m.even.items m.odd.items
        m.available };
}

impl Marks {
    /// Makes marks with no port free and none owned. An Err says that there is no memory.
    pub(crate) fn new(alloc: Global) -> Result<Marks, AllocError>
        ensures free { IfOk result (λ m. (port : ℕ) → has_bit m.free port ≡ false) }
        ensures owned { IfOk result (λ m. (port : ℕ) → has_bit m.owned port ≡ false) }
        ensures refused { OnErr result LacksMarks }
    {
        let free = zeros(alloc, WORDS)?;
        let owned = zeros(alloc, WORDS)?;
        let even = zeros(alloc, SUMMARY_WORDS)?;
        let odd = zeros(alloc, SUMMARY_WORDS)?;
        Ok(Marks {
            free,
            owned,
            even,
            odd,
            available: 0,
        })
    }

    /// Makes the ports from `lowest` to `highest` free, and all of them owned or none. No other
    /// port is free or owned after the call.
    pub(crate) fn fill(&mut self, lowest: Port, highest: Port, owned: bool)
        ensures free { (port : ℕ) → has_bit self.new.free port
            ≡ is_within lowest.0 highest.0 port }
        ensures owned { (port : ℕ) → has_bit self.new.owned port
            ≡ (owned && is_within lowest.0 highest.0 port) }
    {
        let (low, high) = (usize::from(lowest.0), usize::from(highest.0));
        fill_between(&mut self.free, low, high, true);
        fill_between(&mut self.owned, low, high, owned);
        sum_up_all(&mut self.even, &self.free, &self.owned, Parity::Even);
        sum_up_all(&mut self.odd, &self.free, &self.owned, Parity::Odd);
        self.available = count_both(&self.free, &self.owned);
    }

    pub(crate) fn is_free(&self, port: Port) -> bool
        ensures { result ≡ has_bit self.now.free port.0 }
    {
        has_bit(&self.free, usize::from(port.0))
    }

    pub(crate) fn is_owned(&self, port: Port) -> bool
        ensures { result ≡ has_bit self.now.owned port.0 }
    {
        has_bit(&self.owned, usize::from(port.0))
    }

    pub(crate) fn put_free(&mut self, port: Port, flag: bool)
        ensures free { (p : ℕ) → has_bit self.new.free p ≡ (if p == port.0 then flag
            else has_bit self.old.free p) }
        ensures owned { self.new.owned ≡ self.old.owned }
    {
        let number = usize::from(port.0);
        let index = number / 64;
        let was = has_both(&self.free, &self.owned, number);
        put_bit(&mut self.free, number, flag);
        let is = has_both(&self.free, &self.owned, number);
        self.available = recounted(self.available, was, is);
        sum_up(&mut self.even, &self.free, &self.owned, Parity::Even, index);
        sum_up(&mut self.odd, &self.free, &self.owned, Parity::Odd, index);
    }

    pub(crate) fn put_owned(&mut self, port: Port, flag: bool)
        ensures owned { (p : ℕ) → has_bit self.new.owned p ≡ (if p == port.0 then flag
            else has_bit self.old.owned p) }
        ensures free { self.new.free ≡ self.old.free }
    {
        let number = usize::from(port.0);
        let index = number / 64;
        let was = has_both(&self.free, &self.owned, number);
        put_bit(&mut self.owned, number, flag);
        let is = has_both(&self.free, &self.owned, number);
        self.available = recounted(self.available, was, is);
        sum_up(&mut self.even, &self.free, &self.owned, Parity::Even, index);
        sum_up(&mut self.odd, &self.free, &self.owned, Parity::Odd, index);
    }

    /// Makes the ports from `lowest` to `highest` owned, and leaves all other ports as they are.
    pub(crate) fn own_between(&mut self, lowest: Port, highest: Port)
        ensures owned { (port : ℕ) → has_bit self.new.owned port
            ≡ (has_bit self.old.owned port || is_within lowest.0 highest.0 port) }
        ensures free { self.new.free ≡ self.old.free }
    {
        let low = usize::from(lowest.0);
        let high = usize::from(highest.0);
        let first = low / 64;
        let last = high / 64;
        set_between(&mut self.owned, low, high);
        sum_up_between(
            &mut self.even,
            &self.free,
            &self.owned,
            Parity::Even,
            first,
            last,
        );
        sum_up_between(
            &mut self.odd,
            &self.free,
            &self.owned,
            Parity::Odd,
            first,
            last,
        );
        self.available = count_both(&self.free, &self.owned);
    }

    /// Returns how many ports are free and owned.
    pub(crate) fn open_count(&self) -> u32
        ensures { result ≡ open_count self.now.free self.now.owned }
    {
        self.available
    }

    /// Returns the free ports among the 64 ports from `64 * index` on, as bits.
    pub(crate) fn free_word(&self, index: usize) -> u64
        requires { index < 1024 }
        ensures { (i : ℕ) → i < 64 → is_set result i ≡ has_bit self.now.free (index * 64 + i) }
    {
        self.free[index]
    }

    /// Returns the owned ports among the 64 ports from `64 * index` on, as bits.
    pub(crate) fn owned_word(&self, index: usize) -> u64
        requires { index < 1024 }
        ensures { (i : ℕ) → i < 64 → is_set result i ≡ has_bit self.now.owned (index * 64 + i) }
    {
        self.owned[index]
    }

    /// Returns the lowest port that is at least `from` and is owned (or isn't, where `flag` is
    /// false), or None where there is none.
    pub(crate) fn next_owned(&self, from: Port, flag: bool) -> Option<Port>
        ensures some { IfSome result (λ port. IsFirstFrom
            (λ q. agrees flag (has_bit self.now.owned q)) from.0 port.0) }
        ensures none { IfNone result ((port : ℕ) → from.0 ≤ port → port < 65536
            → agrees flag (has_bit self.now.owned port) ≡ false) }
    {
        match next_bit(&self.owned, usize::from(from.0), flag) {
            Some(port) => Some(Port(port as u16)),
            None => None,
        }
    }

    /// Returns the lowest port of a parity that is free and owned, or None where there is none, and
    /// how many words the search looked at.
    pub(crate) fn lowest(&self, parity: Parity) -> (Option<Port>, u32)
        ensures some { IfSome result.0 (IsLowestOf (has_both self.now.free self.now.owned) parity) }
        ensures none { IfNone result.0 ((port : ℕ) → parity_of port ≡ parity
            → has_both self.now.free self.now.owned port ≡ false) }
        ensures looked_some { IfSome result.0 (λ port. result.1 ≡ port.0 / 4096 + 3) }
        ensures looked_none { IfNone result.0 (result.1 ≡ 16) }
    {
        let summary = match parity {
            Parity::Even => &self.even,
            Parity::Odd => &self.odd,
        };
        lowest_open(summary, &self.free, &self.owned, parity)
    }

    /// Returns the port of a parity that is drawn by `x` and `y`, or None where no port of it is
    /// free and owned, and how many words the draw looked at.
    pub(crate) fn drawn(&self, parity: Parity, x: u32, y: u32) -> (Option<Port>, u32)
        ensures chosen { result.0 ≡ drawn_like (has_both self.now.free self.now.owned)
            (has_bit self.now.owned) parity x y }
        ensures looked_some { IfSome result.0 (λ port. result.1 ≡ 19) }
        ensures looked_none { IfNone result.0 (result.1 ≡ 16) }
    {
        let summary = match parity {
            Parity::Even => &self.even,
            Parity::Odd => &self.odd,
        };
        drawn_open(summary, &self.free, &self.owned, parity, x, y)
    }
}
