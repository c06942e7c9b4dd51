//! Numbers as bits of a list of words of 64.
ghost use Rattle.std.specs.Prelude.{◌≡◌, ℕ, ◌+◌, ◌-◌, ◌*◌, ◌/◌, ◌%◌, ◌^◌, ◌<◌, ◌≤◌, ◌==◌, ◌&&◌, ◌||◌, false, length, slice_index, nat_lt, replicate, IfOk, OnErr, IfSome, IfNone, if◌then◌else◌};
ghost use Rattle.memory.specs.Memory.{WasRefused};
ghost use Rattle.port_range.specs.Ports.{is_within};
ghost use Rattle.port_range.specs.Searches.{IsFirstFrom, IsLastBelow};
ghost use Rattle.port_range.specs.Words.{is_set, has_bit, agrees, IsLowestBit, AreOthers};
ghost use Rattle.port_range.specs.Counts.{count_below, IsNth, AreEnds, IsDrawnBit};

use memory::copies_of;
use std::alloc::{AllocError, Global};

/// Returns `count` words that are 0.
pub(crate) fn zeros(alloc: Global, count: usize) -> Result<Vec<u64>, AllocError>
    ensures items { IfOk result (λ v. v.items ≡ replicate count 0) }
    ensures refused { OnErr result (WasRefused count) }
{
    copies_of(alloc, 0, count)
}

pub(crate) fn has_bit(words: &[u64], number: usize) -> bool
    requires { number < 64 * length words.now }
    ensures { result ≡ has_bit words.now number }
{
    (words[number / 64] >> (number % 64)) & 1 == 1
}

fn with_bit(word: u64, bit: usize, flag: bool) -> u64
    requires { bit < 64 }
    ensures { (i : ℕ) → i < 64
        → is_set result i ≡ (if i == bit then flag else is_set word i) }
{
    if flag {
        word | (1u64 << bit)
    } else {
        word & !(1u64 << bit)
    }
}

pub(crate) fn put_bit(words: &mut [u64], number: usize, flag: bool)
    requires { number < 64 * length words.old }
    ensures bits { (n : ℕ) → has_bit words.new n ≡ (if n == number then flag
        else has_bit words.old n) }
    ensures others { AreOthers (number / 64) words.old words.new }
    ensures size { length words.new ≡ length words.old }
{
    let index = number / 64;
    words[index] = with_bit(words[index], number % 64, flag);
}

/// Returns the lowest number whose bit is set, or None where there is none, and how many words the
/// search looked at.
pub(crate) fn lowest_bit(words: &[u64]) -> (Option<usize>, u32)
    requires { length words.now ≤ 1024 }
    ensures some { IfSome result.0 (IsLowestBit words.now) }
    ensures none { IfNone result.0 ((number : ℕ) → has_bit words.now number ≡ false) }
    ensures looked_some { IfSome result.0 (λ number. result.1 ≡ number / 64 + 1) }
    ensures looked_none { IfNone result.0 (result.1 ≡ length words.now) }
{
    for (index, word) in words.iter().enumerate() {
        if *word != 0 {
            let number = index * 64 + word.trailing_zeros() as usize;
            return (Some(number), index as u32 + 1);
        }
    }
    (None, words.len() as u32)
}

/// Returns a word whose `count` lowest bits are set, and no other.
fn low_ones(count: usize) -> u64
    requires { count ≤ 64 }
    ensures { (i : ℕ) → i < 64 → is_set result i ≡ nat_lt i count }
{
    if count == 64 {
        u64::MAX
    } else {
        (1u64 << count) - 1
    }
}

/// Returns the 64 bits from the number `start` on, of which those of the numbers from `lowest` to
/// `highest` are set.
fn word_between(start: usize, lowest: usize, highest: usize) -> u64
    requires { highest ≤ 65535 }
    ensures { (i : ℕ) → i < 64 → is_set result i ≡ is_within lowest highest (start + i) }
{
    let below = lowest.saturating_sub(start).min(64);
    let end = (highest + 1).saturating_sub(start).min(64);
    low_ones(end) & !low_ones(below)
}

/// Returns `word_between` where `flag` is set, else 0.
fn filled_word(start: usize, lowest: usize, highest: usize, flag: bool) -> u64
    requires { highest ≤ 65535 }
    ensures { (i : ℕ) → i < 64 → is_set result i
        ≡ (flag && is_within lowest highest (start + i)) }
{
    if flag {
        word_between(start, lowest, highest)
    } else {
        0
    }
}

/// Sets or clears, by `flag`, the bits of the numbers from `lowest` to `highest`, and clears all
/// others.
pub(crate) fn fill_between(words: &mut [u64], lowest: usize, highest: usize, flag: bool)
    requires words { length words.old ≤ 1024 }
    requires high { highest < 64 * length words.old }
    ensures bits { (n : ℕ) → has_bit words.new n ≡ (flag && is_within lowest highest n) }
    ensures size { length words.new ≡ length words.old }
{
    for (index, word) in words.iter_mut().enumerate() {
        *word = filled_word(index * 64, lowest, highest, flag);
    }
}

/// Sets the bits of the numbers from `lowest` to `highest`, and leaves all others.
pub(crate) fn set_between(words: &mut [u64], lowest: usize, highest: usize)
    requires words { length words.old ≤ 1024 }
    requires high { highest < 64 * length words.old }
    ensures bits { (n : ℕ) → has_bit words.new n
        ≡ (has_bit words.old n || is_within lowest highest n) }
    ensures others { (index : ℕ) → is_within (lowest / 64) (highest / 64) index ≡ false
        → slice_index words.new index ≡ slice_index words.old index }
    ensures size { length words.new ≡ length words.old }
{
    for index in lowest / 64..highest / 64 + 1 {
        words[index] |= word_between(index * 64, lowest, highest);
    }
}

/// Returns the bits of a word that agree with `flag`: the word itself, or its complement.
fn matching(word: u64, flag: bool) -> u64
    ensures { (i : ℕ) → i < 64 → is_set result i ≡ agrees flag (is_set word i) }
{
    if flag { word } else { !word }
}

/// Returns the lowest set bit of a word that is at least `start`, or None where there is none.
fn lowest_from(word: u64, start: usize) -> Option<usize>
    requires { start ≤ 64 }
    ensures some { IfSome result (IsFirstFrom (is_set word) start) }
    ensures within { IfSome result (λ bit. bit < 64) }
    ensures none { IfNone result ((i : ℕ) → start ≤ i → i < 64 → is_set word i ≡ false) }
{
    let rest = word & !low_ones(start);
    if rest == 0 {
        None
    } else {
        Some(rest.trailing_zeros() as usize)
    }
}

/// Returns the highest set bit of a word below `end`, or None where there is none.
pub fn highest_below(word: u64, end: usize) -> Option<usize>
    requires { end ≤ 64 }
    ensures some { IfSome result (IsLastBelow (is_set word) end) }
    ensures none { IfNone result ((i : ℕ) → i < end → is_set word i ≡ false) }
{
    let rest = word & low_ones(end);
    if rest == 0 {
        None
    } else {
        Some(63 - rest.leading_zeros() as usize)
    }
}

/// Returns the lowest number from `from` on whose bit agrees with `flag`, or None where there is
/// none.
pub(crate) fn next_bit(words: &[u64], from: usize, flag: bool) -> Option<usize>
    requires { length words.now ≤ 1024 }
    ensures some { IfSome result (IsFirstFrom (λ n. agrees flag (has_bit words.now n)) from) }
    ensures within { IfSome result (λ n. n < 64 * length words.now) }
    ensures none { IfNone result ((n : ℕ) → from ≤ n → n < 64 * length words.now
        → agrees flag (has_bit words.now n) ≡ false) }
{
    for index in from / 64..words.len() {
        let start = from.saturating_sub(index * 64);
        if let Some(bit) = lowest_from(matching(words[index], flag), start) {
            return Some(index * 64 + bit);
        }
    }
    None
}

/// Returns the set bit of a word that `number` other ones stand below, or None where there is none.
fn nth_bit(word: u64, number: u32) -> Option<usize>
    ensures nth { IfSome result (IsNth (is_set word) number) }
    ensures within { IfSome result (λ bit. bit < 64) }
    ensures none { IfNone result (count_below (is_set word) 64 ≤ number) }
{
    let mut start = 0;
    for passed in 0..number {
        start = lowest_from(word, start)? + 1;
    }
    lowest_from(word, start)
}

/// Returns for each word how many bits are set up to its end.
pub(crate) fn ends_of(words: &[u64]) -> [u32; 16]
    requires { length words.now ≡ 16 }
    ensures { AreEnds words.now result }
{
    let mut ends = [0; 16];
    let mut count = 0;
    for (index, word) in words.iter().enumerate() {
        count += word.count_ones();
        ends[index] = count;
    }
    ends
}

/// Returns the set bit of the words that `number` other ones stand below, or None where there is
/// none. Only its own word is looked at.
pub(crate) fn nth_number(words: &[u64], ends: &[u32; 16], number: u32) -> Option<usize>
    requires size { length words.now ≡ 16 }
    requires ends { AreEnds words.now ends.now }
    ensures nth { IfSome result (IsNth (has_bit words.now) number) }
    ensures none { IfNone result (count_below (has_bit words.now) 1024 ≤ number) }
{
    let mut start = 0;
    for (index, end) in ends.iter().enumerate() {
        if number < *end {
            let bit = nth_bit(words[index], number - start)?;
            return Some(index * 64 + bit);
        }
        start = *end;
    }
    None
}

/// Returns the set bit of `free` that is first from a place on, or else from 0: the place is the bit
/// of `owned` with the number `y` modulo their count. None says that no bit is set in both.
pub(crate) fn drawn_bit(owned: u64, free: u64, y: u32) -> Option<usize>
    ensures some { IfSome result (IsDrawnBit (is_set owned) (is_set free) y) }
    ensures none { IfNone result ((i : ℕ) → i < 64 → (is_set owned i && is_set free i) ≡ false) }
{
    let count = owned.count_ones();
    if count == 0 {
        return None;
    }
    let place = nth_bit(owned, y % count)?;
    match lowest_from(free, place) {
        Some(bit) => Some(bit),
        None => lowest_from(free, 0),
    }
}
