//! The checksum of the internet protocols (RFC 1071): sums of 16-bit words in one's complement, and
//! updates of them.
#![tactic(auto)]

ghost use Rattle.std.specs.Prelude.{◌≡◌, ℕ, ◌+◌, ◌-◌, ◌*◌, ◌%◌, ◌<◌, ◌≤◌, ◌↔◌, IsTrue, List, ◌++◌, length, take, drop};
ghost use Rattle.byteorder.specs.Endian.{big_bytes};
ghost use Rattle.sums.specs.Sum.{word_sum, ones_sum, IsRight, IsUpdate};

use byteorder::{BigEndian, ByteOrder};

/// Returns the one's complement sum of two sums, of words that lie in two places.
pub fn add(a: u16, b: u16) -> u16
    ensures value { result ≡ ones_sum (a + b) }
    ensures parts { (m n : ℕ) → a ≡ ones_sum m → b ≡ ones_sum n
        → result ≡ ones_sum (m + n) }
{
    let total = u32::from(a) + u32::from(b);
    if total > 65535 {
        (total - 65535) as u16
    } else {
        total as u16
    }
}

/// The bytes of an IPv4 header without options.
const HEADER: usize = 20;

/// The most bytes that are added up in one number before the number is folded.
const LONGEST: usize = 65536;

/// Returns the one's complement sum of words that add up to `total`.
fn folded(total: u64) -> u16
    ensures { result ≡ ones_sum total }
{
    if total == 0 {
        0
    } else {
        ((total - 1) % 65535) as u16 + 1
    }
}

/// Adds up the words of three bytes or fewer, an odd last byte followed by a zero.
fn last_words(rest: &[u8]) -> u64
    requires { length rest.now < 4 }
    ensures value { result ≡ word_sum rest.now }
    ensures small { result ≤ 2 * 65535 }
{
    match rest {
        [] => 0,
        [a] => 256 * u64::from(*a),
        [_, _] => u64::from(BigEndian::read_u16(rest)),
        [_, _, c, ..] => u64::from(BigEndian::read_u16(rest)) + 256 * u64::from(*c),
    }
}

/// Adds two words to `total` as one number of 32 bits, since 65536 is 1 modulo 65535. Returns the
/// new total and the bytes after the two words.
fn add_four(total: u64, bytes: &[u8]) -> (u64, &[u8])
    requires long { 4 ≤ length bytes.now }
    requires small { total ≤ 70368744177664 }
    ensures sum { ones_sum (result.0 + word_sum result.1.now)
        ≡ ones_sum (total + word_sum bytes.now) }
    ensures most { result.0 ≤ total + 4294967295 }
    ensures rest { length result.1.now + 4 ≡ length bytes.now }
{
    match bytes {
        [_, _, _, _, rest @ ..] => (total + u64::from(BigEndian::read_u32(bytes)), rest),
        _ => unreachable!(),
    }
}

/// Returns a number whose one's complement sum is that of the words of 20 bytes, an IPv4 header
/// without options.
fn header_total(bytes: &[u8]) -> u64
    requires { length bytes.now ≡ 20 }
    ensures { ones_sum result ≡ ones_sum (word_sum bytes.now) }
{
    let (total, rest) = add_four(0, bytes);
    let (total, rest) = add_four(total, rest);
    let (total, rest) = add_four(total, rest);
    let (total, rest) = add_four(total, rest);
    let (total, rest) = add_four(total, rest);
    total + last_words(rest)
}

/// Returns a number whose one's complement sum is that of the words of at most 65,536 bytes.
fn short_total(bytes: &[u8]) -> u64
    requires { length bytes.now ≤ 65536 }
    ensures { ones_sum result ≡ ones_sum (word_sum bytes.now) }
{
    let mut total = 0u64;
    let mut rest = bytes;
    while let [_, _, _, _, others @ ..] = rest {
        total += u64::from(BigEndian::read_u32(rest));
        rest = others;
    }
    total + last_words(rest)
}

/// Returns a number whose one's complement sum is that of the words of any number of bytes, added
/// up 65,536 bytes at a time.
fn long_total(bytes: &[u8]) -> u64
    ensures { ones_sum result ≡ ones_sum (word_sum bytes.now) }
{
    let mut total = 0;
    let mut rest = bytes;
    while rest.len() > LONGEST {
        let (part, others) = rest.split_at(LONGEST);
        total = add(total, folded(short_total(part)));
        rest = others;
    }
    u64::from(add(total, folded(short_total(rest))))
}

/// Returns a number whose one's complement sum is that of the big-endian 16-bit words.
fn total_of(bytes: &[u8]) -> u64
    ensures { ones_sum result ≡ ones_sum (word_sum bytes.now) }
{
    if bytes.len() == HEADER {
        header_total(bytes)
    } else if bytes.len() <= LONGEST {
        short_total(bytes)
    } else {
        long_total(bytes)
    }
}

/// Returns the one's complement sum of the big-endian 16-bit words, an odd last byte followed by a
/// zero: 0 only where all bytes are 0. A checksum is the complement of this sum.
pub fn sum(bytes: &[u8]) -> u16
    ensures { result ≡ ones_sum (word_sum bytes.now) }
{
    folded(total_of(bytes))
}

/// Whether the checksum among these bytes is right. Bytes that are all 0 aren't right.
pub fn is_right(bytes: &[u8]) -> bool
    ensures { IsTrue result ↔ IsRight bytes.now }
{
    let total = total_of(bytes);
    total != 0 && total % 65535 == 0
}

/// Returns the checksum after one of its words has changed from `old` to `new`, where it was `c`
/// before (RFC 1624). The answer is never 65535; a checksum that was wrong stays wrong by as much.
pub fn update(c: u16, old: u16, new: u16) -> u16
    ensures { IsUpdate c old new result }
{
    ((u32::from(c) + u32::from(old) + 65535 - u32::from(new)) % 65535) as u16
}

/// Returns the checksum after several of its words have changed, which added up to `old` and now
/// add up to `new`, where it was `c` before (RFC 1624).
pub fn update_words(c: u16, old: u32, new: u32) -> u16
    ensures { IsUpdate c old new result }
{
    // The greatest `u32`, which is a multiple of 65535: no `new` exceeds it.
    let turn = 65535 * 65537;
    ((u64::from(c) + u64::from(old) + turn - u64::from(new)) % 65535) as u16
}

/// An update keeps the whole sum: where the words other than the checksum added up to `s` and,
/// after one of them has changed, add up to `s2`, checksum and words have the same sum modulo 65535
/// as before.
pub fn update_law()
    ensures { (c old new s s2 u : ℕ) → s2 + old ≡ s + new → IsUpdate c old new u
        → (u + s2) % 65535 ≡ (c + s) % 65535 }
{}

/// The words of two parts, the first of even length, add up to those of the whole.
pub fn parts_law()
    ensures { (first second : List ℕ) (half : ℕ) → length first ≡ 2 * half
        → word_sum (first ++ second) ≡ word_sum first + word_sum second }
{}

/// Where the word at an even place is replaced, the whole sum changes by the difference.
pub fn replace_law()
    ensures { (bytes : List ℕ) (half value : ℕ) → 2 * half + 2 ≤ length bytes
        → value < 65536
        → word_sum (take (2 * half) bytes ++ big_bytes 2 value ++ drop (2 * half + 2) bytes)
        + word_sum (take 2 (drop (2 * half) bytes))
        ≡ word_sum bytes + value }
{}
