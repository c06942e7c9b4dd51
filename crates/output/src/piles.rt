//! Byte strings one after the other in one buffer, so that none takes memory of its own.
ghost use Rattle.std.specs.Prelude.{◌≡◌, ◌≤◌, ◌<◌, ◌+◌, ◌-◌, ◌^◌, ◌++◌, ◌∷◌, [], Some, length, slice_get, slice_index, sum, take, drop, IfSome, OnOk, OnErr, IsOk};
ghost use Rattle.output.specs.Memory.{LacksPile};
ghost use Rattle.output.specs.Piles.{bytes_in, changed_string, cut};

use crate::growing::reserve;
use crate::readers::ByteStrings;
use crate::writing::{ChangeBytes, WriteBytes};
use std::alloc::{AllocError, Global};
use std::marker::Model;

#[derive(Debug, Drop)]
pub(crate) struct Pile {
    sizes: Vec<usize>,
    bytes: Vec<u8>,
}

impl Model for Pile {
    ghost use Rattle.std.specs.Prelude.{◌≡◌, ◌-◌, length, sum, vec_len, vec_capacity};
    ghost use Rattle.output.specs.Piles.{Pile as Strings, cut};

    ghost Value = { Strings };

    ghost view = { λ p. record {
      strings = cut p.sizes.items p.bytes.items;
      places = vec_capacity p.sizes - vec_len p.sizes;
      octets = vec_capacity p.bytes - vec_len p.bytes;
    } };

    ghost invariant = { λ p. sum p.sizes.items ≡ length p.bytes.items };
}

fn total(sizes: &[usize]) -> usize
    requires { sum sizes.now < 2 ^ 63 }
    ensures { result ≡ sum sizes.now }
{
    sizes.iter().sum()
}

/// Returns how many bytes the strings of these sizes have that are before an index.
#[tactic(auto, using(crate::proofs::Places::start_within))]
fn start_of(sizes: &[usize], k: usize) -> usize
    requires there { k < length sizes.now }
    requires small { sum sizes.now < 2 ^ 63 }
    ensures start { result ≡ sum (take k sizes.now) }
    ensures end { result + slice_index sizes.now k ≤ sum sizes.now }
{
    total(&sizes[..k])
}

/// Returns the string at an index of bytes that are cut into strings of these sizes.
#[tactic(auto, using(crate::proofs::Places::string_is))]
fn string_of<'a>(sizes: &[usize], bytes: &'a [u8], k: usize) -> &'a [u8]
    requires there { k < length sizes.now }
    requires fills { sum sizes.now ≡ length bytes.now }
    ensures { slice_get (cut sizes.now bytes.now) k ≡ Some result.now }
{
    let start = start_of(sizes, k);
    let end = start + sizes[k];
    &bytes[start..end]
}

/// Changes the bytes from `start` up to `end` in place.
fn change_part<C: ChangeBytes>(bytes: &mut [u8], start: usize, end: usize, change: &C)
    requires order { start ≤ end }
    requires within { end ≤ length bytes.old }
    requires ready { C.can_change change.now (take (end - start) (drop start bytes.old)) }
    ensures { bytes.new ≡ take start bytes.old
        ++ C.changed change.now (take (end - start) (drop start bytes.old))
        ++ drop end bytes.old }
{
    change.change(&mut bytes[start..end]);
}

/// Changes the string at an index of bytes that are cut into strings of these sizes.
fn change_string<C: ChangeBytes>(sizes: &[usize], bytes: &mut [u8], k: usize, change: &C)
    requires there { k < length sizes.now }
    requires fills { sum sizes.now ≡ length bytes.old }
    requires ready { IfSome (slice_get (cut sizes.now bytes.old) k) (C.can_change change.now) }
    ensures { cut sizes.now bytes.new
        ≡ changed_string k (C.changed change.now) (cut sizes.now bytes.old) }
{
    let start = start_of(sizes, k);
    let end = start + sizes[k];
    change_part(bytes, start, end, change);
}

impl Pile {
    /// Returns a pile without strings or capacity.
    pub(crate) fn new(alloc: Global) -> Pile
        ensures { result.strings ≡ [] }
    {
        Pile {
            sizes: Vec::new(alloc),
            bytes: Vec::new(alloc),
        }
    }

    /// Makes capacity for `places` more strings, and for `octets` more bytes in all. Fails where
    /// there isn't enough memory.
    #[inline(always)]
    pub(crate) fn ready(&mut self, places: usize, octets: usize) -> Result<(), AllocError>
        ensures strings { self.new.strings ≡ self.old.strings }
        ensures places { OnOk result (places ≤ self.new.places) }
        ensures octets { OnOk result (octets ≤ self.new.octets) }
        ensures places_stay { self.old.places ≤ self.new.places }
        ensures octets_stay { self.old.octets ≤ self.new.octets }
        ensures enough { places ≤ self.old.places → octets ≤ self.old.octets → IsOk result }
        ensures refused { OnErr result (LacksPile places octets) }
    {
        reserve(&mut self.sizes, places)?;
        reserve(&mut self.bytes, octets)?;
        Ok(())
    }

    /// Removes all strings, and keeps the capacity.
    pub(crate) fn clear(&mut self)
        ensures strings { self.new.strings ≡ [] }
        ensures places { self.old.places ≤ self.new.places }
        ensures octets { self.old.octets ≤ self.new.octets }
    {
        self.sizes.clear();
        self.bytes.clear();
    }

    /// Appends the string that a source writes, and returns its length in bytes.
    #[inline(always)]
    pub(crate) fn write<W: WriteBytes>(&mut self, source: &W) -> usize
        requires ready { W.can_write source.now }
        requires place { 0 < self.old.places }
        requires octets { W.room source.now ≤ self.old.octets }
        ensures strings { self.new.strings ≡ self.old.strings ++ W.bytes source.now ∷ [] }
        ensures places { self.old.places ≤ self.new.places + 1 }
        ensures octets { self.old.octets ≤ self.new.octets + result }
        ensures few { result ≤ W.room source.now }
    {
        let start = self.bytes.len();
        source.write_to(&mut self.bytes);
        let size = self.bytes.len() - start;
        self.sizes.push_reserved(size);
        size
    }

    /// Changes the string at an index in place.
    pub(crate) fn change<C: ChangeBytes>(&mut self, k: usize, change: &C)
        requires there { k < length self.old.strings }
        requires ready { IfSome (slice_get self.old.strings k) (C.can_change change.now) }
        ensures strings { self.new.strings
            ≡ changed_string k (C.changed change.now) self.old.strings }
        ensures places { self.old.places ≤ self.new.places }
        ensures octets { self.old.octets ≤ self.new.octets }
    {
        change_string(&self.sizes, &mut self.bytes, k, change);
    }

    /// Returns the string at an index.
    pub(crate) fn string(&self, k: usize) -> &[u8]
        requires { k < length self.now.strings }
        ensures { slice_get self.now.strings k ≡ Some result.now }
    {
        string_of(&self.sizes, &self.bytes, k)
    }

    /// Returns how many bytes all strings have together.
    #[inline(always)]
    pub(crate) fn octet_count(&self) -> usize
        ensures count { result ≡ bytes_in self.now.strings }
        ensures few { result < 2 ^ 63 }
    {
        self.bytes.len()
    }

    /// Returns how many strings there are.
    #[inline(always)]
    pub(crate) fn count(&self) -> usize
        ensures { result ≡ length self.now.strings }
    {
        self.sizes.len()
    }

    /// Returns the strings, in order.
    pub(crate) fn strings(&self) -> ByteStrings<'_>
        ensures { result ≡ self.now.strings }
    {
        ByteStrings::of(&self.sizes, &self.bytes)
    }
}
