//! Iterators over an output's frames and datagrams.
ghost use Rattle.std.specs.Prelude.{◌≡◌, length, sum};
ghost use Rattle.std.specs.Iterator.{at_most};
ghost use Rattle.std.specs.Map.Iter.{TakesFirst, deref};
ghost use Rattle.output.specs.Piles.{cut};
ghost use Rattle.output.specs.Output.{sent};
ghost use Rattle.output.specs.Readers.{sent_of};

use nat_types::Side;
use std::marker::Model;

/// An iterator over byte strings, which lends each in turn.
#[derive(Debug, Drop)]
pub struct ByteStrings<'a> {
    sizes: &'a [usize],
    bytes: &'a [u8],
}

impl<'a> Model for ByteStrings<'a> {
    ghost use Rattle.std.specs.Prelude.{◌≡◌, ℕ, List, length, sum};
    ghost use Rattle.output.specs.Piles.{cut};

    ghost Value = { List (List ℕ) };

    ghost view = { λ s. cut s.sizes.now s.bytes.now };

    ghost invariant = { λ s. sum s.sizes.now ≡ length s.bytes.now };
}

impl<'a> ByteStrings<'a> {
    pub(crate) fn of(sizes: &'a [usize], bytes: &'a [u8]) -> ByteStrings<'a>
        requires { sum sizes.now ≡ length bytes.now }
        ensures { result ≡ cut sizes.now bytes.now }
    {
        ByteStrings { sizes, bytes }
    }
}

impl<'a> Iterator for ByteStrings<'a> {
    type Item = &'a [u8];

    ghost next_gives = { TakesFirst deref };

    ghost remaining = { λ s. at_most (length s) };

    fn next(&mut self) -> Option<&'a [u8]> {
        let (size, sizes) = self.sizes.split_first()?;
        let (string, bytes) = self.bytes.split_at(*size);
        self.sizes = sizes;
        self.bytes = bytes;
        Some(string)
    }
}

/// A frame to send, and the side on which it goes out.
#[derive(Clone, Copy, Debug, PartialEq, Eq)]
pub struct Frame<'a> {
    pub side: Side,
    pub bytes: &'a [u8],
}

/// An iterator over the frames to send, in order.
#[derive(Debug, Drop)]
pub struct Frames<'a> {
    sides: &'a [Side],
    strings: ByteStrings<'a>,
}

impl<'a> Model for Frames<'a> {
    ghost use Rattle.std.specs.Prelude.{◌≡◌, List, length};
    ghost use Rattle.output.specs.Output.{Sent, sent};

    ghost Value = { List Sent };

    ghost view = { λ f. sent f.sides.now f.strings };

    ghost invariant = { λ f. length f.sides.now ≡ length f.strings };
}

impl<'a> Frames<'a> {
    pub(crate) fn of(sides: &'a [Side], strings: ByteStrings<'a>) -> Frames<'a>
        requires { length sides.now ≡ length strings }
        ensures { result ≡ sent sides.now strings.entry }
    {
        Frames { sides, strings }
    }
}

impl<'a> Iterator for Frames<'a> {
    type Item = Frame<'a>;

    ghost next_gives = { TakesFirst sent_of };

    ghost remaining = { λ s. at_most (length s) };

    fn next(&mut self) -> Option<Frame<'a>> {
        let (side, sides) = self.sides.split_first()?;
        let bytes = self.strings.next()?;
        self.sides = sides;
        Some(Frame { side: *side, bytes })
    }
}
