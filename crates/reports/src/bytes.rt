//! Values as bytes: numbers of 8 bytes, big-endian; flags and small numbers of one.

use arrayvec::ArrayVec;
use std::fmt::{self, Display, Formatter};

/// The version of the bytes of reports and pages, which is their first byte.
pub const VERSION: u8 = 7;

/// How many bytes a report or a page has at most: those of a report where the other box was heard, and runs on other
/// settings. A page has 3 bytes before its entries, and 10 for each, so at most 1,283.
pub const MAX_REPORT_BYTES: usize = 1_368;

/// The bytes of a report or a page.
pub type ReportBytes = ArrayVec<u8, MAX_REPORT_BYTES>;

/// Why bytes are no report, and no page.
#[derive(Clone, Copy, Debug, PartialEq, Eq)]
pub enum ReadFault {
    /// The first byte is this version, which isn't known.
    OtherVersion(u8),
    /// No report or page has these bytes.
    BadBytes,
}

impl Display for ReadFault {
    fn fmt<W: fmt::Write>(&self, f: &mut Formatter<W>) -> fmt::Result {
        match self {
            ReadFault::OtherVersion(version) => write!(f, "version {version} isn't known"),
            ReadFault::BadBytes => f.write_str("the answer is cut off or damaged"),
        }
    }
}

/// Appends bytes. There is capacity for all bytes of a report or a page.
pub(crate) fn put(out: &mut ReportBytes, bytes: &[u8]) {
    let _fits = out.try_extend_from_slice(bytes);
}

pub(crate) fn put_byte(out: &mut ReportBytes, byte: u8) {
    put(out, &[byte]);
}

pub(crate) fn put_flag(out: &mut ReportBytes, flag: bool) {
    put(out, &[u8::from(flag)]);
}

pub(crate) fn put_number(out: &mut ReportBytes, number: u64) {
    put(out, &number.to_be_bytes());
}

pub(crate) fn put_numbers(out: &mut ReportBytes, numbers: &[u64]) {
    for number in numbers {
        put_number(out, *number);
    }
}

/// A reader of values from bytes. Each method reads the next value, or gives `None` where there is no such value.
#[derive(Drop)]
pub(crate) struct ByteReader<'a> {
    rest: &'a [u8],
}

impl<'a> ByteReader<'a> {
    /// Returns a reader of the bytes after the version.
    ///
    /// # Errors
    ///
    /// `OtherVersion`; `BadBytes` where there are no bytes.
    pub(crate) fn new(bytes: &'a [u8]) -> Result<ByteReader<'a>, ReadFault> {
        match bytes {
            [] => Err(ReadFault::BadBytes),
            [VERSION, rest @ ..] => Ok(ByteReader { rest }),
            [version, ..] => Err(ReadFault::OtherVersion(*version)),
        }
    }

    /// Reads so many bytes.
    fn take(&mut self, count: usize) -> Option<&'a [u8]> {
        let (front, rest) = self.rest.split_at_checked(count)?;
        self.rest = rest;
        Some(front)
    }

    pub(crate) fn read_byte(&mut self) -> Option<u8> {
        let (byte, rest) = self.rest.split_first()?;
        self.rest = rest;
        Some(*byte)
    }

    pub(crate) fn read_u16(&mut self) -> Option<u16> {
        match self.take(2)? {
            [high, low] => Some(u16::from_be_bytes([*high, *low])),
            _ => None,
        }
    }

    pub(crate) fn read_u32(&mut self) -> Option<u32> {
        match self.take(4)? {
            [a, b, c, d] => Some(u32::from_be_bytes([*a, *b, *c, *d])),
            _ => None,
        }
    }

    pub(crate) fn read_number(&mut self) -> Option<u64> {
        match self.take(8)? {
            [a, b, c, d, e, f, g, h] => {
                Some(u64::from_be_bytes([*a, *b, *c, *d, *e, *f, *g, *h]))
            }
            _ => None,
        }
    }

    pub(crate) fn read_numbers<const N: usize>(&mut self) -> Option<[u64; N]> {
        let mut numbers = [0; N];
        for i in 0..N {
            numbers[i] = self.read_number()?;
        }
        Some(numbers)
    }

    pub(crate) fn read_flag(&mut self) -> Option<bool> {
        match self.read_byte()? {
            0 => Some(false),
            1 => Some(true),
            _ => None,
        }
    }

    /// Whether all bytes are read.
    pub(crate) fn is_done(&self) -> bool {
        self.rest.is_empty()
    }
}
