//! Numbers with units.

use std::fmt::{self, Display, Formatter};

/// Centiseconds, written as seconds: `0.06`.
#[derive(Clone, Copy)]
pub(crate) struct Seconds(pub(crate) u64);

impl Display for Seconds {
    fn fmt<W: fmt::Write>(&self, f: &mut Formatter<W>) -> fmt::Result {
        let (seconds, hundredths) = (self.0 / 100, self.0 % 100);
        write!(f, "{seconds}.{hundredths:02}")
    }
}

/// Centiseconds, written in their two greatest units: `3 d 4 h`, `2 h 10 min`, `5 min 0 s`, `12 s`.
#[derive(Clone, Copy)]
pub(crate) struct Span(pub(crate) u64);

impl Display for Span {
    fn fmt<W: fmt::Write>(&self, f: &mut Formatter<W>) -> fmt::Result {
        let seconds = self.0 / 100;
        let (minutes, hours, days) = (seconds / 60, seconds / 3_600, seconds / 86_400);
        if days > 0 {
            write!(f, "{days} d {} h", hours % 24)
        } else if hours > 0 {
            write!(f, "{hours} h {} min", minutes % 60)
        } else if minutes > 0 {
            write!(f, "{minutes} min {} s", seconds % 60)
        } else {
            write!(f, "{seconds} s")
        }
    }
}

/// A number, written with a comma before each group of three digits: `1,204`.
#[derive(Clone, Copy)]
pub(crate) struct Grouped(pub(crate) u64);

/// The powers of 1,000, the greatest first.
const POWERS: [u64; 7] = [
    1_000_000_000_000_000_000,
    1_000_000_000_000_000,
    1_000_000_000_000,
    1_000_000_000,
    1_000_000,
    1_000,
    1,
];

impl Display for Grouped {
    fn fmt<W: fmt::Write>(&self, f: &mut Formatter<W>) -> fmt::Result {
        let mut is_first = true;
        for power in POWERS {
            let group = self.0 / power % 1_000;
            if !is_first {
                write!(f, ",{group:03}")?;
            } else if group > 0 || power == 1 {
                write!(f, "{group}")?;
                is_first = false;
            }
        }
        Ok(())
    }
}
