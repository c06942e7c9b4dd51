//! The lines that the crate `log` doesn't have: of the format [`Format::Pairs`], and of records that were left out.

use crate::Format;
use log::Record;
use log::kv::{Error, Source, Value, VisitSource};
use log::span::Spans;
use std::fmt::{self, Display, Formatter};

/// The line that says how many lines were left out.
#[derive(Clone, Copy, Debug)]
pub(crate) struct LeftOutLine {
    pub(crate) format: Format,
    pub(crate) lines: u64,
}

impl Display for LeftOutLine {
    fn fmt<W: fmt::Write>(&self, f: &mut Formatter<W>) -> fmt::Result {
        f.write_str(match self.format {
            Format::Text => "[WARN  natpair::box] lines left out: ",
            Format::Pairs => "level=WARN target=natpair::box event=left-out lines=",
        })?;
        f.write(self.lines)
    }
}

/// The line of a record in the format [`Format::Pairs`]: `level=INFO target=natpair::box at=250 event=synced`.
#[derive_where(Clone, Copy)]
pub(crate) struct PairsLine<'a, 'r, D, K, S>(pub(crate) &'a Record<'r, D, K, S>);

impl<'a, 'r, D: Display, K: Source, S: Spans> Display for PairsLine<'a, 'r, D, K, S> {
    fn fmt<W: fmt::Write>(&self, f: &mut Formatter<W>) -> fmt::Result {
        let (level, target) = (self.0.level().as_str(), self.0.target());
        write!(f, "level={level} target={target}")?;
        self.0.key_values().visit(&mut Pairs(f))?;
        Ok(())
    }
}

/// A visitor that writes ` key=value` for each pair.
struct Pairs<'f, W>(&'f mut Formatter<W>);

impl<W> Drop for Pairs<'_, W> {
    fn drop(self) {
        let Pairs(_) = self;
    }
}

impl<W: fmt::Write> VisitSource for Pairs<'_, W> {
    fn visit_pair<D: Display>(&mut self, key: &str, value: Value<'_, D>) -> Result<(), Error> {
        write!(self.0, " {key}={value}")?;
        Ok(())
    }
}
