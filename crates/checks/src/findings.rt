//! The lines of a check, with the number of its faults and warnings.

use faults::{Fault, Reason};
use std::alloc::{AllocError, Global};
use std::fmt::Display;
use std::io::Write;

/// The lines of a check. They are written once all are there, so that nothing is written where the check is out of
/// memory.
#[derive(Drop)]
pub(crate) struct Findings {
    text: String,
    faults: usize,
    warnings: usize,
}

impl Findings {
    /// Returns a check without lines.
    pub(crate) fn new(alloc: Global) -> Findings {
        Findings {
            text: String::new(alloc),
            faults: 0,
            warnings: 0,
        }
    }

    /// Adds a line for a fault.
    pub(crate) fn fault<D: Display + Drop>(&mut self, what: D) -> Result<(), AllocError> {
        self.faults = self.faults.saturating_add(1);
        writeln!(self.text, "fault: {what}")
    }

    /// Adds a line for where the last fault lies and why.
    pub(crate) fn reason<D: Display + Drop>(&mut self, what: D) -> Result<(), AllocError> {
        writeln!(self.text, "  {what}")
    }

    /// Adds the second line of a fault.
    pub(crate) fn reason_of(&mut self, fault: &Fault) -> Result<(), AllocError> {
        write!(self.text, "{}", Reason(fault))
    }

    /// Adds a line for a warning.
    pub(crate) fn warning<D: Display + Drop>(&mut self, what: D) -> Result<(), AllocError> {
        self.warnings = self.warnings.saturating_add(1);
        writeln!(self.text, "warning: {what}")
    }

    /// Adds a line for what is neither.
    pub(crate) fn note<D: Display + Drop>(&mut self, what: D) -> Result<(), AllocError> {
        writeln!(self.text, "note: {what}")
    }

    /// Writes the lines and the number of faults and of warnings. Returns the exit status: 1 where there is a fault, or
    /// a warning of a strict check, else 0.
    ///
    /// # Errors
    ///
    /// `NotWritten`; `NoMemory`, and then nothing is written.
    pub(crate) fn write<W: Write>(mut self, strict: bool, output: &mut W) -> Result<u8, Fault> {
        let (faults, warnings) = (self.faults, self.warnings);
        writeln!(self.text, "{faults} faults, {warnings} warnings")?;
        output.write_all(self.text.as_bytes())?;
        output.flush()?;
        Ok(u8::from(faults > 0 || (strict && warnings > 0)))
    }
}
