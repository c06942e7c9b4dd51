//! A writer and a clock that the cases set.

use crate::words::shown;
use captures::NonBlockingWriter;
use journal::LineWriter;
use platform::CentisecondClock;
use std::cell::Cell;
use std::fmt::Display;
use std::io::{self, ErrorKind};

/// The state of a writer: what a write does.
#[derive(Clone, Copy)]
pub(crate) enum WriterState {
    Open,
    /// A write would wait.
    Blocked,
    /// A write fails.
    Failing,
    /// A write takes at most this many bytes.
    TakesAtMost(usize),
}

/// A writer that prints what it takes.
#[derive(Drop)]
pub(crate) struct Printer<'a> {
    rt: HostRuntime,
    state: &'a Cell<WriterState>,
}

impl<'a> Printer<'a> {
    /// Returns a writer of this state.
    pub(crate) fn new(rt: HostRuntime, state: &'a Cell<WriterState>) -> Printer<'a> {
        Printer { rt, state }
    }
}

impl NonBlockingWriter for Printer<'_> {
    fn try_write(&mut self, bytes: &[u8]) -> io::Result<usize> {
        let count = match self.state.get() {
            WriterState::Open => bytes.len(),
            WriterState::TakesAtMost(most) => bytes.len().min(most),
            WriterState::Blocked => return Err(ErrorKind::WouldBlock.into()),
            WriterState::Failing => return Err(ErrorKind::StorageFull.into()),
        };
        let taken = shown(self.rt.alloc(), &bytes[..count])?;
        println!(self.rt; "  page {taken}")?;
        Ok(count)
    }
}

impl LineWriter for Printer<'_> {
    fn try_write_line<D: Display + Drop>(&mut self, line: D) -> bool {
        match self.state.get() {
            WriterState::Open | WriterState::TakesAtMost(_) => println!(self.rt; "{line}").is_ok(),
            WriterState::Blocked | WriterState::Failing => false,
        }
    }
}

/// A clock that the cases set.
#[derive(Drop)]
pub(crate) struct SetClock<'a> {
    time: &'a Cell<u64>,
}

impl<'a> SetClock<'a> {
    /// Returns a clock that shows this time.
    pub(crate) fn new(time: &'a Cell<u64>) -> SetClock<'a> {
        SetClock { time }
    }
}

impl CentisecondClock for SetClock<'_> {
    fn now(&mut self) -> u64 {
        self.time.get()
    }
}
