//! A log that writes lines, and never waits for their reader.

use crate::lines::{LeftOutLine, PairsLine};
use log::filter::FilteredLog;
use log::kv::Source;
use log::span::Spans;
use log::{Line, Log, Metadata, Record};
use platform::is_writable;
use std::alloc::Allocator;
use std::cell::RefCell;
use std::fmt::Display;

/// The descriptor of the standard error.
const STDERR: i32 = 2;

/// The form of a record's line.
#[derive(Clone, Copy, Debug, PartialEq, Eq)]
pub enum Format {
    /// For people: `[WARN  natpair::link] 450 dropped 16 BadDatagram`.
    Text,
    /// For programs: `level=WARN target=natpair::link at=450 event=dropped number=16 reason=BadDatagram`.
    Pairs,
}

/// What a [`Sink`] writes its lines to.
pub trait LineWriter {
    /// Writes a line and its end, unless that would wait. Returns whether the whole line was written.
    fn try_write_line<D: Display + Drop>(&mut self, line: D) -> bool;
}

/// The standard error. Each line is polled for first, and then written by one write, so nothing is buffered.
#[derive(Clone, Copy, Debug, Drop)]
pub struct StandardError<R>(pub R);

impl<R: Eprint> LineWriter for StandardError<R> {
    fn try_write_line<D: Display + Drop>(&mut self, line: D) -> bool {
        is_writable(STDERR) && self.0.eprintln(line).is_ok()
    }
}

/// A log that leaves out the lines that it can't write at once, and counts them.
pub trait Journal: Log {
    /// Returns how many lines were left out since the log's start.
    fn lines_left_out(&self) -> u64;
}

/// A log that writes a line for each record, and never waits.
///
/// A record is left out where its line can't be written at once: it isn't kept for later, and only counted. The next record, or
/// the next `flush`, first writes a line with how many were left out since the last such line. Where that line can't be written
/// either, the record is left out too.
#[derive(Drop)]
pub struct Sink<W> {
    format: Format,
    output: RefCell<Output<W>>,
}

impl<W: LineWriter> Sink<W> {
    /// Returns a sink that has left out nothing yet.
    pub fn new(writer: W, format: Format) -> Sink<W> {
        let output = Output {
            writer,
            left_out: 0,
            unreported: 0,
        };
        Sink {
            format,
            output: RefCell::new(output),
        }
    }
}

impl<W: LineWriter> Log for Sink<W> {
    fn enabled(&self, _metadata: &Metadata<'_>) -> bool {
        true
    }

    fn log<D: Display, K: Source, S: Spans>(&self, record: &Record<'_, D, K, S>) {
        if let Ok(mut output) = self.output.try_borrow_mut() {
            match self.format {
                Format::Text => {
                    let bare = Record::new(*record.metadata(), record.args(), (), ());
                    output.write(self.format, Line::new(&bare));
                }
                Format::Pairs => output.write(self.format, PairsLine(record)),
            }
        }
    }

    fn flush(&self) {
        if let Ok(mut output) = self.output.try_borrow_mut() {
            output.report_left_out(self.format);
        }
    }

    fn target(&self) -> &str {
        ""
    }
}

impl<W: LineWriter> Journal for Sink<W> {
    fn lines_left_out(&self) -> u64 {
        match self.output.try_borrow() {
            Ok(output) => output.left_out,
            Err(_) => 0,
        }
    }
}

impl<L: Journal, A: Allocator> Journal for FilteredLog<L, A> {
    fn lines_left_out(&self) -> u64 {
        self.inner().lines_left_out()
    }
}

/// A writer, with counts of the lines that weren't written to it.
#[derive(Drop)]
struct Output<W> {
    writer: W,
    /// How many lines were left out since the start.
    left_out: u64,
    /// How many of them no line has reported yet.
    unreported: u64,
}

impl<W: LineWriter> Output<W> {
    /// Writes a record's line, after the line about those that were left out before; or leaves it out.
    fn write<D: Display + Drop>(&mut self, format: Format, line: D) {
        if !(self.report_left_out(format) && self.writer.try_write_line(line)) {
            self.unreported = self.unreported.saturating_add(1);
            self.left_out = self.left_out.saturating_add(1);
        }
    }

    /// Writes the line about the lines that were left out, unless all are reported. Returns whether all are now.
    fn report_left_out(&mut self, format: Format) -> bool {
        let lines = self.unreported;
        if lines > 0 && !self.writer.try_write_line(LeftOutLine { format, lines }) {
            return false;
        }
        self.unreported = 0;
        true
    }
}
