//! The log of a box in memory, and its end signal.

use journal::LineWriter;
use rounds::EndSignal;
use std::cell::RefCell;
use std::fmt::Display;
use std::io::Write;

/// A log that keeps its lines, or, where `is_closed`, fails to write any.
#[derive(Drop)]
pub(crate) struct Lines<'a> {
    pub(crate) text: &'a RefCell<Vec<u8>>,
    pub(crate) is_closed: bool,
}

impl<'a> LineWriter for Lines<'a> {
    fn try_write_line<D: Display + Drop>(&mut self, line: D) -> bool {
        if self.is_closed {
            return false;
        }
        match self.text.try_borrow_mut() {
            Ok(mut text) => text.writeln(line).is_ok(),
            Err(_) => false,
        }
    }
}

/// An end signal that comes at the call after so many, or never.
#[derive(Drop)]
pub(crate) struct EndAfter(pub(crate) Option<u32>);

impl EndSignal for EndAfter {
    fn has_come(&mut self) -> bool {
        let Some(left) = self.0 else {
            return false;
        };
        self.0 = Some(left.saturating_sub(1));
        left == 0
    }
}
