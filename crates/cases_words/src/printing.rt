//! The calls that print.

use crate::Case;
use std::fmt::{Debug, Display};
use std::io::{self, ErrorKind, Write};

impl Case {
    /// Writes what was printed so far to the program's output, and begins anew.
    pub fn flush<R: Print>(&mut self, rt: &R) {
        let written = io::writer(rt).write_all(self.out.as_slice());
        self.out.clear();
        self.keep(written);
    }

    /// Prints a thing.
    pub fn put<D: Display + Drop>(&mut self, thing: D) {
        let written = write!(self.out, "{thing}");
        self.keep(written);
    }

    /// Prints a text and then a thing.
    pub fn say<D: Display + Drop>(&mut self, text: &str, thing: D) {
        self.put(text);
        self.put(thing);
    }

    /// Prints a text and then a value, as it is written in code.
    pub fn show<D: Debug + Drop>(&mut self, text: &str, thing: D) {
        self.put(text);
        let written = write!(self.out, "{thing:?}");
        self.keep(written);
    }

    /// Prints a text and then bytes in hexadecimal.
    pub fn hex(&mut self, text: &str, bytes: &[u8]) {
        self.put(text);
        for byte in bytes {
            let written = write!(self.out, "{byte:02x}");
            self.keep(written);
        }
    }

    /// Prints bytes as they are.
    pub fn text(&mut self, text: &[u8]) {
        let written = self.out.write_all(text);
        self.keep(written);
    }

    /// Prints a text and then a number in octal.
    pub fn octal(&mut self, text: &str, number: u32) {
        let written = write!(self.out, "{text}{number:o}");
        self.keep(written);
    }

    /// Prints a text and then the bytes that were made, in hexadecimal. Where they couldn't be
    /// made, makes the line wrong.
    pub fn hex_made<E: Drop>(&mut self, text: &str, made: Result<Vec<u8>, E>) {
        match made {
            Ok(bytes) => self.hex(text, bytes.as_slice()),
            Err(_) => self.fault(),
        }
    }

    /// Prints a text and then a number of two bytes in hexadecimal.
    pub fn hex_short(&mut self, text: &str, number: u16) {
        self.hex(text, &number.to_be_bytes());
    }

    /// Prints why something is refused.
    pub fn refused<D: Display + Drop>(&mut self, fault: D) {
        self.say("refused, ", fault);
    }

    /// Prints the whole line, and why it is refused.
    pub fn refuse<D: Display + Drop>(&mut self, fault: D) {
        self.title("", ": ");
        self.refused(fault);
        self.end();
    }

    /// Prints the whole line between two texts.
    pub fn title(&mut self, before: &str, behind: &str) {
        let line = self.line.as_str();
        let written = write!(self.out, "{before}{line}{behind}");
        self.keep(written);
    }

    /// Prints the next word and then a text.
    pub fn echo(&mut self, text: &str) {
        let written = match self.line.split(self.mark).nth(self.next) {
            Some(word) => write!(self.out, "{word}{text}"),
            None => Err(ErrorKind::InvalidInput.into()),
        };
        self.next = self.next.saturating_add(1);
        self.keep(written);
    }

    /// Prints the end of a line.
    pub fn end(&mut self) {
        self.put('\n');
    }

    /// Prints a line with one thing.
    pub fn tell<D: Display + Drop>(&mut self, thing: D) {
        self.say("  ", thing);
        self.end();
    }

    /// Prints a line with a word where something was done, and else with the reason why it wasn't.
    pub fn done<T: Drop, E: Display + Drop>(&mut self, done: Result<T, E>, word: &str) {
        match done {
            Ok(_) => self.tell(word),
            Err(fault) => self.tell(fault),
        }
    }
}
