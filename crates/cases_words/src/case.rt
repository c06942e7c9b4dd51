//! A line of a case file, and the text that is printed of it.

use std::alloc::Global;

/// A line of a case file, read word by word, and the text that is printed of it. No call answers an error: a word that
/// is missing or spells something else, or a text that is out of memory, makes the line wrong, and [`Case::is_wrong`]
/// says so. The value that is read then is any one of its type.
#[derive(Drop)]
pub struct Case {
    /// The allocator of what the words spell.
    pub alloc: Global,
    pub out: Vec<u8>,
    pub(crate) line: String,
    /// The character between the line's words.
    pub(crate) mark: char,
    pub(crate) next: usize,
    is_wrong: bool,
}

impl Case {
    /// Returns a case with no words to read and nothing printed.
    pub fn new(alloc: Global) -> Case {
        Case {
            alloc,
            out: Vec::new(alloc),
            line: String::new(alloc),
            mark: ' ',
            next: 0,
            is_wrong: false,
        }
    }

    /// Separates the words of a line, from here on, by this character in place of a space.
    pub fn part_by(&mut self, mark: char) {
        self.mark = mark;
    }

    /// Begins another line, whose words are read from the first on.
    pub fn begin(&mut self, line: &str) {
        self.line.clear();
        self.next = 0;
        self.is_wrong = self.is_wrong || self.line.push_str(line).is_err();
    }

    /// Makes the line wrong.
    pub fn fault(&mut self) {
        self.is_wrong = true;
    }

    pub fn is_wrong(&self) -> bool {
        self.is_wrong
    }

    /// Returns the value that was read. Where none was, returns `other` and makes the line wrong.
    pub fn or<T: Copy>(&mut self, read: Option<T>, other: T) -> T {
        match read {
            Some(read) => read,
            None => {
                self.is_wrong = true;
                other
            }
        }
    }

    /// Returns the bytes that were made. Where they couldn't be made, returns none and makes the line wrong.
    pub fn or_none<E: Drop>(&mut self, made: Result<Vec<u8>, E>) -> Vec<u8> {
        match made {
            Ok(bytes) => bytes,
            Err(_) => {
                self.is_wrong = true;
                Vec::new(self.alloc)
            }
        }
    }

    /// Returns the text that was made. Where it couldn't be made, returns an empty one and makes the line wrong.
    pub fn or_empty<E: Drop>(&mut self, made: Result<String, E>) -> String {
        match made {
            Ok(text) => text,
            Err(_) => {
                self.is_wrong = true;
                String::new(self.alloc)
            }
        }
    }

    /// Makes the line wrong where something couldn't be done.
    pub fn keep<T: Drop, E: Drop>(&mut self, done: Result<T, E>) {
        if done.is_err() {
            self.is_wrong = true;
        }
    }

    /// Reads the next word. Where there is none, returns an empty one and makes the line wrong.
    pub fn word(&mut self) -> &str {
        let next = self.next;
        self.next = self.next.saturating_add(1);
        match self.line.split(self.mark).nth(next) {
            Some(word) => word,
            None => {
                self.is_wrong = true;
                ""
            }
        }
    }

    /// Reads all words that are left, with the separators between them, as one text.
    pub fn rest(&mut self) -> String {
        let mut rest = String::new(self.alloc);
        let mut written = Ok(());
        let mut is_first = true;
        for word in self.line.split(self.mark).skip(self.next) {
            if !is_first {
                written = written.and(rest.push(self.mark));
            }
            written = written.and(rest.push_str(word));
            is_first = false;
        }
        self.keep(written);
        self.next = usize::MAX;
        rest
    }

    /// Goes back by one word, so that the last one is read once more.
    pub fn back(&mut self) {
        self.next = self.next.saturating_sub(1);
    }

    /// Returns how many words are left.
    pub fn left(&self) -> usize {
        self.line.split(self.mark).count().saturating_sub(self.next)
    }
}
