//! A writer for a program's output.

use std::alloc::Global;
use std::io::{BufWriter, Write};

/// Returns a writer as the program's output takes it: a buffer of no capacity over the writer, so that each write goes
/// through at once.
pub fn unbuffered<W: Write + Drop>(alloc: Global, writer: W) -> BufWriter<W> {
    BufWriter::with_capacity(alloc, 0, writer).unwrap()
}
