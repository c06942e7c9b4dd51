//! The lines of a fault on the standard error.

use crate::{Fault, Reason};
use std::alloc::{AllocError, Global};
use std::io::Write;

/// Writes the line `natpair: FAULT`, and a second one with the [`Reason`] where there is one, by one write, and returns
/// the exit status of the program. An error of that write is ignored.
pub fn report<E: Write>(alloc: Global, fault: &Fault, errors: &mut E) -> u8 {
    let reason = Reason(fault);
    write_lines(format!(in alloc; "natpair: {fault}\n{reason}"), errors);
    fault.status()
}

/// Writes as [`report`] does, with `(PATH)` behind the fault where its text hasn't the path, and returns the exit
/// status of the program. An error of that write is ignored.
pub fn report_at<E: Write>(alloc: Global, fault: &Fault, path: &str, errors: &mut E) -> u8 {
    match fault {
        Fault::File { .. } => report(alloc, fault, errors),
        _ => {
            let reason = Reason(fault);
            write_lines(
                format!(in alloc; "natpair: {fault} ({path})\n{reason}"),
                errors,
            );
            fault.status()
        }
    }
}

/// Writes lines, or that of `NoMemory` where there was no memory for the lines.
fn write_lines<E: Write>(lines: Result<String, AllocError>, errors: &mut E) {
    let _unwritten = match lines {
        Ok(lines) => errors.write_all(lines.as_bytes()),
        Err(_) => errors.write_all(b"natpair: memory 1 NoMemory\n"),
    };
}
