//! A pair of NAT gateways: `natpair --help` lists the commands.
#![tactic(auto)]

use commands::act;
use faults::{Fault, report};
use std::env;
use std::io::{self, BufWriter, ErrorKind, IsTerminal, Write};
use std::process::ExitCode;
use std::rt::Env;

/// Carries out the command of the program's words, and returns the exit status.
fn start<E: Write + IsTerminal>(rt: &HostRuntime, errors: &mut E) -> io::Result<u8> {
    let words = env::args(rt)?.collect::<Vec<String>>(rt.alloc())?;
    let mut output = BufWriter::new(rt.alloc(), io::writer(rt))?;
    let is_terminal = errors.is_terminal();
    Ok(act(rt, words.as_slice(), &mut output, errors, is_terminal))
}

fn main(rt: HostRuntime) -> ExitCode {
    let mut errors = rt.stderr();
    let status = start(&rt, &mut errors).unwrap_or_else(|error| {
        let fault = match error.kind() {
            ErrorKind::OutOfMemory => Fault::NoMemory,
            _ => Fault::Words,
        };
        report(rt.alloc(), &fault, &mut errors)
    });
    ExitCode::from(status)
}
