//! The run of a box, from its start to its end.

use crate::begin::begin;
use crate::end_signals::{EndSignals, StopDescriptor};
use crate::parts::{BoxLog, Parts};
use crate::{ServiceManager, Start};
use captures::{CaptureFile, LiveCapture, Tapped};
use faults::Fault;
use gateway::Gateway;
use journal::Entry;
use nat_types::NoMemory;
use platform::Stopwatch;
use rounds::{Identity, Manager, Options, serve};
use sockets::Wire;
use std::alloc::Global;
use std::fs::{File, Files};
use std::io::Write;
use std::net::Net;
use std::random::RandomSource;
use std::rt::{Clock, Env};

/// Runs a box until its operator ends it, its standard input ends (`until_eof`), its descriptor to stop on can be read, or
/// all its rounds are done. Prints its boot
/// number first, and `end` last.
///
/// # Errors
///
/// The first fault of: the settings, the ways, their descriptors, the service manager, the descriptor to stop on,
/// loopback ports that are left out, clashing ports, the path of the control socket, the boot file and its lock, the
/// control socket, the other sockets, the filter of the log, the file of the capture, the random keys, the next boot
/// number, memory for a gateway, printing the boot number, the head of the capture, memory for a fragment, printing the end.
pub fn run<
    R: Files<File = File> + Net + Clock + RandomSource + Eprint + Env + Input + AllocGlobal,
    O: Write,
>(rt: &R, start: &Start<'_>, output: &mut O) -> Result<(), Fault> {
    let Parts {
        settings,
        manager,
        stop,
        mut disk,
        mut wire,
        log,
        capture,
    } = Parts::open(rt, start)?;
    let boot_file = settings.gateway(start.id).boot_file.as_str();
    let (identity, mut gateway) = begin(rt, &mut disk, &settings, start.id, start.found).map_err(
        |fault| fault.of_boot_file(rt, boot_file),
    )?;
    writeln!(output, "boot {}", identity.boot)?;
    output.flush()?;
    log.write(0, Entry::Boot(identity.boot));
    let mut server = Server {
        rt,
        start,
        identity,
        manager,
        stop,
        log,
    };
    match capture {
        None => server.serve_on(&mut gateway, &mut wire)?,
        Some((path, file)) => {
            let capture = start_capture(rt.alloc(), path, file)?;
            let clock = Stopwatch::from_first_reading(rt);
            let mut tapped = Tapped::new(wire, start.id, clock, capture);
            server.serve_on(&mut gateway, &mut tapped)?;
            tapped.flush();
            server.log.write_left_out(tapped.left_out());
        }
    }
    writeln!(output, "end")?;
    output.flush()?;
    Ok(())
}

/// All that serving a gateway needs beside the gateway and its wire.
#[derive(Drop)]
struct Server<'a, R> {
    rt: &'a R,
    start: &'a Start<'a>,
    identity: Identity,
    manager: Option<ServiceManager>,
    stop: Option<StopDescriptor>,
    log: BoxLog<'a, R>,
}

impl<R: Clock + Eprint + Input + AllocGlobal> Server<'_, R> {
    /// Runs the rounds of the gateway on a wire, until the box ends.
    fn serve_on<W: Wire>(&mut self, gateway: &mut Gateway, wire: &mut W) -> Result<(), NoMemory> {
        let (rt, start) = (self.rt, self.start);
        let options = Options {
            identity: self.identity,
            rounds: start.rounds,
            track: start.track,
        };
        let mut end_signals = EndSignals {
            rt,
            until_eof: start.until_eof,
            stop: self.stop,
        };
        self.manager.ready(self.identity.boot);
        let mut clock = Stopwatch::start(rt);
        serve(
            rt.alloc(),
            gateway,
            wire,
            &mut clock,
            &mut end_signals,
            &mut self.manager,
            &mut self.log,
            &options,
        )
    }
}

/// Starts a capture in the file at a path, whose old content is removed.
fn start_capture(
    alloc: Global,
    path: &str,
    mut file: CaptureFile<File>,
) -> Result<LiveCapture<CaptureFile<File>>, Fault> {
    let failed = |error| Fault::capture(alloc, path, &error);
    file.clear().map_err(failed)?;
    LiveCapture::start(alloc, file).map_err(failed)
}
