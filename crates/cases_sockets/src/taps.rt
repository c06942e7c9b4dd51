//! A tapped wire, and the cases of captures and of a service manager.

use crate::files::{capture_to_file, fill_stream, look_at_file, write_file};
use crate::managers::{read_manager, tell_manager};
use crate::wires::{Coming, MemoryWire};
use crate::words::{bytes_in, name_of, place_in, shown, writer_state_in};
use crate::writers::{Printer, SetClock, WriterState};
use captures::{LiveCapture, Tapped};
use cases_words::{Actor, Case};
use nat_types::GatewayId;
use sockets::{MAX_DATAGRAM, Wire};
use std::cell::{Cell, RefCell};
use std::time::Duration;

/// What the lines set: the state of the capture's writer, the time of the clock, and what the wire answers.
#[derive(Drop)]
pub(crate) struct Controls {
    state: Cell<WriterState>,
    time: Cell<u64>,
    coming: RefCell<Coming>,
}

impl Controls {
    /// Returns the controls as they are before the first line.
    pub(crate) fn new() -> Controls {
        Controls {
            state: Cell::new(WriterState::Open),
            time: Cell::new(0),
            coming: RefCell::new(Coming::Nothing),
        }
    }
}

type TappedMemory<'a> = Tapped<MemoryWire<'a>, SetClock<'a>, Printer<'a>>;

/// The tapped wire that was begun last, if one was. What the wire writes and sends is printed at once.
#[derive(Drop)]
pub(crate) struct Taps<'a> {
    rt: HostRuntime,
    controls: &'a Controls,
    wire: Option<TappedMemory<'a>>,
}

impl<'a> Taps<'a> {
    /// Returns the cases without a tapped wire.
    pub(crate) fn new(rt: HostRuntime, controls: &'a Controls) -> Taps<'a> {
        Taps {
            rt,
            controls,
            wire: None,
        }
    }

    /// Returns the tapped wire of a gateway, or None where the head of its capture can't be written.
    fn begin(&mut self, case: &mut Case) {
        self.wire = begun(self.rt, self.controls, case.gateway());
        if self.wire.is_none() {
            case.tell("none");
        }
    }
}

impl Actor for Taps<'_> {
    /// Does what a line says:
    ///
    /// - `begin ID`: begins a new capture
    /// - `page room`, `page none`, `page fails`, `page takes COUNT`: its writer takes all from now on; a write would
    ///   wait; it fails; it takes at most COUNT bytes
    /// - `clock TIME`: the clock is at this time
    /// - all else is done by `act_on` and `act_on_files`
    fn act(&mut self, case: &mut Case) {
        case.title("> ", "\n");
        case.flush(&self.rt);
        match case.word() {
            "begin" => self.begin(case),
            "page" => self.controls.state.set(writer_state_in(case)),
            "clock" => self.controls.time.set(case.number()),
            "come" | "send" | "refuse" | "end" => match self.wire.as_mut() {
                Some(wire) => act_on(self.controls, wire, case),
                None => case.fault(),
            },
            _ => act_on_files(&self.rt, case),
        }
    }
}

fn begun<'a>(rt: HostRuntime, controls: &'a Controls, id: GatewayId) -> Option<TappedMemory<'a>> {
    let printer = Printer::new(rt, &controls.state);
    match LiveCapture::start(rt.alloc(), printer) {
        Ok(capture) => {
            let wire = MemoryWire::new(rt, &controls.coming);
            let clock = SetClock::new(&controls.time);
            Some(Tapped::new(wire, id, clock, capture))
        }
        Err(_) => None,
    }
}

/// Does what a line says of files, streams and managers:
///
/// - `manager TEXT`, `tell ..`: a service manager's descriptor is read; one is told something
/// - `write PATH BYTES`: writes a file of these bytes
/// - `look PATH`: opens a file for a capture, which isn't begun, and prints the file
/// - `file PATH`: captures a packet to a file, and prints the file
/// - `stream PACKETS`: captures PACKETS packets to a stream that nobody reads, and then reads the stream
fn act_on_files(rt: &HostRuntime, case: &mut Case) {
    case.back();
    match case.word() {
        "manager" => read_manager(case),
        "tell" => tell_manager(rt, case),
        "write" => write_file(rt, case),
        "look" => look_at_file(rt, case),
        "file" => capture_to_file(rt, case),
        "stream" => fill_stream(rt, case),
        _ => case.fault(),
    }
}

/// Does what a line says of the wire:
///
/// - `come PLACE BYTES`, `come nothing`, `come fault`: the wire is asked for a datagram, and answers this
/// - `send PLACE BYTES`, `refuse PLACE BYTES`: the wire is to send the bytes; it refuses them
/// - `end`: the capture is flushed, and the number of packets that it lacks is printed
fn act_on(controls: &Controls, wire: &mut TappedMemory<'_>, case: &mut Case) {
    case.back();
    match case.word() {
        "come" => {
            let coming = coming_in(case);
            set_coming(controls, coming, case);
            receive(wire, case);
        }
        "send" => {
            set_coming(controls, Coming::Nothing, case);
            send(wire, case);
        }
        "refuse" => {
            set_coming(controls, Coming::Fault, case);
            send(wire, case);
        }
        _ => {
            wire.flush();
            case.say("  left out ", wire.left_out());
            case.end();
        }
    }
}

/// Sets what the wire answers next.
fn set_coming(controls: &Controls, coming: Coming, case: &mut Case) {
    match controls.coming.try_borrow_mut() {
        Ok(mut place) => *place = coming,
        Err(_) => case.fault(),
    }
}

fn coming_in(case: &mut Case) -> Coming {
    match case.word() {
        "nothing" => Coming::Nothing,
        "fault" => Coming::Fault,
        _ => {
            case.back();
            Coming::Datagram(place_in(case), bytes_in(case))
        }
    }
}

/// Asks the wire for a datagram, and prints what it answers.
fn receive(wire: &mut TappedMemory<'_>, case: &mut Case) {
    let mut buffer = [0; MAX_DATAGRAM];
    match wire.receive(Duration::ZERO, &mut buffer) {
        Ok(Some((place, count))) => {
            case.say("  came ", name_of(place));
            tell_bytes(case, buffer.get(..count).unwrap_or(&[]));
        }
        Ok(None) => case.tell("nothing"),
        Err(_) => case.tell("fault"),
    }
}

fn tell_bytes(case: &mut Case, bytes: &[u8]) {
    match shown(case.alloc, bytes) {
        Ok(text) => case.say(" ", text.as_str()),
        Err(_) => case.fault(),
    }
    case.end();
}

/// Sends by the wire, and prints where sending fails.
fn send(wire: &mut TappedMemory<'_>, case: &mut Case) {
    let place = place_in(case);
    let bytes = bytes_in(case);
    if wire.send(place, bytes.as_slice()).is_err() {
        case.tell("fault");
    }
}
