//! The gateway that the lines of the vectors set up, and the events that happen to it.

use crate::benches::{Before, Bench, Fellow, Plan, Start, Way};
use crate::gates::Gate;
use anyhow::Result;
use cases_words::{Actor, Case};
use settings::Settings;
use std::{fs, mem};

/// The gateway that the lines so far have set up. A caller ends it by `end`.
pub(crate) struct Desk<G> {
    rt: HostRuntime,
    bench: Option<Bench<G>>,
}

impl<G: Gate> Desk<G> {
    pub(crate) fn new(rt: HostRuntime) -> Desk<G> {
        Desk { rt, bench: None }
    }

    pub(crate) fn end(self) {
        let Desk { rt: _, bench } = self;
        end_if_there(bench);
    }

    /// Sets up another gateway, by a line such as `many.toml 0 boot 1 founded`, with the settings of a file.
    fn start(&mut self, case: &mut Case) {
        match read_settings(&self.rt, case.word()) {
            Ok(settings) => {
                let bench = Bench::new(case.alloc, start_of(settings, case));
                end_if_there(mem::replace(&mut self.bench, Some(bench)));
            }
            Err(_) => case.fault(),
        }
    }
}

impl<G: Gate> Actor for Desk<G> {
    /// Does what a line says.
    ///
    /// - `gateway FILE I boot N`, `gateway FILE 0 boot N founded`: sets up the gateway for the vectors below
    /// - `tick MOMENT`, `frame SIDE HEX`, `datagram HEX`: adds an event that happens to the gateway before a vector
    ///   comes
    /// - `vector NAME SIDE HEX`, `vector NAME link HEX`: gives one gateway a frame or a datagram, cut, whole and
    ///   changed; with `anew BYTE` at its end, a new gateway is begun for each changed byte from this one on; with
    ///   `then HEX` or `after HEX` each time another frame comes behind it, or before it, at a gateway that has no
    ///   fragment
    fn act(&mut self, case: &mut Case) {
        match case.word() {
            "gateway" => self.start(case),
            "vector" => match self.bench.as_mut() {
                Some(bench) => try_vector(bench, case),
                None => case.fault(),
            },
            _ => match self.bench.as_mut() {
                Some(bench) => happen(bench, case),
                None => case.fault(),
            },
        }
    }
}

fn start_of(settings: Settings, case: &mut Case) -> Start {
    let id = case.gateway();
    if case.word() != "boot" {
        case.fault();
    }
    let boot = case.number();
    let found = case.left() == 1;
    Start {
        settings,
        id,
        boot,
        found,
        events: Vec::new(case.alloc),
    }
}

fn happen<G: Gate>(bench: &mut Bench<G>, case: &mut Case) {
    case.back();
    let event = match case.word() {
        "tick" => Before::Tick(case.number()),
        "frame" => {
            let side = case.side();
            Before::Bytes(Way::Wire(side), case.bytes())
        }
        "datagram" => Before::Bytes(Way::Link, case.bytes()),
        _ => return case.fault(),
    };
    bench.add(event, case);
}

fn try_vector<G: Gate>(bench: &mut Bench<G>, case: &mut Case) {
    case.echo("\n");
    let way = way_of(case);
    let mut vector = case.bytes();
    let (anew, fellow) = rest_of(case);
    bench.try_vector(Plan { way, anew }, &fellow, vector.as_mut_slice(), case);
}

/// Reads what stands behind a vector: the first byte from which on a new gateway is begun for each byte, or the frame that
/// comes with the vector. Without a word there is neither.
fn rest_of(case: &mut Case) -> (usize, Fellow) {
    if case.left() == 0 {
        return (usize::MAX, Fellow::Nothing);
    }
    match case.word() {
        "anew" => (case.count(), Fellow::Nothing),
        "then" => (usize::MAX, Fellow::Behind(case.bytes())),
        "after" => (usize::MAX, Fellow::Before(case.bytes())),
        _ => {
            case.fault();
            (usize::MAX, Fellow::Nothing)
        }
    }
}

/// Reads a side, or the link.
fn way_of(case: &mut Case) -> Way {
    if case.word() == "link" {
        return Way::Link;
    }
    case.back();
    Way::Wire(case.side())
}

fn end_if_there<G: Gate>(bench: Option<Bench<G>>) {
    if let Some(bench) = bench {
        bench.end();
    }
}

/// Reads the settings of a file.
fn read_settings(rt: &HostRuntime, name: &str) -> Result<Settings> {
    let text = fs::read_to_string(rt, name)?;
    Ok(settings_file::read(rt.alloc(), text.as_str())?)
}
