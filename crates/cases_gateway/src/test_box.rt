//! A box whose wire is in memory.

use crate::any_gateway::{AnyGateway, Orders};
use crate::lines::Lines;
use crate::managers::CountingManager;
use crate::wires::{Datagram, Limit, MemoryWire, Outage, StepClock};
use cases_words::Case;
use gateway::Secrets;
use nat_types::{GatewayId, NoMemory, Side};
use rounds::{Identity, Options};
use settings::Settings;
use sockets::Place;
use std::alloc::Global;
use std::cell::RefCell;
use std::io::{self, ErrorKind, Write};

/// The digest of the settings that a box in memory reports.
const DIGEST: u64 = 7;

/// A gateway with its wire, its clock and its manager. It is dropped by `end` alone.
pub(crate) struct TestBox<G> {
    gateway: G,
    identity: Identity,
    pub(crate) wire: MemoryWire,
    clock: StepClock,
    manager: CountingManager,
}

/// The way in which a box is run.
#[derive(Clone, Copy)]
pub(crate) struct Run {
    /// The most rounds; None for any number.
    pub(crate) rounds: Option<u32>,
    /// The time from one round to the next, in centiseconds.
    pub(crate) pace: u64,
    pub(crate) track: bool,
    pub(crate) orders: Orders,
}

impl Run {
    /// So many rounds, after which the box can go on.
    pub(crate) fn endless(rounds: u32, pace: u64) -> Run {
        Run {
            rounds: Some(rounds),
            pace,
            track: true,
            orders: Orders {
                told: None,
                stops: false,
                mapped: false,
            },
        }
    }
}

impl<G: AnyGateway> TestBox<G> {
    /// Returns a box with a gateway of that number in that boot, at time 0, or None where there can't be such a gateway
    /// or there is no memory.
    pub(crate) fn new(
        alloc: Global,
        settings: &Settings,
        id: GatewayId,
        boot: u64,
        found: bool,
    ) -> Option<TestBox<G>> {
        let gateway = G::begun(alloc, settings, Secrets::fixed(), id, boot, found)?;
        Some(TestBox {
            gateway,
            identity: Identity {
                id,
                boot,
                values: settings.values(),
                digest: DIGEST,
            },
            wire: MemoryWire::new(alloc),
            clock: StepClock { now: 0, pace: 0 },
            manager: CountingManager::new(),
        })
    }

    /// Drops the gateway, and frees its memory.
    pub(crate) fn end(self) {
        let TestBox {
            gateway,
            identity: _,
            wire,
            clock,
            manager,
        } = self;
        gateway.end();
        drop(wire);
        drop(clock);
        drop(manager);
    }

    /// Prepares the next rounds.
    ///
    /// - `come PLACE HEX`, `come PLACE HEX N`: a datagram comes, or comes N times
    /// - `fails PLACE N M`: a place fails in the rounds N to M of the next line of rounds
    /// - `takes PLACE N`: a place takes at most N bytes at once from now on
    pub(crate) fn prepare(&mut self, case: &mut Case) {
        case.back();
        match case.word() {
            "come" => self.come(case),
            "fails" => self.fail(case),
            "takes" => self.limit(case),
            _ => case.fault(),
        }
    }

    fn come(&mut self, case: &mut Case) {
        let place = place_in(case);
        let bytes = case.bytes();
        let count = if case.left() == 0 { 1 } else { case.times() };
        for _ in 0..count {
            self.bring(place, bytes.as_slice(), case);
        }
    }

    fn fail(&mut self, case: &mut Case) {
        let outage = Outage {
            place: place_in(case),
            first: case.times(),
            last: case.times(),
        };
        case.keep(self.wire.outages.push(outage));
    }

    fn limit(&mut self, case: &mut Case) {
        self.wire.limit = Some(Limit {
            place: place_in(case),
            most: case.count(),
        });
    }

    /// Adds a datagram to those that are to come.
    pub(crate) fn bring(&mut self, place: Place, bytes: &[u8], case: &mut Case) {
        let copied = Vec::from_slice(case.alloc, bytes);
        let bytes = case.or_none(copied);
        case.keep(self.wire.coming.push(Datagram { place, bytes }));
    }

    /// Runs the box as the next words say, and prints what comes of it.
    ///
    /// - `rounds N M`, `rounds N M untracked`, `rounds N M mapped`: rounds without an end (`endless_in`)
    /// - `serves ..`: the box runs to its end (`run_in`)
    pub(crate) fn run(&mut self, case: &mut Case) {
        if case.is_first("rounds", "serves") {
            self.run_on(case);
        } else {
            self.run_to_end(case);
        }
    }

    fn run_on(&mut self, case: &mut Case) {
        let run = endless_in(case);
        let lines = RefCell::new(Vec::new(case.alloc));
        case.keep(self.go_on(run, &lines));
        self.wire.show(case);
        case.text(lines.into_inner().as_slice());
    }

    /// Runs the rounds, and keeps the lines of the log.
    pub(crate) fn go_on(&mut self, run: Run, lines: &RefCell<Vec<u8>>) -> Result<(), NoMemory> {
        let gone = self.run_with(run, 0, open(lines));
        self.wire.outages.clear();
        gone
    }

    fn run_to_end(&mut self, case: &mut Case) {
        let run = run_in(case);
        let lines = RefCell::new(Vec::new(case.alloc));
        let mut output = Vec::new(case.alloc);
        case.keep(self.serve(run, 0, open(&lines), &mut output));
        self.wire.show(case);
        case.text(lines.into_inner().as_slice());
        case.text(output.as_slice());
        self.manager.show(case);
    }

    /// Runs the box to its end, and writes `end`. The call of its wire with the number `failing` fails; at 0 none does.
    pub(crate) fn serve<O: Write>(
        &mut self,
        run: Run,
        failing: u64,
        lines: Lines<'_>,
        output: &mut O,
    ) -> io::Result<()> {
        self.manager.begin();
        if self.run_with(run, failing, lines).is_err() {
            return Err(io::Error::from(ErrorKind::OutOfMemory));
        }
        output.write_all(b"end\n")?;
        output.flush()
    }

    fn run_with(&mut self, run: Run, failing: u64, lines: Lines<'_>) -> Result<(), NoMemory> {
        let options = Options {
            identity: self.identity,
            rounds: run.rounds,
            track: run.track,
        };
        self.clock.pace = run.pace;
        self.wire.begin(failing);
        self.gateway.run(
            self.wire.alloc,
            &mut self.wire,
            &mut self.clock,
            &mut self.manager,
            lines,
            run.orders,
            &options,
        )
    }
}

/// Returns a log that keeps its lines.
pub(crate) fn open(text: &RefCell<Vec<u8>>) -> Lines<'_> {
    Lines {
        text,
        is_closed: false,
    }
}

/// Reads how many rounds, how many centiseconds apart, and what is so in them: `untracked`, the carriers of the box's interfaces
/// don't count; `mapped`, mappings are logged.
fn endless_in(case: &mut Case) -> Run {
    let (rounds, pace) = (case.times(), case.number());
    let mut run = Run::endless(rounds, pace);
    if case.left() != 0 {
        let untracked = case.is_first("untracked", "mapped");
        run.track = !untracked;
        run.orders.mapped = !untracked;
    }
    run
}

/// Reads how many rounds, how many centiseconds apart, and after how many the end signal comes, as in `4 360` or
/// `- 360 told 3`.
fn run_in(case: &mut Case) -> Run {
    let rounds = rounds_in(case);
    let pace = case.number();
    let orders = Orders {
        told: told_in(case),
        stops: true,
        mapped: false,
    };
    Run {
        rounds,
        pace,
        track: true,
        orders,
    }
}

/// Reads a number of rounds, or `-` for any.
fn rounds_in(case: &mut Case) -> Option<u32> {
    if case.word() == "-" {
        return None;
    }
    case.back();
    Some(case.times())
}

fn told_in(case: &mut Case) -> Option<u32> {
    if case.left() == 0 {
        return None;
    }
    if case.word() != "told" {
        case.fault();
    }
    Some(case.times())
}

/// The names of the places.
const PLACES: [(&str, Place); 4] = [
    ("link", Place::Link),
    ("inside", Place::Side(Side::Inside)),
    ("outside", Place::Side(Side::Outside)),
    ("operator", Place::Operator),
];

/// Reads the name of a place.
fn place_in(case: &mut Case) -> Place {
    case.pick(&PLACES, Place::Link)
}
