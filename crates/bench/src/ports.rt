//! The cost of ports: a Want, the Begin of a batch, and a batch. Each command prepares the same whether it then does
//! its work once or not at all, so that the difference of two runs is the work's instructions.

use crate::boxes::{Both, converse};
use crate::gates::Gate;
use crate::packets::{Kind, OPENING, frame_of, set_pair};
use crate::stations::ACTIVE;
use addresses::{Port, Protocol};
use cases_words::Case;
use nat_types::Side;
use settings::{PortRange, PortRanges, Settings};

/// The number of pairs in the table when a Want comes, and in a batch.
const PAIRS: u32 = 20_000;

/// The time after which a gateway that heard nobody is Active, in centiseconds.
const BOTH_ACTIVE: u64 = 500;

/// Ranges by which all ports but one are the first gateway's.
const UNEVEN: PortRanges = PortRanges {
    zero: PortRange {
        lowest: Port(20_000),
        highest: Port(59_998),
    },
    one: PortRange {
        lowest: Port(59_999),
        highest: Port(59_999),
    },
    host_limit: None,
};

impl<G: Gate> Both<G> {
    /// Gives the second gateway a packet of a new flow.
    fn come_to_one(&mut self, number: u32, case: &mut Case) {
        let (side, protocol, size) = (Side::Inside, Protocol::Tcp, OPENING);
        let mut frame = frame_of(Kind {
            side,
            protocol,
            size,
        });
        set_pair(&mut frame, side, number);
        self.one.hand(side, &frame, size, case);
    }

    /// Moves both clocks on until both gateways are Active. Has the second gateway take the only port that it has, and
    /// then ask for more, in the datagrams that it sends last.
    fn want(&mut self, case: &mut Case) {
        self.load(case);
        for _ in 0..BOTH_ACTIVE / 10 {
            self.tick(10, case);
        }
        self.come_to_one(0, case);
        converse(&mut self.one, &mut self.zero, case);
        self.come_to_one(1, case);
        if !self.one.tells() {
            case.fault();
        }
    }

    /// Has the first gateway hear the second one, and send the beginning of its batch last.
    fn begin(&mut self, case: &mut Case) {
        self.zero.tick(ACTIVE + 1, case);
        self.one.take(&self.zero, case);
        self.one.tick(1, case);
        self.zero.take(&self.one, case);
        if !self.zero.tells() {
            case.fault();
        }
    }

    /// Does `count` times, once or not at all, what the word says, and returns how many entries the table of the gateway
    /// that took the last datagrams then has.
    ///
    /// - `want`: the first gateway takes a Want, and grants ports
    /// - `begin`: the second one takes the first datagram of a batch of no pairs
    /// - `batch`: the second one takes a whole batch
    fn work(&mut self, what: Work, count: u32, case: &mut Case) -> usize {
        match what {
            Work::Want => self.want(case),
            Work::Begin | Work::Batch => self.begin(case),
        }
        for _ in 0..count {
            match what {
                Work::Want => self.zero.take(&self.one, case),
                Work::Begin => self.one.take(&self.zero, case),
                Work::Batch => converse(&mut self.zero, &mut self.one, case),
            }
        }
        match what {
            Work::Want => self.zero.gateway.entry_count(),
            Work::Begin | Work::Batch => self.one.gateway.entry_count(),
        }
    }
}

/// What is measured.
#[derive(Clone, Copy, PartialEq, Eq)]
enum Work {
    /// A Want, and the grant of ports.
    Want,
    /// The first datagram of a batch of no pairs.
    Begin,
    /// A whole batch.
    Batch,
}

const WORKS: [(&str, Work); 3] = [
    ("want", Work::Want),
    ("begin", Work::Begin),
    ("batch", Work::Batch),
];

/// Does what the next word says so many times, and prints how many entries the table then has.
pub(crate) fn report_ports<G: Gate>(settings: &mut Settings, case: &mut Case) {
    let what = case.pick(&WORKS, Work::Want);
    let count = case.times();
    if what == Work::Want {
        settings.ports = UNEVEN;
    }
    let pairs = if what == Work::Begin { 0 } else { PAIRS };
    if let Some(mut both) = Both::<G>::ready(settings, Protocol::Udp, pairs, case) {
        let entries = both.work(what, count, case);
        both.end();
        case.put(entries);
        case.put(" entries\n");
    }
}
