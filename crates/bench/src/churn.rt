//! Flows that come and go: endpoints open and close flows, the clock moves on by their rest, and both gateways agree on
//! the deletions, again and again. Also the longest step of all these, by the processor's time.

use crate::boxes::{Both, PATIENCE};
use crate::clocks::computed;
use crate::gates::Gate;
use crate::packets::{FIN, FLAGS, Kind, LONGEST, OPENING, PORTS, SYN, frame_of, set_pair};
use crate::stations::ACTIVE;
use addresses::Protocol;
use cases_words::Case;
use nat_types::{GatewayId, Side};
use settings::Settings;

/// The time for which a connection that both ends have closed rests, in centiseconds.
const REST: u64 = 24_000;

/// The time between two ticks of a gate that has nothing to do, in centiseconds.
const APART: u64 = 10;

/// The time that a tick may take, in nanoseconds, without that for the pairs that it releases.
const TICK: u128 = 10_000;

/// The time that a tick may take for each pair that it releases, in nanoseconds.
const EACH: u128 = 1000;

/// The time that a step that isn't a tick may take, in nanoseconds.
const STEP: u128 = 100_000;

/// The times that steps took. Where the watch is off, no clock is read.
#[derive(Clone, Copy)]
struct Watch {
    is_on: bool,
    steps: u64,
    longest: u128,
    /// The number of the step that took longest. A step that is slow by its own work has the same number in each run.
    longest_at: u64,
    /// The number of steps that took more than `STEP`.
    slow: u64,
    ticks: u64,
    /// The number of ticks that took more than they may.
    late: u64,
    /// The most time by which a tick took more than it may, in nanoseconds, or the time of the worst tick where none
    /// did.
    beyond: u128,
    worst: u128,
    worst_released: u32,
}

/// A watch that is off, before the first step.
const OFF: Watch = Watch {
    is_on: false,
    steps: 0,
    longest: 0,
    longest_at: 0,
    slow: 0,
    ticks: 0,
    late: 0,
    beyond: 0,
    worst: 0,
    worst_released: 0,
};

impl Watch {
    /// Returns the processor's time of this thread, in nanoseconds, or 0 where the watch is off.
    fn now(&self, rt: &HostRuntime, case: &mut Case) -> u128 {
        if self.is_on { computed(rt, case) } else { 0 }
    }

    /// Records that a step that isn't a tick has ended.
    fn stepped(&mut self, rt: &HostRuntime, start: u128, case: &mut Case) {
        let spent = self.now(rt, case).saturating_sub(start);
        self.steps = self.steps.saturating_add(1);
        if spent > self.longest {
            self.longest = spent;
            self.longest_at = self.steps;
        }
        if spent > STEP {
            self.slow = self.slow.saturating_add(1);
        }
    }

    /// Records that a tick took `spent` nanoseconds and released `released` pairs.
    fn ticked(&mut self, spent: u128, released: u32) {
        let may = TICK.saturating_add(EACH.saturating_mul(u128::from(released)));
        self.ticks = self.ticks.saturating_add(1);
        if spent > may {
            self.late = self.late.saturating_add(1);
        }
        let beyond = spent.saturating_sub(may);
        if beyond > self.beyond || (self.beyond == 0 && spent > self.worst) {
            self.beyond = beyond;
            self.worst = spent;
            self.worst_released = released;
        }
    }
}

/// Both gateways, and the times that their steps took.
struct Churn<G> {
    both: Both<G>,
    watch: Watch,
}

/// The frames of a connection's packets that come to a gateway: that of the packet that opens it, and those of the
/// packets that close it.
#[derive(Drop)]
struct Frames {
    syn: [u8; LONGEST],
    fin: [u8; LONGEST],
    other_fin: [u8; LONGEST],
}

/// Returns the frame of a segment with these flags, which belongs to no pair yet.
fn segment(side: Side, flags: u8) -> [u8; LONGEST] {
    let (protocol, size) = (Protocol::Tcp, OPENING);
    let mut frame = frame_of(Kind {
        side,
        protocol,
        size,
    });
    frame[FLAGS] = flags;
    frame
}

impl Frames {
    /// Makes the frames those of the pair with this number.
    fn set(&mut self, number: u32) {
        set_pair(&mut self.syn, Side::Inside, number);
        set_pair(&mut self.fin, Side::Inside, number);
        set_pair(&mut self.other_fin, Side::Outside, number);
    }
}

impl<G: Gate> Churn<G> {
    /// Gives the first gateway a packet.
    fn hand(&mut self, rt: &HostRuntime, side: Side, frame: &[u8; LONGEST], case: &mut Case) {
        let start = self.watch.now(rt, case);
        self.both.zero.hand(side, frame, OPENING, case);
        self.watch.stepped(rt, start, case);
    }

    /// Gives a gateway the datagrams that the other one sent last.
    fn bring(&mut self, rt: &HostRuntime, to: GatewayId, case: &mut Case) {
        let start = self.watch.now(rt, case);
        match to {
            GatewayId::Zero => self.both.zero.take(&self.both.one, case),
            GatewayId::One => self.both.one.take(&self.both.zero, case),
        }
        self.watch.stepped(rt, start, case);
    }

    /// Carries the datagrams that the first gateway sent last to the second, and the answers back, until there are
    /// none.
    fn converse(&mut self, rt: &HostRuntime, case: &mut Case) {
        for _ in 0..PATIENCE {
            if !self.both.zero.tells() {
                break;
            }
            self.bring(rt, GatewayId::One, case);
            if !self.both.one.tells() {
                break;
            }
            self.bring(rt, GatewayId::Zero, case);
        }
    }

    /// Moves both clocks on by `by` centiseconds, and carries the datagrams.
    fn tick(&mut self, rt: &HostRuntime, by: u64, case: &mut Case) {
        self.both.moment = self.both.moment.saturating_add(by);
        let moment = self.both.moment;
        let start = self.watch.now(rt, case);
        self.both.zero.tick(moment.saturating_add(ACTIVE), case);
        let spent = self.watch.now(rt, case).saturating_sub(start);
        self.watch.ticked(spent, self.both.zero.released());
        self.converse(rt, case);
        let start = self.watch.now(rt, case);
        self.both.one.tick(moment, case);
        let spent = self.watch.now(rt, case).saturating_sub(start);
        self.watch.ticked(spent, self.both.one.released());
        if self.both.one.tells() {
            self.bring(rt, GatewayId::Zero, case);
            self.converse(rt, case);
        }
    }

    /// Opens a connection: its pair is proposed and accepted, and its packet is sent on.
    fn open(&mut self, rt: &HostRuntime, frames: &Frames, case: &mut Case) {
        self.hand(rt, Side::Inside, &frames.syn, case);
        self.bring(rt, GatewayId::One, case);
        self.bring(rt, GatewayId::Zero, case);
        if !self.both.zero.sends() {
            case.fault();
        }
        self.bring(rt, GatewayId::One, case);
    }

    /// Closes a connection at both ends.
    fn close(&mut self, rt: &HostRuntime, frames: &Frames, case: &mut Case) {
        self.hand(rt, Side::Inside, &frames.fin, case);
        self.hand(rt, Side::Outside, &frames.other_fin, case);
        if !self.both.zero.sends() {
            case.fault();
        }
    }

    /// Lets the closed pairs rest until both gateways have released them.
    fn rest(&mut self, rt: &HostRuntime, case: &mut Case) {
        self.tick(rt, REST, case);
        for _ in 0..PATIENCE {
            let held = self.both.zero.gateway.entry_count();
            if held == 0 && self.both.one.gateway.entry_count() == 0 {
                return;
            }
            self.tick(rt, APART, case);
        }
        case.fault();
    }

    /// Runs a round, which opens, closes and releases `count` connections.
    fn round(&mut self, rt: &HostRuntime, frames: &mut Frames, count: u32, case: &mut Case) {
        for number in 0..count {
            frames.set(number);
            self.open(rt, frames, case);
        }
        for number in 0..count {
            frames.set(number);
            self.close(rt, frames, case);
        }
        self.rest(rt, case);
    }

    /// Runs `rounds` rounds of `endpoints` connections each, and returns the processor's time in nanoseconds.
    fn rounds(&mut self, rt: &HostRuntime, rounds: u32, endpoints: u32, case: &mut Case) -> u128 {
        let mut frames = Frames {
            syn: segment(Side::Inside, SYN),
            fin: segment(Side::Inside, FIN),
            other_fin: segment(Side::Outside, FIN),
        };
        let start = computed(rt, case);
        for _ in 0..rounds {
            self.round(rt, &mut frames, endpoints, case);
        }
        computed(rt, case).saturating_sub(start)
    }
}

/// Prints the times that the steps took.
fn tell_watch(watch: &Watch, case: &mut Case) {
    case.say("longest step: ", watch.longest);
    case.say(" ns, number ", watch.longest_at);
    case.say("; ", watch.slow);
    case.say(" of ", watch.steps);
    case.say(" above ", STEP);
    case.say(" ns\nworst tick: ", watch.worst);
    case.say(" ns, let go ", watch.worst_released);
    case.say(", ", watch.beyond);
    case.say(" ns beyond; ", watch.late);
    case.say(" of ", watch.ticks);
    case.put(" late\n");
}

/// Prints the time that `flows` flows took.
fn tell_flows(spent: u128, flows: u128, case: &mut Case) {
    let each = spent / flows.max(1);
    case.put(flows);
    case.say(" flows: ", each);
    case.say(" ns each, ", 1_000_000_000 / each.max(1));
    case.put(" a second\n");
}

/// Prints the cost of flows that come and go, in so many rounds, or the longest of their steps where the watch is on.
pub(crate) fn report_churn<G: Gate>(
    rt: &HostRuntime,
    settings: &Settings,
    is_on: bool,
    case: &mut Case,
) {
    let (rounds, endpoints) = (case.times(), case.times().min(PORTS));
    let Some(both) = Both::<G>::synced(settings, Protocol::Tcp, 0, case) else {
        return;
    };
    let watch = Watch { is_on, ..OFF };
    let mut churn = Churn { both, watch };
    let spent = churn.rounds(rt, rounds, endpoints, case);
    let Churn { both, watch } = churn;
    both.end();
    if is_on {
        tell_watch(&watch, case);
    } else {
        let flows = u128::from(rounds).saturating_mul(u128::from(endpoints));
        tell_flows(spent, flows, case);
    }
}
