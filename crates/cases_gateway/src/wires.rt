//! A wire in memory, and a clock that goes on by steps.
ghost use Rattle.std.specs.Prelude.{◌≤◌, IfSome};
ghost use Rattle.sockets.specs.Wires.{AnyWay};

use crate::replies::show_reply;
use cases_words::Case;
use control::Word;
use nat_types::Side;
use platform::CentisecondClock;
use sockets::{Losses, MAX_DATAGRAM, Place, SendFault, Wire, WireFault};
use std::alloc::Global;
use std::time::Duration;

/// A datagram, and the place from which it came or to which it went.
#[derive(Drop)]
pub(crate) struct Datagram {
    pub(crate) place: Place,
    pub(crate) bytes: Vec<u8>,
}

/// A place that fails in the rounds from `first` to `last`; the first of the next rounds has the number 1.
#[derive(Clone, Copy)]
pub(crate) struct Outage {
    pub(crate) place: Place,
    pub(crate) first: u32,
    pub(crate) last: u32,
}

impl Outage {
    fn is_of(&self, place: Place, round: u32) -> bool {
        self.place == place && self.first <= round && round <= self.last
    }
}

/// A place that takes at most so many bytes at once.
#[derive(Clone, Copy)]
pub(crate) struct Limit {
    pub(crate) place: Place,
    pub(crate) most: usize,
}

/// A wire in memory: the datagrams that are to come, and those that were sent.
#[derive(Drop)]
pub(crate) struct MemoryWire {
    pub(crate) alloc: Global,
    pub(crate) coming: Vec<Datagram>,
    /// The number of datagrams of `coming` that have come.
    pub(crate) come: usize,
    /// The places that fail in the next rounds.
    pub(crate) outages: Vec<Outage>,
    /// The number of times that no datagram was left, which is once a round.
    round: u32,
    /// The place that takes less than it is sent, if there is one; `losses` counts what it lost.
    pub(crate) limit: Option<Limit>,
    losses: Losses,
    /// The number of calls up to the one that fails, a send or a receive; 0 where none fails.
    left: u64,
    /// Whether the client of the last word waits for its answer. Until the answer no other client is heard.
    awaits: bool,
    pub(crate) sent: Vec<Datagram>,
}

impl MemoryWire {
    pub(crate) fn new(alloc: Global) -> MemoryWire {
        MemoryWire {
            alloc,
            coming: Vec::new(alloc),
            come: 0,
            outages: Vec::new(alloc),
            round: 0,
            limit: None,
            losses: Losses::default(),
            left: 0,
            awaits: false,
            sent: Vec::new(alloc),
        }
    }

    /// Begins the next rounds, in which nothing was sent yet. The call with the number `failing` fails; at 0 none does.
    pub(crate) fn begin(&mut self, failing: u64) {
        self.sent.clear();
        self.round = 0;
        self.left = failing;
    }

    /// Counts a call, and returns whether it is the one that fails.
    fn fails(&mut self) -> bool {
        let fails = self.left == 1;
        self.left = self.left.saturating_sub(1);
        fails
    }

    /// Returns the next datagram that is to come, if there is one.
    fn next(&mut self, buffer: &mut [u8; MAX_DATAGRAM]) -> Option<(Place, usize)>
        ensures within { IfSome result (λ datagram. datagram.1 ≤ 4096) }
    {
        let datagram = self.coming.get(self.come)?;
        let is_said = datagram.place == Place::Operator;
        if is_said && self.awaits {
            return None;
        }
        self.come = self.come.saturating_add(1);
        let count = copied(datagram.bytes.as_slice(), buffer);
        self.awaits = self.awaits || (is_said && Word::read(&buffer[..count]).is_some());
        Some((datagram.place, count))
    }

    /// Keeps what is sent, where its place takes as many bytes.
    fn keep(&mut self, to: Place, bytes: &[u8]) -> Result<(), SendFault> {
        if let Some(limit) = self.limit
            && limit.place == to
            && limit.most < bytes.len()
        {
            return Err(SendFault::TooLong);
        }
        let bytes = Vec::from_slice(self.alloc, bytes).map_err(|_| SendFault::Failed)?;
        let datagram = Datagram { place: to, bytes };
        self.sent.push(datagram).map_err(|_| SendFault::Failed)
    }

    /// Adds what another wire sent on the link to what is to come.
    pub(crate) fn bring_from(&mut self, other: &MemoryWire, case: &mut Case) {
        for datagram in &other.sent {
            if datagram.place == Place::Link {
                let place = datagram.place;
                let bytes = case.or_none(datagram.bytes.clone());
                case.keep(self.coming.push(Datagram { place, bytes }));
            }
        }
    }

    /// Prints what was sent, and how many datagrams are still to come, if any.
    pub(crate) fn show(&self, case: &mut Case) {
        for datagram in &self.sent {
            show_datagram(datagram, case);
        }
        let left = self.coming.len().saturating_sub(self.come);
        if 0 < left {
            case.say("  left ", left);
            case.end();
        }
    }

    /// Prints to which places the datagrams went, in order, and how many datagrams have come.
    pub(crate) fn count(&self, case: &mut Case) {
        case.put("  sent");
        for datagram in &self.sent {
            case.say(" ", name_of(datagram.place));
        }
        case.say(", came ", self.come);
        case.end();
    }
}

fn name_of(place: Place) -> &'static str {
    match place {
        Place::Link => "link",
        Place::Side(Side::Inside) => "inside",
        Place::Side(Side::Outside) => "outside",
        Place::Operator => "operator",
    }
}

fn show_datagram(datagram: &Datagram, case: &mut Case) {
    if datagram.place == Place::Operator {
        return show_reply(datagram.bytes.as_slice(), case);
    }
    case.say("  ", name_of(datagram.place));
    case.hex(" ", datagram.bytes.as_slice());
    case.end();
}

impl Wire for MemoryWire {
    ghost passes = { AnyWay };

    fn receive(
        &mut self,
        _limit: Duration,
        buffer: &mut [u8; MAX_DATAGRAM],
    ) -> Result<Option<(Place, usize)>, WireFault> {
        if self.fails() {
            return Err(WireFault);
        }
        let next = self.next(buffer);
        if next.is_none() {
            self.round = self.round.saturating_add(1);
        }
        Ok(next)
    }

    fn send(&mut self, to: Place, bytes: &[u8]) -> Result<(), WireFault> {
        if self.fails() {
            return Err(WireFault);
        }
        let sent = self.keep(to, bytes);
        self.losses.count(sent);
        sent.map_err(|_| WireFault)
    }

    fn answer(&mut self, bytes: &[u8]) {
        self.awaits = false;
        let _no_memory = self.keep(Place::Operator, bytes);
    }

    fn is_failing(&self, place: Place) -> bool {
        self.outages
            .iter()
            .any(|outage| outage.is_of(place, self.round))
    }

    fn losses(&self, place: Place) -> Losses {
        match self.limit {
            Some(limit) if limit.place == place => self.losses,
            _ => Losses::default(),
        }
    }
}

/// Copies bytes into the buffer, as far as it goes, and returns how many.
fn copied(bytes: &[u8], buffer: &mut [u8; MAX_DATAGRAM]) -> usize
    ensures { result ≤ 4096 }
{
    let count = bytes.len().min(MAX_DATAGRAM);
    buffer[..count].copy_from_slice(&bytes[..count]);
    count
}

/// A clock that goes on by `pace` centiseconds at each reading.
#[derive(Drop)]
pub(crate) struct StepClock {
    pub(crate) now: u64,
    pub(crate) pace: u64,
}

impl CentisecondClock for StepClock {
    fn now(&mut self) -> u64 {
        self.now = self.now.saturating_add(self.pace);
        self.now
    }
}
