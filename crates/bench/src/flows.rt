//! Packets of pairs that are there, new flows, and the ticks and datagrams of gateways with nothing else to do.

use crate::boxes::Both;
use crate::clocks::{now, since, tell_held, tell_sent};
use crate::gates::Gate;
use crate::packets::{Kind, LONGEST, OPENING, PORTS, STRIDE, frame_of, set_pair};
use crate::stations::{ACTIVE, Station};
use addresses::Protocol;
use cases_words::Case;
use gateway::Outcome;
use nat_types::Side;
use settings::Settings;

/// The time without a datagram after which one is due, in centiseconds.
const INTERVAL: u64 = 10;

/// Reads a kind of packets from three words: its side, its protocol and its size.
fn kind_in(case: &mut Case) -> Kind {
    Kind {
        side: case.side(),
        protocol: case.protocol(),
        size: case.within(40, 1500) as u16,
    }
}

/// Prints the cost of each of `count` packets, which belong to `pairs` pairs in turn, and how many were sent on.
fn measure<G: Gate>(
    rt: &HostRuntime,
    station: &mut Station<G>,
    kind: Kind,
    count: u32,
    pairs: u32,
    case: &mut Case,
) {
    let mut frame = frame_of(kind);
    let mut sent = 0u32;
    let start = now(rt, case);
    for number in 0..count {
        let pair = number.wrapping_mul(STRIDE) % pairs.clamp(1, PORTS);
        set_pair(&mut frame, kind.side, pair);
        if station.hand(kind.side, &frame, kind.size, case) == Outcome::Sent {
            sent = sent.saturating_add(1);
        }
    }
    let spent = since(rt, start, case);
    tell_sent(spent, count, sent, case);
}

/// Prints the cost of packets of one kind.
pub(crate) fn report_kind<G: Gate>(rt: &HostRuntime, settings: &Settings, case: &mut Case) {
    let kind = kind_in(case);
    let (count, pairs) = (case.times(), case.times());
    if let Some(mut station) = Station::<G>::ready(settings, kind.protocol, pairs, case) {
        measure(rt, &mut station, kind, count, pairs, case);
        station.end();
    }
}

/// Prints the cost of packets of one kind at a gateway whose pairs another one has loaded.
pub(crate) fn report_synced<G: Gate>(rt: &HostRuntime, settings: &Settings, case: &mut Case) {
    let kind = kind_in(case);
    let (count, pairs) = (case.times(), case.times());
    if let Some(mut both) = Both::<G>::synced(settings, kind.protocol, pairs, case) {
        measure(rt, &mut both.zero, kind, count, pairs, case);
        both.end();
    }
}

impl<G: Gate> Both<G> {
    /// Gives the first gateway a packet of a new flow, whose pair is proposed and accepted, and returns whether the
    /// packet was sent on.
    fn opens(&mut self, frame: &[u8; LONGEST], case: &mut Case) -> bool {
        let Both { zero, one, .. } = self;
        zero.hand(Side::Inside, frame, OPENING, case);
        one.take(zero, case);
        zero.take(one, case);
        let sent = zero.sends();
        one.take(zero, case);
        sent
    }

    /// Gives the first gateway, which needs no consent, a packet of a new flow, and returns whether the packet was sent
    /// on.
    fn begins(&mut self, frame: &[u8; LONGEST], case: &mut Case) -> bool {
        self.zero.hand(Side::Inside, frame, OPENING, case);
        self.zero.sends()
    }

    /// Opens `count` new flows, of UDP as long as there are ports of it, then of TCP, and returns how many packets were
    /// sent on. `is_free` says that the first gateway needs no consent.
    fn open_all(&mut self, is_free: bool, count: u32, case: &mut Case) -> u32 {
        let mut sent = 0u32;
        for number in 0..count {
            let (side, size) = (Side::Inside, OPENING);
            let protocol = if number < PORTS {
                Protocol::Udp
            } else {
                Protocol::Tcp
            };
            let mut frame = frame_of(Kind {
                side,
                protocol,
                size,
            });
            set_pair(&mut frame, side, number);
            let is_sent = if is_free {
                self.begins(&frame, case)
            } else {
                self.opens(&frame, case)
            };
            if is_sent {
                sent = sent.saturating_add(1);
            }
        }
        sent
    }
}

/// Prints the cost of a new flow at a pair of gateways, over as many flows as the next word says.
pub(crate) fn report_new<G: Gate>(rt: &HostRuntime, settings: &Settings, case: &mut Case) {
    let count = case.times();
    if let Some(mut both) = Both::<G>::synced(settings, Protocol::Udp, 0, case) {
        let start = now(rt, case);
        let sent = both.open_all(false, count, case);
        both.end();
        let spent = since(rt, start, case);
        tell_sent(spent, count, sent, case);
    }
}

/// Prints the cost of a new flow at a gateway that needs no consent, over as many flows as the next word says: at one
/// that is apart where the gateways make pairs alone, else at a lone one.
pub(crate) fn report_begun<G: Gate>(rt: &HostRuntime, settings: &Settings, case: &mut Case) {
    let count = case.times();
    let made = if settings.alone > 0 {
        Both::<G>::synced(settings, Protocol::Udp, 0, case)
    } else {
        Both::<G>::ready(settings, Protocol::Udp, 0, case)
    };
    if let Some(mut both) = made {
        let later = both.moment.saturating_add(ACTIVE).saturating_add(200);
        both.zero.tick(later, case);
        let start = now(rt, case);
        let sent = both.open_all(true, count, case);
        both.end();
        let spent = since(rt, start, case);
        tell_sent(spent, count, sent, case);
    }
}

/// Prints the cost of a new flow at a lone gateway, over as many flows as the next word says.
pub(crate) fn report_lone<G: Gate>(rt: &HostRuntime, settings: &Settings, case: &mut Case) {
    let count = case.times();
    let start = now(rt, case);
    if let Some(station) = Station::<G>::ready(settings, Protocol::Udp, count, case) {
        station.end();
    }
    let spent = since(rt, start, case);
    tell_sent(spent, count, count, case);
}

/// Prints the cost of a round of ticks at two gateways with so many pairs of TCP, with the datagrams of the ticks.
pub(crate) fn report_pair<G: Gate>(rt: &HostRuntime, settings: &Settings, case: &mut Case) {
    let (count, pairs) = (case.times(), case.times());
    if let Some(mut both) = Both::<G>::synced(settings, Protocol::Tcp, pairs, case) {
        let start = now(rt, case);
        for _ in 0..count {
            both.tick(INTERVAL, case);
        }
        let held = both.one.gateway.entry_count();
        both.end();
        let spent = since(rt, start, case);
        tell_held(spent, count, held, case);
    }
}

/// Prints the cost of a tick at a gateway with so many pairs of TCP, none of which is idle. At each tick the clock
/// moves on by so many centiseconds, or by none.
pub(crate) fn report_ticks<G: Gate>(
    rt: &HostRuntime,
    settings: &Settings,
    by: u64,
    case: &mut Case,
) {
    let (count, pairs) = (case.times(), case.times());
    if let Some(mut station) = Station::<G>::ready(settings, Protocol::Tcp, pairs, case) {
        let start = now(rt, case);
        let mut moment = ACTIVE;
        for _ in 0..count {
            moment = moment.saturating_add(by);
            station.tick(moment, case);
        }
        let held = station.gateway.entry_count();
        station.end();
        let spent = since(rt, start, case);
        tell_held(spent, count, held, case);
    }
}
