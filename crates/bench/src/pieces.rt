//! The cost of UDP datagrams of 3,000 bytes that come in three fragments and go out in three.

use crate::clocks::{now, since, tell_sent};
use crate::gates::Gate;
use crate::packets::{LONGEST, PIECES, PORTS, STRIDE, piece_of, set_pair};
use crate::stations::Station;
use addresses::Protocol;
use cases_words::Case;
use fragments::Cutter;
use gateway::Outcome;
use nat_types::Side;
use settings::Settings;

/// The most bytes of a packet that goes out whole.
const MTU: u16 = 1500;

/// Cuts a frame as who sends it does, and returns in how many frames it goes out.
pub(crate) fn cut(frame: &[u8], cutter: &mut Cutter) -> u32 {
    let mut count = 0u32;
    for k in 0..cutter.count(frame, MTU) {
        if !cutter.piece(frame, MTU, k).is_empty() {
            count = count.saturating_add(1);
        }
    }
    count
}

/// The frames of a datagram's fragments, in order.
#[derive(Drop)]
struct Datagram {
    side: Side,
    frames: [[u8; LONGEST]; 3],
}

impl Datagram {
    fn of(side: Side) -> Datagram {
        Datagram {
            side,
            frames: [
                piece_of(side, PIECES[0]),
                piece_of(side, PIECES[1]),
                piece_of(side, PIECES[2]),
            ],
        }
    }

    /// Gives a gateway the fragments, and returns whether the datagram was sent on with the last of them.
    fn is_sent<G: Gate>(&self, station: &mut Station<G>, case: &mut Case) -> bool {
        station.hand(self.side, &self.frames[0], PIECES[0].size, case);
        station.hand(self.side, &self.frames[1], PIECES[1].size, case);
        station.hand(self.side, &self.frames[2], PIECES[2].size, case) == Outcome::Sent
    }
}

/// How many datagrams come in on a side, and to how many pairs they belong in turn.
#[derive(Clone, Copy)]
struct Load {
    side: Side,
    count: u32,
    pairs: u32,
}

/// Prints the cost of each datagram, and how many went out in three fragments.
fn measure<G: Gate>(
    rt: &HostRuntime,
    station: &mut Station<G>,
    cutter: &mut Cutter,
    load: Load,
    case: &mut Case,
) {
    let Load { side, count, pairs } = load;
    let mut datagram = Datagram::of(side);
    let mut sent = 0u32;
    let start = now(rt, case);
    for number in 0..count {
        let pair = number.wrapping_mul(STRIDE) % pairs.clamp(1, PORTS);
        set_pair(&mut datagram.frames[0], side, pair);
        if datagram.is_sent(station, case) && station.cut(cutter) == 3 {
            sent = sent.saturating_add(1);
        }
    }
    let spent = since(rt, start, case);
    tell_sent(spent, count, sent, case);
}

/// Prints the cost of datagrams in fragments that come in on a side, over as many pairs as the last word says.
pub(crate) fn report_fragments<G: Gate>(rt: &HostRuntime, settings: &Settings, case: &mut Case) {
    let side = case.side();
    let (count, pairs) = (case.times(), case.times());
    let Ok(mut cutter) = Cutter::new(case.alloc) else {
        return case.fault();
    };
    if let Some(mut station) = Station::<G>::ready(settings, Protocol::Udp, pairs, case) {
        let load = Load { side, count, pairs };
        measure(rt, &mut station, &mut cutter, load, case);
        station.end();
    }
    drop(cutter);
}
