//! Fragments that come in, one a line, and packets that are cut.
use crate::parts::{Part, tell_frame};
use crate::pieces;
use cases_words::{Actor, Case};
use fragments::{Came, Gathering, Loss, is_fragment};
use nat_types::Side;
use std::alloc::Global;

/// The fragments that are there.
#[derive(Drop)]
pub struct Gathered {
    gathering: Gathering,
}

impl Gathered {
    pub fn new(alloc: Global) -> Gathered {
        Gathered {
            gathering: Gathering::new(alloc),
        }
    }

    /// Prints what the call answers that the next word names.
    ///
    /// - `anew`: no fragment is there from here on
    /// - `take SIDE HEX NOW`: what comes of a frame, and the whole frame that it makes
    /// - `part SIDE SOURCE ID PLACE COUNT more|last NOW`: the same of a fragment of UDP to 198.51.100.7 that carries COUNT bytes
    ///   from PLACE on
    /// - `parts SIDE SOURCE ID PLACE COUNT TIMES NOW`: the same of so many such fragments, one behind the other and all with
    ///   More Fragments: what comes of the last
    /// - `join SIDE HEX NOW`: the same as `take`, but the fragments of a datagram that is whole stay; `end SIDE HEX`: they go
    /// - `lost`: why the fragment that came last gave a datagram up, if it did
    /// - `tick NOW`: how many datagrams are there then, inside and outside
    /// - `cut MTU ID HEX`, `cut-long MTU ID TOTAL HEX`: the fragments of a packet, as `pieces` has them
    /// - `sent MTU HEX`, `sent-long MTU TOTAL HEX`: the pieces in which a frame goes out
    /// - `number ID HEX`: a frame whose packet has another identification
    fn answer(&mut self, case: &mut Case) {
        match case.word() {
            "anew" => self.renew(case),
            "take" => self.take(case),
            "join" => self.join(case),
            "end" => self.end(case),
            "lost" => self.tell_lost(case),
            "part" => self.take_part(case),
            "parts" => self.take_parts(case),
            "tick" => self.tick(case),
            "cut" => pieces::cut(case),
            "cut-long" => pieces::cut_long(case),
            "sent" => pieces::sent(case),
            "sent-long" => pieces::sent_long(case),
            "number" => pieces::number(case),
            _ => case.fault(),
        }
    }

    fn renew(&mut self, case: &mut Case) {
        self.gathering = Gathering::new(case.alloc);
        case.put("none");
    }

    fn take(&mut self, case: &mut Case) {
        let side = case.side();
        let bytes = case.bytes();
        let now = case.number();
        self.came(side, bytes.as_slice(), now, case);
    }

    fn join(&mut self, case: &mut Case) {
        let side = case.side();
        let bytes = case.bytes();
        let now = case.number();
        if !is_fragment(bytes.as_slice()) {
            case.put("no fragment");
            return;
        }
        match self.gathering.join(side, bytes.as_slice(), now) {
            Ok(came) => self.tell(Some(came), case),
            Err(_) => case.fault(),
        }
    }

    fn end(&mut self, case: &mut Case) {
        let side = case.side();
        let bytes = case.bytes();
        if is_fragment(bytes.as_slice()) {
            self.gathering.end(side, bytes.as_slice());
            case.put("ended");
        } else {
            case.put("no fragment");
        }
    }

    fn tell_lost(&self, case: &mut Case) {
        case.put(match self.gathering.lost() {
            None => "nothing",
            Some(Loss::CrowdedOut) => "crowded out",
            Some(Loss::Contradicted) => "contradicted",
            Some(Loss::Oversized) => "too long",
        });
    }

    fn take_part(&mut self, case: &mut Case) {
        let side = case.side();
        let part = Part::read(case);
        let more = case.is_first("more", "last");
        let now = case.number();
        let frame = part.frame(case, more);
        self.came(side, frame.as_slice(), now, case);
    }

    fn take_parts(&mut self, case: &mut Case) {
        let side = case.side();
        let mut part = Part::read(case);
        let times = case.number();
        let now = case.number();
        let mut came = None;
        for _ in 0..times {
            let frame = part.frame(case, true);
            came = self.taken(side, frame.as_slice(), now, case);
            part = part.next();
        }
        case.show("", came);
    }

    fn tick(&mut self, case: &mut Case) {
        let now = case.number();
        self.gathering.drop_old(now);
        case.say("", self.gathering.len_at(Side::Inside));
        case.say(" ", self.gathering.len_at(Side::Outside));
    }

    /// Takes a frame. Returns what came of it, None where it carries no fragment.
    fn taken(&mut self, side: Side, frame: &[u8], now: u64, case: &mut Case) -> Option<Came> {
        if !is_fragment(frame) {
            return None;
        }
        match self.gathering.take(side, frame, now) {
            Ok(came) => Some(came),
            Err(_) => {
                case.fault();
                None
            }
        }
    }

    fn came(&mut self, side: Side, frame: &[u8], now: u64, case: &mut Case) {
        let came = self.taken(side, frame, now, case);
        self.tell(came, case);
    }

    fn tell(&self, came: Option<Came>, case: &mut Case) {
        match came {
            Some(Came::Refused) => case.put("refused"),
            Some(Came::Held) => case.put("held"),
            Some(Came::Whole) => tell_frame(case, "whole", self.gathering.whole()),
            None => case.put("no fragment"),
        }
    }
}

impl Actor for Gathered {
    fn act(&mut self, case: &mut Case) {
        case.echo(": ");
        self.answer(case);
        case.end();
    }
}
