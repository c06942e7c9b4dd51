//! The gateway of a case, and the lines that happen to it.

use crate::any_gateway::AnyGateway;
use crate::changing::{Trial, change};
use crate::datagrams::spelled;
use crate::printing::print_step;
use cases_words::Case;
use gateway::{Event, Out, Outcome, Reason, Secrets};
use nat_types::GatewayId;
use packet_rules::Networks;
use sendings::pieces_of;
use settings::{Settings, Values};

/// A gateway, and the last datagram that came to it. They are dropped by `end`.
pub(crate) struct TestGateway<G> {
    id: GatewayId,
    values: Values,
    networks: Networks,
    gateway: G,
    last: Vec<u8>,
    out: Out,
}

impl<G: AnyGateway> TestGateway<G> {
    /// Starts a gateway of that number in that boot, as in `0 boot 1 founded`; None where there can't be such a
    /// gateway.
    pub(crate) fn new(settings: &Settings, case: &mut Case) -> Option<TestGateway<G>> {
        let id = case.gateway();
        let boot = after("boot", case);
        let found = case.left() == 1;
        match G::begun(case.alloc, settings, Secrets::fixed(), id, boot, found) {
            Some(gateway) => Some(TestGateway {
                id,
                values: settings.values(),
                networks: Networks::of_gateway(settings, id),
                gateway,
                last: Vec::new(case.alloc),
                out: Out::new(case.alloc),
            }),
            None => {
                case.fault();
                None
            }
        }
    }

    /// Drops the gateway, and frees its memory.
    pub(crate) fn end(self) {
        let TestGateway {
            id: _,
            values: _,
            networks: _,
            gateway,
            last,
            out,
        } = self;
        gateway.end();
        drop(last);
        drop(out);
    }

    /// Does to the gateway what a line says.
    ///
    /// - `tick MOMENT`, `frame SIDE HEX`: the clock goes on; a frame comes
    /// - `letter ..`: a datagram comes, in words (`datagrams::spelled`)
    /// - `bytes HEX`, `again`: a datagram of these bytes comes; the last datagram comes once more
    /// - `cuts HEX`: a datagram comes cut at every length
    /// - `frame-cuts SIDE HEX`, `frame-changes SIDE HEX`: a frame comes cut at every length; with every byte changed to
    ///   every other value
    /// - `frame-cuts SIDE HEX from MOMENT`, `frame-changes SIDE HEX from MOMENT`: the same, each frame in a second of
    ///   its own, the first one at that time
    /// - `table`: prints the gateway's state and table
    pub(crate) fn happen(&mut self, case: &mut Case) {
        case.back();
        match case.word() {
            "tick" => self.step(Event::Tick(case.number()), case),
            "frame" => self.frame(case),
            "letter" => self.datagram(case),
            "bytes" => self.bytes(case),
            "again" => self.again(case),
            "cuts" => self.cuts(case),
            "frame-cuts" => self.frame_cuts(case),
            "frame-changes" => self.frame_changes(case),
            "table" => self.gateway.table(case),
            _ => case.fault(),
        }
    }

    /// Takes one step, and prints its outcome and output.
    fn step(&mut self, event: Event<'_>, case: &mut Case) {
        let outcome = self.gateway.step(event, &mut self.out, case);
        print_step(outcome, self.sent(case), &self.out, case);
    }

    /// Returns how many frames went out in the last step: one that is cut goes out in several.
    fn sent(&self, case: &mut Case) -> usize {
        match pieces_of(case.alloc, &self.networks, &self.out) {
            Ok(pieces) => pieces.len(),
            Err(_) => {
                case.fault();
                0
            }
        }
    }

    fn frame(&mut self, case: &mut Case) {
        let side = case.side();
        let bytes = case.bytes();
        self.step(Event::Frame(side, bytes.as_slice()), case);
    }

    /// Lets a datagram of the other gateway come, given in words.
    fn datagram(&mut self, case: &mut Case) {
        self.last = spelled(self.id.other(), self.values, case);
        self.again(case);
    }

    /// Lets a datagram of any bytes come.
    fn bytes(&mut self, case: &mut Case) {
        self.last = case.bytes();
        self.again(case);
    }

    /// Lets the last datagram come once more.
    fn again(&mut self, case: &mut Case) {
        let event = Event::Datagram(self.last.as_slice());
        let outcome = self.gateway.step(event, &mut self.out, case);
        print_step(outcome, self.sent(case), &self.out, case);
    }

    /// Lets a datagram come cut at every length below its own, and prints how many of these are dropped with reason 16
    /// and without output.
    fn cuts(&mut self, case: &mut Case) {
        let bytes = case.bytes();
        let mut dropped = 0u32;
        for length in 0..bytes.len() {
            if self.drops(&bytes[..length], case) {
                dropped = dropped.saturating_add(1);
            }
        }
        case.say("  dropped 16: ", dropped);
        case.say(" of ", bytes.len());
        case.end();
    }

    /// Whether a datagram is dropped as a wrong one, without output.
    fn drops(&mut self, bytes: &[u8], case: &mut Case) -> bool {
        let event = Event::Datagram(bytes);
        let outcome = self.gateway.step(event, &mut self.out, case);
        outcome == Outcome::Dropped(Reason::BadDatagram) && has_told_nothing(&self.out)
    }

    /// Lets a frame come cut at every length below its own, from 0 on.
    fn frame_cuts(&mut self, case: &mut Case) {
        let side = case.side();
        let bytes = case.bytes();
        let frame = bytes.as_slice();
        let mut trial = Trial::new(side, pace_in(case));
        for length in 0..frame.len() {
            trial.try_frame(&mut self.gateway, &frame[..length], &mut self.out, case);
        }
        trial.tell(case);
    }

    /// Lets a frame come with every byte changed to every other value.
    fn frame_changes(&mut self, case: &mut Case) {
        let side = case.side();
        let mut frame = case.bytes();
        let mut trial = Trial::new(side, pace_in(case));
        change(
            &mut trial,
            &mut self.gateway,
            frame.as_mut_slice(),
            &mut self.out,
            case,
        );
        trial.tell(case);
    }
}

/// Reads this word and the number after it.
pub(crate) fn after(word: &str, case: &mut Case) -> u64 {
    if case.word() != word {
        case.fault();
    }
    case.number()
}

/// Reads the time of the first frame, where each comes in a second of its own; None where all come at once.
fn pace_in(case: &mut Case) -> Option<u64> {
    if case.left() == 0 {
        return None;
    }
    Some(after("from", case))
}

fn has_told_nothing(out: &Out) -> bool {
    out.notes().is_empty() && out.datagram_count() == 0 && out.frames().next().is_none()
}
