//! The gateway that is measured. No function here has a contract on what a step does, so that its caller has little to
//! prove. Without memory the line is wrong.

use crate::gates::Gate;
use crate::packets::{HEADER, Kind, LONGEST, OPENING, PORTS, frame_of, set_pair};
use crate::pieces::cut;
use addresses::Protocol;
use cases_words::Case;
use fragments::Cutter;
use gateway::{Event, Out, Outcome};
use nat_types::{GatewayId, NoteKind, Side};
use settings::Settings;

/// The time at which a gateway's routers are Active, in centiseconds.
pub(crate) const ACTIVE: u64 = 360;

/// A gateway, and its last output. A caller ends it by `end`.
pub(crate) struct Station<G> {
    pub(crate) gateway: G,
    out: Out,
}

impl<G: Gate> Station<G> {
    /// Begins a gateway in its first boot. Gateway 0 is founded.
    pub(crate) fn begun(settings: &Settings, id: GatewayId, case: &mut Case) -> Option<Station<G>> {
        match G::begun(case.alloc, settings, id) {
            Some(gateway) => Some(Station {
                gateway,
                out: Out::new(case.alloc),
            }),
            None => {
                case.fault();
                None
            }
        }
    }

    /// Ends the gateway, and frees its memory.
    pub(crate) fn end(self) {
        let Station { gateway, out } = self;
        gateway.end();
        drop(out);
    }

    /// Makes a founded gateway, Active on both sides, with `pairs` pairs: of this protocol as long as there are ports
    /// of it, then of the other one.
    pub(crate) fn ready(
        settings: &Settings,
        protocol: Protocol,
        pairs: u32,
        case: &mut Case,
    ) -> Option<Station<G>> {
        let mut station = Station::begun(settings, GatewayId::Zero, case)?;
        station.tick(ACTIVE, case);
        station.open(protocol, pairs.min(PORTS), case);
        let other = if protocol == Protocol::Udp {
            Protocol::Tcp
        } else {
            Protocol::Udp
        };
        station.open(other, pairs.saturating_sub(PORTS), case);
        Some(station)
    }

    /// Moves the gateway's clock on to `moment`.
    pub(crate) fn tick(&mut self, moment: u64, case: &mut Case) {
        self.gateway.step(Event::Tick(moment), &mut self.out, case);
    }

    /// Gives the gateway the datagrams that the other gateway sent last. The gateway's own last output is then that for
    /// the last of them.
    pub(crate) fn take(&mut self, other: &Station<G>, case: &mut Case) {
        for datagram in other.out.datagrams() {
            let event = Event::Datagram(datagram);
            self.gateway.step(event, &mut self.out, case);
        }
    }

    /// Whether the gateway's last output has a datagram.
    pub(crate) fn tells(&self) -> bool {
        self.out.datagram_count() > 0
    }

    /// Whether the gateway's last output has a frame.
    pub(crate) fn sends(&self) -> bool {
        self.out.frames().next().is_some()
    }

    /// Cuts the frames of the gateway's last output, as who sends them does, and returns how many frames that makes.
    pub(crate) fn cut(&self, cutter: &mut Cutter) -> u32 {
        let mut count = 0u32;
        for frame in self.out.frames() {
            count = count.saturating_add(cut(frame.bytes, cutter));
        }
        count
    }

    /// Returns how many pairs the gateway released in its last output.
    pub(crate) fn released(&self) -> u32 {
        let mut count = 0u32;
        for note in self.out.notes() {
            if let NoteKind::Released(_) = note.what {
                count = count.saturating_add(1);
            }
        }
        count
    }

    /// Opens `pairs` pairs, each by a packet of its own.
    fn open(&mut self, protocol: Protocol, pairs: u32, case: &mut Case) {
        let (side, size) = (Side::Inside, OPENING);
        let mut frame = frame_of(Kind {
            side,
            protocol,
            size,
        });
        for number in 0..pairs {
            set_pair(&mut frame, side, number);
            if self.hand(side, &frame, size, case) != Outcome::Sent {
                case.fault();
            }
        }
    }

    /// Gives the gateway a packet of `size` bytes that comes in on a side, and returns the outcome.
    pub(crate) fn hand(
        &mut self,
        side: Side,
        frame: &[u8; LONGEST],
        size: u16,
        case: &mut Case,
    ) -> Outcome {
        let bytes = &frame[..(HEADER + usize::from(size)).min(LONGEST)];
        let event = Event::Frame(side, bytes);
        self.gateway.step(event, &mut self.out, case)
    }
}
