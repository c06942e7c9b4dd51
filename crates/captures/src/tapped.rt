//! A wire whose packets are captured.

use crate::{Direction, Interface, LiveCapture, NonBlockingWriter, Packet};
use nat_types::GatewayId;
use platform::CentisecondClock;
use sockets::{Losses, MAX_DATAGRAM, Place, Wire, WireFault};
use std::time::Duration;

/// A gateway's wire whose frames and datagrams are captured, each after it was received or sent. An operator's words aren't
/// captured. The capture changes nothing of what passes the wire.
#[derive(Drop)]
pub struct Tapped<W, C, O> {
    wire: W,
    recorder: Recorder<C, O>,
}

impl<W: Wire, C: CentisecondClock, O: NonBlockingWriter> Tapped<W, C, O> {
    /// Captures what passes a gateway's wire. The timestamps of packets are those of the clock.
    pub fn new(wire: W, id: GatewayId, clock: C, capture: LiveCapture<O>) -> Tapped<W, C, O> {
        let recorder = Recorder { id, clock, capture };
        Tapped { wire, recorder }
    }

    /// Writes what is missing of the last packet, as far as the writer takes it without waiting.
    pub fn flush(&mut self) {
        let _is_whole = self.recorder.capture.flush();
    }

    /// Returns how many packets the capture has left out.
    pub fn left_out(&self) -> u64 {
        self.recorder.capture.left_out()
    }
}

impl<W: Wire, C: CentisecondClock, O: NonBlockingWriter> Wire for Tapped<W, C, O> {
    ghost passes = { λ before message after. W.passes before.wire message after.wire };

    fn receive(
        &mut self,
        limit: Duration,
        buffer: &mut [u8; MAX_DATAGRAM],
    ) -> Result<Option<(Place, usize)>, WireFault> {
        let received = self.wire.receive(limit, buffer)?;
        if let Some((place, count)) = received {
            self.recorder
                .record(place, Direction::Inbound, &buffer[..count]);
        }
        Ok(received)
    }

    fn send(&mut self, to: Place, bytes: &[u8]) -> Result<(), WireFault> {
        self.wire.send(to, bytes)?;
        self.recorder.record(to, Direction::Outbound, bytes);
        Ok(())
    }

    fn answer(&mut self, bytes: &[u8]) {
        self.wire.answer(bytes);
    }

    fn is_failing(&self, place: Place) -> bool {
        self.wire.is_failing(place)
    }

    fn losses(&self, place: Place) -> Losses {
        self.wire.losses(place)
    }
}

/// Writes a gateway's packets to a capture.
#[derive(Drop)]
struct Recorder<C, O> {
    id: GatewayId,
    clock: C,
    capture: LiveCapture<O>,
}

impl<C: CentisecondClock, O: NonBlockingWriter> Recorder<C, O> {
    /// Captures what passed the wire at a place, unless that is a word.
    fn record(&mut self, place: Place, direction: Direction, bytes: &[u8]) {
        let interface = match place {
            Place::Link => Interface::Link(self.id),
            Place::Side(side) => Interface::Side(self.id, side),
            Place::Operator => return,
        };
        let timestamp = self.clock.now();
        let _is_written = self.capture.write(&Packet {
            interface,
            direction,
            timestamp,
            bytes,
        });
    }
}
