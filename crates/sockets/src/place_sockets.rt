//! A place of a box, over the transport of its datagrams.
ghost use Rattle.std.specs.Prelude.{◌≤◌, IfOk, IfSome};

use crate::{Losses, MAX_DATAGRAM, Peer, SendFault, Transport, WireFault};

/// How many datagrams of strangers one `receive` skips at most, so that a flood of them keeps no other place waiting.
const MAX_STRANGERS_PER_RECEIVE: usize = 64;

/// A place of a box. Of the datagrams that arrive there, only those of the place's peer are received.
#[derive(Drop)]
pub struct PlaceSocket<C> {
    transport: C,
    peer: Peer,
    strangers: u64,
    /// Whether the last send or receive failed. A receive that found nothing, or only datagrams of strangers, doesn't count.
    is_failing: bool,
    losses: Losses,
    /// Whether something may have arrived since the transport had nothing.
    is_ready: bool,
    /// The datagram that is being sent, with its header.
    buffer: [u8; MAX_DATAGRAM],
}

impl<C: Transport> PlaceSocket<C> {
    /// Returns a place where something may have arrived already.
    pub fn new(transport: C, peer: Peer) -> PlaceSocket<C> {
        PlaceSocket {
            transport,
            peer,
            strangers: 0,
            is_failing: false,
            losses: Losses {
                too_long: 0,
                failed: 0,
            },
            is_ready: true,
            buffer: [0; MAX_DATAGRAM],
        }
    }

    /// Returns the transport.
    pub fn transport(&self) -> &C {
        &self.transport
    }

    /// Says that a poll has reported the transport.
    pub fn wake(&mut self) {
        self.is_ready = true;
    }

    /// Whether something may have arrived that isn't received yet.
    pub fn is_ready(&self) -> bool {
        self.is_ready
    }

    /// Returns how many datagrams of strangers arrived.
    pub fn strangers(&self) -> u64 {
        self.strangers
    }

    /// Whether the last send or receive failed. A receive that found nothing, or only datagrams of strangers, doesn't count.
    pub fn is_failing(&self) -> bool {
        self.is_failing
    }

    /// Returns how many datagrams couldn't be sent.
    pub fn losses(&self) -> Losses {
        self.losses
    }

    /// Sends bytes to the peer.
    ///
    /// # Errors
    ///
    /// Where the bytes weren't sent. They are lost then, and counted.
    pub fn send(&mut self, bytes: &[u8]) -> Result<(), SendFault> {
        let sent = match self.peer.encapsulate(bytes, &mut self.buffer) {
            Some(count) => self.transport.send(&self.buffer[..count]),
            None => Err(SendFault::TooLong),
        };
        self.is_failing = sent.is_err();
        self.losses.count(sent);
        sent
    }

    /// Receives the peer's next datagram into the front of the buffer, and returns how many bytes it has. After the
    /// transport had nothing, or failed twice in a row, nothing more is received before a poll reports the transport: so a
    /// transport that always fails doesn't keep the box busy.
    ///
    /// # Errors
    ///
    /// Where the transport failed. Nothing was received then.
    pub fn receive(&mut self, buffer: &mut [u8; MAX_DATAGRAM]) -> Result<Option<usize>, WireFault>
        ensures { IfOk result (λ found. IfSome found (λ count. count ≤ MAX_DATAGRAM)) }
    {
        for _ in 0..MAX_STRANGERS_PER_RECEIVE {
            if !self.is_ready {
                return Ok(None);
            }
            let arrived = match self.transport.receive(buffer) {
                Ok(Some(arrived)) => arrived,
                Ok(None) => {
                    self.is_ready = false;
                    return Ok(None);
                }
                Err(WireFault) => {
                    self.is_ready = !self.is_failing;
                    self.is_failing = true;
                    return Err(WireFault);
                }
            };
            if let Some(count) = self.peer.accept(arrived, buffer) {
                self.is_failing = false;
                return Ok(Some(count));
            }
            self.strangers = self.strangers.saturating_add(1);
        }
        Ok(None)
    }
}
