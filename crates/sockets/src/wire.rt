//! The wire of a box.
ghost use Rattle.std.specs.Prelude.{◌≤◌, IfOk, IfSome};
ghost use Rattle.sockets.specs.Wires.{Message, message_of, nothing, sent};

use crate::Losses;
use nat_types::Side;
use std::time::Duration;

/// How many bytes of a datagram are received or sent at most. A datagram of the link has at most 2,232 bytes, and a frame
/// 1,514. Of a longer datagram the end is lost, and what is received is too long for both.
pub const MAX_DATAGRAM: usize = 4_096;

/// The place that a datagram comes from, or goes to.
#[derive(Clone, Copy, Debug, PartialEq, Eq)]
pub enum Place {
    /// The link between the two boxes.
    Link,
    /// The network of a side.
    Side(Side),
    /// The control socket, where an operator says words. Words are answered, and nothing is sent there.
    Operator,
}

/// Sending, receiving or waiting failed.
#[derive(Clone, Copy, Debug, PartialEq, Eq)]
pub struct WireFault;

/// What a box receives from and sends to.
pub trait Wire {
    /// Whether a wire may become the second one when a message passes the first.
    ghost passes: { Self → Message → Self → Type 0 };

    /// Receives the next datagram or word of any place into the buffer, and returns its place and how many bytes it has.
    /// Waits for one until the limit has passed; a limit of 0 doesn't wait.
    ///
    /// # Errors
    ///
    /// Where receiving or waiting failed. Nothing was received then.
    fn receive(
        &mut self,
        limit: Duration,
        buffer: &mut [u8; MAX_DATAGRAM],
    ) -> Result<Option<(Place, usize)>, WireFault>
        ensures within { IfOk result (λ found. IfSome found (λ one. one.1 ≤ MAX_DATAGRAM)) }
        ensures passes { passes self.old (message_of result buffer.new) self.new };

    /// Sends a datagram to a place.
    ///
    /// # Errors
    ///
    /// Where the datagram wasn't sent. It is lost then.
    fn send(&mut self, to: Place, bytes: &[u8]) -> Result<(), WireFault>
        ensures passes { passes self.old (sent to bytes.now) self.new };

    /// Answers the client that said the last word, without waiting. No other word is received before.
    fn answer(&mut self, bytes: &[u8])
        ensures passes { passes self.old nothing self.new };

    /// Whether the last send or receive at a place failed. A receive that found nothing there doesn't count.
    fn is_failing(&self, place: Place) -> bool;

    /// Returns how many datagrams of a place couldn't be sent; of the operator's place, how many answers.
    fn losses(&self, place: Place) -> Losses;
}
