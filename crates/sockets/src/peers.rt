//! The peer of a place, and the datagrams that it sends and is sent.
ghost use Rattle.std.specs.Prelude.{◌≤◌, IfSome};

use crate::vxlan::HEADER_LENGTH;
use crate::{Arrived, End, MAX_DATAGRAM, Network};
use addresses::Ip;

/// Who sent a datagram.
#[derive(Clone, Copy, Debug, PartialEq, Eq)]
pub enum Sender {
    End(End),
    /// Anyone on the network of an inherited descriptor's interface.
    Interface,
}

/// Whom a place sends to, and accepts datagrams from.
#[derive(Clone, Copy, Debug, PartialEq, Eq)]
pub enum Peer {
    /// An address and port, by UDP.
    Udp(End),
    /// An address with any port, by VXLAN in a network: a kernel sends each flow from a port of its own.
    Vxlan(Ip, Network),
    /// Anyone on the network of an inherited descriptor's interface.
    Interface,
}

impl Peer {
    /// Accepts a datagram that arrived in the buffer, if the peer sent it. Moves what the datagram carries to the buffer's
    /// front, and returns how many bytes that has; `None` for a stranger's datagram.
    pub(crate) fn accept(self, arrived: Arrived, buffer: &mut [u8; MAX_DATAGRAM]) -> Option<usize>
        requires { arrived.count ≤ MAX_DATAGRAM }
        ensures { IfSome result (λ length. length ≤ MAX_DATAGRAM) }
    {
        let Arrived { count, sender } = arrived;
        match self {
            Peer::Udp(end) if sender == Sender::End(end) => Some(count),
            Peer::Interface if sender == Sender::Interface => Some(count),
            Peer::Vxlan(address, network) => match sender {
                Sender::End(found) if found.address == address && network.has(&buffer[..count]) => {
                    buffer.copy_within(HEADER_LENGTH..count, 0);
                    Some(count - HEADER_LENGTH)
                }
                _ => None,
            },
            Peer::Udp(_) | Peer::Interface => None,
        }
    }

    /// Writes the datagram that carries these bytes into the buffer, and returns its length; `None` where that is too long
    /// for the buffer.
    pub(crate) fn encapsulate(self, bytes: &[u8], buffer: &mut [u8; MAX_DATAGRAM]) -> Option<usize>
        ensures { IfSome result (λ length. length ≤ MAX_DATAGRAM) }
    {
        let start = match self {
            Peer::Vxlan(_, network) => {
                buffer[..HEADER_LENGTH].copy_from_slice(&network.header());
                HEADER_LENGTH
            }
            Peer::Udp(_) | Peer::Interface => 0,
        };
        if bytes.len() > MAX_DATAGRAM - start {
            return None;
        }
        buffer[start..start + bytes.len()].copy_from_slice(bytes);
        Some(start + bytes.len())
    }
}
