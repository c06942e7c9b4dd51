//! What a box receives from and sends to: its link, the networks of its two sides, and its control socket.
#![tactic(auto)]

mod ends;
mod losses;
mod peers;
mod place_sockets;
mod socket_faults;
mod sockets;
mod transports;
mod vxlan;
mod ways;
mod wire;

pub use ends::{End, Ends};
pub use losses::{Losses, SendFault};
pub use peers::{Peer, Sender};
pub use place_sockets::PlaceSocket;
pub use socket_faults::{SocketCause, SocketFault};
pub use sockets::{CONTROL_TOKEN, LoopbackPorts, Sockets};
pub use transports::{Arrived, Transport};
pub use vxlan::Network;
pub use ways::{NoDescriptor, Way, Ways, first_unbound};
pub use wire::{MAX_DATAGRAM, Place, Wire, WireFault};
