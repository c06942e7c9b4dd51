//! The packets that wait: for a pair that isn't agreed yet, or for the Ethernet address of their
//! next hop.
#![tactic(auto)]

mod buffers;
mod list;
mod waits;

pub use list::{HeldPacket, WaitingPackets};
pub use waits::{Ended, WaitsFor};
