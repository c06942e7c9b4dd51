//! One interface of a gateway: its network, its cable, its virtual router, its neighbours, and the
//! tally of the answers to Echos and of the ICMP errors that the gateway sent there.
#![tactic(auto)]

mod cables;
mod laws;
mod stations;
mod tallies;

pub use cables::{Cable, WHOLE_AFTER};
pub use laws::{limits_law, sizes_law, tallies_law};
pub use stations::Interface;
pub use tallies::{MOST_ERRORS, MOST_REPLIES, Tally};
