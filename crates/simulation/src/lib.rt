//! Runs scripts of events on a pair of gateways, and prints what they do. `run_sim` applies each event directly;
//! `run_loop` first sends the event's frame or datagram through a UDP socket.
#![tactic(auto)]

mod capture;
mod clocks;
mod cutting;
mod lines;
mod loopback;
mod looped;
mod script;
mod sim;
mod step_output;
mod tables;
mod texts;

pub use capture::Capture;
pub use loopback::Loopback;
pub use looped::{Channel, run_loop, run_loop_job};
pub use script::{Job, read_job};
pub use sim::{Progress, run_sim, run_sim_job};
pub use texts::gateway_of;
