//! One gateway of the pair. Frames, datagrams, ticks and commands go in; frames, datagrams and
//! notes about its pairs come out.
#![tactic(auto)]

mod arrivals;
mod begins;
mod counts;
mod datagrams;
mod ends;
mod entries;
mod gateways;
mod gathers;
mod numbers;
mod records;
mod rooms;
mod routers;
mod steps;
mod ticks;
mod turns;
mod words;

pub use bindings::Hashers;
pub use counts::FragmentCounts;
pub use gateways::Gateway;
pub use nat_types::NoMemory;
pub use output::{Out, OutputBuffer};
pub use packet_rules::Reason;
pub use spec_step::{Event, Outcome, Secrets};
