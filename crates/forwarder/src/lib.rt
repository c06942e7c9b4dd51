//! The forwarding of a gateway: frames in and out, translation, waiting packets. The clock, the
//! routers and the other gateway's datagrams are in `gateway`.
#![tactic(auto)]

mod answers;
mod complaining;
mod errors;
mod forwarders;
mod holding;
mod hosts;
mod outgoing;
mod plans;
mod sending;
mod takings;

pub use forwarders::Forwarder;
