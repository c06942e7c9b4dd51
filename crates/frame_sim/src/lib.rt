//! The world of a script: two gateways, their events, and the trace of what they note.
#![tactic(auto)]

mod beginnings;
mod events;
mod halves;
mod worlds;

pub use events::{Step, WorldFault};
pub use nat_types::WorldEvent;
pub use spec_trace::{AuditFault, audit};
pub use worlds::World;
