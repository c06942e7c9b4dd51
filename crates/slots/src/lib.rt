//! Items in slots by protocol and port, and an index from endpoint to slot.
#![tactic(auto)]

mod address_counts;
mod cells;
mod draws;
mod dues;
mod endpoints;
mod hashers;
mod keyed_hasher;
mod maps;
mod numbers;
mod port_slots;
mod ranks;
mod small_numbers;

pub use draws::{Draws, SystemDraws};
pub use dues::Dues;
pub use endpoints::EndpointIndex;
pub use hashers::Hashers;
pub use keyed_hasher::{KeyedHasher, Keys, collisions_are_rare};
pub use numbers::SlotNumber;
pub use port_slots::PortSlots;
pub use ranks::Rank;
