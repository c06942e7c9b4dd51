//! The gateway's table of pairs: entries by protocol and port, what their pairs carried, and the ports that the gateway
//! owns.
#![tactic(auto)]

mod draws;
mod entries;
mod laws;
mod ports;
mod revivals;
mod rows;
mod runs;
mod store;
mod table;
mod tallies;
mod watches;

pub use draws::numbers;
pub use entries::{Entry, PortBounds, TableFault};
pub use laws::{numbers_law, room_law, uses_law};
pub use slots::Hashers;
pub use table::Table;
