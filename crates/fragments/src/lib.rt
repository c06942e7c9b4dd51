//! Fragments of IPv4 packets: put together to whole packets as they come, and cut where a packet is too long.
#![tactic(auto)]

mod appending;
mod copies;
mod cuts;
mod cutters;
mod datagrams;
mod gatherings;
mod headers;
mod laws;
mod names;
mod numbering;
mod options;
mod spares;
mod views;
mod wholes;

pub use cuts::{append_piece, piece_count};
pub use cutters::{Cutter, is_long};
pub use gatherings::{Came, Gathering, Loss};
pub use laws::{
    bounded, complete_law, cut_law, fragment_grammar, order_law, pieces_law, route_law,
    whole_again, whole_law,
};
pub use names::Name;
pub use numbering::set_identification;
pub use views::is_fragment;
