//! ARP for IPv4 over Ethernet: packets and the cache of neighbours (RFC 826).
#![tactic(auto)]

mod caches;
mod laws;
mod learnt;
mod packets;

pub use caches::{Cache, Interface, Neighbour, is_learnable};
pub use laws::{arp_grammar, limits_law, read_is_spelled, written_is_read};
pub use packets::{ARP_FRAME, ArpFault, ArpPacket, Operation, gratuitous, parse, reply, request};
