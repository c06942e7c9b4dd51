//! Translates IPv4 packets in place: other addresses and ports, a TTL lower by one, and checksums
//! that are updated by the words that change (RFC 1624).
//!
//! `hi` from 192.168.1.10:5000 to 198.51.100.7:53, before and after [`outward`] to 192.0.2.1:20000.
//! Bars enclose what is replaced:
//!
//! ```text
//! 4500001e00010000|40|11|8ee1 c0a8010a|c6336407|1388|0035000a|97c6|6869
//! 4500001e00010000|3f|11|8f92 c0000201|c6336407|4e20|0035000a|5cdf|6869
//! ```
#![tactic(auto)]

mod errors;
mod flows;
mod headers;
mod insides;
mod laws;
mod packets;
mod segments;

pub use errors::{error_hairpin, error_inward, error_outward, rewrite_error};
pub use laws::{error_law, header_law, hides_inside, moved_sum_law, query_law, tcp_law, udp_law};
pub use packets::{RewriteFault, hairpin, inward, outward, rewrite_packet};
