//! What is kept of the packets that a pair carried since its life began, and whether the pair is idle (RFC 4787,
//! section 4.3; RFC 5382, section 5; RFC 5508, section 3.2). The crate knows of no table.
#![tactic(auto)]

mod laws;
mod life;
mod packed;
mod packets;
mod places;
mod sessions;

pub use laws::{due_law, idle_rests_law, stranger_keeps_nothing, uses_rest_law};
pub use life::Activity;
pub use packets::{Packet, Remote, Way};
pub use sessions::{Class, Marks, Session};

/// The most sessions that a pair keeps.
pub const MAX_SESSIONS: usize = 4;

/// The time for which an ICMP query pair rests before the pair is idle, in centiseconds (RFC 5508, REQ-2: 60 seconds at
/// least).
pub const QUERY_REST: u64 = 6_000;

/// The time for which a UDP pair rests before the pair is idle, in centiseconds (RFC 4787, REQ-5: the default of 5
/// minutes).
pub const UDP_REST: u64 = 30_000;

/// The time for which a session that is opening or closed rests, in centiseconds (RFC 5382, REQ-5: 4 minutes).
pub const TRANSITORY_REST: u64 = 24_000;

/// The time for which an established session rests, in centiseconds (RFC 5382, REQ-5: 2 hours and 4 minutes).
pub const ESTABLISHED_REST: u64 = 744_000;
