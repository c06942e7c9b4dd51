//! Ethernet frames, read and written in place.
#![tactic(auto)]

mod appending;
mod ethernet;
mod refusals;

pub use addresses::{Ip, Mac, Prefix};
pub use appending::append_reserved;
pub use ethernet::{
    EthView, EthViewMut, EtherType, FrameFault, LONGEST, LONGEST_WHOLE, numbers_law, split_mut,
    write_header,
};
pub use refusals::Refused;
