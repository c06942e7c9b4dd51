//! `natpair check`: every fault and every warning of a text of settings, and the keys in which the settings of two
//! files differ.
#![tactic(auto)]

mod boot_files;
mod checking;
mod comparing;
mod differences;
mod digests;
mod findings;
mod options;
mod places;
mod port_warnings;
mod warning_kinds;
mod warnings;

pub use checking::check;
pub use comparing::compare;
pub use differences::{differing_keys, may_differ, must_agree};
pub use digests::digest;
pub use options::CheckOptions;
pub use port_warnings::PortWarning;
pub use warning_kinds::{Warning, WarningKind};
pub use warnings::warnings_of;
