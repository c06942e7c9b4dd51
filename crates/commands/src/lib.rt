//! The commands of `natpair`.
#![tactic(auto)]

mod acting;
mod asking;
mod files;
mod meters;
mod versions;
mod words;

pub use acting::act;
