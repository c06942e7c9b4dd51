//! The words of a line of a case file, read as the values that they spell, and the text that is
//! printed of them.
#![tactic(auto)]

mod case;
mod pairs;
mod playing;
mod printing;
mod reading;
mod records;
mod tables;
mod writers;

pub use case::Case;
pub use playing::{Actor, beside, play};
pub use writers::unbuffered;
