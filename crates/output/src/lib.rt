//! The output of a gateway's steps: frames to send, datagrams for the other gateway, and notes.
#![tactic(auto)]

mod growing;
mod outs;
mod pages;
mod piles;
mod readers;
mod writing;

pub use outs::Out;
pub use pages::{OutputBuffer, Room};
pub use readers::{ByteStrings, Frame, Frames};
pub use writing::{ChangeBytes, WriteBytes};
