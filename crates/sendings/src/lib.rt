//! What goes out for the frames that a gateway's steps send: each as it is, or in fragments where it is too long.
#![tactic(auto)]

mod pieces;

pub use pieces::{Piece, pieces_of};
