//! The step of a gateway around its step on whole frames: fragments are put together before it, and what is too long is
//! numbered, so that it can be cut, behind it. Definitions and laws.
#![tactic(auto)]

mod laws;

pub use laws::{
    as_without, fragments_stay_few, gateway_passes_on, gateway_says, gateway_tells, inner_steps,
    part_is_nothing, parts_stay_bytes, pieces_are_numbered, short_frames_stay,
    strays_change_nothing,
};
