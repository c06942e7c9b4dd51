//! The packet path without state: whom a frame addresses, what refuses it, what it is read as,
//! which way its packet goes, and the frames that are sent.
#![tactic(auto)]

mod adverts;
mod answering;
mod arping;
mod asking;
mod complaints;
mod errors;
mod fast_path;
mod flows;
mod laws;
mod networks;
mod own_laws;
mod queries;
mod readings;
mod reasons;
mod steps;
mod translations;

pub use adverts::{append_advert, append_gratuitous};
pub use answering::{may_answer, mtu_at, next_hop_back};
pub use arping::{answer_to, append_answer, append_request, is_for_us, is_learnt};
pub use asking::append_echo_reply;
pub use complaints::{COMPLAINT_FRAME, Complaint, append_complaint, complaint_of, exit_for};
pub use errors::{append_passed, endpoint_inside, error_direction, key_inside};
pub use fast_path::read_transport;
pub use flows::{source_endpoint, target_key};
pub use laws::{advert_law, frames_law, limits_law, peer_alone, readings_law};
pub use networks::{Direction, Network, Networks, Peer, direction_taken, next_hop_outside};
pub use own_laws::{own_frames_law, shows_nothing_inside};
pub use readings::{Asked, Reading};
pub use reasons::Reason;
pub use steps::read_whole;
pub use translations::{Translation, append_sent};
