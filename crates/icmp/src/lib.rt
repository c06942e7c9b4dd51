//! ICMP errors and the packets inside them, and ICMP queries (RFC 792), read and written in place; and the messages
//! between the box itself and a host: Echos to the box, and the replies and errors that it sends.
#![tactic(auto)]

mod asks;
mod errors;
mod faults;
mod kinds;
mod own;
mod packets;
mod queries;
mod quoted;

pub use asks::{AskView, ask_grammar};
pub use errors::{ErrorView, ErrorViewMut, PROTOCOL, error_grammar, is_error_message};
pub use faults::IcmpFault;
pub use kinds::Kind;
pub use own::{
    Cutting, append_exceeded, append_reply, append_too_long, own_error_law, own_packet_law,
    reply_law,
};
pub use packets::{
    ErrorFlow, ErrorPacket, error_packet_grammar, query_flow, query_packet, query_packet_grammar,
};
pub use queries::{QueryView, QueryViewMut, query_grammar};
pub use quoted::{QuotedView, quoted_grammar};
