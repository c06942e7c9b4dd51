//! IPv4 packets and what they carry, UDP datagrams or TCP segments, read and written in place.
#![tactic(auto)]

mod faults;
mod flows;
mod header;
mod options;
mod packets;
mod tcp;
mod transports;
mod udp;

pub use faults::Ipv4Fault;
pub use flows::Flow;
pub use header::{Ipv4View, Ipv4ViewMut, ipv4_grammar};
pub use options::option_size;
pub use packets::{Packet, Size};
pub use tcp::{TcpView, TcpViewMut, tcp_grammar};
pub use transports::{Transport, transport_grammar};
pub use udp::{UdpView, UdpViewMut, udp_grammar};
