//! Two gateways and the datagrams between them as a pure machine, and what the machine promises for
//! every list of allowed events.
#![tactic(auto)]

pub mod laws;
