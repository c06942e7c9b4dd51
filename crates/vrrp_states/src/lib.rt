//! The states of a VRRP router that doesn't own the virtual address (RFC 9568, section 6).
#![tactic(auto)]

pub mod laws;
mod routers;

pub use routers::Router;

/// The states of a virtual router (RFC 9568, section 6.3).
#[derive(Clone, Copy, Debug, PartialEq, Eq)]
pub enum State {
    Initialize,
    Backup,
    Active,
}

/// What the router's interface has to send at once.
#[derive(Clone, Copy, Debug, PartialEq, Eq)]
pub enum Action {
    Nothing,
    /// An advertisement with this priority.
    Advertise(u8),
    /// An advertisement with this priority, then a gratuitous ARP for the virtual address.
    AdvertiseAndArp(u8),
}
