//! The turn with which a tick begins.

/// The turn with which a tick begins: whether the gateway gives way to the other one.
#[derive(Clone, Copy, Debug, PartialEq, Eq)]
pub enum Turn {
    /// The gateway goes away: both of its routers are stopped.
    Leaves,
    /// The gateway comes back: both of its routers are started, where it is synced and wasn't
    /// stopped.
    Returns,
    /// The gateway does neither.
    Stays,
}
