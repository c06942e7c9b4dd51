//! Whose advertisements count.

/// Whose advertisements a gateway takes.
#[derive(Clone, Copy, Debug, PartialEq, Eq)]
pub struct VrrpSettings {
    /// Whether a router takes advertisements of the other gateway alone: from its own address of that side, with its
    /// priority or 0, and with its interval.
    pub peer_only: bool,
}
