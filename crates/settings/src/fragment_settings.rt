//! What becomes of packets in fragments, and of those that are too long.

/// Whether the gateways take packets in fragments.
#[derive(Clone, Copy, Debug, PartialEq, Eq)]
pub struct FragmentSettings {
    /// Whether the gateways put packets together of their fragments (RFC 791, section 3.2), and cut what is too long
    /// where it may be cut.
    pub pass: bool,
}
