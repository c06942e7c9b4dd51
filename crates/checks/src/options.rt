//! The options of `natpair check`.

use nat_types::GatewayId;

/// What `check` checks beside a text of settings, and how strictly.
#[derive(Clone, Copy, Debug)]
pub struct CheckOptions<'a> {
    /// The box whose boot file is checked too, or None.
    pub id: Option<GatewayId>,
    /// Whether a warning makes the exit status 1, as a fault does.
    pub strict: bool,
    /// The name of the inside interface to check, as `eth1`, or None.
    pub inside: Option<&'a str>,
    /// The name of the outside interface to check, as `eth2`, or None.
    pub outside: Option<&'a str>,
    /// The box's own address on the link to check, as `10.0.0.1`, or None.
    pub link: Option<&'a str>,
}
