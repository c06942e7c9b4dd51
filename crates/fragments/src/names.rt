//! What the fragments of one datagram have in common.
ghost use Rattle.std.specs.Prelude.{◌≡◌};
ghost use Rattle.fragments.specs.Name.{same_name};

use addresses::{Ip, Mac};

/// What the fragments of one datagram have in common.
#[derive(Clone, Copy, Debug)]
pub struct Name {
    /// The Ethernet address to which they came.
    pub to: Mac,
    pub source: Ip,
    pub destination: Ip,
    /// The number of the protocol that the datagram carries.
    pub protocol: u8,
    pub identification: u16,
}

impl Name {
    /// Whether both name one datagram.
    #[tactic(auto, unfolding(crate::specs::Name::same_name))]
    pub(crate) fn is_same(&self, other: &Name) -> bool
        ensures { result ≡ same_name self.now other.now }
    {
        self.to == other.to
            && self.source == other.source
            && self.destination == other.destination
            && self.protocol == other.protocol
            && self.identification == other.identification
    }
}
