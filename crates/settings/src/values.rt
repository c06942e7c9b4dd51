//! The values that the two gateways of a pair have alike.
ghost use Rattle.std.specs.Prelude.{◌≡◌, ◌↔◌, ◌<◌, ◌^◌, IsTrue};
ghost use Rattle.settings.specs.Values.{AreInWidth, same_networks, same_ranges, same_values};

use addresses::{Ip, Port};

/// The values that both gateways have to run on: the two port ranges, and the virtual address and the prefix length of
/// each network. These are what another gateway says of itself, so they need not keep the limits of settings.
#[derive(Clone, Copy, Debug, PartialEq, Eq)]
pub struct Values {
    pub zero_lowest: Port,
    pub zero_highest: Port,
    pub one_lowest: Port,
    pub one_highest: Port,
    pub inside_virtual: Ip,
    pub outside_virtual: Ip,
    pub inside_prefix: u8,
    pub outside_prefix: u8,
}

fn recall_port(port: Port)
    ensures { port.0 < 2 ^ 16 }
{
    let _ = port.0;
}

fn recall_address(address: Ip)
    ensures { address.0 < 2 ^ 32 }
{
    let _ = address.0;
}

fn recall_length(length: u8)
    ensures { length < 2 ^ 8 }
{}

impl Values {
    fn has_ranges_of(&self, other: &Values) -> bool
        ensures { result ≡ same_ranges self.now other.now }
    {
        self.zero_lowest == other.zero_lowest
            && self.zero_highest == other.zero_highest
            && self.one_lowest == other.one_lowest
            && self.one_highest == other.one_highest
    }

    fn has_networks_of(&self, other: &Values) -> bool
        ensures { result ≡ same_networks self.now other.now }
    {
        self.inside_virtual == other.inside_virtual
            && self.outside_virtual == other.outside_virtual
            && self.inside_prefix == other.inside_prefix
            && self.outside_prefix == other.outside_prefix
    }

    /// Whether each value is that of `other`.
    #[tactic(auto, unfolding(crate::specs::Values::same_values))]
    pub fn is_same(&self, other: &Values) -> bool
        ensures exact { result ≡ same_values self.now other.now }
        ensures alike { IsTrue result ↔ (self.now ≡ other.now) }
    {
        self.has_ranges_of(other) && self.has_networks_of(other)
    }

    /// Reminds the prover of how many bits each value has; it does nothing when it runs.
    pub fn recall(&self)
        ensures { AreInWidth self.now }
    {
        recall_port(self.zero_lowest);
        recall_port(self.zero_highest);
        recall_port(self.one_lowest);
        recall_port(self.one_highest);
        recall_address(self.inside_virtual);
        recall_address(self.outside_virtual);
        recall_length(self.inside_prefix);
        recall_length(self.outside_prefix);
    }
}
