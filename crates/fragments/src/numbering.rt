//! Another identification for a packet.
ghost use Rattle.std.specs.Prelude.{◌≡◌, ◌+◌, length};
ghost use Rattle.ipv4.specs.Header.{IsIpv4, header_of, options_of};
ghost use Rattle.fragments.specs.Cut.{IsIpv4Frame, identified, numbered_fields};
ghost use Rattle.fragments.specs.Fragment.{ipv4_in};
ghost use Rattle.fragments.specs.Header.{fixed_summed};

use crate::headers::{Fields, layout, summed};
use frames::split_mut;
use ipv4::Ipv4View;

/// Returns the fixed part of a packet's header with another identification.
fn renumbered(packet: &[u8], identification: u16) -> [u8; layout::FIXED]
    requires { IsIpv4 packet.now }
    ensures { result ≡ fixed_summed (numbered_fields identification packet.now) packet.now
        (options_of packet.now) }
{
    let view = Ipv4View { bytes: packet };
    let fields = Fields {
        service: view.type_of_service(),
        total: view.total_length() as u16,
        identification,
        flags: view.flags_word(),
    };
    summed(packet, fields, view.options())
}

/// Gives the packet of a frame without padding another identification (host order), and the checksum that its header has
/// then.
#[tactic(auto, unfolding(crate::specs::Cut::identified))]
pub fn set_identification(frame: &mut [u8], identification: u16)
    requires packet { IsIpv4Frame frame.old }
    requires unpadded { length frame.old ≡ 14 + (header_of (ipv4_in frame.old)).total_length }
    ensures { frame.new ≡ identified identification frame.old }
{
    let (_, packet) = split_mut(frame);
    let fixed = renumbered(packet, identification);
    packet[..layout::FIXED].copy_from_slice(&fixed);
}
