//! A table's entries in order, and the numbers of packets that wait.
ghost use Rattle.std.specs.Prelude.{◌≡◌, ◌∷◌, [], Some, IfNone, IfSome};
ghost use Rattle.bindings.specs.Lists.{after_key};
ghost use Rattle.resync.specs.Batch.{CanBeSent};
ghost use Rattle.waiting.specs.Packets.{hop_count as hops_in, pair_count as pairs_in};
ghost use Rattle.gateway.specs.Entries.{behind};

use bindings::{Entry, Table};
use nat_types::Key;
use waiting::HeldPacket;

/// Returns the entry that follows a key in the order by protocol (icmp first) and port, or the
/// first one where there is no key.
pub(crate) fn entry_after(table: &Table, last: Option<Key>) -> Option<Entry>
    requires { CanBeSent table.now }
    ensures exact { result ≡ after_key last table.now.entries }
    ensures next { IfSome result (λ e. behind last table.now.entries
        ≡ e ∷ behind (Some e.pair.key) table.now.entries) }
    ensures none { IfNone result (behind last table.now.entries ≡ []) }
{
    table.recall();
    table.entry_after(last)
}

/// Returns how many packets wait for pairs.
pub(crate) fn pair_count(packets: &[HeldPacket]) -> usize
    ensures { result ≡ pairs_in packets.now }
{
    packets
        .iter()
        .filter(|packet| packet.wait.is_for_pair())
        .count()
}

/// Returns how many packets wait for next hops.
pub(crate) fn hop_count(packets: &[HeldPacket]) -> usize
    ensures { result ≡ hops_in packets.now }
{
    packets
        .iter()
        .filter(|packet| !packet.wait.is_for_pair())
        .count()
}
