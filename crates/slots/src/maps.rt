//! Memory for more entries of a map.
ghost use Rattle.std.specs.Prelude.{◌≤◌, IsOk, OnErr, OnOk};
ghost use Rattle.indexmap.specs.IndexMap.{IsUnchanged, KeepsRoom, spare};
ghost use Rattle.memory.specs.Memory.{IsSmall, WasRefused};

use indexmap::IndexMap;
use std::alloc::AllocError;
use std::hash::{BuildHasher, Hash};

/// Reserves capacity for `more` more entries of a map, where the map doesn't have it yet. An Err
/// says that there is no memory.
#[tactic(auto, unfolding(memory::specs::Memory::WasRefused))]
pub(crate) fn reserve<K: Eq + Hash, V, S: BuildHasher>(
    map: &mut IndexMap<K, V, S>,
    more: usize,
) -> Result<(), AllocError>
    requires small_keys { IsSmall K.row }
    requires small_values { IsSmall V.row }
    ensures entries { IsUnchanged map.old map.new }
    ensures ok { OnOk result (more ≤ spare map.new) }
    ensures room { KeepsRoom map.old map.new }
    ensures succeeds { more ≤ spare map.old → IsOk result }
    ensures refused { OnErr result (WasRefused more) }
{
    map.reserve(more)
}
