//! Calls that grow a `Vec` and answer an `AllocError` when out of memory, each with a clause that
//! says for how many items memory was refused.
#![tactic(auto)]

ghost use Rattle.std.specs.Prelude.{◌≡◌, ◌+◌, ◌++◌, ◌≤◌, ◌<◌, [], ◌∷◌, length, replicate, max, vec_len, vec_capacity, is_ok, if◌then◌else◌, IfOk, OnOk, OnErr, IsOk};
ghost use Rattle.memory.specs.Memory.{IsSmall, WasRefused};

use std::alloc::{AllocError, Global};

/// Returns an empty list with capacity for exactly `count` items, or an `AllocError` when out of
/// memory.
#[tactic(auto, unfolding(crate::specs::Memory::WasRefused))]
pub fn with_room<T: Drop>(alloc: Global, count: usize) -> Result<Vec<T>, AllocError>
    requires small { IsSmall T.row }
    ensures items { IfOk result (λ v. v.items ≡ []) }
    ensures len { IfOk result (λ v. vec_len v ≡ 0) }
    ensures capacity { IfOk result (λ v. vec_capacity v ≡ count) }
    ensures succeeds { count ≡ 0 → IsOk result }
    ensures refused { OnErr result (WasRefused count) }
{
    Vec::with_capacity(alloc, count)
}

/// Returns a list of `count` copies of `item`, or an `AllocError` when out of memory.
#[tactic(auto, unfolding(crate::specs::Memory::WasRefused))]
pub fn copies_of<T: Copy + Drop>(alloc: Global, item: T, count: usize) -> Result<Vec<T>, AllocError>
    requires small { IsSmall T.row }
    ensures items { IfOk result (λ v. v.items ≡ replicate count item) }
    ensures len { IfOk result (λ v. vec_len v ≡ count) }
    ensures succeeds { count ≡ 0 → IsOk result }
    ensures refused { OnErr result (WasRefused count) }
{
    let mut list = Vec::with_capacity(alloc, count)?;
    list.resize(count, item)?;
    Ok(list)
}

/// Grows the capacity to exactly `more` items beyond the list's length, where fewer fit. Answers an
/// `AllocError` when out of memory, and leaves the list as it was.
#[tactic(auto, unfolding(crate::specs::Memory::WasRefused))]
pub fn reserve_exact<T: Drop>(list: &mut Vec<T>, more: usize) -> Result<(), AllocError>
    requires small { IsSmall T.row }
    ensures items { list.new.items ≡ list.old.items }
    ensures len { vec_len list.new ≡ vec_len list.old }
    ensures exact { OnOk result (vec_capacity list.new
        ≡ max (vec_capacity list.old) (vec_len list.old + more)) }
    ensures ok { OnOk result (vec_len list.new + more ≤ vec_capacity list.new) }
    ensures capacity { vec_capacity list.old ≤ vec_capacity list.new }
    ensures succeeds { vec_len list.old + more ≤ vec_capacity list.old → IsOk result }
    ensures full { OnErr result (vec_capacity list.old < vec_len list.old + more) }
    ensures err { OnErr result (vec_capacity list.new ≡ vec_capacity list.old) }
    ensures refused { OnErr result (WasRefused more) }
{
    list.reserve_exact(more)
}

/// Grows the capacity to at least `more` items beyond the list's length, where fewer fit, and by
/// some beside them, so that a list that grows again and again is seldom copied. Answers an
/// `AllocError` when out of memory, and leaves the list as it was.
#[tactic(auto, unfolding(crate::specs::Memory::WasRefused))]
pub fn reserve<T: Drop>(list: &mut Vec<T>, more: usize) -> Result<(), AllocError>
    requires small { IsSmall T.row }
    ensures items { list.new.items ≡ list.old.items }
    ensures len { vec_len list.new ≡ vec_len list.old }
    ensures ok { OnOk result (vec_len list.new + more ≤ vec_capacity list.new) }
    ensures capacity { vec_capacity list.old ≤ vec_capacity list.new }
    ensures succeeds { vec_len list.old + more ≤ vec_capacity list.old → IsOk result }
    ensures full { OnErr result (vec_capacity list.old < vec_len list.old + more) }
    ensures err { OnErr result (vec_capacity list.new ≡ vec_capacity list.old) }
    ensures refused { OnErr result (WasRefused more) }
{
    list.reserve(more)
}

/// Appends an item, or answers an `AllocError` when out of memory and leaves the items as they
/// were.
#[tactic(auto, unfolding(crate::specs::Memory::WasRefused))]
pub fn push<T: Drop>(list: &mut Vec<T>, item: T) -> Result<(), AllocError>
    requires small { IsSmall T.row }
    ensures items { list.new.items
        ≡ (if is_ok result then list.old.items ++ item ∷ [] else list.old.items) }
    ensures len { vec_len list.new
        ≡ (if is_ok result then vec_len list.old + 1 else vec_len list.old) }
    ensures capacity { vec_capacity list.old ≤ vec_capacity list.new }
    ensures full { OnErr result (vec_capacity list.old ≤ vec_len list.old) }
    ensures refused { OnErr result (WasRefused 1) }
{
    list.push(item)?;
    Ok(())
}

/// Appends copies of these items, or answers an `AllocError` when out of memory and leaves the
/// items as they were.
#[tactic(auto, unfolding(crate::specs::Memory::WasRefused))]
pub fn append<T: Copy + Drop>(list: &mut Vec<T>, items: &[T]) -> Result<(), AllocError>
    requires small { IsSmall T.row }
    ensures items { list.new.items
        ≡ (if is_ok result then list.old.items ++ items.now else list.old.items) }
    ensures capacity { vec_capacity list.old ≤ vec_capacity list.new }
    ensures full { OnErr result (vec_capacity list.old < vec_len list.old + length items.now) }
    ensures refused { OnErr result (WasRefused (length items.now)) }
{
    list.extend_from_slice(items)
}
