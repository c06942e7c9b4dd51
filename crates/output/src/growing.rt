//! Capacity that is tested before memory is asked for.
ghost use Rattle.std.specs.Prelude.{◌≡◌, ◌≤◌, ◌+◌, IsOk, OnErr, OnOk, vec_len, vec_capacity};
ghost use Rattle.memory.specs.Memory.{IsSmall, WasRefused};

use std::alloc::AllocError;

/// Grows the capacity for `more` items, where it is less.
#[cold]
fn grow<T: Drop>(list: &mut Vec<T>, more: usize) -> Result<(), AllocError>
    requires small { IsSmall T.row }
    ensures items { list.new.items ≡ list.old.items }
    ensures len { vec_len list.new ≡ vec_len list.old }
    ensures ok { OnOk result (vec_len list.new + more ≤ vec_capacity list.new) }
    ensures capacity { vec_capacity list.old ≤ vec_capacity list.new }
    ensures succeeds { vec_len list.old + more ≤ vec_capacity list.old → IsOk result }
    ensures refused { OnErr result (WasRefused more) }
{
    memory::reserve_exact(list, more)
}

/// Makes capacity for `more` items beyond the list's length. Answers an `AllocError` when out of
/// memory, and leaves the list as it was.
#[inline(always)]
pub(crate) fn reserve<T: Drop>(list: &mut Vec<T>, more: usize) -> Result<(), AllocError>
    requires small { IsSmall T.row }
    ensures items { list.new.items ≡ list.old.items }
    ensures len { vec_len list.new ≡ vec_len list.old }
    ensures ok { OnOk result (vec_len list.new + more ≤ vec_capacity list.new) }
    ensures capacity { vec_capacity list.old ≤ vec_capacity list.new }
    ensures succeeds { vec_len list.old + more ≤ vec_capacity list.old → IsOk result }
    ensures refused { OnErr result (WasRefused more) }
{
    if list.capacity() - list.len() >= more {
        return Ok(());
    }
    grow(list, more)
}
