//! Appending of bytes to a list that has the capacity for them.
ghost use Rattle.std.specs.Prelude.{◌≡◌, ◌+◌, ◌≤◌, ◌++◌, length, vec_len, vec_capacity};

/// Appends bytes to a list that has the capacity for them.
pub(crate) fn append_reserved(list: &mut Vec<u8>, bytes: &[u8])
    requires { vec_len list.old + length bytes.now ≤ vec_capacity list.old }
    ensures items { list.new.items ≡ list.old.items ++ bytes.now }
    ensures len { vec_len list.new ≡ vec_len list.old + length bytes.now }
    ensures capacity { vec_capacity list.old ≤ vec_capacity list.new }
{
    match list.extend_from_slice(bytes) {
        Ok(()) => {}
        Err(_full) => unreachable!(),
    }
}
