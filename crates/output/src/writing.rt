//! The traits of things that write their bytes into a buffer, and that change bytes there.
ghost use Rattle.std.specs.Prelude.{◌≡◌, ◌≤◌, ◌+◌, ◌++◌, ℕ, List, vec_len, vec_capacity};

/// A frame or a datagram that can write its bytes to the end of a buffer.
pub trait WriteBytes {
    /// The condition for writing.
    ghost can_write: { Self → Type 0 };

    /// The bytes that are written.
    ghost bytes: { Self → List ℕ };

    /// The capacity in bytes that writing requires, which may be more than the bytes written.
    ghost room: { Self → ℕ };

    /// Appends the bytes to a list with capacity for them.
    fn write_to(&self, list: &mut Vec<u8>)
        requires ready { can_write self.now }
        requires room { vec_len list.old + room self.now ≤ vec_capacity list.old }
        ensures items { list.new.items ≡ list.old.items ++ bytes self.now }
        ensures len { vec_len list.new ≤ vec_len list.old + room self.now }
        ensures capacity { vec_capacity list.old ≤ vec_capacity list.new };
}

/// A change of the bytes of a frame, whose number stays.
pub trait ChangeBytes {
    /// The condition on the bytes.
    ghost can_change: { Self → List ℕ → Type 0 };

    /// The bytes afterwards, by those before.
    ghost changed: { Self → List ℕ → List ℕ };

    /// Changes the bytes in place.
    fn change(&self, bytes: &mut [u8])
        requires { can_change self.now bytes.old }
        ensures { bytes.new ≡ changed self.now bytes.old };
}
