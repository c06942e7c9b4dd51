//! The two slots of a boot file, 16 bytes each.
ghost use Rattle.std.specs.Prelude.{◌≡◌, ◌≤◌, ◌<◌, ◌^◌, length, IfOk};
ghost use Rattle.boot_store.specs.BootFile.{slot_number, greater, boot_answer, next_place, slot_bytes};

use crate::BootFault;
use byteorder::{BigEndian, ByteOrder};

/// Returns the number of a slot, or None where the slot is invalid: its last 8 bytes aren't the
/// complement of its first 8.
#[tactic(auto, unfolding(crate::specs::BootFile::slot_number))]
pub fn slot_number(slot: &[u8]) -> Option<u64>
    requires { 16 ≤ length slot.now }
    ensures { result ≡ slot_number slot.now }
{
    let number = BigEndian::read_u64(slot);
    let complement = BigEndian::read_u64(&slot[8..]);
    if complement == u64::MAX - number {
        Some(number)
    } else {
        None
    }
}

/// Returns the greater of two slots' numbers, or the one that there is, or None.
fn greater(first: Option<u64>, second: Option<u64>) -> Option<u64>
    ensures { result ≡ greater first second }
{
    match (first, second) {
        (None, other) => other,
        (Some(a), None) => Some(a),
        (Some(a), Some(b)) => Some(a.max(b)),
    }
}

/// Returns the number after the greater one of the two slots, above 0. The Err is `Damaged` where
/// no slot is valid, `FoundTwice` where a founding finds a number other than 0, and `BootsUsedUp`
/// where no number is left.
pub fn next_number(first: Option<u64>, second: Option<u64>, found: bool) -> Result<u64, BootFault>
    ensures answer { result ≡ boot_answer found (greater first second) }
    ensures fits { IfOk result (λ n. n < 2 ^ 64) }
    ensures above_zero { IfOk result (λ n. 0 < n) }
{
    let Some(number) = greater(first, second) else {
        return Err(BootFault::Damaged);
    };
    if found && number != 0 {
        return Err(BootFault::FoundTwice);
    }
    match number.checked_add(1) {
        Some(boot) => Ok(boot),
        None => Err(BootFault::BootsUsedUp),
    }
}

/// Returns the offset at which the next number is written, 0 or 16: that of an invalid slot, else
/// of the one with the lower number.
pub fn next_place(first: Option<u64>, second: Option<u64>) -> usize
    ensures { result ≡ next_place first second }
{
    match (first, second) {
        (None, _) => 0,
        (Some(_), None) => 16,
        (Some(a), Some(b)) => { if b < a { 16 } else { 0 } }
    }
}

/// Returns the bytes of a valid slot with this number.
#[tactic(auto, unfolding(crate::specs::BootFile::slot_bytes))]
pub fn slot_of(number: u64) -> [u8; 16]
    ensures { result ≡ slot_bytes number }
{
    let mut slot = [0; 16];
    BigEndian::write_u64(&mut slot, number);
    BigEndian::write_u64(&mut slot[8..], u64::MAX - number);
    slot
}
