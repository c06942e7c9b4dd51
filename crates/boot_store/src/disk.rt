// The disk of a boot file: what a read shows, what a crash may leave, and how often a call failed.
ghost use Rattle.std.specs.Prelude.{◌≡◌, ◌+◌, ◌≤◌, ◌↔◌, ℕ, List, [], ◌∷◌, ◌++◌, length, take, OnErr, OnOk, IfOk, ⊤};
ghost use Rattle.boot_store.specs.Calls.{Reads, Syncs, Writes};
ghost use Rattle.boot_store.specs.Moment.{Moment, bytes_of, written, within_write, FailedWrite, synced, StillKept, AfterRead};

use std::io::ErrorKind;
use thiserror::Error;

/// The durability of a byte of a file.
#[derive(Clone, Copy, Debug, PartialEq, Eq)]
pub enum Hold {
    /// The byte outlasts a crash.
    Kept,
    /// The byte was written since the last sync: a crash may leave any byte in its place, and the
    /// next sync keeps it.
    Loose,
    /// The byte was written before a sync that failed. No later sync keeps it, even one that
    /// succeeds: a crash, and the next read of the device, may find any byte in its place.
    Lost,
}

/// A byte of a file, and its durability.
#[derive(Clone, Copy, Debug, PartialEq, Eq)]
pub struct Cell {
    pub byte: u8,
    pub hold: Hold,
}

/// A device call that failed, and the system's cause.
#[derive(Clone, Copy, Debug, PartialEq, Eq, Error)]
pub enum DeviceFault {
    /// The file can't be read.
    #[error("a read failed: {0}")]
    Read(ErrorKind),
    /// The file can't be written.
    #[error("a write failed: {0}")]
    Write(ErrorKind),
    /// Fewer bytes were written than were given.
    #[error("a write was short")]
    ShortWrite,
    /// The bytes that were written can't be synced.
    #[error("a sync failed: {0}")]
    Sync(ErrorKind),
    /// The file's name can't be synced.
    #[error("a sync of the name failed: {0}")]
    NameSync(ErrorKind),
}

/// A disk with a boot file of 32 bytes.
///
/// The clauses on its bytes, on crashes and on why a call fails hold for an honest disk alone. A
/// disk need not claim to be honest.
pub trait Disk {
    /// The file now: each byte and its durability.
    ghost now: { Self → Moment };

    /// The moments that have passed, in order: the states of the file in which a crash could have
    /// come. Until a read or a sync has returned, the file is as before it.
    ghost past: { Self → List Moment };

    /// The number of calls that have failed.
    ghost failures: { Self → ℕ };

    /// The number of times that the device itself has refused a call, or done less of it than it
    /// was asked for.
    ghost refusals: { Self → ℕ };

    /// Whether the file's name outlasts a crash.
    ghost named: { Self → Type 0 };

    /// Whether the disk does what the clauses say of an honest disk.
    ghost honest: { Self → Type 0 };

    /// More about a read than the clauses below say: of the disk before, the answer, the buffer
    /// afterwards, and the disk afterwards. Most disks say nothing more.
    ghost reads: { Reads Self } = { λ _ _ _ _. ⊤ };

    /// More about a write of bytes at an offset.
    ghost writes: { Writes Self } = { λ _ _ _ _ _. ⊤ };

    /// More about a sync.
    ghost syncs: { Syncs Self } = { λ _ _ _. ⊤ };

    /// Fills the buffer with the first 32 bytes of the file, and returns how many of them there
    /// are. The bytes are read from the device: what a cache has held since a sync failed isn't
    /// read.
    fn read(&mut self, room: &mut [u8; 32]) -> Result<usize, DeviceFault>
        ensures count { IfOk result (λ n. n ≤ 32) }
        ensures filled { honest self.old
            → IfOk result (λ n. take n room.new ≡ take 32 (bytes_of (now self.new))) }
        ensures read { honest self.old → OnOk result (AfterRead (now self.old) (now self.new)) }
        ensures unread { honest self.old
            → OnErr result (StillKept (now self.old) (now self.new)) }
        ensures reads { reads self.old result room.new self.new }
        ensures passes { honest self.old
            → past self.new ≡ past self.old ++ now self.old ∷ [] }
        ensures name { honest self.old → named self.old → named self.new }
        ensures honesty { honest self.old ↔ honest self.new }
        ensures ok { OnOk result (failures self.new ≡ failures self.old) }
        ensures failed { OnErr result (failures self.new ≡ failures self.old + 1) }
        ensures taken { honest self.old → OnOk result (refusals self.new ≡ refusals self.old) }
        ensures refused { honest self.old
            → OnErr result (refusals self.new ≡ refusals self.old + 1) };

    /// Writes bytes from an offset on. After an Err any bytes may be there.
    fn write_at(&mut self, at: usize, bytes: &[u8]) -> Result<(), DeviceFault>
        requires within { at + length bytes.now ≤ 32 }
        requires no_hole { honest self.old → at ≤ length (now self.old) }
        ensures written { honest self.old
            → OnOk result (now self.new ≡ written at bytes.now (now self.old)) }
        ensures torn { honest self.old
            → OnErr result (FailedWrite at (length bytes.now) (now self.old) (now self.new)) }
        ensures writes { writes self.old at bytes.now result self.new }
        ensures passes { honest self.old → past self.new ≡ past self.old
            ++ now self.old ∷ within_write at (length bytes.now) (now self.old) ∷ [] }
        ensures name { honest self.old → named self.old → named self.new }
        ensures honesty { honest self.old ↔ honest self.new }
        ensures ok { OnOk result (failures self.new ≡ failures self.old) }
        ensures failed { OnErr result (failures self.new ≡ failures self.old + 1) }
        ensures taken { honest self.old → OnOk result (refusals self.new ≡ refusals self.old) }
        ensures refused { honest self.old
            → OnErr result (refusals self.new ≡ refusals self.old + 1) };

    /// Makes the file's name, and the bytes written since the last sync, outlast a crash. After an
    /// Err these bytes may be lost.
    fn sync(&mut self) -> Result<(), DeviceFault>
        ensures synced { honest self.old → OnOk result (now self.new ≡ synced (now self.old)) }
        ensures named { honest self.old → OnOk result (named self.new) }
        ensures unsynced { honest self.old
            → OnErr result (StillKept (now self.old) (now self.new)) }
        ensures syncs { syncs self.old result self.new }
        ensures passes { honest self.old
            → past self.new ≡ past self.old ++ now self.old ∷ [] }
        ensures name { honest self.old → named self.old → named self.new }
        ensures honesty { honest self.old ↔ honest self.new }
        ensures ok { OnOk result (failures self.new ≡ failures self.old) }
        ensures failed { OnErr result (failures self.new ≡ failures self.old + 1) }
        ensures taken { honest self.old → OnOk result (refusals self.new ≡ refusals self.old) }
        ensures refused { honest self.old
            → OnErr result (refusals self.new ≡ refusals self.old + 1) };
}
