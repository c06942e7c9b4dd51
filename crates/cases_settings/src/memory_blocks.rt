//! A file in memory that keeps the contract of `Blocks`.
ghost use Rattle.std.specs.Prelude.{◌≡◌, ◌⊎◌, ◌+◌, ◌≤◌, length, take, drop, IsTrue};

use boot_file::Blocks;
use boot_store::{Disk, Failures, ModelDisk, Trouble};
use std::io::{self, ErrorKind};

/// A file of 32 bytes in memory, whose calls fail as the cases say.
#[derive(Drop)]
pub struct MemoryBlocks {
    disk: ModelDisk,
    /// Whether the file's name outlasts a crash.
    named: bool,
    /// The most bytes that a read gives.
    most: usize,
    /// Whether a write that fails says that it was short.
    is_short: bool,
    /// Whether syncing the folder fails.
    is_stuck: bool,
    /// How often the file's name couldn't be kept.
    unnamed: Failures,
}

impl MemoryBlocks {
    /// Returns a file with these bytes, all of them kept, of which no call fails.
    pub fn new(file: &[u8; 32], named: bool) -> MemoryBlocks {
        MemoryBlocks {
            disk: ModelDisk::new(file),
            named,
            most: 32,
            is_short: false,
            is_stuck: false,
            unnamed: Failures::none(),
        }
    }

    /// Returns the folder that has the file's name.
    pub fn folder(&self) -> MemoryBlocks {
        let mut folder = MemoryBlocks::new(&[0; 32], true);
        folder.is_stuck = self.is_stuck;
        folder
    }

    /// Sets the most bytes that a read gives, and whether syncing the folder fails.
    pub fn set_limits(&mut self, most: usize, is_stuck: bool) {
        self.most = most;
        self.is_stuck = is_stuck;
    }

    /// Sets what goes wrong after this many good calls, which are drops of the cache, writes and syncs. With `is_short`
    /// a write that fails says that it was short.
    pub fn set_trouble(&mut self, calls: u64, trouble: Trouble, is_short: bool, any: &[u8; 32]) {
        self.disk.set_trouble(calls, trouble, any);
        self.is_short = is_short;
    }

    /// Crashes; the bytes `any` are left in the places whose bytes aren't kept. Answers whether the file's name is
    /// left.
    pub fn crash(&mut self, any: &[u8; 32]) -> bool {
        self.disk.crash(any);
        self.named
    }

    /// Returns the bytes of the file at this time.
    pub fn bytes(&self) -> [u8; 32] {
        self.disk.bytes()
    }
}

/// Returns how many bytes of 32 are read from place `at` on: at most `most`, but at least one where there is one and
/// the buffer isn't empty.
fn part_length(room: usize, at: usize, most: usize) -> usize
    ensures room { result ≤ room }
    ensures within { at ≤ 32 → at + result ≤ 32 }
    ensures end { result ≡ 0 → (room ≡ 0) ⊎ (32 ≤ at) }
{
    room.min(32_usize.saturating_sub(at)).min(most.max(1))
}

/// Copies bytes from place `at` on to the buffer's front, at most `most` but at least one, and returns how many.
fn copy_part(bytes: &[u8; 32], at: usize, most: usize, room: &mut [u8]) -> usize
    ensures count { result ≤ length room.old }
    ensures bytes { take result room.new ≡ take result (drop at bytes.now) }
    ensures end { result ≡ 0 → (length room.old ≡ 0) ⊎ (length bytes.now ≤ at) }
{
    if at >= bytes.len() {
        return 0;
    }
    let count = part_length(room.len(), at, most);
    room[..count].copy_from_slice(&bytes[at..at + count]);
    count
}

impl Blocks for MemoryBlocks {
    ghost now = { λ b. ⟦<ModelDisk as Disk>⟧.now b.disk };

    ghost past = { λ b. ⟦<ModelDisk as Disk>⟧.past b.disk };

    ghost named = { λ b. IsTrue b.named };

    ghost refusals = { λ b. ⟦<ModelDisk as Disk>⟧.refusals b.disk + b.unnamed };

    ghost honest = { λ _. Unit {0} };

    fn read_at(&mut self, at: usize, room: &mut [u8]) -> io::Result<usize> {
        let bytes = self.disk.bytes();
        Ok(copy_part(&bytes, at, self.most, room))
    }

    fn write_at(&mut self, at: usize, bytes: &[u8]) -> io::Result<usize> {
        match self.disk.write_at(at, bytes) {
            Ok(()) => Ok(bytes.len()),
            Err(_) if self.is_short && !bytes.is_empty() => Ok(bytes.len() / 2),
            Err(_) => Err(ErrorKind::Other.into()),
        }
    }

    fn sync(&mut self) -> io::Result<()> {
        match self.disk.sync() {
            Ok(()) => Ok(()),
            Err(_) => Err(ErrorKind::Other.into()),
        }
    }

    fn sync_name(&mut self, folder: &Self) -> io::Result<()> {
        if folder.is_stuck {
            self.unnamed.count();
            return Err(ErrorKind::Other.into());
        }
        self.named = true;
        Ok(())
    }

    fn drop_cache(&mut self) -> io::Result<()> {
        let mut room = [0; 32];
        match self.disk.read(&mut room) {
            Ok(_) => Ok(()),
            Err(_) => Err(ErrorKind::Other.into()),
        }
    }
}
