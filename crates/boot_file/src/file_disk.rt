//! A boot file and its folder, as a disk of `boot_store`.
ghost use Rattle.std.specs.Prelude.{◌≡◌, ◌+◌, ◌≤◌, ◌↔◌, ◌++◌, ◌∷◌, [], take, IfOk, OnErr, OnOk};
ghost use Rattle.boot_store.specs.Moment.{StillKept, bytes_of, synced};

use crate::Blocks;
use boot_store::{DeviceFault, Disk, Failures};
use std::io;

/// The length of a boot file, in bytes.
const LENGTH: usize = 32;

/// An open boot file with its folder. The disk is honest if the file's blocks are. System calls that fail are counted.
#[derive(Drop)]
pub struct FileDisk<F> {
    file: F,
    folder: F,
    failures: Failures,
}

impl<F: Drop> FileDisk<F> {
    /// Returns the disk of a file and of the folder that has the file's name.
    pub fn new(file: F, folder: F) -> Self {
        FileDisk {
            file,
            folder,
            failures: Failures::none(),
        }
    }

    /// Gives up the disk, and returns its file.
    pub fn into_file(self) -> F {
        let FileDisk {
            file,
            folder: _,
            failures: _,
        } = self;
        file
    }
}

impl<F: Blocks + Drop> FileDisk<F> {
    /// Counts a system call that failed, and returns its fault.
    fn failed(&mut self, fault: DeviceFault) -> DeviceFault
        ensures fault { result ≡ fault }
        ensures file { self.new.file ≡ self.old.file }
        ensures failures { self.new.failures ≡ self.old.failures + 1 }
    {
        self.failures.count();
        fault
    }
}

impl<F: Blocks + Drop> Disk for FileDisk<F> {
    ghost now = { λ d. F.now d.file };

    ghost past = { λ d. F.past d.file };

    ghost failures = { λ d. d.failures };

    ghost refusals = { λ d. F.refusals d.file };

    ghost named = { λ d. F.named d.file };

    ghost honest = { λ d. F.honest d.file };

    fn read(&mut self, buffer: &mut [u8; 32]) -> Result<usize, DeviceFault> {
        match self.file.drop_cache() {
            Ok(()) => match fill(&mut self.file, buffer) {
                Ok(count) => Ok(count),
                Err(error) => Err(self.failed(DeviceFault::Read(error.kind()))),
            },
            Err(error) => Err(self.failed(DeviceFault::Read(error.kind()))),
        }
    }

    fn write_at(&mut self, at: usize, bytes: &[u8]) -> Result<(), DeviceFault> {
        match self.file.write_at(at, bytes) {
            Ok(count) if count == bytes.len() => Ok(()),
            Ok(_) => Err(self.failed(DeviceFault::ShortWrite)),
            Err(error) => Err(self.failed(DeviceFault::Write(error.kind()))),
        }
    }

    fn sync(&mut self) -> Result<(), DeviceFault> {
        match sync_both(&mut self.file, &self.folder) {
            Ok(()) => Ok(()),
            Err(fault) => Err(self.failed(fault)),
        }
    }
}

/// Syncs a file, and then the folder that has its name.
fn sync_both<F: Blocks>(file: &mut F, folder: &F) -> Result<(), DeviceFault>
    ensures synced { F.honest file.old
        → OnOk result (F.now file.new ≡ synced (F.now file.old)) }
    ensures named { F.honest file.old → OnOk result (F.named file.new) }
    ensures unsynced { F.honest file.old
        → OnErr result (StillKept (F.now file.old) (F.now file.new)) }
    ensures passes { F.honest file.old
        → F.past file.new ≡ F.past file.old ++ F.now file.old ∷ [] }
    ensures name { F.honest file.old → F.named file.old → F.named file.new }
    ensures honesty { F.honest file.old ↔ F.honest file.new }
    ensures taken { F.honest file.old → OnOk result (F.refusals file.new ≡ F.refusals file.old) }
    ensures refused { F.honest file.old
        → OnErr result (F.refusals file.new ≡ F.refusals file.old + 1) }
{
    match file.sync() {
        Ok(()) => match file.sync_name(folder) {
            Ok(()) => Ok(()),
            Err(error) => Err(DeviceFault::NameSync(error.kind())),
        },
        Err(error) => Err(DeviceFault::Sync(error.kind())),
    }
}

/// Reads the file's first bytes until the buffer is full or the file ends, and returns how many.
fn fill<F: Blocks>(file: &mut F, buffer: &mut [u8; 32]) -> io::Result<usize>
    ensures count { IfOk result (λ n. n ≤ 32) }
    ensures filled { F.honest file.old
        → IfOk result (λ n. take n buffer.new ≡ take 32 (bytes_of (F.now file.old))) }
    ensures same { F.honest file.old → F.now file.new ≡ F.now file.old }
    ensures passes { F.honest file.old → F.past file.new ≡ F.past file.old }
    ensures name { F.honest file.old → F.named file.old → F.named file.new }
    ensures honesty { F.honest file.old ↔ F.honest file.new }
    ensures taken { F.honest file.old → OnOk result (F.refusals file.new ≡ F.refusals file.old) }
    ensures refused { F.honest file.old
        → OnErr result (F.refusals file.new ≡ F.refusals file.old + 1) }
{
    let mut filled = 0;
    while filled < LENGTH {
        match file.read_at(filled, &mut buffer[filled..]) {
            Ok(0) => return Ok(filled),
            Ok(count) => filled += count,
            Err(error) => return Err(error),
        }
    }
    Ok(filled)
}
