//! A disk in memory for tests and laws, which stops, tears writes and fails as it is set to.
ghost use Rattle.std.specs.Prelude.{◌≡◌, ◌≤◌, ◌+◌, [], length};
ghost use Rattle.boot_store.specs.Moment.{MayLeave, bytes_of, left_by_crash};
ghost use Rattle.boot_store.specs.Plans.{IsRead, IsSync, IsWrite, any_of, good_calls_of, trouble_of};
ghost use Rattle.boot_store.specs.Troubles.{fate_of, good_calls_left, trouble_left, written_as};

use crate::cells::{crash_cells, lose_cells, read_cells, show_cells, sync_cells, write_cells};
use crate::pasts::Past;
use crate::{Cell, DeviceFault, Disk, Failures, Hold};
use std::io::ErrorKind;

/// The fault of a modelled disk that comes once its good calls are used up.
#[derive(Clone, Copy, Debug, PartialEq, Eq)]
pub enum Trouble {
    /// Nothing goes wrong.
    None,
    /// One call fails. A sync that fails loses what was written since the last one: later syncs
    /// succeed and don't write it.
    FailsOnce,
    /// The disk stops before a call: that call and all later ones fail.
    StopsBefore,
    /// The disk stops within a call: that call and all later ones fail.
    StopsWithin,
}

/// The outcome of a call: done; failed, with what it leaves by the kind of call; or without effect.
#[derive(Clone, Copy, Debug, PartialEq, Eq)]
enum Fate {
    Done,
    Torn,
    Undone,
}

/// An honest disk of 32 bytes in memory.
#[derive(Drop)]
pub struct ModelDisk {
    cells: [Cell; 32],
    any: [u8; 32],
    good_calls: u64,
    trouble: Trouble,
    past: Past,
    failures: Failures,
}

impl ModelDisk {
    /// Returns a disk with these bytes, all of them kept, with which nothing goes wrong. No call of
    /// the disk has been made or has failed.
    pub fn new(file: &[u8; 32]) -> Self
        ensures now { ⟦<ModelDisk as Disk>⟧.now result ≡ left_by_crash file.now }
        ensures past { ⟦<ModelDisk as Disk>⟧.past result ≡ [] }
        ensures failures { ⟦<ModelDisk as Disk>⟧.failures result ≡ 0 }
        ensures calm { trouble_of result ≡ Trouble.None }
    {
        let mut cells = [Cell {
            byte: 0,
            hold: Hold::Kept,
        }; 32];
        write_cells(&mut cells, 0, file);
        sync_cells(&mut cells);
        ModelDisk {
            cells,
            any: [0; 32],
            good_calls: 0,
            trouble: Trouble::None,
            past: Past::none(),
            failures: Failures::none(),
        }
    }

    /// Sets the fault that comes after `good_calls` good calls. A write that fails, or in which the
    /// disk stops, leaves those bytes of `any` that have its offsets. A sync that fails does the
    /// same once the disk is read or has crashed.
    pub fn set_trouble(&mut self, good_calls: u64, trouble: Trouble, any: &[u8; 32])
        ensures now { ⟦<ModelDisk as Disk>⟧.now self.new
            ≡ ⟦<ModelDisk as Disk>⟧.now self.old }
        ensures past { ⟦<ModelDisk as Disk>⟧.past self.new
            ≡ ⟦<ModelDisk as Disk>⟧.past self.old }
        ensures failures { ⟦<ModelDisk as Disk>⟧.failures self.new
            ≡ ⟦<ModelDisk as Disk>⟧.failures self.old }
        ensures good_calls { good_calls_of self.new ≡ good_calls }
        ensures trouble { trouble_of self.new ≡ trouble }
        ensures any { any_of self.new ≡ any.now }
    {
        self.good_calls = good_calls;
        self.trouble = trouble;
        self.any = *any;
    }

    /// Changes the bytes as a crash does, after which nothing goes wrong. A byte that isn't kept
    /// becomes the one at its place in `any`. A crash counts neither as a call nor as a failure.
    pub fn crash(&mut self, any: &[u8; 32])
        ensures may { MayLeave (⟦<ModelDisk as Disk>⟧.now self.old)
            (bytes_of (⟦<ModelDisk as Disk>⟧.now self.new)) }
        ensures picked { MayLeave (⟦<ModelDisk as Disk>⟧.now self.old) any.now
            → bytes_of (⟦<ModelDisk as Disk>⟧.now self.new) ≡ any.now }
        ensures kept { ⟦<ModelDisk as Disk>⟧.now self.new
            ≡ left_by_crash (bytes_of (⟦<ModelDisk as Disk>⟧.now self.new)) }
        ensures past { ⟦<ModelDisk as Disk>⟧.past self.new
            ≡ ⟦<ModelDisk as Disk>⟧.past self.old }
        ensures failures { ⟦<ModelDisk as Disk>⟧.failures self.new
            ≡ ⟦<ModelDisk as Disk>⟧.failures self.old }
        ensures calm { trouble_of self.new ≡ Trouble.None }
    {
        crash_cells(&mut self.cells, any);
        self.trouble = Trouble::None;
    }

    /// Returns the file's 32 bytes as they are now. Bytes that are lost are still the old ones,
    /// since nothing is read.
    pub fn bytes(&self) -> [u8; 32]
        ensures { result ≡ bytes_of (⟦<ModelDisk as Disk>⟧.now self.now) }
    {
        let mut file = [0; 32];
        read_cells(&self.cells, &mut file);
        file
    }

    /// Returns the outcome of the next call, and counts the call.
    fn fate(&mut self) -> Fate
        ensures fate { result ≡ fate_of self.old.good_calls self.old.trouble }
        ensures left { self.new.trouble ≡ trouble_left self.old.good_calls self.old.trouble }
        ensures counted { self.new.good_calls
            ≡ good_calls_left self.old.good_calls self.old.trouble }
        ensures cells { self.new.cells ≡ self.old.cells }
        ensures any { self.new.any ≡ self.old.any }
        ensures past { self.new.past ≡ self.old.past }
        ensures failures { self.new.failures ≡ self.old.failures }
    {
        let (fate, good_calls, trouble) = next_fate(self.good_calls, self.trouble);
        self.good_calls = good_calls;
        self.trouble = trouble;
        fate
    }

    /// Carries a write out as far as the disk's fault lets it, and returns the outcome.
    fn write(&mut self, at: usize, bytes: &[u8]) -> Fate
        requires within { at + length bytes.now ≤ 32 }
        ensures fate { result ≡ fate_of self.old.good_calls self.old.trouble }
        ensures left { self.new.trouble ≡ trouble_left self.old.good_calls self.old.trouble }
        ensures counted { self.new.good_calls
            ≡ good_calls_left self.old.good_calls self.old.trouble }
        ensures any { self.new.any ≡ self.old.any }
        ensures cells { self.new.cells
            ≡ written_as result at bytes.now self.old.any self.old.cells }
        ensures past { self.new.past ≡ self.old.past }
        ensures failures { self.new.failures ≡ self.old.failures }
    {
        let fate = self.fate();
        match fate {
            Fate::Done => write_cells(&mut self.cells, at, bytes),
            Fate::Torn => {
                let any = self.any;
                write_cells(&mut self.cells, at, &any[at..at + bytes.len()]);
            }
            Fate::Undone => {}
        }
        fate
    }

    /// Counts a call that failed, and returns its fault.
    fn failed(&mut self, fault: DeviceFault) -> DeviceFault
        ensures fault { result ≡ fault }
        ensures cells { self.new.cells ≡ self.old.cells }
        ensures good_calls { self.new.good_calls ≡ self.old.good_calls }
        ensures trouble { self.new.trouble ≡ self.old.trouble }
        ensures any { self.new.any ≡ self.old.any }
        ensures past { self.new.past ≡ self.old.past }
        ensures failures { self.new.failures ≡ self.old.failures + 1 }
    {
        self.failures.count();
        fault
    }
}

/// Returns the outcome of the next call, and the good calls and the fault that are left after it.
fn next_fate(good_calls: u64, trouble: Trouble) -> (Fate, u64, Trouble)
    ensures fate { result.0 ≡ fate_of good_calls trouble }
    ensures left { result.2 ≡ trouble_left good_calls trouble }
    ensures counted { result.1 ≡ good_calls_left good_calls trouble }
{
    match trouble {
        Trouble::None => (Fate::Done, good_calls, trouble),
        _ if good_calls > 0 => (Fate::Done, good_calls - 1, trouble),
        Trouble::FailsOnce => (Fate::Torn, 0, Trouble::None),
        Trouble::StopsWithin => (Fate::Torn, 0, Trouble::StopsBefore),
        Trouble::StopsBefore => (Fate::Undone, 0, trouble),
    }
}

impl Disk for ModelDisk {
    ghost now = { λ d. d.cells };

    ghost past = { λ d. d.past };

    ghost failures = { λ d. d.failures };

    ghost refusals = { λ d. d.failures };

    ghost named = { λ _. Unit {0} };

    ghost honest = { λ _. Unit {0} };

    ghost reads = { IsRead };

    ghost writes = { IsWrite };

    ghost syncs = { IsSync };

    fn read(&mut self, room: &mut [u8; 32]) -> Result<usize, DeviceFault> {
        self.past.keep(&self.cells);
        if self.fate() == Fate::Done {
            let any = self.any;
            show_cells(&mut self.cells, &any);
            read_cells(&self.cells, room);
            return Ok(32);
        }
        Err(self.failed(DeviceFault::Read(ErrorKind::Other)))
    }

    fn write_at(&mut self, at: usize, bytes: &[u8]) -> Result<(), DeviceFault> {
        self.past.keep(&self.cells);
        let file = self.bytes();
        let end = at + bytes.len();
        let mut within = self.cells;
        write_cells(&mut within, at, &file[at..end]);
        self.past.keep(&within);
        match self.write(at, bytes) {
            Fate::Done => Ok(()),
            Fate::Torn | Fate::Undone => { Err(self.failed(DeviceFault::Write(ErrorKind::Other))) }
        }
    }

    fn sync(&mut self) -> Result<(), DeviceFault> {
        self.past.keep(&self.cells);
        match self.fate() {
            Fate::Done => {
                sync_cells(&mut self.cells);
                return Ok(());
            }
            Fate::Torn => lose_cells(&mut self.cells),
            Fate::Undone => {}
        }
        Err(self.failed(DeviceFault::Sync(ErrorKind::Other)))
    }
}
