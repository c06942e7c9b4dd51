//! A disk whose file may be too short, and whose contract claims nothing.
ghost use Rattle.std.specs.Prelude.{[]};

use boot_store::{DeviceFault, Disk};

/// A file of this many zero bytes.
#[derive(Drop)]
pub struct Short(pub usize);

impl Disk for Short {
    ghost now = { λ _. [] };

    ghost past = { λ _. [] };

    ghost failures = { λ _. 0 };

    ghost refusals = { λ _. 0 };

    ghost named = { λ _. ⊥ };

    ghost honest = { λ _. ⊥ };

    fn read(&mut self, _room: &mut [u8; 32]) -> Result<usize, DeviceFault> {
        Ok(self.0.min(32))
    }

    fn write_at(&mut self, _at: usize, _bytes: &[u8]) -> Result<(), DeviceFault> {
        Ok(())
    }

    fn sync(&mut self) -> Result<(), DeviceFault> {
        Ok(())
    }
}
