//! The refusals of a start.
ghost use Rattle.std.specs.Prelude.{◌≡◌};
ghost use Rattle.boot_store.specs.declared.faults.BootFault.TheVariants.{Device};

use crate::DeviceFault;
use thiserror::Error;

/// The reason for which a start has no boot number.
#[derive(Clone, Copy, Debug, PartialEq, Eq, Error)]
pub enum BootFault {
    /// This call of the disk failed.
    #[error("{0}")]
    Device(DeviceFault),
    /// No slot of the file is valid, or the file has fewer than 32 bytes.
    #[error("the boot file has no valid slot")]
    Damaged,
    /// The file has the greatest number, 2^64 - 1.
    #[error("the boot numbers are used up")]
    BootsUsedUp,
    /// A pair is to be founded with a file whose number isn't 0.
    #[error("the boot file was used before")]
    FoundTwice,
}

impl From<DeviceFault> for BootFault {
    ghost from_gives = { λ fault e. e ≡ Device fault };

    fn from(fault: DeviceFault) -> Self {
        BootFault::Device(fault)
    }
}
