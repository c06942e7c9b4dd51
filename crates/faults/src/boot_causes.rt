//! Why a boot file gives no number, in plain words.

use crate::Cause;
use boot_store::DeviceFault;
use std::fmt::{self, Display, Formatter};

/// Why a boot file gives no number.
#[derive(Clone, Copy, Debug)]
pub enum BootCause {
    /// The file is a pipe or a device.
    NotRegular,
    /// The system can't read the file, write it or sync it.
    Device(DeviceFault),
    /// The file has fewer than 32 bytes.
    Short,
    /// Neither of the file's two numbers has its check.
    Invalid,
    /// The number is the greatest one.
    UsedUp,
    /// The number isn't 0.
    Used,
}

impl BootCause {
    /// Returns the number and the name of the fault, as `2 Damaged`.
    pub fn fault(self) -> &'static str {
        match self {
            BootCause::NotRegular | BootCause::Device(_) => "1 Device",
            BootCause::Short | BootCause::Invalid => "2 Damaged",
            BootCause::UsedUp => "3 BootsUsedUp",
            BootCause::Used => "4 FoundTwice",
        }
    }
}

impl Display for BootCause {
    fn fmt<W: fmt::Write>(&self, f: &mut Formatter<W>) -> fmt::Result {
        match self {
            BootCause::NotRegular => f.write_str("it is no regular file"),
            BootCause::Device(fault) => write!(f, "{}", DeviceCause(*fault)),
            BootCause::Short => f.write_str("it has fewer than 32 bytes"),
            BootCause::Invalid => f.write_str("neither of its two numbers is valid"),
            BootCause::UsedUp => f.write_str("its number is the greatest that there is"),
            BootCause::Used => { f.write_str("it was used before; only a new one founds a pair") }
        }
    }
}

/// Why a call of a boot file failed.
#[derive(Clone, Copy, Debug)]
pub(crate) struct DeviceCause(pub(crate) DeviceFault);

impl Display for DeviceCause {
    fn fmt<W: fmt::Write>(&self, f: &mut Formatter<W>) -> fmt::Result {
        match self.0 {
            DeviceFault::Read(cause) => write!(f, "the system can't read it: {}", Cause(cause)),
            DeviceFault::Write(cause) => write!(f, "the system can't write it: {}", Cause(cause)),
            DeviceFault::ShortWrite => f.write_str("the system wrote only a part of it"),
            DeviceFault::Sync(cause) => write!(f, "the system can't sync it: {}", Cause(cause)),
            DeviceFault::NameSync(cause) => {
                write!(f, "the system can't sync its folder: {}", Cause(cause))
            }
        }
    }
}
