//! The faults of a text of settings.

use crate::Key;
use crate::shown::Visible;
use std::alloc::{AllocError, AllocFailed};
use std::fmt;
use thiserror::Error;

/// The reason for which a text has no settings. Its `Display` is a number, a name and a key, as
/// `2 Missing outside.router`.
///
/// Faults are looked for in this order: `NotToml`, `UnknownKey`, `Missing`, `BadValue`, `RangesOverlap`, `SameIds`,
/// `CantWork`. Of several missing keys, bad values or keys that can't work the fault has the first in the order of the
/// keys.
#[derive(Drop, Error)]
pub enum SettingFault {
    /// The text isn't TOML.
    #[error("1 NotToml")]
    NotToml,
    /// A required key is missing.
    #[error("2 Missing {0}")]
    Missing(Key),
    /// The value has another type than the key's, or lies beyond its limits.
    #[error("3 BadValue {0}")]
    BadValue(Key),
    /// The two gateways' port ranges share a port.
    #[error("4 RangesOverlap")]
    RangesOverlap,
    /// The two gateways share an address, a MAC or a loopback port, or one has a virtual address.
    #[error("5 SameIds")]
    SameIds,
    /// The text has a key that settings don't have. Of several paths this is the least by bytes. It is printed with `?` for
    /// each control character.
    #[error("6 UnknownKey {}", Visible(.0.as_str()))]
    UnknownKey(String),
    /// The value can never work, as an address that no host has.
    #[error("7 CantWork {0}")]
    CantWork(Key),
    /// Out of memory.
    #[error("1 NoMemory")]
    NoMemory,
}

/// Prints the text of `Display`.
impl fmt::Debug for SettingFault {
    fn fmt<W: fmt::Write>(&self, f: &mut fmt::Formatter<W>) -> fmt::Result {
        fmt::Display::fmt(self, f)
    }
}

impl From<AllocError> for SettingFault {
    ghost use Rattle.std.specs.Prelude.{◌≡◌};
    ghost use Rattle.settings_file.specs.declared.faults.SettingFault.TheVariants as faults;

    ghost from_gives = { λ _ fault. fault ≡ faults.NoMemory };

    fn from(_: AllocError) -> SettingFault {
        SettingFault::NoMemory
    }
}

impl<T: Drop> From<AllocFailed<T>> for SettingFault {
    ghost use Rattle.std.specs.Prelude.{◌≡◌};
    ghost use Rattle.settings_file.specs.declared.faults.SettingFault.TheVariants as faults;

    ghost from_gives = { λ _ fault. fault ≡ faults.NoMemory };

    fn from(_: AllocFailed<T>) -> SettingFault {
        SettingFault::NoMemory
    }
}

/// Returns `BadValue` of the key.
impl From<Key> for SettingFault {
    ghost use Rattle.std.specs.Prelude.{◌≡◌};
    ghost use Rattle.settings_file.specs.declared.faults.SettingFault.TheVariants as faults;

    ghost from_gives = { λ key fault. fault ≡ faults.BadValue key };

    fn from(key: Key) -> SettingFault {
        SettingFault::BadValue(key)
    }
}
