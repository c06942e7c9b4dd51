//! All faults of a text of settings.
ghost use Rattle.std.specs.Prelude.{Some, IfOk};
ghost use Rattle.toml.specs.Parse.{parse_document};
ghost use Rattle.toml.specs.View.{table_view};
ghost use Rattle.settings_file.specs.Settings.{HasRead};

use crate::bad_values::bad_values;
use crate::missing::missing_keys;
use crate::reading::well_formed_settings;
use crate::unknown::unknown_keys;
use crate::works::keys_that_cant_work;
use crate::{Key, SettingFault};
use settings::Settings;
use std::alloc::{AllocError, Global};
use toml::Table;

/// All faults of the first kind of which a text has one, or its settings.
#[derive(Drop)]
pub enum Examination {
    /// The text isn't TOML.
    NotToml,
    /// The paths of all keys that settings don't have.
    UnknownKeys(Vec<String>),
    /// All required keys that are missing.
    MissingKeys(Vec<Key>),
    /// All keys whose values have another type than the key's, or lie beyond its limits.
    BadValues(Vec<Key>),
    /// The two gateways' port ranges share a port.
    RangesOverlap,
    /// The two gateways share an address, a MAC or a loopback port, or one has a virtual address.
    SameIds,
    /// The text has settings; `unworkable` are all keys whose values can never work.
    WellFormed {
        settings: Settings,
        unworkable: Vec<Key>,
    },
}

/// Finds all faults of a text's first kind, of which [`read`](crate::read) returns the first.
///
/// # Errors
///
/// Out of memory.
pub fn examine(alloc: Global, text: &str) -> Result<Examination, AllocError>
    ensures { IfOk result (HasRead (parse_document text.now)) }
{
    match toml::table_from_str(alloc, text) {
        Ok(document) => examine_document(alloc, &document),
        Err(fault) if fault.is_memory() => Err(AllocError),
        Err(_) => Ok(Examination::NotToml),
    }
}

fn examine_document(alloc: Global, document: &Table) -> Result<Examination, AllocError>
    ensures { IfOk result (HasRead (Some (table_view document.now))) }
{
    match well_formed_settings(alloc, document) {
        Ok(settings) => {
            let unworkable = keys_that_cant_work(alloc, &settings)?;
            Ok(Examination::WellFormed {
                settings,
                unworkable,
            })
        }
        Err(SettingFault::UnknownKey(_)) => {
            Ok(Examination::UnknownKeys(unknown_keys(alloc, document)?))
        }
        Err(SettingFault::Missing(_)) => {
            Ok(Examination::MissingKeys(missing_keys(alloc, document)?))
        }
        Err(SettingFault::BadValue(_)) => Ok(Examination::BadValues(bad_values(alloc, document)?)),
        Err(SettingFault::RangesOverlap) => Ok(Examination::RangesOverlap),
        Err(SettingFault::SameIds) => Ok(Examination::SameIds),
        Err(SettingFault::NotToml) => Ok(Examination::NotToml),
        Err(SettingFault::CantWork(_) | SettingFault::NoMemory) => Err(AllocError),
    }
}
