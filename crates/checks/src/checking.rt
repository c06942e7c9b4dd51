//! The check of a text of settings.

use crate::boot_files::report_boot_file;
use crate::findings::Findings;
use crate::places::report_places;
use crate::{CheckOptions, Warning, WarningKind, warnings_of};
use faults::{Fault, TextFile};
use nat_types::GatewayId;
use settings::Settings;
use settings_file::{Examination, Explainer, Key, Section, SettingFault, examine};
use std::alloc::{AllocError, Global};
use std::fs::{File, Files};
use std::io::Write;

/// Writes every fault and every warning of a file of settings, each on a line with its key, then the findings on the
/// interfaces, the address and the boot file of the options, and last the number of faults and of warnings. A second
/// line below each fault says where and why. Returns the exit status: 1 where there is a fault, or a warning of a
/// strict check, else 0.
///
/// # Errors
///
/// `NotWritten`; `NoMemory`, and then nothing is written.
pub fn check<R: Files<File = File> + AllocGlobal, W: Write>(
    rt: &R,
    file: TextFile<'_>,
    options: &CheckOptions<'_>,
    output: &mut W,
) -> Result<u8, Fault> {
    let mut findings = Findings::new(rt.alloc());
    let examination = examine(rt.alloc(), file.text)?;
    report_faults(rt.alloc(), &examination, file, &mut findings)?;
    if let Examination::WellFormed { settings, .. } = &examination {
        report_settings(rt, settings, options, &mut findings)?;
    }
    findings.write(options.strict, output)
}

/// What is wrong with the keys of an examination.
#[derive(Clone, Copy)]
enum KeyFault {
    Missing,
    BadValue,
    CantWork,
}

impl KeyFault {
    /// Returns the fault of a key.
    fn of(self, key: Key) -> SettingFault {
        match self {
            KeyFault::Missing => SettingFault::Missing(key),
            KeyFault::BadValue => SettingFault::BadValue(key),
            KeyFault::CantWork => SettingFault::CantWork(key),
        }
    }
}

/// Reports the faults of a text.
fn report_faults(
    alloc: Global,
    examination: &Examination,
    file: TextFile<'_>,
    findings: &mut Findings,
) -> Result<(), AllocError> {
    let mut explainer = Explainer::new(alloc, file.path, file.text);
    let explainer = &mut explainer;
    match examination {
        Examination::NotToml => report_fault(&SettingFault::NotToml, explainer, findings),
        Examination::UnknownKeys(paths) => {
            for path in paths.as_slice() {
                let path = String::from_str(alloc, path.as_str())?;
                report_fault(&SettingFault::UnknownKey(path), explainer, findings)?;
            }
            Ok(())
        }
        Examination::MissingKeys(keys) => {
            report_keys(keys.as_slice(), KeyFault::Missing, explainer, findings)
        }
        Examination::BadValues(keys) => {
            report_keys(keys.as_slice(), KeyFault::BadValue, explainer, findings)
        }
        Examination::RangesOverlap => {
            report_fault(&SettingFault::RangesOverlap, explainer, findings)
        }
        Examination::SameIds => report_fault(&SettingFault::SameIds, explainer, findings),
        Examination::WellFormed { unworkable, .. } => {
            report_keys(
                unworkable.as_slice(),
                KeyFault::CantWork,
                explainer,
                findings,
            )
        }
    }
}

/// Reports a fault of each of some keys.
fn report_keys(
    keys: &[Key],
    fault: KeyFault,
    explainer: &mut Explainer<'_>,
    findings: &mut Findings,
) -> Result<(), AllocError> {
    for key in keys {
        report_fault(&fault.of(*key), explainer, findings)?;
    }
    Ok(())
}

/// Reports a fault, and where and why.
fn report_fault(
    fault: &SettingFault,
    explainer: &mut Explainer<'_>,
    findings: &mut Findings,
) -> Result<(), AllocError> {
    findings.fault(format_args!("settings {fault}"))?;
    match explainer.explain(fault) {
        Some(why) => findings.reason(why.as_str()),
        None => Ok(()),
    }
}

/// Reports the warnings of settings, and the findings on what the options name.
fn report_settings<R: Files<File = File> + AllocGlobal>(
    rt: &R,
    settings: &Settings,
    options: &CheckOptions<'_>,
    findings: &mut Findings,
) -> Result<(), AllocError> {
    report_warnings(rt.alloc(), settings, options.id, findings)?;
    report_places(rt, settings, options, findings)?;
    match options.id {
        Some(id) => report_boot_file(rt, settings, id, findings),
        None => Ok(()),
    }
}

/// Reports the warnings of settings. A warning that keeps the box of the options from starting is a fault.
fn report_warnings(
    alloc: Global,
    settings: &Settings,
    id: Option<GatewayId>,
    findings: &mut Findings,
) -> Result<(), AllocError> {
    let warnings = warnings_of(alloc, settings)?;
    for warning in warnings.as_slice() {
        let key = warning.key;
        match prevented_start(id, warning) {
            Some(id) => {
                findings.fault(format_args!("socket 2 LongPath {key}"))?;
                let length = settings.gateway(id).boot_file.len();
                findings.reason_of(&Fault::LongPath(length))?;
            }
            None => {
                let kind = warning.kind;
                findings.warning(format_args!("{key}: {kind}"))?;
            }
        }
    }
    Ok(())
}

/// Returns the box of the options where it can't start since the path of its control socket is too long.
fn prevented_start(id: Option<GatewayId>, warning: &Warning) -> Option<GatewayId> {
    let is_own = match id? {
        GatewayId::Zero => matches!(warning.key.section, Section::GatewayZero),
        GatewayId::One => matches!(warning.key.section, Section::GatewayOne),
    };
    if is_own && matches!(warning.kind, WarningKind::LongPath) {
        id
    } else {
        None
    }
}
