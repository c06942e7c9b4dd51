//! The findings on a box's boot file.

use crate::findings::Findings;
use boot_store::{DeviceFault, slot_number};
use faults::{BootCause, Cause};
use nat_types::GatewayId;
use settings::Settings;
use settings_file::{Key, Name, Section};
use std::alloc::AllocError;
use std::fs::{self, File, Files, OpenFile, TryLockError};
use std::io::{self, ErrorKind, Read};
use std::os::unix::fs::PermissionsExt;

/// The size of a slot of a boot file, in bytes. A boot file has two slots.
const SLOT: usize = 16;

/// The state of a boot file.
#[derive(Clone, Copy)]
struct BootFile {
    /// The number of the last start, or why there is none.
    number: Result<u64, BootCause>,
    /// The mode bits, or None where they are unknown.
    mode: Option<u32>,
    /// Whether a box runs on the file.
    is_used: bool,
}

/// Reports the state of a box's boot file. A file that is missing or no regular one is a fault, by the number that a
/// start on it would have.
pub(crate) fn report_boot_file<R: Files<File = File>>(
    rt: &R,
    settings: &Settings,
    id: GatewayId,
    findings: &mut Findings,
) -> Result<(), AllocError> {
    let section = match id {
        GatewayId::Zero => Section::GatewayZero,
        GatewayId::One => Section::GatewayOne,
    };
    let key = Key::new(section, Name::BootFile);
    let path = settings.gateway(id).boot_file.as_str();
    match inspect(rt, path) {
        Err(error) => {
            let cause = Cause(error.kind());
            findings.fault(format_args!("file 1 NoFile {key}"))?;
            findings.reason(format_args!("{path}: {cause}"))
        }
        Ok(None) => report_cause(BootCause::NotRegular, path, key, findings),
        Ok(Some(found)) => {
            report_number(found.number, path, key, findings)?;
            report_use(found, key, findings)
        }
    }
}

/// Reads the state of a boot file. A folder can't be opened as one. Returns None where the path is no regular file
/// otherwise: that isn't opened, since the open of a named pipe would wait.
fn inspect<R: Files<File = File>>(rt: &R, path: &str) -> io::Result<Option<BootFile>> {
    let found = fs::metadata(rt, path)?;
    if found.is_dir() {
        return Err(ErrorKind::IsADirectory.into());
    }
    if !found.is_file() {
        return Ok(None);
    }
    let mut file = File::open(rt, path)?;
    let mode = match file.metadata() {
        Ok(metadata) => Some(metadata.permissions().mode()),
        Err(_) => None,
    };
    Ok(Some(BootFile {
        number: read_number(&mut file),
        mode,
        is_used: matches!(file.try_lock(), Err(TryLockError::WouldBlock)),
    }))
}

/// Reads the greater number of a file's valid slots.
fn read_number(file: &mut File) -> Result<u64, BootCause> {
    let mut bytes = [0; 2 * SLOT];
    if let Err(error) = file.read_exact(&mut bytes) {
        return Err(match error.kind() {
            ErrorKind::UnexpectedEof => BootCause::Short,
            cause => BootCause::Device(DeviceFault::Read(cause)),
        });
    }
    match (slot_number(&bytes[..SLOT]), slot_number(&bytes[SLOT..])) {
        (None, None) => Err(BootCause::Invalid),
        (None, Some(number)) | (Some(number), None) => Ok(number),
        (Some(one), Some(other)) => Ok(one.max(other)),
    }
}

/// Reports the number of the last start. A number with which no box starts, and none, is a fault.
fn report_number(
    number: Result<u64, BootCause>,
    path: &str,
    key: Key,
    findings: &mut Findings,
) -> Result<(), AllocError> {
    match number {
        Err(cause) => report_cause(cause, path, key, findings),
        Ok(u64::MAX) => report_cause(BootCause::UsedUp, path, key, findings),
        Ok(0) => findings.note(format_args!("{key}: no start yet")),
        Ok(boot) => findings.note(format_args!("{key}: the last start was boot {boot}")),
    }
}

/// Reports why a boot file gives no number.
fn report_cause(
    cause: BootCause,
    path: &str,
    key: Key,
    findings: &mut Findings,
) -> Result<(), AllocError> {
    let fault = cause.fault();
    findings.fault(format_args!("boot {fault} {key}"))?;
    findings.reason(format_args!("{path}: {cause}"))
}

/// Reports whether others than its owner may use a boot file, and whether a box runs on it.
fn report_use(found: BootFile, key: Key, findings: &mut Findings) -> Result<(), AllocError> {
    if let Some(mode) = found.mode {
        // The last six bits are those of others than the owner.
        if mode % 0o100 != 0 {
            let mode = mode % 0o1000;
            findings.warning(format_args!(
                "{key}: its mode is {mode:o}, and 600 keeps others from it"
            ))?;
        }
    }
    if found.is_used {
        findings.note(format_args!("{key}: a gate runs on it"))?;
    }
    Ok(())
}
