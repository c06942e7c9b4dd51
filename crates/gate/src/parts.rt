//! All that a box opens before it takes a boot number.

use crate::end_signals::StopDescriptor;
use crate::{ServiceManager, Start};
use boot_file::FileDisk;
use captures::{CaptureFile, Reader};
use control::{Control, ControlPath};
use faults::{Fault, read_settings};
use journal::{EventLog, Mappings, Sink, StandardError, environment_filter, filter};
use log::filter::{Filter, FilteredLog};
use settings::Settings;
use settings_file::{OnLoopback, missing_port, port_clash};
use sockets::{CONTROL_TOKEN, LoopbackPorts, SocketFault, Sockets, Way, Ways, first_unbound};
use std::alloc::Global;
use std::fs::{File, Files};
use std::net::{Net, SocketAddr};
use std::rt::Env;

/// A box's log, on the standard error.
pub(crate) type BoxLog<'a, R> = EventLog<FilteredLog<Sink<StandardError<&'a R>>>>;

/// All that a box opens before it takes a boot number.
#[derive(Drop)]
pub(crate) struct Parts<'a, R> {
    pub(crate) settings: Settings,
    pub(crate) manager: Option<ServiceManager>,
    pub(crate) stop: Option<StopDescriptor>,
    /// The boot file, locked.
    pub(crate) disk: FileDisk<File>,
    pub(crate) wire: Sockets,
    pub(crate) log: BoxLog<'a, R>,
    /// The path of a capture, and its file, which still has its old content.
    pub(crate) capture: Option<(&'a str, CaptureFile<File>)>,
}

impl<'a, R: Files<File = File> + Net + Eprint + Env + AllocGlobal> Parts<'a, R> {
    /// Opens all parts, in an order in which a start that fails does no harm. Inherited descriptors are checked before anything
    /// is opened that could be taken for one. The boot file is locked before any socket is opened, so that the sockets of a
    /// running box aren't touched. No boot number is taken.
    ///
    /// # Errors
    ///
    /// The first fault, in the order of these lines.
    pub(crate) fn open(rt: &'a R, start: &Start<'a>) -> Result<Parts<'a, R>, Fault> {
        let alloc = rt.alloc();
        let settings = read_settings(rt, start.settings)?;
        let ways = start.ways.read(alloc)?;
        ways.check_descriptors()?;
        let manager = start
            .notify
            .map(|text| ServiceManager::read(alloc, text))
            .transpose()?;
        let stop = start
            .stop_on
            .map(|text| StopDescriptor::read(alloc, text))
            .transpose()?;
        check_ports(alloc, start, &settings, &ways)?;
        let file = settings.gateway(start.id).boot_file.as_str();
        let path = ControlPath::beside(alloc, file)?;
        let disk = boot_file::open(rt, file).map_err(|why| Fault::boot_file(alloc, file, why))?;
        let control = Control::open(rt, &path, CONTROL_TOKEN).map_err(|cause| Fault::no_control(
            alloc, &path, cause,
        ))?;
        let wire = open_sockets(rt, &ways, LoopbackPorts::of(&settings, start.id), control)?;
        let sink = Sink::new(StandardError(rt), start.format);
        let filtered = FilteredLog::new(sink, read_filter(rt, start.log)?);
        let mappings = start.mappings.then(|| Mappings::new(alloc)).transpose()?;
        let log = EventLog::new(filtered, settings.vrrp.peer_only, mappings);
        let capture = start
            .capture
            .map(|path| open_capture(rt, path))
            .transpose()?;
        Ok(Parts {
            settings,
            manager,
            stop,
            disk,
            wire,
            log,
            capture,
        })
    }
}

/// Checks that the ports that a box needs on the loopback address are there, and that no two of its own are the same.
///
/// # Errors
///
/// The first setting of a port that is left out; else that with a port that an earlier one has, too.
fn check_ports(
    alloc: Global,
    start: &Start<'_>,
    settings: &Settings,
    ways: &Ways,
) -> Result<(), Fault> {
    let on = OnLoopback {
        inside: ways.inside == Way::Loopback,
        outside: ways.outside == Way::Loopback,
        link: ways.link == Way::Loopback,
    };
    if let Some(key) = missing_port(settings, start.id, on) {
        return Err(Fault::missing_port(alloc, start.settings, key));
    }
    match port_clash(settings, start.id, on) {
        Some(clash) => Err(Fault::PortClash(clash)),
        None => Ok(()),
    }
}

/// Opens the sockets of a box. Where that fails, the fault names the first end that can't be bound alone, if there is one.
fn open_sockets<R: Net + AllocGlobal>(
    rt: &R,
    ways: &Ways,
    ports: LoopbackPorts,
    control: Control,
) -> Result<Sockets, Fault> {
    match Sockets::open(rt, ways, ports, control) {
        Ok(sockets) => Ok(sockets),
        Err(SocketFault::NoMemory) => Err(Fault::NoMemory),
        Err(SocketFault::NoSocket(cause)) => Err(match first_unbound(rt, ways, ports) {
            Some((end, cause)) => Fault::NoSocket(SocketAddr::from(end), cause),
            None => Fault::NoSockets(cause),
        }),
    }
}

/// Reads the filter of an option, or else of the environment.
fn read_filter<R: Env + AllocGlobal>(rt: &R, option: Option<&str>) -> Result<Filter, Fault> {
    let alloc = rt.alloc();
    let environment = match option {
        Some(_) => None,
        None => environment_filter(rt).map_err(|fault| Fault::filter(alloc, fault))?,
    };
    let text = option.or(environment.as_deref()).unwrap_or("");
    filter(alloc, text).map_err(|fault| Fault::filter(alloc, fault))
}

/// Opens the file of a capture, without waiting for the reader of a pipe.
fn open_capture<'a, R: Files<File = File> + AllocGlobal>(
    rt: &R,
    path: &'a str,
) -> Result<(&'a str, CaptureFile<File>), Fault> {
    match captures::open(rt, path, Reader::NotAwaited) {
        Ok(file) => Ok((path, file)),
        Err(error) => Err(Fault::capture(rt.alloc(), path, &error)),
    }
}
