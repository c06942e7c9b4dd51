//! The commands that ask a running box: `status` and `pairs`.

use crate::words::{MAX_REPLY, ask, control_path, other_reply};
use command_line::{PairsWords, StatusFormat, StatusWords};
use control::{ControlPath, NoSocket, Reply, Word};
use faults::Fault;
use nat_types::Key;
use reports::{JsonText, MetricsText, Page, PairFilter, PairLines, PlainText, Report};
use std::fs::Files;
use std::io::Write;
use std::net::Net;
use std::rt::Clock;
use std::thread;
use std::time::{Duration, Instant};

/// How long `--until` waits for a box without `--seconds`, in seconds.
const DEFAULT_SECONDS: u32 = 60;

/// How long `--until` waits before it asks a box again, in milliseconds.
const POLL_INTERVAL_MS: u64 = 100;

/// Writes the report of a box, or, with `--until synced`, waits until the box is synced.
pub(crate) fn status<R: Files + Net + Clock + AllocGlobal, O: Write>(
    rt: &R,
    words: &StatusWords,
    output: &mut O,
) -> Result<(), Fault> {
    let path = control_path(rt, words.settings.as_str(), words.id)?;
    if words.until_synced {
        return await_synced(rt, &path, words.seconds.unwrap_or(DEFAULT_SECONDS));
    }
    let report = ask_report(rt, &path)?;
    match words.form {
        StatusFormat::Plain => write!(output, "{}", PlainText(&report))?,
        StatusFormat::Json => write!(output, "{}", JsonText(&report))?,
        StatusFormat::Prometheus => write!(output, "{}", MetricsText(&report))?,
    }
    output.flush()?;
    Ok(())
}

/// Asks a box again and again until it is synced, for so many seconds; once if the clock can't be read.
///
/// # Errors
///
/// The fault of the last time: `NotSynced`, or why the box couldn't be asked. A fault that doesn't pass by itself, as that
/// the socket may not be used, is returned at once.
fn await_synced<R: Net + Clock + AllocGlobal>(
    rt: &R,
    path: &ControlPath,
    seconds: u32,
) -> Result<(), Fault> {
    let start = Instant::now(rt).ok();
    let limit = Duration::from_secs(u64::from(seconds));
    // A loop without an end that is proved to end.
    for _ in 0..u64::MAX {
        let passed = start.and_then(|start| start.elapsed(rt).ok());
        let is_last = passed.is_none_or(|passed| limit <= passed);
        match check_synced(rt, path) {
            Ok(()) => return Ok(()),
            Err(fault) if is_last || !may_pass(&fault) => return Err(fault),
            Err(_) => thread::sleep(rt, Duration::from_millis(POLL_INTERVAL_MS)),
        }
    }
    check_synced(rt, path)
}

/// Whether a fault may pass by itself: the box isn't synced, doesn't answer, or isn't there yet.
fn may_pass(fault: &Fault) -> bool {
    match fault {
        Fault::NotSynced | Fault::NotAnswered { .. } => true,
        Fault::NoControl { cause, .. } => matches!(cause, NoSocket::NoBox | NoSocket::Closed),
        _ => false,
    }
}

/// Checks that a box is synced.
fn check_synced<R: Net + AllocGlobal>(rt: &R, path: &ControlPath) -> Result<(), Fault> {
    if ask_report(rt, path)?.gateway.synced {
        Ok(())
    } else {
        Err(Fault::NotSynced)
    }
}

/// Asks a box for its report.
fn ask_report<R: Net + AllocGlobal>(rt: &R, path: &ControlPath) -> Result<Report, Fault> {
    match ask(rt, path, Word::Status, &mut [0; MAX_REPLY])? {
        Reply::Report(bytes) => Ok(Report::read(bytes)?),
        _ => Err(other_reply(rt, path)),
    }
}

/// Writes the pairs of a box that pass a filter, page after page, in the order of its table.
pub(crate) fn pairs<R: Files + Net + AllocGlobal, O: Write>(
    rt: &R,
    words: &PairsWords,
    output: &mut O,
) -> Result<(), Fault> {
    let path = control_path(rt, words.settings.as_str(), words.id)?;
    let filter = PairFilter {
        protocol: words.protocol,
        address: words.address,
        port: words.port,
        state: words.state,
    };
    let mut next = None;
    for _ in 0..u64::MAX {
        let page = ask_page(rt, &path, next)?;
        write!(output, "{}", PairLines(&page, &filter))?;
        next = page.next();
        if next.is_none() {
            break;
        }
    }
    output.flush()?;
    Ok(())
}

/// Asks a box for a page of its pairs: the one that follows a key, or the first one.
fn ask_page<R: Net + AllocGlobal>(
    rt: &R,
    path: &ControlPath,
    after: Option<Key>,
) -> Result<Page, Fault> {
    match ask(rt, path, Word::Pairs(after), &mut [0; MAX_REPLY])? {
        Reply::Page(bytes) => Ok(Page::read(bytes)?),
        _ => Err(other_reply(rt, path)),
    }
}
