//! The texts of a report; its bytes, whole, cut or changed, and how they are read; and pages by their bytes.

use crate::watched::filter_of;
use cases_words::Case;
use reports::{JsonText, MetricsText, Page, PairLines, PlainText, ReadFault, Report};

/// Reads a report. The function has no clauses, so callers learn nothing of the result.
fn read_of(bytes: &[u8]) -> Result<Report, ReadFault> {
    Report::read(bytes)
}

/// The kind of a report's text.
#[derive(Clone, Copy)]
pub(crate) enum Kind {
    People,
    Json,
    Metrics,
}

/// Prints a text of the report, once it was written as bytes and read back.
pub(crate) fn tell_text(report: &Report, kind: Kind, case: &mut Case) {
    match read_of(report.bytes().as_slice()) {
        Ok(report) => put_text(&report, kind, case),
        Err(_) => case.fault(),
    }
}

fn put_text(report: &Report, kind: Kind, case: &mut Case) {
    match kind {
        Kind::People => case.put(PlainText(report)),
        Kind::Json => case.put(JsonText(report)),
        Kind::Metrics => case.put(MetricsText(report)),
    }
}

/// Prints how many bytes the report has, and some of them.
pub(crate) fn tell_bytes(report: &Report, case: &mut Case) {
    let (from, count) = (case.count(), case.count());
    let bytes = report.bytes();
    case.put(bytes.len());
    case.put(" bytes: ");
    case.hex("", part_of(bytes.as_slice(), from, count));
    case.end();
}

/// Returns `count` bytes from an offset on, or as many as there are.
fn part_of(bytes: &[u8], from: usize, count: usize) -> &[u8] {
    let behind = bytes.get(from..).unwrap_or(&[]);
    behind.get(..count).unwrap_or(behind)
}

/// Returns a copy of a report's bytes.
fn bytes_of(report: &Report, case: &mut Case) -> Vec<u8> {
    let copied = Vec::from_slice(case.alloc, report.bytes().as_slice());
    case.or_none(copied)
}

/// Prints how many of the shorter lengths are refused, and whether one byte more is.
pub(crate) fn tell_cuts(report: &Report, case: &mut Case) {
    let mut bytes = bytes_of(report, case);
    case.say("refused: ", count_refused(bytes.as_slice()));
    case.say(" of ", bytes.len());
    case.keep(bytes.push(0));
    case.say(", one more byte ", read_of(bytes.as_slice()).is_err());
    case.end();
}

fn count_refused(bytes: &[u8]) -> u32 {
    let mut refused = 0u32;
    for length in 0..bytes.len() {
        if read_of(&bytes[..length]).is_err() {
            refused = refused.saturating_add(1);
        }
    }
    refused
}

/// Prints how the report's bytes are read once one of them is changed.
pub(crate) fn tell_changed(report: &Report, case: &mut Case) {
    let mut bytes = bytes_of(report, case);
    let at = case.count();
    let byte = case.byte();
    match bytes.get_mut(at) {
        Some(place) => *place = byte,
        None => case.fault(),
    }
    tell_read(report, bytes.as_slice(), case);
}

fn tell_read(report: &Report, bytes: &[u8], case: &mut Case) {
    match read_of(bytes) {
        Ok(read) if read == *report => case.put("the same"),
        Ok(_) => case.put("another report"),
        Err(fault) => case.put(fault),
    }
    case.end();
}

/// Reads a page from its bytes. Prints the entries that are wanted, and whether the page has the same bytes again.
pub(crate) fn tell_page(case: &mut Case) {
    let bytes = case.bytes();
    let filter = filter_of(case);
    match Page::read(bytes.as_slice()) {
        Ok(page) => {
            case.put(PairLines(&page, &filter));
            case.say("the same ", page.bytes().as_slice() == bytes.as_slice());
        }
        Err(fault) => case.put(fault),
    }
    case.end();
}
