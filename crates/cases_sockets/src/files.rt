//! Captures to a file, and to a stream that nobody reads for a while.

use crate::words::bytes_in;
use captures::{Direction, Interface, LiveCapture, Packet, Reader, open};
use cases_words::Case;
use nat_types::{GatewayId, Side};
use std::fs::{self, Permissions};
use std::io::{self, ErrorKind, Read};
use std::os::unix::fs::PermissionsExt;
use std::os::unix::net::UnixStream;

/// A frame of 60 bytes that came to the outside of gateway 1 two seconds after its start.
const FRAME: Packet<'static> = Packet {
    interface: Interface::Side(GatewayId::One, Side::Outside),
    direction: Direction::Inbound,
    timestamp: 200,
    bytes: &[0x5a; 60],
};

/// The length of the frame's block, and of the head of a capture, in bytes.
const BLOCK: usize = 104;

const HEAD: usize = 324;

/// Writes a file with these bytes and the mode 640.
pub(crate) fn write_file(rt: &HostRuntime, case: &mut Case) {
    let path = case.name();
    let bytes = bytes_in(case);
    case.keep(written(rt, path.as_str(), bytes.as_slice()));
}

fn written(rt: &HostRuntime, path: &str, bytes: &[u8]) -> io::Result<()> {
    fs::write(rt, path, bytes)?;
    fs::set_permissions(rt, path, Permissions::from_mode(0o640))
}

/// Opens the file of a capture and drops it, and prints the file's mode and bytes.
pub(crate) fn look_at_file(rt: &HostRuntime, case: &mut Case) {
    let path = case.name();
    if let Err(error) = open(rt, path.as_str(), Reader::NotAwaited) {
        case.say("  refused: ", error);
        case.end();
    }
    show_file(rt, path.as_str(), case);
}

/// Captures the frame to a file, and prints whether it was written, and the file.
pub(crate) fn capture_to_file(rt: &HostRuntime, case: &mut Case) {
    let path = case.name();
    match captured(rt, path.as_str()) {
        Ok(is_written) => case.say("  kept ", is_written),
        Err(error) => case.say("  refused: ", error),
    }
    case.end();
    show_file(rt, path.as_str(), case);
}

fn captured(rt: &HostRuntime, path: &str) -> io::Result<bool> {
    let mut file = open(rt, path, Reader::NotAwaited)?;
    file.clear()?;
    let mut capture = LiveCapture::start(rt.alloc(), file)?;
    Ok(capture.write(&FRAME))
}

/// Prints a file's mode and bytes.
fn show_file(rt: &HostRuntime, path: &str, case: &mut Case) {
    match fs::metadata(rt, path) {
        Ok(metadata) => case.octal("  mode ", metadata.permissions().mode() % 0o1000),
        Err(_) => case.fault(),
    }
    case.hex_made(", file ", fs::read(rt, path));
    case.end();
}

/// Captures frames to a stream that nobody reads, and prints whether some were left out. Then reads the stream to its
/// end, and prints whether it had the head and whole blocks, those of all frames that were written.
pub(crate) fn fill_stream(rt: &HostRuntime, case: &mut Case) {
    match capture_to_stream(rt) {
        Ok((mut capture, other)) => flood(&mut capture, &other, case),
        Err(_) => case.fault(),
    }
}

/// Returns a capture to a stream, and the stream's other end.
fn capture_to_stream(rt: &HostRuntime) -> io::Result<(LiveCapture<UnixStream>, UnixStream)> {
    let (own, other) = UnixStream::pair(rt)?;
    other.set_nonblocking(true)?;
    Ok((LiveCapture::start(rt.alloc(), own)?, other))
}

fn flood(capture: &mut LiveCapture<UnixStream>, other: &UnixStream, case: &mut Case) {
    let written = write_packets(capture, case.number());
    case.say("  left out some: ", 0 < capture.left_out());
    case.end();
    let before = count_available(other, case);
    if !capture.flush() {
        case.fault();
    }
    let arrived = before.saturating_add(count_available(other, case));
    let wanted = written.saturating_mul(BLOCK).saturating_add(HEAD);
    case.say("  whole: ", arrived == wanted);
    case.say("\n  goes on: ", capture.write(&FRAME));
    case.end();
}

/// Writes this many frames, and returns how many were written.
fn write_packets(capture: &mut LiveCapture<UnixStream>, packets: u64) -> usize {
    let mut written: usize = 0;
    for _ in 0..packets {
        if capture.write(&FRAME) {
            written = written.saturating_add(1);
        }
    }
    written
}

/// Reads all bytes that wait in a stream, and returns how many they were.
fn count_available(stream: &UnixStream, case: &mut Case) -> usize {
    let mut reader = stream;
    let mut buffer = [0; 4096];
    let mut total: usize = 0;
    for _ in 0..100_000u32 {
        match reader.read(&mut buffer) {
            Ok(0) => return total,
            Ok(count) => total = total.saturating_add(count),
            Err(error) if error.kind() == ErrorKind::WouldBlock => return total,
            Err(_) => break,
        }
    }
    case.fault();
    total
}
