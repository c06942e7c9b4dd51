//! A service manager at the other end of a stream.

use cases_words::Case;
use faults::Fault;
use gate::ServiceManager;
use rounds::Manager;
use std::io::{self, ErrorKind, Read};
use std::net::Shutdown;
use std::os::fd::AsRawFd;
use std::os::unix::net::UnixStream;

/// Reads a text as a service manager's descriptor, which isn't open, and prints its number, or `none`.
pub(crate) fn read_manager(case: &mut Case) {
    let alloc = case.alloc;
    match ServiceManager::read(alloc, case.word()) {
        Err(Fault::ManagerNotOpen(number)) => case.say("  descriptor ", number),
        Err(_) => case.put("  none"),
        Ok(_) => case.fault(),
    }
    case.end();
}

/// The news that a service manager may be told.
#[derive(Clone, Copy)]
enum News {
    Ready(u64),
    Alive,
    Ending,
}

/// Returns the news of the next words: `ready BOOT`, `alive` or `ending`.
fn news_in(case: &mut Case) -> News {
    match case.word() {
        "ready" => News::Ready(case.number()),
        "alive" => News::Alive,
        "ending" => News::Ending,
        _ => {
            case.fault();
            News::Ending
        }
    }
}

fn tell<M: Manager>(manager: &mut M, news: News) {
    match news {
        News::Ready(boot) => manager.ready(boot),
        News::Alive => manager.alive(),
        News::Ending => manager.ending(),
    }
}

/// Tells a service manager news, and prints what it hears. After the word `nobody` no manager is told, after `gone` one
/// that has gone.
pub(crate) fn tell_manager(rt: &HostRuntime, case: &mut Case) {
    match case.word() {
        "nobody" => tell_nobody(case),
        "gone" => tell_over(rt, true, case),
        _ => {
            case.back();
            tell_over(rt, false, case);
        }
    }
}

fn tell_nobody(case: &mut Case) {
    let news = news_in(case);
    tell(&mut None::<ServiceManager>, news);
    case.tell("done");
}

/// Tells a service manager news by a stream, and prints what came at its other end, which was closed before where
/// `is_gone`.
fn tell_over(rt: &HostRuntime, is_gone: bool, case: &mut Case) {
    let news = news_in(case);
    match told_over(rt, is_gone, news) {
        Ok(other) => hear(&other, case),
        Err(_) => case.fault(),
    }
}

/// Tells a service manager news by a stream, and returns the stream's other end.
fn told_over(rt: &HostRuntime, is_gone: bool, news: News) -> io::Result<UnixStream> {
    let (own, other) = UnixStream::pair(rt)?;
    if is_gone {
        other.shutdown(Shutdown::Both)?;
    }
    other.set_nonblocking(true)?;
    let text = format!(in rt.alloc(); "descriptor:{}", own.as_raw_fd())?;
    match ServiceManager::read(rt.alloc(), text.as_str()) {
        Ok(manager) => tell(&mut Some(manager), news),
        Err(_) => return Err(ErrorKind::NotFound.into()),
    }
    Ok(other)
}

/// Prints the bytes that came by a stream.
fn hear(stream: &UnixStream, case: &mut Case) {
    let mut buffer = [0; 128];
    let mut reader = stream;
    match reader.read(&mut buffer) {
        Ok(count) => case.hex("  hears ", &buffer[..count]),
        Err(_) => case.put("  hears nothing"),
    }
    case.end();
}
