//! Lines of words, done as `natpair` would: what each prints, its faults and its status.

use crate::rows::tell;
use crate::tasks::words_of;
use crate::{files, listening, made_faults};
use anyhow::{Context, Result};
use cases_words::{Actor, Case};
use commands::act;
use mio::net::UdpSocket;
use std::alloc::Global;
use std::os::fd::AsRawFd;

/// The cases of whole commands.
#[derive(Drop)]
pub(crate) struct Words {
    pub(crate) rt: HostRuntime,
}

impl Actor for Words {
    /// A line is the words of a command line, or one of these:
    ///
    /// - `+ NAME;OLD;NEW` writes the file NAME: S.toml with its first OLD replaced by NEW
    /// - `& NAME COUNT` writes the file NAME: S.toml with a comment behind it, COUNT bytes in all
    /// - `$ NAME HEX` writes the file NAME
    /// - `= NAME` prints the bytes of the file NAME
    /// - `~ NAME` prints what is reported of a fault that is made by hand (`made_faults`)
    /// - `? PORT WORDS` is the words, and then the bytes of the first datagram that came to a UDP port on the loopback address
    /// - `! FILE WORDS` is the words while a box runs on the boot file FILE
    /// - `@ FILE WORDS` is the words, and then what was said at the control socket beside the boot file FILE, where nobody
    ///   answers
    /// - `> PORT OTHER HEX WORDS` is the words with an open descriptor for `descriptor:N`, into which the bytes HEX came from the
    ///   UDP port OTHER, and then the bytes of the first datagram that came to that
    fn act(&mut self, case: &mut Case) {
        case.title("== ", "\n");
        match case.word() {
            "+" => files::write(&self.rt, case),
            "&" => files::lengthen(&self.rt, case),
            "$" => files::fill(&self.rt, case),
            "=" => files::show(&self.rt, case),
            "~" => made_faults::tell(&self.rt, case),
            "?" => heard(&self.rt, case),
            "!" => held(&self.rt, case),
            "@" => unheard(&self.rt, case),
            ">" => inherited(&self.rt, case),
            _ => {
                case.back();
                acted(&self.rt, case);
            }
        }
    }
}

/// Does words as a command line, and returns the status. The function has no contract, which keeps the proofs of its
/// callers small.
fn status_of(rt: &HostRuntime, words: &[String], output: &mut Vec<u8>, errors: &mut Vec<u8>) -> u8 {
    act(rt, words, output, errors, false)
}

/// Does the words that are left in the line, and prints output, faults and status.
fn acted(rt: &HostRuntime, case: &mut Case) {
    let line = case.rest();
    acted_on(rt, line.as_str(), case);
}

fn acted_on(rt: &HostRuntime, line: &str, case: &mut Case) {
    match words_of(case.alloc, line) {
        Ok(words) => {
            let mut errors = Vec::new(case.alloc);
            let status = status_of(rt, words.as_slice(), &mut case.out, &mut errors);
            tell(status, errors.as_slice(), case);
        }
        Err(_) => case.fault(),
    }
}

/// Does the words, and prints the first datagram that came to a port meanwhile, too.
fn heard(rt: &HostRuntime, case: &mut Case) {
    match listening::bind(rt, case.port().0) {
        Ok(socket) => {
            acted(rt, case);
            listening::show_first(&socket, case);
        }
        Err(_) => case.fault(),
    }
}

/// Does the words while a box runs on a boot file.
fn held(rt: &HostRuntime, case: &mut Case) {
    match boot_file::open(rt, case.word()) {
        Ok(disk) => {
            acted(rt, case);
            drop(disk);
        }
        Err(_) => case.fault(),
    }
}

/// Does the words, and prints what was said meanwhile at the control socket beside a boot file, where nobody answers,
/// too.
fn unheard(rt: &HostRuntime, case: &mut Case) {
    match listening::deaf(rt, case.word()) {
        Ok(listener) => {
            acted(rt, case);
            listening::show_said(&listener, case);
        }
        Err(_) => case.fault(),
    }
}

/// Does the words with an open descriptor into which bytes came before, and prints what was sent by it, too.
fn inherited(rt: &HostRuntime, case: &mut Case) {
    let (own, other) = (case.port().0, case.port().0);
    let bytes = case.bytes();
    match ends(rt, own, other, bytes.as_slice()) {
        Ok((far, near)) => {
            let line = case.rest();
            act_by(rt, line.as_str(), &near, case);
            listening::show_first(&far, case);
        }
        Err(_) => case.fault(),
    }
}

/// Returns a socket at the other port, and one at the own port to which that has sent the bytes.
fn ends(rt: &HostRuntime, own: u16, other: u16, bytes: &[u8]) -> Result<(UdpSocket, UdpSocket)> {
    let far = listening::bind_to(rt, other, own)?;
    let near = listening::bind_to(rt, own, other)?;
    far.send(bytes)?;
    Ok((far, near))
}

/// Does the words, in which `descriptor:N` is replaced by a socket's descriptor.
fn act_by(rt: &HostRuntime, line: &str, near: &UdpSocket, case: &mut Case) {
    match named(case.alloc, line, near) {
        Ok(line) => acted_on(rt, line.as_str(), case),
        Err(_) => case.fault(),
    }
}

fn named(alloc: Global, line: &str, near: &UdpSocket) -> Result<String> {
    let (before, behind) = line.split_once("descriptor:N").context("no descriptor")?;
    let number = near.as_raw_fd();
    Ok(format!(in alloc; "{before}descriptor:{number}{behind}")?)
}
