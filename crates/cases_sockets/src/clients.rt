//! Clients of a control socket.

use anyhow::{Context, Result};
use cases_words::Case;
use std::io::{ErrorKind, Read, Write};
use std::os::unix::net::UnixStream;

/// The clients, in the order in which they connected.
#[derive(Drop)]
pub(crate) struct Clients {
    streams: Vec<UnixStream>,
}

impl Clients {
    /// Returns no clients.
    pub(crate) fn none(rt: &HostRuntime) -> Clients {
        Clients {
            streams: Vec::new(rt.alloc()),
        }
    }

    /// Connects `count` clients more.
    pub(crate) fn connect(&mut self, rt: &HostRuntime, path: &str, count: usize) -> Result<()> {
        for _ in 0..count {
            self.streams.push(connected(rt, path)?)?;
        }
        Ok(())
    }

    /// Sends bytes from a client.
    pub(crate) fn say(&mut self, number: usize, bytes: &[u8]) -> Result<()> {
        let stream = self.streams.get_mut(number).context("no client")?;
        stream.write_all(bytes)?;
        Ok(())
    }

    /// Prints what a client has heard.
    pub(crate) fn hear(&mut self, number: usize, case: &mut Case) {
        match self.streams.get_mut(number) {
            Some(stream) => hear_from(stream, case),
            None => case.fault(),
        }
    }

    /// Disconnects all clients.
    pub(crate) fn disconnect(&mut self) {
        self.streams.clear();
    }
}

fn hear_from(stream: &mut UnixStream, case: &mut Case) {
    let mut buffer = [0; 16];
    match stream.read(&mut buffer) {
        Ok(count) => tell_heard(&buffer[..count], case),
        Err(error) if error.kind() == ErrorKind::WouldBlock => case.tell("nothing"),
        Err(_) => case.tell("closed"),
    }
}

fn tell_heard(bytes: &[u8], case: &mut Case) {
    match bytes {
        b"heard" => case.tell("heard"),
        [] => case.tell("closed"),
        bytes => {
            case.say("  ", bytes.len());
            case.put(" other bytes\n");
        }
    }
}

/// Returns a client that doesn't wait for what it hears.
fn connected(rt: &HostRuntime, path: &str) -> Result<UnixStream> {
    let stream = UnixStream::connect(rt, path)?;
    stream.set_nonblocking(true)?;
    Ok(stream)
}
