//! A transport in memory, one call of which may fail.
ghost use Rattle.std.specs.Prelude.{◌≤◌};

use sockets::{Arrived, MAX_DATAGRAM, SendFault, Sender, Transport, WireFault};
use std::alloc::Global;

/// A datagram that is to arrive.
#[derive(Drop)]
pub(crate) struct Datagram {
    pub(crate) sender: Sender,
    pub(crate) bytes: Vec<u8>,
}

/// A transport in memory: what is to arrive, and what was sent.
#[derive(Drop)]
pub(crate) struct Memory {
    alloc: Global,
    coming: Vec<Datagram>,
    /// How many of the datagrams have arrived.
    arrived: usize,
    pub(crate) sent: Vec<Vec<u8>>,
    /// The number of calls up to the one that fails; none fails where it is 0.
    pub(crate) left: u64,
    /// Whether each call fails.
    pub(crate) is_stuck: bool,
    /// The most bytes that a datagram may have.
    pub(crate) longest: usize,
}

impl Memory {
    /// Returns a transport at which these datagrams are to arrive.
    pub(crate) fn new(alloc: Global, coming: Vec<Datagram>) -> Memory {
        Memory {
            alloc,
            coming,
            arrived: 0,
            sent: Vec::new(alloc),
            left: 0,
            is_stuck: false,
            longest: MAX_DATAGRAM,
        }
    }

    /// Returns a transport at which nothing is to arrive.
    pub(crate) fn empty(alloc: Global) -> Memory {
        Memory::new(alloc, Vec::new(alloc))
    }

    /// Counts a call, and answers whether it fails.
    fn fails(&mut self) -> bool {
        let fails = self.is_stuck || self.left == 1;
        self.left = self.left.saturating_sub(1);
        fails
    }
}

impl Transport for Memory {
    fn send(&mut self, datagram: &[u8]) -> Result<(), SendFault> {
        if self.fails() {
            return Err(SendFault::Failed);
        }
        if datagram.len() > self.longest {
            return Err(SendFault::TooLong);
        }
        let bytes = Vec::from_slice(self.alloc, datagram).map_err(|_| SendFault::Failed)?;
        self.sent.push(bytes).map_err(|_| SendFault::Failed)
    }

    fn receive(&mut self, buffer: &mut [u8; MAX_DATAGRAM]) -> Result<Option<Arrived>, WireFault> {
        if self.fails() {
            return Err(WireFault);
        }
        let Some(datagram) = self.coming.get(self.arrived) else {
            return Ok(None);
        };
        self.arrived = self.arrived.saturating_add(1);
        Ok(Some(Arrived {
            count: copied(datagram.bytes.as_slice(), buffer),
            sender: datagram.sender,
        }))
    }
}

/// Copies bytes into a buffer as far as they fit, and returns how many were copied.
pub(crate) fn copied(bytes: &[u8], buffer: &mut [u8; MAX_DATAGRAM]) -> usize
    ensures { result ≤ MAX_DATAGRAM }
{
    let count = bytes.len().min(MAX_DATAGRAM);
    buffer[..count].copy_from_slice(&bytes[..count]);
    count
}
