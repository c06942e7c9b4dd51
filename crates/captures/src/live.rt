//! A capture that is written while a box runs, without waiting.
ghost use Rattle.std.specs.Io.{WritesAtMost};

use crate::{Packet, write_head, write_packet};
use platform::is_writable;
use std::alloc::Global;
use std::io::{self, ErrorKind, Write};
use std::os::fd::AsRawFd;

/// The capacity for a block, in bytes. The block of a packet of 4,096 bytes has at most 4,156: 44 bytes of its own, an
/// Ethernet header of 14, and 2 that fill the last word.
const BLOCK_CAPACITY: usize = 4_160;

/// How many bytes one write has at most: as many as a writable pipe takes.
const MAX_WRITE: usize = 4_096;

/// What a capture is written to.
pub trait NonBlockingWriter {
    /// Writes bytes from the front of these, and returns how many.
    ///
    /// # Errors
    ///
    /// `WouldBlock` where a write would wait; those of the system. Nothing is written then.
    fn try_write(&mut self, bytes: &[u8]) -> io::Result<usize>
        ensures { WritesAtMost result bytes.now };
}

/// Polls before each write.
impl<F: Write + AsRawFd> NonBlockingWriter for F {
    fn try_write(&mut self, bytes: &[u8]) -> io::Result<usize> {
        if !is_writable(self.as_raw_fd()) {
            return Err(ErrorKind::WouldBlock.into());
        }
        self.write(bytes)
    }
}

/// A capture whose packets are written whole, or left out and counted. Where the writer took only a part of a block, the rest
/// is written before the next block.
#[derive(Drop)]
pub struct LiveCapture<W> {
    writer: W,
    block: Vec<u8>,
    /// How many bytes of `block` are written.
    written: usize,
    left_out: u64,
}

impl<W: NonBlockingWriter + Drop> LiveCapture<W> {
    /// Starts a capture: writes its head, or the first part of it.
    ///
    /// # Errors
    ///
    /// `OutOfMemory`; `WriteZero` or the writer's error where the writer takes nothing of the head.
    pub fn start(alloc: Global, writer: W) -> io::Result<LiveCapture<W>> {
        let mut capture = LiveCapture {
            writer,
            block: Vec::with_capacity(alloc, BLOCK_CAPACITY)?,
            written: 0,
            left_out: 0,
        };
        if write_head(&mut capture.block).is_err() {
            return Err(ErrorKind::OutOfMemory.into());
        }
        match capture.write_some()? {
            0 => Err(ErrorKind::WriteZero.into()),
            _ => Ok(capture),
        }
    }
}

impl<W: NonBlockingWriter> LiveCapture<W> {
    /// Writes a packet, or leaves it out. Returns whether it was written, at least in part: the rest is written before
    /// anything else.
    pub fn write(&mut self, packet: &Packet<'_>) -> bool {
        let is_written = self.flush() && self.write_block(packet);
        if !is_written {
            self.left_out = self.left_out.saturating_add(1);
        }
        is_written
    }

    /// Writes what is missing of the last block. Returns whether the block is whole then.
    pub fn flush(&mut self) -> bool {
        if self.written < self.block.len() {
            let _later = self.write_some();
        }
        self.block.len() <= self.written
    }

    /// Returns how many packets were left out.
    pub fn left_out(&self) -> u64 {
        self.left_out
    }

    /// Writes a packet's block, or a part of it. Returns whether the writer took any; else the block is empty.
    fn write_block(&mut self, packet: &Packet<'_>) -> bool {
        self.block.clear();
        self.written = 0;
        let is_begun = write_packet(&mut self.block, packet).is_ok()
            && matches!(self.write_some(), Ok(count) if count > 0);
        if !is_begun {
            self.block.clear();
        }
        is_begun
    }

    /// Writes some of what is missing of the block, and returns how many bytes.
    fn write_some(&mut self) -> io::Result<usize> {
        let missing = &self.block.as_slice()[self.written.min(self.block.len())..];
        let count = self
            .writer
            .try_write(&missing[..missing.len().min(MAX_WRITE)])?;
        self.written = self.written.saturating_add(count);
        Ok(count)
    }
}
