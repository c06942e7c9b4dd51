//! Spare buffers: those of packets that no longer wait, kept for packets to come.
ghost use Rattle.std.specs.Prelude.{◌≡◌, length, IfOk, OnErr};
ghost use Rattle.memory.specs.Memory.{WasRefused};
ghost use Rattle.waiting.specs.Memory.{LacksCopy};

use std::alloc::{AllocError, Global};
use std::marker::Model;

/// The most spare buffers that are kept.
const SPARE: usize = 64;

/// The most bytes of a frame that comes in. Only a frame that was put together of fragments has
/// more, and no spare buffer has capacity for more.
pub(crate) const LONGEST_FRAME: usize = 1514;

/// A list of empty buffers, kept so that packets to come need no new memory.
#[derive(Debug, Drop)]
pub(crate) struct SpareBuffers {
    buffers: Vec<Vec<u8>>,
}

impl Model for SpareBuffers {
    ghost use Rattle.std.specs.Prelude.{ℕ, ◌≤◌, vec_capacity, length};

    // The number of buffers.
    ghost Value = { ℕ };

    ghost view = { λ s. length s.buffers.items };

    ghost invariant = { λ s. 64 ≤ vec_capacity s.buffers };
}

impl SpareBuffers {
    /// Returns an empty list. Takes the memory of the list, and fails where there isn't enough.
    pub(crate) fn new(alloc: Global) -> Result<SpareBuffers, AllocError>
        ensures refused { OnErr result (WasRefused 64) }
    {
        let buffers = memory::with_room(alloc, SPARE)?;
        Ok(SpareBuffers { buffers })
    }

    /// Returns a buffer for a copy of this many bytes: a spare one, or else a new one, which takes
    /// memory. A longer frame than one that comes in gets a new one. Fails where there isn't enough
    /// memory.
    fn buffer_for(&mut self, alloc: Global, count: usize) -> Result<Vec<u8>, AllocError>
        ensures refused { OnErr result (LacksCopy count) }
    {
        if count > LONGEST_FRAME {
            return memory::with_room(alloc, count);
        }
        match self.buffers.pop() {
            Some(spare) => Ok(spare),
            None => memory::with_room(alloc, LONGEST_FRAME),
        }
    }

    /// Returns a buffer with a copy of these bytes. Fails where there isn't enough memory.
    pub(crate) fn copy_of(&mut self, alloc: Global, bytes: &[u8]) -> Result<Vec<u8>, AllocError>
        ensures items { IfOk result (λ v. v.items ≡ bytes.now) }
        ensures refused { OnErr result (LacksCopy (length bytes.now)) }
    {
        let mut buffer = self.buffer_for(alloc, bytes.len())?;
        buffer.clear();
        memory::append(&mut buffer, bytes)?;
        Ok(buffer)
    }

    /// Keeps a buffer for a packet to come, unless there are 64 already, or the buffer is that of a
    /// longer frame than one that comes in.
    pub(crate) fn put(&mut self, buffer: Vec<u8>) {
        if self.buffers.len() < SPARE && buffer.len() <= LONGEST_FRAME {
            self.buffers.push_reserved(buffer);
        }
    }
}
