//! Spare memory: that of fragments whose datagram ended, kept for fragments to come.
ghost use Rattle.std.specs.Prelude.{◌≡◌, [], length, IfOk, OnErr};
ghost use Rattle.memory.specs.Memory.{WasRefused};

use crate::appending::append_reserved;
use crate::copies::Fragment;
use std::alloc::{AllocError, Global};

/// The most spare buffers, and the most spare lists.
const MOST: usize = 64;

/// The most bytes of a frame whose buffer is kept.
const LONGEST_FRAME: usize = 1514;

/// Buffers of fragments and lists of fragments that are used no longer, for those to come. Nothing that they hold counts.
#[derive(Debug, Drop)]
pub(crate) struct Spares {
    buffers: Vec<Vec<u8>>,
    lists: Vec<Vec<Fragment>>,
}

impl Spares {
    /// Returns none. Takes no memory.
    pub(crate) fn new(alloc: Global) -> Spares {
        Spares {
            buffers: Vec::new(alloc),
            lists: Vec::new(alloc),
        }
    }

    /// Returns a spare buffer, or one without memory where there is none.
    #[inline(always)]
    fn buffer(&mut self, alloc: Global) -> Vec<u8>
        ensures { result.items ≡ [] }
    {
        match self.buffers.pop() {
            Some(mut spare) => {
                spare.clear();
                spare
            }
            None => Vec::new(alloc),
        }
    }

    /// Returns a buffer with a copy of these bytes. Fails where there isn't enough memory.
    #[inline(always)]
    pub(crate) fn copy_of(&mut self, alloc: Global, bytes: &[u8]) -> Result<Vec<u8>, AllocError>
        ensures items { IfOk result (λ v. v.items ≡ bytes.now) }
        ensures refused { OnErr result (WasRefused (length bytes.now)) }
    {
        let mut buffer = self.buffer(alloc);
        memory::reserve_exact(&mut buffer, bytes.len())?;
        append_reserved(&mut buffer, bytes);
        Ok(buffer)
    }

    /// Returns an empty list of fragments: a spare one, or one without memory where there is none.
    #[inline(always)]
    pub(crate) fn list(&mut self, alloc: Global) -> Vec<Fragment>
        ensures { result.items ≡ [] }
    {
        match self.lists.pop() {
            Some(mut spare) => {
                spare.clear();
                spare
            }
            None => Vec::new(alloc),
        }
    }

    /// Keeps a buffer, unless there are 64 already, or it is that of a longer frame than one that comes in. Where there isn't
    /// memory for one more place it isn't kept.
    #[inline(always)]
    fn put(&mut self, buffer: Vec<u8>) {
        if self.buffers.len() < MOST && buffer.len() <= LONGEST_FRAME {
            let _ = memory::push(&mut self.buffers, buffer);
        }
    }

    /// Keeps the list of the fragments of a datagram that ended, and their buffers.
    pub(crate) fn keep(&mut self, fragments: Vec<Fragment>) {
        let mut left = fragments;
        while let Some(fragment) = left.pop() {
            self.put(fragment.into_buffer());
        }
        if self.lists.len() < MOST {
            let _ = memory::push(&mut self.lists, left);
        }
    }
}

/// What stays from datagram to datagram.
#[derive(Debug, Drop)]
pub(crate) struct Buffers {
    /// The whole frame that was made last.
    pub(crate) whole: Vec<u8>,
    pub(crate) spares: Spares,
}

impl Buffers {
    /// Returns an empty whole frame, and nothing spare. Takes no memory.
    pub(crate) fn new(alloc: Global) -> Buffers
        ensures { result.whole.items ≡ [] }
    {
        Buffers {
            whole: Vec::new(alloc),
            spares: Spares::new(alloc),
        }
    }
}
