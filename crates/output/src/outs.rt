//! The output of a gateway's steps, as callers see it.
ghost use Rattle.std.specs.Prelude.{◌≡◌, length};
ghost use Rattle.output.specs.Output.{none_told};

use crate::pages::OutputBuffer;
use crate::readers::{ByteStrings, Frames};
use nat_types::Note;
use std::alloc::Global;
use std::marker::Model;

/// The output of a gateway's steps: frames, datagrams and notes, each in order. `clear` keeps the
/// memory for the next steps.
#[derive(Debug, Drop)]
pub struct Out {
    /// The buffer that steps fill. Its spare capacity is no part of the output.
    pub page: OutputBuffer,
}

impl Model for Out {
    ghost use Rattle.output.specs.Output.{Output};

    ghost Value = { Output };

    ghost view = { λ o. o.page.told };
}

impl Out {
    /// Returns an empty output.
    pub fn new(alloc: Global) -> Out
        ensures { result ≡ none_told }
    {
        Out {
            page: OutputBuffer::new(alloc),
        }
    }

    /// Empties the output, and keeps the memory for the next steps.
    pub fn clear(&mut self)
        ensures { self.new ≡ none_told }
    {
        self.page.clear();
    }

    /// Returns the frames to send, in order.
    pub fn frames(&self) -> Frames<'_>
        ensures { result ≡ self.now.frames }
    {
        self.page.frames()
    }

    /// Returns how many datagrams there are.
    pub fn datagram_count(&self) -> usize
        ensures { result ≡ length self.now.datagrams }
    {
        self.page.datagram_count()
    }

    /// Returns the datagrams for the other gateway, in order.
    pub fn datagrams(&self) -> ByteStrings<'_>
        ensures { result ≡ self.now.datagrams }
    {
        self.page.datagrams()
    }

    /// Returns the notes, in order.
    pub fn notes(&self) -> &[Note]
        ensures { result.now ≡ self.now.notes }
    {
        self.page.notes()
    }
}
