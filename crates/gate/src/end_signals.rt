//! What ends a box beside the word at its control socket.

use faults::Fault;
use platform::{Inherited, is_readable, stdin_has_ended};
use rounds::EndSignal;
use sockets::Way;
use std::alloc::Global;
use std::os::fd::{AsRawFd, RawFd};

/// An inherited descriptor that ends the box once it can be read, as a `signalfd` of SIGTERM. It is never read.
#[derive(Clone, Copy)]
pub(crate) struct StopDescriptor(RawFd);

impl StopDescriptor {
    /// Returns the descriptor of a text, as `descriptor:7`.
    ///
    /// # Errors
    ///
    /// `NoStop` where the text is no descriptor; `StopNotOpen`; `NoMemory`.
    pub(crate) fn read(alloc: Global, text: &str) -> Result<StopDescriptor, Fault> {
        let Some(Way::Descriptor(number)) = Way::read(text) else {
            return Err(Fault::no_stop(alloc, text));
        };
        match Inherited::open(number) {
            Ok(descriptor) => Ok(StopDescriptor(descriptor.as_raw_fd())),
            Err(_) => Err(Fault::StopNotOpen(number)),
        }
    }
}

/// The end signals of a box.
#[derive(Drop)]
pub(crate) struct EndSignals<'a, R> {
    pub(crate) rt: &'a R,
    /// Whether the end of the standard input ends the box.
    pub(crate) until_eof: bool,
    pub(crate) stop: Option<StopDescriptor>,
}

impl<R: Input> EndSignal for EndSignals<'_, R> {
    fn has_come(&mut self) -> bool {
        let is_stopped = match self.stop {
            Some(StopDescriptor(descriptor)) => is_readable(descriptor),
            None => false,
        };
        is_stopped || (self.until_eof && stdin_has_ended(self.rt))
    }
}
