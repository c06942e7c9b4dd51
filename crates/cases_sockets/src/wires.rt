//! A wire in memory.
ghost use Rattle.std.specs.Prelude.{◌≤◌, IfOk, IfSome};
ghost use Rattle.sockets.specs.Wires.{AnyWay};

use crate::transports::copied;
use crate::words::{name_of, shown};
use sockets::{Losses, MAX_DATAGRAM, Place, Wire, WireFault};
use std::cell::RefCell;
use std::io;
use std::time::Duration;

/// The answer of the wire to a receive; where it is a fault, sending fails, too.
#[derive(Drop)]
pub(crate) enum Coming {
    Nothing,
    Fault,
    Datagram(Place, Vec<u8>),
}

/// A wire that answers what the cases say, and prints what it sends.
#[derive(Drop)]
pub(crate) struct MemoryWire<'a> {
    rt: HostRuntime,
    coming: &'a RefCell<Coming>,
}

impl<'a> MemoryWire<'a> {
    /// Returns a wire that answers what `coming` has.
    pub(crate) fn new(rt: HostRuntime, coming: &'a RefCell<Coming>) -> MemoryWire<'a> {
        MemoryWire { rt, coming }
    }

    fn next(&self, buffer: &mut [u8; MAX_DATAGRAM]) -> Result<Option<(Place, usize)>, WireFault>
        ensures { IfOk result (λ found. IfSome found (λ one. one.1 ≤ MAX_DATAGRAM)) }
    {
        let Ok(coming) = self.coming.try_borrow() else {
            return Err(WireFault);
        };
        match &*coming {
            Coming::Nothing => Ok(None),
            Coming::Fault => Err(WireFault),
            Coming::Datagram(place, bytes) => Ok(Some((*place, copied(bytes.as_slice(), buffer)))),
        }
    }

    fn is_faulty(&self) -> bool {
        match self.coming.try_borrow() {
            Ok(coming) => matches!(&*coming, Coming::Fault),
            Err(_) => true,
        }
    }

    fn show(&self, to: Place, bytes: &[u8]) -> io::Result<()> {
        let sent = shown(self.rt.alloc(), bytes)?;
        println!(self.rt; "  sent {} {sent}", name_of(to))
    }
}

impl Wire for MemoryWire<'_> {
    ghost passes = { AnyWay };

    fn receive(
        &mut self,
        _limit: Duration,
        buffer: &mut [u8; MAX_DATAGRAM],
    ) -> Result<Option<(Place, usize)>, WireFault> {
        self.next(buffer)
    }

    fn send(&mut self, to: Place, bytes: &[u8]) -> Result<(), WireFault> {
        if self.is_faulty() {
            return Err(WireFault);
        }
        self.show(to, bytes).map_err(|_| WireFault)
    }

    fn answer(&mut self, _bytes: &[u8]) {}

    fn is_failing(&self, _place: Place) -> bool {
        false
    }

    fn losses(&self, _place: Place) -> Losses {
        Losses::default()
    }
}
