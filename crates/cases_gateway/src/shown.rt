//! Everything that a gateway and its output show, to be compared.

use crate::any_gateway::AnyGateway;
use addresses::Port;
use anyhow::Result;
use gateway::{Gateway, Out};
use nat_types::{Note, Pair, Side};
use std::alloc::Global;
use std::io::{self, Write};

/// The capacity for a copy of the output, so that copying takes memory once.
const CAPACITY: usize = 4096;

/// The state that a gateway shows beside its table.
#[derive(Clone, Copy, PartialEq, Eq)]
struct Standing {
    moment: u64,
    synced: bool,
    away: bool,
    inside_active: bool,
    outside_active: bool,
    known_peer: u64,
    hears_peer: bool,
}

/// Everything that shows: a gateway's state, its pairs, those that translate, the ports that it owns; and the frames,
/// the datagrams and the notes of the output.
#[derive(Drop)]
pub(crate) struct Shown {
    standing: Standing,
    pairs: Vec<Pair>,
    translating: Vec<Pair>,
    owned: Vec<Port>,
    sent: Vec<u8>,
    notes: Vec<Note>,
}

impl Shown {
    pub(crate) fn is_same(&self, other: &Shown) -> bool {
        self.standing == other.standing
            && self.pairs.as_slice() == other.pairs.as_slice()
            && self.translating.as_slice() == other.translating.as_slice()
            && self.owned.as_slice() == other.owned.as_slice()
            && self.sent.as_slice() == other.sent.as_slice()
            && self.notes.as_slice() == other.notes.as_slice()
    }

    /// Fills in all but the gateway's state.
    fn fill(&mut self, alloc: Global, gateway: &Gateway, out: &Out) -> Result<()> {
        self.pairs = gateway.pairs()?;
        self.translating = gateway.translating()?;
        self.owned = gateway.owned()?;
        self.sent = sent_by(alloc, out)?;
        self.notes = Vec::from_slice(alloc, out.notes())?;
        Ok(())
    }
}

/// Returns everything that shows; asks once more where memory is refused.
pub(crate) fn observe<G: AnyGateway>(alloc: Global, gateway: &G, out: &Out) -> Result<Shown> {
    match gateway.shown(alloc, out) {
        Ok(seen) => Ok(seen),
        Err(_refused) => gateway.shown(alloc, out),
    }
}

/// Returns everything that shows, or an Err where there isn't enough memory.
pub(crate) fn observe_once(alloc: Global, gateway: &Gateway, out: &Out) -> Result<Shown> {
    let mut shown = Shown {
        standing: standing_of(gateway),
        pairs: Vec::new(alloc),
        translating: Vec::new(alloc),
        owned: Vec::new(alloc),
        sent: Vec::new(alloc),
        notes: Vec::new(alloc),
    };
    match shown.fill(alloc, gateway, out) {
        Ok(()) => Ok(shown),
        Err(refused) => Err(refused),
    }
}

fn standing_of(gateway: &Gateway) -> Standing {
    Standing {
        moment: gateway.moment(),
        synced: gateway.synced(),
        away: gateway.is_away(),
        inside_active: gateway.is_active(Side::Inside),
        outside_active: gateway.is_active(Side::Outside),
        known_peer: gateway.known_peer(),
        hears_peer: gateway.hears_peer(),
    }
}

/// Returns the frames, each after its side and length, and the datagrams, each after its length, as bytes.
fn sent_by(alloc: Global, out: &Out) -> Result<Vec<u8>> {
    let mut list = Vec::with_capacity(alloc, CAPACITY)?;
    copy_frames(&mut list, out)?;
    copy_datagrams(&mut list, out)?;
    Ok(list)
}

fn copy_frames(list: &mut Vec<u8>, out: &Out) -> io::Result<()> {
    for frame in out.frames() {
        writeln!(list, "{} {}", frame.side, frame.bytes.len())?;
        list.write_all(frame.bytes)?;
    }
    Ok(())
}

fn copy_datagrams(list: &mut Vec<u8>, out: &Out) -> io::Result<()> {
    for datagram in out.datagrams() {
        writeln!(list, "{}", datagram.len())?;
        list.write_all(datagram)?;
    }
    Ok(())
}
