//! A place of a box over a transport in memory.

use crate::transports::{Datagram, Memory};
use crate::words::tell_losses;
use cases_words::{Actor, Case};
use sockets::{End, MAX_DATAGRAM, Network, Peer, PlaceSocket, Sender};
use std::alloc::Global;

/// The cases of a place over a transport in memory.
#[derive(Drop)]
pub(crate) struct Hearing {
    place: PlaceSocket<Memory>,
}

impl Actor for Hearing {
    /// - `far udp END`, `far vxlan ADDRESS NUMBER`, `far interface`: a new place with this peer; the words after it
    ///   are what is to arrive there, from whom and which bytes, each with `from`
    /// - `refuse N END ..`: a place that speaks by UDP, and whose transport's call N fails
    /// - `stuck`: a new place, all calls of whose transport fail
    /// - `takes N`: a new place whose transport takes at most N bytes at once
    /// - `wake`, `take`, `send HEX`, `send-long N`: as the place has them
    /// - `strangers`, `failing`, `losses`: what the place says
    fn act(&mut self, case: &mut Case) {
        case.title("", "\n");
        match case.word() {
            "far" => self.begin(case),
            "refuse" => self.refuse(case),
            "stuck" => self.stick(case.alloc),
            "takes" => self.narrow(case),
            "wake" => self.place.wake(),
            "take" => self.take(case),
            "send" => self.send(case),
            "send-long" => self.send_long(case),
            "strangers" => case.tell(self.place.strangers()),
            "failing" => case.tell(self.place.is_failing()),
            "losses" => tell_losses(case, self.place.losses()),
            _ => case.fault(),
        }
    }
}

impl Hearing {
    /// Returns the cases with a place at which nothing is to arrive.
    pub(crate) fn new(alloc: Global) -> Hearing {
        Hearing {
            place: PlaceSocket::new(Memory::empty(alloc), Peer::Interface),
        }
    }

    /// Begins a new place, and sets what is to arrive there.
    fn begin(&mut self, case: &mut Case) {
        let peer = peer_in(case);
        let memory = Memory::new(case.alloc, datagrams_in(case));
        self.place = PlaceSocket::new(memory, peer);
    }

    fn refuse(&mut self, case: &mut Case) {
        let call = case.number();
        let peer = udp_in(case);
        let mut memory = Memory::new(case.alloc, datagrams_in(case));
        memory.left = call;
        self.place = PlaceSocket::new(memory, peer);
        let [sent, heard, failed] = self.counts();
        case.say("  sent ", sent);
        case.say(", heard ", heard);
        case.say(", failed ", failed);
        case.end();
    }

    fn stick(&mut self, alloc: Global) {
        let mut memory = Memory::empty(alloc);
        memory.is_stuck = true;
        self.place = PlaceSocket::new(memory, Peer::Interface);
    }

    fn narrow(&mut self, case: &mut Case) {
        let mut memory = Memory::empty(case.alloc);
        memory.longest = case.count();
        self.place = PlaceSocket::new(memory, Peer::Interface);
    }

    fn take(&mut self, case: &mut Case) {
        let mut buffer = [0; MAX_DATAGRAM];
        match self.place.receive(&mut buffer) {
            Ok(Some(count)) => tell_bytes(case, "  heard ", &buffer[..count]),
            Ok(None) => case.tell("nothing"),
            Err(_) => case.tell("failed"),
        }
    }

    fn send(&mut self, case: &mut Case) {
        let bytes = case.bytes();
        self.send_bytes(bytes.as_slice(), case);
    }

    fn send_long(&mut self, case: &mut Case) {
        let count = case.count();
        let bytes = case.many(7, count);
        self.send_bytes(bytes.as_slice(), case);
    }

    fn send_bytes(&mut self, bytes: &[u8], case: &mut Case) {
        if self.place.send(bytes).is_err() {
            return case.tell("lost");
        }
        match self.place.transport().sent.last() {
            Some(sent) => tell_bytes(case, "  sent ", sent.as_slice()),
            None => case.fault(),
        }
    }

    /// Sends a datagram and receives one, four times. Returns how many were sent, how many arrived, and how often
    /// either failed.
    fn counts(&mut self) -> [u32; 3] {
        let mut buffer = [0; MAX_DATAGRAM];
        let mut counts = [0_u32; 3];
        for _ in 0..4 {
            match self.place.send(b"abc") {
                Ok(()) => counts[0] = counts[0].saturating_add(1),
                Err(_) => counts[2] = counts[2].saturating_add(1),
            }
            self.place.wake();
            match self.place.receive(&mut buffer) {
                Ok(Some(_)) => counts[1] = counts[1].saturating_add(1),
                Ok(None) => {}
                Err(_) => counts[2] = counts[2].saturating_add(1),
            }
        }
        counts
    }
}

/// Prints bytes, `-` for none, and only their number where they are very many.
fn tell_bytes(case: &mut Case, text: &str, bytes: &[u8]) {
    match bytes.len() {
        0 => case.say(text, "-"),
        1..=100 => case.hex(text, bytes),
        count => {
            case.say(text, count);
            case.put(" bytes");
        }
    }
    case.end();
}

fn peer_in(case: &mut Case) -> Peer {
    match case.word() {
        "udp" => udp_in(case),
        "vxlan" => vxlan_in(case),
        "interface" => Peer::Interface,
        _ => {
            case.fault();
            Peer::Interface
        }
    }
}

fn udp_in(case: &mut Case) -> Peer {
    let read = udp_of(case.word());
    case.or(read, Peer::Interface)
}

fn udp_of(text: &str) -> Option<Peer> {
    Some(Peer::Udp(End::read(text)?))
}

fn vxlan_in(case: &mut Case) -> Peer {
    let address = case.ip();
    let number = u32::try_from(case.number()).unwrap_or(u32::MAX);
    match Network::new(number) {
        Some(network) => Peer::Vxlan(address, network),
        None => {
            case.fault();
            Peer::Interface
        }
    }
}

/// Returns the datagrams that are to arrive, from the words that are left: `from`, who sends it and the bytes, again
/// and again.
fn datagrams_in(case: &mut Case) -> Vec<Datagram> {
    let mut coming = Vec::new(case.alloc);
    for _ in 0..case.left() / 3 {
        let datagram = datagram_in(case);
        case.keep(coming.push(datagram));
    }
    coming
}

fn datagram_in(case: &mut Case) -> Datagram {
    if case.word() != "from" {
        case.fault();
    }
    let read = sender_of(case.word());
    let sender = case.or(read, Sender::Interface);
    let bytes = case.bytes();
    Datagram { sender, bytes }
}

fn sender_of(text: &str) -> Option<Sender> {
    match text {
        "interface" => Some(Sender::Interface),
        text => Some(Sender::End(End::read(text)?)),
    }
}
