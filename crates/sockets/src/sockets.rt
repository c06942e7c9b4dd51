//! The sockets of a box: those of its places, and its control socket.
ghost use Rattle.std.specs.Prelude.{◌≤◌, IfOk, IfSome};
ghost use Rattle.sockets.specs.Wires.{AnyWay};

use crate::transports::Socket;
use crate::ways::Attachment;
use crate::{
    Losses, MAX_DATAGRAM, Place, PlaceSocket, SendFault, SocketCause, SocketFault, Way, Ways, Wire,
    WireFault,
};
use control::Control;
use mio::{Events, Poll, Token};
use nat_types::{GatewayId, Side};
use settings::Settings;
use std::net::Net;
use std::time::Duration;

const LINK_TOKEN: Token = Token(0);

const INSIDE_TOKEN: Token = Token(1);

const OUTSIDE_TOKEN: Token = Token(2);

/// The token under which a poll reports the control socket and its clients.
pub const CONTROL_TOKEN: Token = Token(3);

/// How many places there are: the link, both sides, and the operator's.
const PLACES: u8 = 4;

/// How many events one poll reports at most.
const MAX_EVENTS: usize = 8;

/// The ports of a box's places on the loopback address: of each the own port, and the one that it sends to, or None
/// where one of the two is left out. Only a place on loopback needs them.
#[derive(Clone, Copy, Debug, PartialEq, Eq)]
pub struct LoopbackPorts {
    pub link: Option<(u16, u16)>,
    pub inside: Option<(u16, u16)>,
    pub outside: Option<(u16, u16)>,
}

impl LoopbackPorts {
    /// Returns the ports of a box in the settings.
    pub fn of(settings: &Settings, id: GatewayId) -> LoopbackPorts {
        let (own, other) = match id {
            GatewayId::Zero => (&settings.zero, &settings.one),
            GatewayId::One => (&settings.one, &settings.zero),
        };
        LoopbackPorts {
            link: both(own.link, other.link),
            inside: both(own.inside_port, settings.inside.wire),
            outside: both(own.outside_port, settings.outside.wire),
        }
    }
}

/// Returns two ports, or None where one of them is left out.
fn both(own: Option<u16>, other: Option<u16>) -> Option<(u16, u16)> {
    match (own, other) {
        (Some(own), Some(other)) => Some((own, other)),
        _ => None,
    }
}

/// The sockets of a box, polled together.
#[derive(Drop)]
pub struct Sockets {
    poll: Poll,
    events: Events,
    link: PlaceSocket<Socket>,
    inside: PlaceSocket<Socket>,
    outside: PlaceSocket<Socket>,
    control: Control,
    /// The place that is tried first, so that each place has its turn.
    next: Place,
}

impl Sockets {
    /// Opens the sockets of these ways, and polls the control socket together with them. The caller has called
    /// [`Ways::check_descriptors`] before.
    ///
    /// # Errors
    ///
    /// `NoSocket` where one can't be bound, connected or polled, and where a place on loopback has no ports; `NoMemory`.
    pub fn open<R: Net + AllocGlobal>(
        rt: &R,
        ways: &Ways,
        ports: LoopbackPorts,
        mut control: Control,
    ) -> Result<Sockets, SocketFault> {
        let to_link = attachment(ways.link, ports.link)?;
        let to_inside = attachment(ways.inside, ports.inside)?;
        let to_outside = attachment(ways.outside, ports.outside)?;
        let poll = Poll::new(rt)?;
        let registry = poll.registry();
        let link = Socket::open(rt, registry, LINK_TOKEN, to_link)?;
        let inside = Socket::open(rt, registry, INSIDE_TOKEN, to_inside)?;
        let outside = Socket::open(rt, registry, OUTSIDE_TOKEN, to_outside)?;
        let events = Events::with_capacity(rt.alloc(), MAX_EVENTS)?;
        control.register(registry)?;
        Ok(Sockets {
            link: PlaceSocket::new(link, to_link.peer()),
            inside: PlaceSocket::new(inside, to_inside.peer()),
            outside: PlaceSocket::new(outside, to_outside.peer()),
            poll,
            events,
            control,
            next: Place::Link,
        })
    }

    /// Returns how many datagrams of strangers arrived at a place; of the operator's place, how many clients were refused.
    pub fn strangers(&self, place: Place) -> u64 {
        match self.place_socket(place) {
            Some(place_socket) => place_socket.strangers(),
            None => self.control.refused(),
        }
    }

    /// Returns the socket of a place, which the operator's place doesn't have.
    fn place_socket(&self, place: Place) -> Option<&PlaceSocket<Socket>> {
        match place {
            Place::Link => Some(&self.link),
            Place::Side(Side::Inside) => Some(&self.inside),
            Place::Side(Side::Outside) => Some(&self.outside),
            Place::Operator => None,
        }
    }

    /// Receives the next datagram or word that has arrived, trying each place once.
    fn take(&mut self, buffer: &mut [u8; MAX_DATAGRAM]) -> Result<Option<(Place, usize)>, WireFault>
        ensures { IfOk result (λ found. IfSome found (λ one. one.1 ≤ MAX_DATAGRAM)) }
    {
        for _ in 0..PLACES {
            let place = self.next;
            self.next = place_after(place);
            let found = match place {
                Place::Link => self.link.receive(buffer)?,
                Place::Side(Side::Inside) => self.inside.receive(buffer)?,
                Place::Side(Side::Outside) => self.outside.receive(buffer)?,
                Place::Operator => self.control.take(self.poll.registry(), buffer),
            };
            if let Some(count) = found {
                return Ok(Some((place, count)));
            }
        }
        Ok(None)
    }

    /// Polls until a place has something, or the limit has passed, and wakes each place that the poll reports.
    fn wait(&mut self, limit: Duration) -> Result<(), WireFault> {
        if self.poll.poll(&mut self.events, Some(limit)).is_err() {
            return Err(WireFault);
        }
        for event in &self.events {
            match event.token() {
                LINK_TOKEN => self.link.wake(),
                INSIDE_TOKEN => self.inside.wake(),
                OUTSIDE_TOKEN => self.outside.wake(),
                _ => self.control.wake(),
            }
        }
        self.control.retry();
        Ok(())
    }

    /// Whether any place may have something.
    fn is_any_ready(&self) -> bool {
        self.link.is_ready()
            || self.inside.is_ready()
            || self.outside.is_ready()
            || self.control.is_ready()
    }
}

impl Wire for Sockets {
    ghost passes = { AnyWay };

    fn receive(
        &mut self,
        limit: Duration,
        buffer: &mut [u8; MAX_DATAGRAM],
    ) -> Result<Option<(Place, usize)>, WireFault> {
        // 1. Where there is time and something is ready, poll without waiting. Else a flood at one place would hide the
        //    others, which are tried again only after a poll reports them.
        if !limit.is_zero() && self.is_any_ready() {
            self.wait(Duration::ZERO)?;
        }
        // 2. Take what has arrived.
        if let Some(found) = self.take(buffer)? {
            return Ok(Some(found));
        }
        // 3. Wait, unless a place may have more, and take what has arrived then.
        let limit = if self.is_any_ready() {
            Duration::ZERO
        } else {
            limit
        };
        self.wait(limit)?;
        self.take(buffer)
    }

    fn send(&mut self, to: Place, bytes: &[u8]) -> Result<(), WireFault> {
        let sent = match to {
            Place::Link => self.link.send(bytes),
            Place::Side(Side::Inside) => self.inside.send(bytes),
            Place::Side(Side::Outside) => self.outside.send(bytes),
            Place::Operator => Err(SendFault::Failed),
        };
        sent.map_err(|_| WireFault)
    }

    fn answer(&mut self, bytes: &[u8]) {
        self.control.answer(bytes);
    }

    fn is_failing(&self, place: Place) -> bool {
        match self.place_socket(place) {
            Some(place_socket) => place_socket.is_failing(),
            None => false,
        }
    }

    fn losses(&self, place: Place) -> Losses {
        match self.place_socket(place) {
            Some(place_socket) => place_socket.losses(),
            None => Losses {
                too_long: 0,
                failed: self.control.unanswered(),
            },
        }
    }
}

/// Returns what a place is attached to by its way, with its ports on the loopback address.
///
/// # Errors
///
/// `NoPorts` where the place is on loopback and has none.
fn attachment(way: Way, ports: Option<(u16, u16)>) -> Result<Attachment, SocketCause> {
    match way.attachment(ports) {
        Some(found) => Ok(found),
        None => Err(SocketCause::NoPorts),
    }
}

/// Returns the place that is tried after this one.
fn place_after(place: Place) -> Place {
    match place {
        Place::Link => Place::Side(Side::Inside),
        Place::Side(Side::Inside) => Place::Side(Side::Outside),
        Place::Side(Side::Outside) => Place::Operator,
        Place::Operator => Place::Link,
    }
}
