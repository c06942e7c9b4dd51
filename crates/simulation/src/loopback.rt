//! The UDP ports of both gateways on the loopback address.

use crate::Channel;
use captures::Interface;
use faults::Fault;
use nat_types::{GatewayId, Side};
use settings::Settings;
use settings_file::{BoxPorts, port_clash_of_both, ports_of_both};
use std::io::ErrorKind;
use std::net::{Ipv4Addr, Net, SocketAddr, SocketAddrV4, UdpSocket};
use std::rt::Clock;
use std::time::{Duration, Instant};

/// How long a socket waits for its own datagram, in milliseconds.
const RECEIVE_TIMEOUT_MS: u64 = 1_000;

/// The size of a receive buffer in bytes: a frame of a script has at most 2,000, and a datagram of the link 2,232.
const RECEIVE_BUFFER: usize = 4_096;

/// A UDP socket on the loopback address that sends to itself.
#[derive(Drop)]
struct EchoSocket {
    socket: UdpSocket,
    address: SocketAddr,
}

impl EchoSocket {
    /// Binds a port of the loopback address.
    ///
    /// # Errors
    ///
    /// `NoSocket`.
    fn open<R: Net>(rt: &R, port: u16) -> Result<EchoSocket, Fault> {
        let address = SocketAddr::V4(SocketAddrV4::new(Ipv4Addr::LOCALHOST, port));
        match UdpSocket::bind(rt, address) {
            Ok(socket) => Ok(EchoSocket { socket, address }),
            Err(error) => Err(Fault::NoSocket(address, error.kind())),
        }
    }

    /// Sends bytes, and returns whether they arrive within the timeout. Other datagrams are skipped.
    fn echoes<R: Clock>(&self, rt: &R, bytes: &[u8]) -> bool {
        if self.socket.send_to(bytes, self.address).is_err() {
            return false;
        }
        let Ok(start) = Instant::now(rt) else {
            return false;
        };
        // A loop without an end that is proved to end.
        for _ in 0..u64::MAX {
            match time_left(rt, start) {
                Some(left) if self.sets_timeout(left) => {}
                _ => return false,
            }
            match self.receive(bytes) {
                Received::Same => return true,
                Received::Other => {}
                Received::Failed => return false,
            }
        }
        false
    }

    /// Sets the timeout of the next receive, and returns whether that succeeded.
    fn sets_timeout(&self, left: Duration) -> bool {
        self.socket.set_read_timeout(Some(left)).is_ok()
    }

    /// Receives a datagram, and compares it with the bytes that were sent.
    fn receive(&self, sent: &[u8]) -> Received {
        let mut buffer = [0; RECEIVE_BUFFER];
        match self.socket.recv_from(&mut buffer) {
            Ok((count, _)) if &buffer[..count] == sent => Received::Same,
            Ok(_) => Received::Other,
            Err(error) => match error.kind() {
                ErrorKind::WouldBlock | ErrorKind::TimedOut => Received::Other,
                _ => Received::Failed,
            },
        }
    }
}

/// The result of one receive.
#[derive(Clone, Copy, Debug, PartialEq, Eq)]
enum Received {
    /// The bytes that were sent.
    Same,
    /// Other bytes, or none before the timeout.
    Other,
    Failed,
}

/// Returns what is left of the timeout, or None where nothing is.
fn time_left<R: Clock>(rt: &R, start: Instant) -> Option<Duration> {
    let spent = start.elapsed(rt).ok()?;
    let left = Duration::from_millis(RECEIVE_TIMEOUT_MS).checked_sub(spent)?;
    if left.is_zero() { None } else { Some(left) }
}

/// The sockets of a gateway.
#[derive(Drop)]
struct GatewaySockets {
    link: EchoSocket,
    inside: EchoSocket,
    outside: EchoSocket,
}

impl GatewaySockets {
    fn open<R: Net>(rt: &R, ports: BoxPorts) -> Result<GatewaySockets, Fault> {
        Ok(GatewaySockets {
            link: EchoSocket::open(rt, ports.link)?,
            inside: EchoSocket::open(rt, ports.inside)?,
            outside: EchoSocket::open(rt, ports.outside)?,
        })
    }

    fn side(&self, side: Side) -> &EchoSocket {
        match side {
            Side::Inside => &self.inside,
            Side::Outside => &self.outside,
        }
    }
}

/// The loopback sockets of both gateways. The bytes for an interface are sent by the interface's own socket to itself.
#[derive(Drop)]
pub struct Loopback<'a, R> {
    rt: &'a R,
    zero: GatewaySockets,
    one: GatewaySockets,
}

impl<'a, R: Net + AllocGlobal> Loopback<'a, R> {
    /// Binds the ports in the settings of both gateways, which are in the file at a path: the link, the inside and the
    /// outside of gateway 0, then those of gateway 1.
    ///
    /// # Errors
    ///
    /// `Missing` of the first key of a loopback port that is left out, `wire` too; `PortClash` with the first key whose
    /// port another key before it has; `NoSocket` of the first port that can't be bound.
    pub fn open(rt: &'a R, path: &str, settings: &Settings) -> Result<Loopback<'a, R>, Fault> {
        let (zero, one) = match ports_of_both(settings) {
            Ok(ports) => ports,
            Err(key) => return Err(Fault::missing_port(rt.alloc(), path, key)),
        };
        if let Some(clash) = port_clash_of_both(settings) {
            return Err(Fault::PortClash(clash));
        }
        Ok(Loopback {
            rt,
            zero: GatewaySockets::open(rt, zero)?,
            one: GatewaySockets::open(rt, one)?,
        })
    }
}

impl<R> Loopback<'_, R> {
    fn socket(&self, interface: Interface) -> &EchoSocket {
        match interface {
            Interface::Side(id, side) => self.gateway(id).side(side),
            Interface::Link(id) => &self.gateway(id).link,
        }
    }

    fn gateway(&self, id: GatewayId) -> &GatewaySockets {
        match id {
            GatewayId::Zero => &self.zero,
            GatewayId::One => &self.one,
        }
    }
}

impl<R: Clock> Loopback<'_, R> {
    /// Sends bytes through the socket of an interface, and returns whether they came back.
    fn send(&self, interface: Interface, bytes: &[u8]) -> bool {
        self.socket(interface).echoes(self.rt, bytes)
    }
}

impl<R: Clock> Channel for Loopback<'_, R> {
    fn pass(&mut self, interface: Interface, bytes: &[u8]) -> bool {
        self.send(interface, bytes)
    }
}
