//! The transports of a place's datagrams: a UDP socket, or an inherited descriptor.
ghost use Rattle.std.specs.Prelude.{◌≤◌, IfOk, IfSome};

use crate::ways::Attachment;
use crate::{End, Ends, MAX_DATAGRAM, SendFault, Sender, SocketCause, WireFault};
use mio::net::UdpSocket;
use mio::unix::SourceFd;
use mio::{Interest, Registry, Token};
use platform::Inherited;
use std::io::{self, ErrorKind, Read, Write};
use std::net::{Net, SocketAddr};
use std::os::fd::AsRawFd;

/// The error number of a datagram that is longer than its interface takes, in Linux.
const EMSGSIZE: i32 = 90;

/// A datagram that arrived: how many bytes it has in the receiver's buffer, and who sent it.
#[derive(Clone, Copy, Debug, PartialEq, Eq)]
pub struct Arrived {
    pub count: usize,
    pub sender: Sender,
}

/// What carries the datagrams of a place. No call waits.
pub trait Transport {
    /// Sends one datagram.
    ///
    /// # Errors
    ///
    /// Where the datagram wasn't sent. It is lost then.
    fn send(&mut self, datagram: &[u8]) -> Result<(), SendFault>;

    /// Receives the next datagram into the buffer, if one has arrived.
    ///
    /// # Errors
    ///
    /// Where receiving failed. Nothing is received then.
    fn receive(&mut self, buffer: &mut [u8; MAX_DATAGRAM]) -> Result<Option<Arrived>, WireFault>
        ensures { IfOk result (λ found. IfSome found (λ one. one.count ≤ MAX_DATAGRAM)) };
}

/// The socket or descriptor of a place.
#[derive(Drop)]
pub(crate) enum Socket {
    /// A socket that is connected to the peer: the kernel drops what others send.
    Connected(UdpSocket),
    /// A socket that receives from anyone, and sends to this address: a kernel sends each flow of VXLAN from a port of its
    /// own.
    Open(UdpSocket, SocketAddr),
    Inherited(Inherited),
}

impl Socket {
    /// Opens the socket or descriptor of an attachment, and registers it with a poll under a token.
    ///
    /// # Errors
    ///
    /// `NotBound`, `NotConnected`, `BadDescriptor` or `NotPolled`: the call of the system that failed.
    pub(crate) fn open<R: Net>(
        rt: &R,
        registry: &Registry,
        token: Token,
        attachment: Attachment,
    ) -> Result<Socket, SocketCause> {
        let mut socket = match attachment {
            Attachment::Udp(ends) => Socket::connect(rt, ends)?,
            Attachment::Vxlan(ends, _) => {
                Socket::Open(bind(rt, ends.own)?, SocketAddr::from(ends.other))
            }
            Attachment::Descriptor(number) => Socket::inherit(number)?,
        };
        match socket.register(registry, token) {
            Ok(()) => Ok(socket),
            Err(error) => Err(match attachment {
                Attachment::Udp(_) | Attachment::Vxlan(_, _) => SocketCause::NotPolled(
                    error.kind(),
                ),
                Attachment::Descriptor(number) => SocketCause::BadDescriptor(number, error.kind()),
            }),
        }
    }

    /// Binds a socket to its own end, and connects it to the other.
    fn connect<R: Net>(rt: &R, ends: Ends) -> Result<Socket, SocketCause> {
        let socket = bind(rt, ends.own)?;
        match socket.connect(SocketAddr::from(ends.other)) {
            Ok(()) => Ok(Socket::Connected(socket)),
            Err(error) => Err(SocketCause::NotConnected(ends.other, error.kind())),
        }
    }

    /// Takes over the inherited descriptor of a number.
    fn inherit(number: u16) -> Result<Socket, SocketCause> {
        match Inherited::open(number) {
            Ok(inherited) => Ok(Socket::Inherited(inherited)),
            Err(error) => Err(SocketCause::BadDescriptor(number, error.kind())),
        }
    }

    /// Registers the socket or descriptor with a poll.
    fn register(&mut self, registry: &Registry, token: Token) -> io::Result<()> {
        let readable = Interest::READABLE;
        match self {
            Socket::Connected(socket) => registry.register(socket, token, readable),
            Socket::Open(socket, _) => registry.register(socket, token, readable),
            Socket::Inherited(inherited) => {
                registry.register(&mut SourceFd(&inherited.as_raw_fd()), token, readable)
            }
        }
    }

    /// Writes a datagram. A connected socket may first report that an earlier datagram found nobody; the datagram is then
    /// sent again, so that the first one after the peer's return isn't lost.
    fn write(&mut self, bytes: &[u8]) -> io::Result<usize> {
        match self {
            Socket::Connected(socket) => match socket.send(bytes) {
                Err(error) if error.kind() == ErrorKind::ConnectionRefused => socket.send(bytes),
                sent => sent,
            },
            Socket::Open(socket, other) => socket.send_to(bytes, *other),
            Socket::Inherited(inherited) => inherited.write(bytes),
        }
    }

    /// Reads a datagram. Here, too, a connected socket may first report that an earlier datagram found nobody. A descriptor
    /// that gives no bytes is closed at its other end.
    fn read(&mut self, buffer: &mut [u8; MAX_DATAGRAM]) -> io::Result<Arrived>
        ensures { IfOk result (λ one. one.count ≤ MAX_DATAGRAM) }
    {
        match self {
            Socket::Connected(socket) => match receive_from(socket, buffer) {
                Err(error) if error.kind() == ErrorKind::ConnectionRefused => {
                    receive_from(socket, buffer)
                }
                arrived => arrived,
            },
            Socket::Open(socket, _) => receive_from(socket, buffer),
            Socket::Inherited(inherited) => match inherited.read(buffer)? {
                0 => Err(ErrorKind::UnexpectedEof.into()),
                count => Ok(Arrived {
                    count,
                    sender: Sender::Interface,
                }),
            },
        }
    }
}

impl Transport for Socket {
    fn send(&mut self, datagram: &[u8]) -> Result<(), SendFault> {
        match self.write(datagram) {
            Ok(sent) if sent == datagram.len() => Ok(()),
            Ok(_) => Err(SendFault::Failed),
            Err(error) => match error.raw_os_error() {
                Some(EMSGSIZE) => Err(SendFault::TooLong),
                _ => Err(SendFault::Failed),
            },
        }
    }

    fn receive(&mut self, buffer: &mut [u8; MAX_DATAGRAM]) -> Result<Option<Arrived>, WireFault> {
        match self.read(buffer) {
            Ok(arrived) => Ok(Some(arrived)),
            Err(error) if error.kind() == ErrorKind::WouldBlock => Ok(None),
            Err(_) => Err(WireFault),
        }
    }
}

/// Binds a socket to an end.
fn bind<R: Net>(rt: &R, end: End) -> Result<UdpSocket, SocketCause> {
    match UdpSocket::bind(rt, SocketAddr::from(end)) {
        Ok(socket) => Ok(socket),
        Err(error) => Err(SocketCause::NotBound(end, error.kind())),
    }
}

/// Receives a datagram by a socket, with its sender.
fn receive_from(socket: &mut UdpSocket, buffer: &mut [u8; MAX_DATAGRAM]) -> io::Result<Arrived>
    ensures { IfOk result (λ one. one.count ≤ MAX_DATAGRAM) }
{
    match socket.recv_from(buffer)? {
        (count, SocketAddr::V4(from)) => Ok(Arrived {
            count,
            sender: Sender::End(End::from(from)),
        }),
        (_, SocketAddr::V6(_)) => Err(ErrorKind::InvalidData.into()),
    }
}
