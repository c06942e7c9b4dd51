//! The sockets that receive while a line of words is acted on.

use anyhow::Result;
use cases_words::Case;
use mio::net::{UdpSocket, UnixListener, UnixStream};
use std::fs;
use std::io::{ErrorKind, Read};
use std::net::{Ipv4Addr, SocketAddr, SocketAddrV4};

/// The length of the longest datagram of the link, in bytes.
const LONGEST: usize = 2_232;

/// Returns a port of the loopback address.
fn at(port: u16) -> SocketAddr {
    SocketAddr::V4(SocketAddrV4::new(Ipv4Addr::LOCALHOST, port))
}

/// Returns a socket at a port of the loopback address.
pub(crate) fn bind(rt: &HostRuntime, port: u16) -> Result<UdpSocket> {
    Ok(UdpSocket::bind(rt, at(port))?)
}

/// Returns a socket at a port of the loopback address, which is connected to another one.
pub(crate) fn bind_to(rt: &HostRuntime, port: u16, other: u16) -> Result<UdpSocket> {
    let socket = bind(rt, port)?;
    socket.connect(at(other))?;
    Ok(socket)
}

/// Prints the bytes of the first datagram that has come.
pub(crate) fn show_first(socket: &UdpSocket, case: &mut Case) {
    let mut room = [0u8; LONGEST];
    match socket.recv_from(&mut room) {
        Ok((count, _)) => case.hex("first ", &room[..count.min(LONGEST)]),
        Err(error) if error.kind() == ErrorKind::WouldBlock => case.put("nothing came"),
        Err(_) => case.fault(),
    }
    case.end();
}

/// Returns a listener at the control socket beside a boot file, which answers nobody.
pub(crate) fn deaf(rt: &HostRuntime, boot_file: &str) -> Result<UnixListener> {
    let path = format!(in rt.alloc(); "{boot_file}.control/socket")?;
    let _missing = fs::remove_file(rt, path.as_str());
    Ok(UnixListener::bind(rt, path.as_str())?)
}

/// Prints what the first caller said.
pub(crate) fn show_said(listener: &UnixListener, case: &mut Case) {
    match listener.accept() {
        Ok((mut caller, _)) => show_word(&mut caller, case),
        Err(error) if error.kind() == ErrorKind::WouldBlock => case.put("nobody called"),
        Err(_) => case.fault(),
    }
    case.end();
}

fn show_word(caller: &mut UnixStream, case: &mut Case) {
    let mut room = [0u8; LONGEST];
    match caller.read(&mut room) {
        Ok(count) => case.hex("said ", room.get(..count).unwrap_or(&[])),
        Err(_) => case.fault(),
    }
}
