//! The cases of boxes, clients and strangers.

use crate::boxes::{Boxes, control_at, number_of, on_loopback};
use crate::clients::Clients;
use crate::failures;
use crate::words::{place_in, tell_losses};
use anyhow::Result;
use cases_words::{Actor, Case};
use control::{ControlPath, Word, ask, say};
use sockets::{MAX_DATAGRAM, Place, Sockets, Wire, WireFault};
use std::alloc::Global;
use std::fs;
use std::io::Write;
use std::net::{SocketAddr, UdpSocket};
use std::os::unix::fs::PermissionsExt;
use std::time::Duration;

/// The seconds for which a datagram is waited for.
const TIMEOUT: u64 = 5;

/// The boxes, and the clients of their control sockets.
#[derive(Drop)]
pub(crate) struct Network {
    rt: HostRuntime,
    boxes: Boxes,
    clients: Clients,
}

impl Network {
    /// Opens the boxes, without clients.
    pub(crate) fn open(rt: HostRuntime) -> Result<Network> {
        Ok(Network {
            rt,
            boxes: Boxes::open(&rt)?,
            clients: Clients::none(&rt),
        })
    }
}

impl Actor for Network {
    /// Does what a line says:
    ///
    /// - `fail N`: rounds of a wire whose call N fails
    /// - `stranger FROM TO HEX`, `stranger FROM TO N times HEX`, `stranger FROM TO N bytes BYTE`: somebody at FROM
    ///   sends these bytes to TO
    /// - `call NAME N`, `caller N says HEX`, `caller N hears`, `callers go`: clients at a box's control socket
    /// - `control NAME`, `say NAME`, `ask NAME`, `mode NAME`: makes a control socket and drops it; says a word; asks
    ///   how the box is; prints the folder's mode
    /// - `NAME ..`: what a box does (`act_on_box`)
    fn act(&mut self, case: &mut Case) {
        case.title("", "\n");
        let rt = &self.rt;
        match case.word() {
            "fail" => failures::rounds(self.boxes.sockets.as_mut_slice(), case),
            "stranger" => stranger(rt, case),
            "call" => connect(rt, &mut self.clients, case),
            "caller" => client(&mut self.clients, case),
            "callers" => self.clients.disconnect(),
            "control" => open_control(rt, case),
            "say" => say_stop(rt, case),
            "ask" => ask_status(rt, case),
            "mode" => mode(rt, case),
            _ => act_on_box(rt, &mut self.boxes, case),
        }
    }
}

/// Does what a line says of a box:
///
/// - `other open INSIDE OUTSIDE LINK`: opens the box with these ways
/// - `NAME bind`: opens the box's ports once more
/// - all else is done by the box's sockets (`act_on_sockets`)
fn act_on_box(rt: &HostRuntime, boxes: &mut Boxes, case: &mut Case) {
    case.back();
    let number = number_of(case.word());
    match case.word() {
        "open" => boxes.open_other(rt, case),
        "bind" => bind(rt, number, case),
        _ => match boxes.sockets.get_mut(number) {
            Some(sockets) => act_on_sockets(sockets, case),
            None => case.fault(),
        },
    }
}

fn bind(rt: &HostRuntime, number: usize, case: &mut Case) {
    let bound = on_loopback(rt, number, "again");
    case.done(bound, "bound");
}

/// Does what a line says of a box's sockets:
///
/// - `send PLACE COUNT BYTE`: sends a datagram of COUNT such bytes
/// - `receive`, `look`: prints the next datagram at the box, waited for or not
/// - `answers HEX`, `answers N bytes BYTE`: answers the client that said the last word
/// - `strangers PLACE`, `failing PLACE`, `losses PLACE`, `unanswered`: prints what the box counts
fn act_on_sockets(sockets: &mut Sockets, case: &mut Case) {
    case.back();
    match case.word() {
        "send" => send(sockets, case),
        "receive" => receive(sockets, Duration::from_secs(TIMEOUT), case),
        "look" => receive(sockets, Duration::ZERO, case),
        "answers" => answer(sockets, case),
        "unanswered" => case.tell(sockets.losses(Place::Operator).failed),
        "losses" => {
            let losses = sockets.losses(place_in(case));
            tell_losses(case, losses);
        }
        "strangers" => {
            let strangers = sockets.strangers(place_in(case));
            case.tell(strangers);
        }
        "failing" => {
            let is_failing = sockets.is_failing(place_in(case));
            case.tell(is_failing);
        }
        _ => case.fault(),
    }
}

fn send(sockets: &mut Sockets, case: &mut Case) {
    let place = place_in(case);
    let count = case.count();
    let bytes = repeated(case, count);
    match sockets.send(place, bytes.as_slice()) {
        Ok(()) => case.tell("sent"),
        Err(WireFault) => case.tell("failed"),
    }
}

fn answer(sockets: &mut Sockets, case: &mut Case) {
    let (_, bytes) = many(case);
    sockets.answer(bytes.as_slice());
}

/// Returns `count` bytes, each the byte that the next word says.
fn repeated(case: &mut Case, count: usize) -> Vec<u8> {
    let byte = case.byte();
    case.many(byte, count)
}

/// Receives the next datagram, and prints it.
fn receive(sockets: &mut Sockets, limit: Duration, case: &mut Case) {
    let mut buffer = [0; MAX_DATAGRAM];
    match sockets.receive(limit, &mut buffer) {
        Ok(Some((place, count))) => {
            case.show("  ", place);
            case.say(": ", count);
            case.say(" bytes of ", buffer[0]);
            case.end();
        }
        Ok(None) => case.tell("nothing"),
        Err(WireFault) => case.tell("failed"),
    }
}

/// Sends bytes as a stranger, from an address and port that is free.
fn stranger(rt: &HostRuntime, case: &mut Case) {
    let socket = UdpSocket::bind(rt, case.word());
    let to = case.word().parse::<SocketAddr>();
    let (count, bytes) = many(case);
    match (socket, to) {
        (Ok(socket), Ok(to)) => {
            for _ in 0..count {
                case.keep(socket.send_to(bytes.as_slice(), to));
            }
        }
        _ => case.fault(),
    }
}

/// Returns how many times something is sent, and its bytes.
fn many(case: &mut Case) -> (usize, Vec<u8>) {
    if case.left() == 1 {
        return (1, case.bytes());
    }
    let count = case.count();
    match case.word() {
        "times" => (count, case.bytes()),
        _ => (1, repeated(case, count)),
    }
}

fn connect(rt: &HostRuntime, clients: &mut Clients, case: &mut Case) {
    let path = socket_of(case.alloc, case.word());
    let count = case.count();
    case.keep(connect_to(rt, clients, path, count));
}

fn connect_to(
    rt: &HostRuntime,
    clients: &mut Clients,
    path: Result<String>,
    count: usize,
) -> Result<()> {
    clients.connect(rt, path?.as_str(), count)
}

/// Returns the path of the control socket of a box.
fn socket_of(alloc: Global, name: &str) -> Result<String> {
    Ok(format!(in alloc; "{name}.control/socket")?)
}

fn client(clients: &mut Clients, case: &mut Case) {
    let number = case.count();
    match case.word() {
        "says" => {
            let bytes = case.bytes();
            case.keep(clients.say(number, bytes.as_slice()));
        }
        "hears" => clients.hear(number, case),
        _ => case.fault(),
    }
}

fn open_control(rt: &HostRuntime, case: &mut Case) {
    let opened = control_at(rt, case.word());
    case.done(opened, "opened");
}

fn say_stop(rt: &HostRuntime, case: &mut Case) {
    let said = said(rt, case.word());
    case.done(said, "heard");
}

fn said(rt: &HostRuntime, name: &str) -> Result<()> {
    let path = ControlPath::beside(rt.alloc(), name)?;
    let word = Word::PeerOff {
        boot: Some(7),
        forced: false,
    };
    say(rt, &path, word)?;
    Ok(())
}

fn ask_status(rt: &HostRuntime, case: &mut Case) {
    let asked = asked(rt, case.word());
    case.done(asked, "replied");
}

fn asked(rt: &HostRuntime, name: &str) -> Result<()> {
    let path = ControlPath::beside(rt.alloc(), name)?;
    ask(rt, &path, Word::Status, &mut [0; MAX_DATAGRAM])?;
    Ok(())
}

fn mode(rt: &HostRuntime, case: &mut Case) {
    match mode_of(rt, case.word()) {
        Ok(mode) => {
            let written = writeln!(case.out, "  {mode:o}");
            case.keep(written);
        }
        Err(_) => case.fault(),
    }
}

fn mode_of(rt: &HostRuntime, name: &str) -> Result<u32> {
    let folder = format!(in rt.alloc(); "{name}.control")?;
    Ok(fs::metadata(rt, folder.as_str())?.permissions().mode() % 512)
}
