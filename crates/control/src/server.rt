//! The server's end of a control socket. No function here waits.
ghost use Rattle.std.specs.Prelude.{◌≤◌, IfSome, length};

use crate::{ControlPath, NoSocket, Word};
use mio::net::{UnixListener, UnixStream};
use mio::{Interest, Registry, Token};
use std::alloc::AllocError;
use std::fs::{Files, Permissions};
use std::io::{self, ErrorKind, Read, Write};
use std::net::Net;
use std::os::unix::fs::PermissionsExt;

/// How many clients that haven't said their word yet are kept at most. A further one takes the place of the oldest.
const MAX_CLIENTS: usize = 8;

/// The mode of the socket's folder: only its owner may enter it.
const OWNER_ONLY: u32 = 0o700;

/// A control socket and its clients. A client says one word; the word of the next client is taken once this one is
/// answered.
#[derive(Drop)]
pub struct Control {
    listener: UnixListener,
    /// The clients that haven't said their word yet, the oldest first.
    clients: Vec<UnixStream>,
    /// The client whose word is taken and isn't answered yet.
    awaiting: Option<UnixStream>,
    token: Token,
    /// Whether a client may have connected or said a word since the last `take` that found nothing.
    is_ready: bool,
    /// Whether the last `accept` failed for a reason that may last, as that the process has no free descriptor.
    has_failed: bool,
    refused: u64,
    unanswered: u64,
}

impl From<AllocError> for NoSocket {
    fn from(_: AllocError) -> NoSocket {
        NoSocket::Failed(ErrorKind::OutOfMemory)
    }
}

/// Makes a folder that only its owner may enter, or closes the folder that is there to all others.
fn make_folder<R: Files>(rt: &R, folder: &str) -> io::Result<()> {
    match rt.create_dir_with_mode(folder, OWNER_ONLY) {
        Err(error) if error.kind() != ErrorKind::AlreadyExists => Err(error),
        _ => rt.set_permissions(folder, Permissions::from_mode(OWNER_ONLY)),
    }
}

impl Control {
    /// Listens at a path. Makes the folder if it isn't there, and removes a socket that a crashed box left there: the
    /// caller holds the lock of the boot file beside the folder, so no other box listens. A poll reports the socket and its
    /// clients under this token.
    ///
    /// # Errors
    ///
    /// Where the folder can't be made or closed to other users, the socket can't be bound, or memory runs out.
    pub fn open<R: Files + Net + AllocGlobal>(
        rt: &R,
        path: &ControlPath,
        token: Token,
    ) -> Result<Control, NoSocket> {
        let clients = Vec::with_capacity(rt.alloc(), MAX_CLIENTS)?;
        let (folder, socket) = (path.folder.as_str(), path.socket.as_str());
        make_folder(rt, folder)?;
        let _is_missing = rt.remove_file(socket);
        Ok(Control {
            listener: UnixListener::bind(rt, socket)?,
            clients,
            awaiting: None,
            token,
            is_ready: true,
            has_failed: false,
            refused: 0,
            unanswered: 0,
        })
    }

    /// Registers the socket with a poll, which then reports new clients.
    ///
    /// # Errors
    ///
    /// Those of `epoll_ctl`.
    pub fn register(&mut self, registry: &Registry) -> io::Result<()> {
        registry.register(&mut self.listener, self.token, Interest::READABLE)
    }

    /// Says that a poll has reported the socket's token.
    pub fn wake(&mut self) {
        self.is_ready = true;
    }

    /// Says that a poll has ended: an `accept` that failed is tried again.
    ///
    /// A poll reports a client once, when the client connects. Where the system then has no descriptor for the client
    /// (`EMFILE`), the client stays in the socket's queue and isn't reported again. So `accept` is tried again after each
    /// poll: the client is kept, and the box waits in its polls meanwhile.
    pub fn retry(&mut self) {
        self.is_ready = self.is_ready || self.has_failed;
    }

    /// Whether `take` may find a word. While a client awaits its reply, there is none.
    pub fn is_ready(&self) -> bool {
        self.is_ready && self.awaiting.is_none()
    }

    /// Returns how many clients said what is no word, or closed before their word, or gave way to others.
    pub fn refused(&self) -> u64 {
        self.refused
    }

    /// Returns how many clients couldn't be written their whole reply at once.
    pub fn unanswered(&self) -> u64 {
        self.unanswered
    }

    /// Reads the next word into the buffer, and returns how many bytes it has. Where no client has said one, accepts one
    /// new client, if there is one.
    pub fn take(&mut self, registry: &Registry, buffer: &mut [u8]) -> Option<usize>
        ensures { IfSome result (λ count. count ≤ length buffer.new) }
    {
        if !self.is_ready() {
            return None;
        }
        if let Some(count) = self.next_word(buffer) {
            return Some(count);
        }
        self.is_ready = self.accept_client(registry);
        None
    }

    /// Answers the client whose word was taken last, by one write, and closes its connection.
    pub fn answer(&mut self, bytes: &[u8]) {
        if let Some(mut client) = self.awaiting.take() {
            let is_whole = matches!(client.write(bytes), Ok(count) if count == bytes.len());
            if !is_whole {
                self.unanswered = self.unanswered.saturating_add(1);
            }
        }
    }

    /// Reads the word of the oldest client that has said one. Refuses each client before it that said something else or
    /// closed.
    fn next_word(&mut self, buffer: &mut [u8]) -> Option<usize>
        ensures { IfSome result (λ count. count ≤ length buffer.new) }
    {
        let mut at = 0;
        for _ in 0..self.clients.len() {
            let client = self.clients.get_mut(at)?;
            match client.read(buffer) {
                Ok(count) if Word::read(&buffer[..count]).is_some() => {
                    self.awaiting = Some(self.clients.remove(at));
                    return Some(count);
                }
                Err(error) if error.kind() == ErrorKind::WouldBlock => at += 1,
                Ok(_) | Err(_) => self.refuse(at),
            }
        }
        None
    }

    /// Accepts the next client, and returns whether there may be more now. A poll reports the listener once for all who
    /// connect, so only an `accept` that would block says that there are none.
    fn accept_client(&mut self, registry: &Registry) -> bool {
        self.has_failed = false;
        match self.listener.accept() {
            Ok((client, _)) => {
                self.keep(client, registry);
                true
            }
            Err(error) => match error.kind() {
                ErrorKind::WouldBlock => false,
                ErrorKind::Interrupted | ErrorKind::ConnectionAborted => true,
                _ => {
                    self.has_failed = true;
                    false
                }
            },
        }
    }

    /// Keeps a new client until it says its word. A client that no poll can report is dropped.
    fn keep(&mut self, mut client: UnixStream, registry: &Registry) {
        if self.clients.len() >= MAX_CLIENTS {
            self.refuse(0);
        }
        let registered = registry.register(&mut client, self.token, Interest::READABLE);
        if registered.is_ok() {
            let _has_capacity = self.clients.push(client);
        }
    }

    /// Closes the connection of the client at this index, and counts it as refused.
    fn refuse(&mut self, at: usize) {
        if at < self.clients.len() {
            self.clients.remove(at);
        }
        self.refused = self.refused.saturating_add(1);
    }
}
