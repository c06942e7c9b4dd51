//! Polls of one descriptor, which never wait.

use libc::types::pollfd;
use std::os::fd::RawFd;

/// Whether the descriptor has something to be read, is at its end, or has an error.
pub fn is_readable(descriptor: RawFd) -> bool {
    reported(descriptor, libc::net::POLLIN) != 0
}

/// Whether a write to the descriptor wouldn't wait. A pipe takes 4,096 bytes at once then.
pub fn is_writable(descriptor: RawFd) -> bool {
    reported(descriptor, libc::net::POLLOUT) & libc::net::POLLOUT != 0
}

/// Returns which of these events a descriptor reports, with its errors; 0 where it reports nothing.
fn reported(descriptor: RawFd, events: i16) -> i16 {
    let mut polled = [pollfd {
        fd: descriptor,
        events,
        revents: 0,
    }];
    if libc::net::poll(&mut polled, 0) > 0 {
        polled[0].revents
    } else {
        0
    }
}
