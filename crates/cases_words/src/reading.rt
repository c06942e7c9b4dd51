//! The calls that read the words of a case. Where a word spells no such value, each makes the line wrong and returns
//! some value of the type.
ghost use Rattle.std.specs.Prelude.{◌≤◌};

use crate::Case;
use crate::tables::{GATEWAYS, PROTOCOLS, SIDES, STATES};
use addresses::{Ip, Mac, Port, Protocol};
use hex::{FromHex, FromHexError};
use nat_types::{EntryState, GatewayId, Side};
use std::alloc::Global;
use std::net::Ipv4Addr;

impl Case {
    /// Reads a word of a table, and returns what is beside it there; `other` where the table hasn't the word.
    pub fn pick<T: Copy>(&mut self, rows: &[(&str, T)], other: T) -> T {
        let word = self.word();
        let mut found = None;
        for row in rows {
            if row.0 == word {
                found = Some(row.1);
            }
        }
        self.or(found, other)
    }

    /// Reads a decimal number, as a time in centiseconds or a boot number.
    pub fn number(&mut self) -> u64 {
        let read = self.word().parse::<u64>().ok();
        self.or(read, 0)
    }

    /// Reads a decimal number from `least` to `most`. Where it is another one, returns `least` and makes the line
    /// wrong.
    pub fn within(&mut self, least: u64, most: u64) -> u64
        requires { least ≤ most }
        ensures least { least ≤ result }
        ensures most { result ≤ most }
    {
        let number = self.number();
        if number < least || most < number {
            self.fault();
            return least;
        }
        number
    }

    /// Reads a decimal number of things.
    pub fn count(&mut self) -> usize {
        let read = self.word().parse::<usize>().ok();
        self.or(read, 0)
    }

    /// Reads a decimal number of repetitions.
    pub fn times(&mut self) -> u32 {
        let read = self.word().parse::<u32>().ok();
        self.or(read, 0)
    }

    /// Reads a byte in decimal.
    pub fn byte(&mut self) -> u8 {
        let read = self.word().parse::<u8>().ok();
        self.or(read, 0)
    }

    /// Reads `0` or `1`.
    pub fn gateway(&mut self) -> GatewayId {
        self.pick(&GATEWAYS, GatewayId::Zero)
    }

    /// Reads `inside` or `outside`.
    pub fn side(&mut self) -> Side {
        self.pick(&SIDES, Side::Inside)
    }

    /// Reads `icmp`, `tcp` or `udp`.
    pub fn protocol(&mut self) -> Protocol {
        self.pick(&PROTOCOLS, Protocol::Udp)
    }

    /// Reads a port in decimal.
    pub fn port(&mut self) -> Port {
        let read = self.word().parse::<u16>().ok();
        Port(self.or(read, 0))
    }

    /// Reads an address, as `192.168.1.10`.
    pub fn ip(&mut self) -> Ip {
        let read = self.word().parse::<Ipv4Addr>().ok();
        Ip(self.or(read, Ipv4Addr::UNSPECIFIED).to_bits())
    }

    /// Reads the name of an entry's state, as `Live` or `PendingMarked`.
    pub fn state(&mut self) -> EntryState {
        self.pick(&STATES, EntryState::Live)
    }

    /// Reads the first or the second of two words; true is the first.
    pub fn is_first(&mut self, first: &str, second: &str) -> bool {
        self.pick(&[(first, true), (second, false)], false)
    }

    /// Reads pairs of hexadecimal digits as bytes, or `-` as none.
    pub fn bytes(&mut self) -> Vec<u8> {
        let read = bytes_of(self.alloc, self.word());
        self.or_none(read)
    }

    /// Reads the next word as a text of its own.
    pub fn name(&mut self) -> String {
        let made = String::from_str(self.alloc, self.word());
        self.or_empty(made)
    }

    /// Returns `count` copies of a byte. Where there is no memory, returns none and makes the line wrong.
    pub fn many(&mut self, byte: u8, count: usize) -> Vec<u8> {
        let made = vec![in self.alloc; byte; count];
        self.or_none(made)
    }

    /// Reads `N` bytes in hexadecimal.
    pub fn octets<const N: usize>(&mut self) -> [u8; N] {
        let read = <[u8; N]>::from_hex(self.word()).ok();
        self.or(read, [0; N])
    }

    /// Reads a number of two bytes in hexadecimal.
    pub fn short(&mut self) -> u16 {
        u16::from_be_bytes(self.octets::<2>())
    }

    /// Reads a port in hexadecimal.
    pub fn hex_port(&mut self) -> Port {
        Port(self.short())
    }

    /// Reads an address in hexadecimal.
    pub fn hex_ip(&mut self) -> Ip {
        Ip::new(self.octets::<4>())
    }

    /// Reads an Ethernet address in hexadecimal.
    pub fn mac(&mut self) -> Mac {
        Mac(self.octets::<6>())
    }
}

fn bytes_of(alloc: Global, word: &str) -> Result<Vec<u8>, FromHexError> {
    match word {
        "-" => Ok(Vec::new(alloc)),
        digits => hex::decode(alloc, digits),
    }
}
