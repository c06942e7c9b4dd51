//! Reading endpoints, pairs and what they carry, in the order in which the program prints them,
//! without colons.

use crate::Case;
use crate::tables::WAYS;
use activity::{Remote, Way};
use addresses::TcpFlags;
use nat_types::{Endpoint, Key, Pair};

impl Case {
    /// Reads protocol and outside port, as `udp 20000`.
    pub fn key(&mut self) -> Key {
        let protocol = self.protocol();
        let port = self.port();
        Key { protocol, port }
    }

    /// Reads protocol, inside address and inside port, as `udp 192.168.1.10 5000`.
    pub fn endpoint(&mut self) -> Endpoint {
        Endpoint {
            protocol: self.protocol(),
            address: self.ip(),
            port: self.port(),
        }
    }

    /// Reads protocol, outside port, inside address and inside port, as
    /// `udp 20000 192.168.1.10 5000`.
    pub fn pair(&mut self) -> Pair {
        let key = self.key();
        let address = self.ip();
        Pair::new(key, address, self.port())
    }

    /// Reads an outside host's address and port, as `198.51.100.7 443`.
    pub fn remote(&mut self) -> Remote {
        let address = self.ip();
        let port = self.port();
        Remote { address, port }
    }

    /// Reads `out` or `in`.
    pub fn way(&mut self) -> Way {
        self.pick(&WAYS, Way::Outward)
    }

    /// Reads the letters of the flags that a segment has, of `F`, `S`, `R` and `A`, or `-`.
    pub fn flags(&mut self) -> TcpFlags {
        let word = self.word();
        TcpFlags {
            fin: word.contains('F'),
            syn: word.contains('S'),
            rst: word.contains('R'),
            ack: word.contains('A'),
        }
    }
}
