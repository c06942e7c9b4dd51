//! When a mapping begins and when it ends: who had which port.

use crate::Entry;
use addresses::{Ip, Port, Protocol};
use nat_types::{Key, NoMemory, NoteKind, Pair};
use std::alloc::Global;
use std::fmt::{self, Display, Formatter};
use std::mem;

/// How many ports a protocol has.
const PORTS: usize = 65_536;

/// A mapping, as a record has it.
#[derive(Clone, Copy, Debug, PartialEq, Eq)]
pub struct Mapping {
    pub protocol: Protocol,
    pub outside_port: Port,
    pub inside_address: Ip,
    pub inside_port: Port,
}

impl Mapping {
    /// Returns the mapping of a pair.
    pub fn of(pair: &Pair) -> Mapping {
        Mapping {
            protocol: pair.key.protocol,
            outside_port: pair.key.port,
            inside_address: pair.endpoint.address,
            inside_port: pair.endpoint.port,
        }
    }
}

/// For people: `udp 20000 192.168.1.10 5000`, in the order of the fields.
impl Display for Mapping {
    fn fmt<W: fmt::Write>(&self, f: &mut Formatter<W>) -> fmt::Result {
        let Mapping {
            protocol,
            outside_port,
            inside_address,
            inside_port,
        } = self;
        write!(
            f,
            "{protocol} {outside_port} {inside_address} {inside_port}"
        )
    }
}

/// The mappings that have begun at a box and haven't ended: a byte for each port of each protocol, 192 KiB.
#[derive(Drop)]
pub struct Mappings {
    have_begun: Vec<bool>,
}

impl Mappings {
    /// Returns the state in which no mapping has begun.
    ///
    /// # Errors
    ///
    /// Where there is no memory for it.
    pub fn new(alloc: Global) -> Result<Mappings, NoMemory> {
        let have_begun = vec![in alloc; false; 3 * PORTS]?;
        Ok(Mappings { have_begun })
    }

    /// Takes a gateway's note, and returns the begin or the end of a mapping that the note tells, if any. A mapping begins with
    /// the first packet that is translated with it, and ends with its release.
    pub(crate) fn take_note(&mut self, what: &NoteKind) -> Option<Entry> {
        match what {
            NoteKind::Used(pair) => {
                let had_begun = self.replace(pair.key, true);
                (!had_begun).then_some(Entry::MappingBegins(Mapping::of(pair)))
            }
            NoteKind::Released(pair) => {
                let had_begun = self.replace(pair.key, false);
                had_begun.then_some(Entry::MappingEnds(Mapping::of(pair)))
            }
            _ => None,
        }
    }

    /// Sets whether the mapping of a key has begun, and returns what was set before.
    fn replace(&mut self, key: Key, has_begun: bool) -> bool {
        let index = PORTS * usize::from(key.protocol as u8) + usize::from(key.port.0);
        match self.have_begun.get_mut(index) {
            Some(begun) => mem::replace(begun, has_begun),
            None => has_begun,
        }
    }
}
