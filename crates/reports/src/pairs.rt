//! The lines of a page's pairs.

use crate::Page;
use crate::names::state_name;
use addresses::{Ip, Port, Protocol};
use bindings::Entry;
use nat_types::{EntryState, Pair};
use std::fmt::{self, Display, Formatter};

/// Which entries of a page pass: those that have each value that is set.
#[derive(Clone, Copy, Debug, PartialEq, Eq)]
pub struct PairFilter {
    pub protocol: Option<Protocol>,
    /// The address of the inside host.
    pub address: Option<Ip>,
    /// The outside port.
    pub port: Option<Port>,
    pub state: Option<EntryState>,
}

impl PairFilter {
    /// The filter that all entries pass.
    pub const ALL: PairFilter = PairFilter {
        protocol: None,
        address: None,
        port: None,
        state: None,
    };

    /// Whether an entry passes.
    pub fn passes(&self, entry: &Entry) -> bool {
        let Pair { key, endpoint } = entry.pair;
        self.protocol.is_none_or(|wanted| wanted == key.protocol)
            && self.address.is_none_or(|wanted| wanted == endpoint.address)
            && self.port.is_none_or(|wanted| wanted == key.port)
            && self.state.is_none_or(|wanted| wanted == entry.state)
    }
}

/// A line for each entry of a page that passes a filter, as `udp 20000 192.168.1.10 5000 held`: protocol, outside port, inside
/// address and port, state. Of `icmp` the ports are the identifiers of a ping (RFC 5508, section 3).
#[derive(Clone, Copy)]
pub struct PairLines<'a>(pub &'a Page, pub &'a PairFilter);

impl Display for PairLines<'_> {
    fn fmt<W: fmt::Write>(&self, f: &mut Formatter<W>) -> fmt::Result {
        let PairLines(page, filter) = self;
        for entry in page.entries.as_slice().iter().flatten() {
            if filter.passes(entry) {
                writeln!(f, "{} {}", entry.pair, state_name(entry.state))?;
            }
        }
        Ok(())
    }
}
