//! The table that is loaded.
ghost use Rattle.std.specs.Prelude.{◌≡◌};
ghost use Rattle.bindings.specs.Ports.{AreBounds};
ghost use Rattle.bindings.specs.Table.{AreInRanges};

use crate::states::state_name;
use addresses::{Ip, Port, Protocol};
use bindings::{Hashers, PortBounds, Table};
use cases_words::Case;
use nat_types::{Endpoint, Record};
use resync::{Loaded, Loading};
use std::alloc::{AllocError, Global};

/// A table, and the state of its loading.
#[derive(Drop)]
pub(crate) struct Loader {
    table: Table,
    loading: Loading,
    ghost zero: { loading.zero ≡ table.zero },
    ghost one: { loading.one ≡ table.one },
    ghost within: { AreInRanges table },
}

/// Returns an endpoint for which a table is made ready.
pub(crate) fn any_endpoint() -> Endpoint {
    Endpoint {
        protocol: Protocol::Udp,
        address: Ip(0),
        port: Port(0),
    }
}

impl Loader {
    pub(crate) fn new(
        alloc: Global,
        zero: PortBounds,
        one: PortBounds,
    ) -> Result<Loader, AllocError>
        requires zero { AreBounds zero }
        requires one { AreBounds one }
    {
        let table = Table::new(alloc, zero, one, Hashers::fixed())?;
        let loading = Loading::new(zero, one);
        Ok(Loader { table, loading })
    }

    /// Takes a record into the table that is loaded. None says that the record is out of place, or
    /// that there is no memory.
    pub(crate) fn take(&mut self, item: Record, case: &mut Case) -> Option<Loaded> {
        if self.table.ready(&[any_endpoint()]).is_err() {
            case.fault();
            return None;
        }
        self.loading.take(&mut self.table, item, 0).ok()
    }

    /// Prints how many ports the table's gateway is to own, and the table's entries.
    pub(crate) fn tell(&self, case: &mut Case) {
        match self.table.owned() {
            Ok(ports) => case.put(ports.len()),
            Err(_) => case.fault(),
        }
        case.put(" ports");
        self.tell_entries(case);
    }

    fn tell_entries(&self, case: &mut Case) {
        let mut last = None;
        for _ in 0..self.table.len() {
            if let Some(entry) = self.table.entry_after(last) {
                let (pair, state) = (entry.pair, entry.state);
                case.say(", ", pair);
                case.say(" ", state_name(state));
                last = Some(pair.key);
            }
        }
    }
}
