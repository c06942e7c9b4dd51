//! The calls of a gateway that are measured.

use cases_words::Case;
use gateway::{Event, Gateway, Out, Outcome, Secrets};
use nat_types::GatewayId;
use settings::Settings;
use std::alloc::Global;

/// The calls of a gateway that are measured, without contracts. A function that knew the gateway's type would have to
/// show for each of its parts where that is in memory.
pub(crate) trait Gate: Sized {
    /// Begins a gateway in its first boot. Gateway 0 is founded.
    fn begun(alloc: Global, settings: &Settings, id: GatewayId) -> Option<Self>;

    /// Takes one step, with an `Out` that is cleared first. Without memory the line is wrong.
    fn step(&mut self, event: Event<'_>, out: &mut Out, case: &mut Case) -> Outcome;

    /// Whether the gateway's table is loaded.
    fn is_synced(&self) -> bool;

    /// Returns how many entries the gateway's table has, without a list of them.
    fn entry_count(&self) -> usize;

    /// Frees the gateway's memory.
    fn end(self);
}

impl Gate for Gateway {
    fn begun(alloc: Global, settings: &Settings, id: GatewayId) -> Option<Gateway> {
        let founds = id == GatewayId::Zero;
        Gateway::new(alloc, settings, id, 1, founds, Secrets::fixed()).ok()
    }

    fn step(&mut self, event: Event<'_>, out: &mut Out, case: &mut Case) -> Outcome {
        out.clear();
        let stepped = Gateway::step(self, event, &mut out.page).ok();
        case.or(stepped, Outcome::Done)
    }

    fn is_synced(&self) -> bool {
        self.synced()
    }

    fn entry_count(&self) -> usize {
        Gateway::entry_count(self)
    }

    fn end(self) {
        Gateway::end(self);
    }
}
