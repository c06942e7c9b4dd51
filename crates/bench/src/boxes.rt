//! Both gateways of a pair, and the datagrams between them. Each gateway has a clock of its own.

use crate::gates::Gate;
use crate::stations::{ACTIVE, Station};
use addresses::Protocol;
use cases_words::Case;
use nat_types::GatewayId;
use settings::Settings;

/// The most rounds of ticks or datagrams before a loop gives up.
pub(crate) const PATIENCE: u32 = 20_000;

/// A gateway with pairs, and one that starts with an empty table. A caller ends both by `end`.
pub(crate) struct Both<G> {
    pub(crate) zero: Station<G>,
    pub(crate) one: Station<G>,
    /// The second gateway's clock, in centiseconds. The first one's is `ACTIVE` more.
    pub(crate) moment: u64,
}

impl<G: Gate> Both<G> {
    /// Makes a founded gateway with `pairs` pairs, and one that starts.
    pub(crate) fn ready(
        settings: &Settings,
        protocol: Protocol,
        pairs: u32,
        case: &mut Case,
    ) -> Option<Both<G>> {
        let zero = Station::ready(settings, protocol, pairs, case)?;
        match Station::begun(settings, GatewayId::One, case) {
            Some(one) => Some(Both {
                zero,
                one,
                moment: 0,
            }),
            None => {
                zero.end();
                None
            }
        }
    }

    /// Makes two gateways with `pairs` pairs, which the second one has loaded.
    pub(crate) fn synced(
        settings: &Settings,
        protocol: Protocol,
        pairs: u32,
        case: &mut Case,
    ) -> Option<Both<G>> {
        let mut both = Both::ready(settings, protocol, pairs, case)?;
        both.load(case);
        Some(both)
    }

    /// Ends both gateways.
    pub(crate) fn end(self) {
        let Both {
            zero,
            one,
            moment: _,
        } = self;
        zero.end();
        one.end();
    }

    /// Moves both clocks on by `by` centiseconds. Each gateway takes the datagrams of the other's tick, and the other
    /// takes the answers, until neither sends any.
    pub(crate) fn tick(&mut self, by: u64, case: &mut Case) {
        self.moment = self.moment.saturating_add(by);
        self.zero.tick(self.moment.saturating_add(ACTIVE), case);
        converse(&mut self.zero, &mut self.one, case);
        self.one.tick(self.moment, case);
        converse(&mut self.one, &mut self.zero, case);
    }

    /// Ticks both gateways until the second one is synced, and returns how many ticks that took.
    pub(crate) fn load(&mut self, case: &mut Case) -> u32 {
        for ticks in 1..PATIENCE {
            self.tick(1, case);
            if self.one.gateway.is_synced() {
                return ticks;
            }
        }
        case.fault();
        PATIENCE
    }
}

/// Gives the second station the datagrams that the first one sent last, and the first one the answers, and so on until
/// there are none.
pub(crate) fn converse<G: Gate>(first: &mut Station<G>, other: &mut Station<G>, case: &mut Case) {
    for _ in 0..PATIENCE {
        if !first.tells() {
            break;
        }
        other.take(first, case);
        if !other.tells() {
            break;
        }
        first.take(other, case);
    }
}
