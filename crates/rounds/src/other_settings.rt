//! Whether the other box runs on other settings, as its datagrams say.

use crate::rounds::Identity;
use gateway::Event;
use journal::{Cause, Entry, EventLog, Journal};
use link::parse;
use nat_types::GatewayId;
use packet_rules::Reason;
use reports::SettingsReport;
use settings::Values;

/// What the datagrams of the other box say of the settings that it runs on.
#[derive(Clone, Copy)]
pub(crate) struct OtherSettings {
    id: GatewayId,
    pub(crate) report: SettingsReport,
}

impl OtherSettings {
    /// No datagram of the other box has come.
    pub(crate) fn new(identity: Identity) -> OtherSettings {
        OtherSettings {
            id: identity.id,
            report: SettingsReport::new(identity.values),
        }
    }

    /// Takes note of the settings that a datagram says, and logs where the other box begins, or ceases, to run on others.
    pub(crate) fn hear<L: Journal>(
        &mut self,
        event: &Event<'_>,
        cause: Option<Cause>,
        now: u64,
        log: &EventLog<L>,
    ) {
        let Event::Datagram(bytes) = event else {
            return;
        };
        if let Some(values) = self.values_in(bytes, cause)
            && self.report.hear(values)
        {
            let entry = if self.report.other.is_some() {
                Entry::OtherSettings
            } else {
                Entry::SameSettings
            };
            log.write(now, entry);
        }
    }

    /// Returns the values in a datagram of the other box. One that the gateway has taken has the own ones.
    fn values_in(&self, bytes: &[u8], cause: Option<Cause>) -> Option<Values> {
        match cause {
            None => Some(self.report.own),
            Some(Cause::Dropped(Reason::BadDatagram)) => match parse(bytes) {
                Ok(datagram) if datagram.sender != self.id => Some(datagram.values),
                _ => None,
            },
            Some(_) => None,
        }
    }
}
