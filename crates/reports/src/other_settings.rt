//! What a box heard of the settings that the other one runs on.

use addresses::{Ip, Port};
use settings::Values;
use std::fmt::{self, Display, Formatter};

/// The values that a box runs on, and those of the other box where they aren't the same.
#[derive(Clone, Copy, PartialEq, Eq)]
pub struct SettingsReport {
    pub own: Values,
    /// The values in the last datagram of the other box, where they aren't the own ones.
    pub other: Option<Values>,
    /// How many datagrams of the other box had other values than the own ones.
    pub refused: u64,
}

impl SettingsReport {
    /// Returns the report of a box that has heard no datagram.
    pub fn new(own: Values) -> SettingsReport {
        SettingsReport {
            own,
            other: None,
            refused: 0,
        }
    }

    /// Takes over the values in a datagram of the other box, and counts it where they aren't the own ones. Returns whether
    /// the other box begins, or ceases, to run on other settings.
    pub fn hear(&mut self, values: Values) -> bool {
        let was_other = self.other.is_some();
        self.other = if values == self.own {
            None
        } else {
            self.refused = self.refused.saturating_add(1);
            Some(values)
        };
        self.other.is_some() != was_other
    }
}

/// One of the values that both boxes have to run on.
#[derive(Clone, Copy, PartialEq, Eq)]
pub(crate) enum Value {
    Range(Port, Port),
    Address(Ip),
    Length(u8),
}

/// As in a file of settings, without quotes: `[20000, 39999]`, `192.0.2.1`, `24`.
impl Display for Value {
    fn fmt<W: fmt::Write>(&self, f: &mut Formatter<W>) -> fmt::Result {
        match self {
            Value::Range(lowest, highest) => write!(f, "[{}, {}]", lowest.0, highest.0),
            Value::Address(address) => write!(f, "{address}"),
            Value::Length(length) => write!(f, "{length}"),
        }
    }
}

/// Returns the key of each value, and the value.
pub(crate) fn rows(values: &Values) -> [(&'static str, Value); 6] {
    let zero = Value::Range(values.zero_lowest, values.zero_highest);
    let one = Value::Range(values.one_lowest, values.one_highest);
    [
        ("ports.zero", zero),
        ("ports.one", one),
        ("inside.virtual", Value::Address(values.inside_virtual)),
        ("inside.prefix", Value::Length(values.inside_prefix)),
        ("outside.virtual", Value::Address(values.outside_virtual)),
        ("outside.prefix", Value::Length(values.outside_prefix)),
    ]
}
