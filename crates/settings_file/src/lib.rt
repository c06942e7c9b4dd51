//! Reads the settings of a pair of gateways from a text in TOML.
#![tactic(auto)]

mod bad_values;
mod choices;
mod clashes;
mod examinations;
mod explained_keys;
mod explained_settings;
mod explained_values;
mod explanations;
mod faults;
mod fields;
mod gateways;
mod ids;
mod key_checks;
mod keys;
mod limits;
mod loopback_ports;
mod missing;
mod neighbour_cursor;
mod neighbours;
mod reading;
mod sections;
mod shown;
mod texts;
mod unknown;
mod values;
mod works;

pub use clashes::{PortClash, add_port_clashes, port_clash, port_clash_of_both};
pub use examinations::{Examination, examine};
pub use explained_keys::explain_missing_port;
pub use explanations::Explainer;
pub use faults::SettingFault;
pub use key_checks::add_failing;
pub use keys::{Key, Name, Section};
pub use loopback_ports::{BoxPorts, OnLoopback, add_left_out_ports, missing_port, ports_of_both};
pub use reading::read;
pub use works::is_network_address;
