//! The rounds of a box: it receives, steps its gateway, sends, and replies to its operator, until it ends.
#![tactic(auto)]

mod changes;
mod gateway_reports;
mod messages;
mod missing_tables;
mod other_settings;
mod outages;
mod replies;
mod rounds;
mod steps;
mod views;

pub use gateway_reports::{gateway_report, page_after, sides_of, update_sides};
pub use rounds::{EndSignal, Identity, Manager, Options, run_rounds, serve};
