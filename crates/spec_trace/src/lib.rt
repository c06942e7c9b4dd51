//! The words in which the promises about a pair of gateways are said, over their trace, and `audit`, a program that
//! checks these words on a trace.
#![tactic(auto)]

mod checker;
pub mod laws;

pub use checker::{AuditFault, audit};
