//! The version of the program.

/// The version that `natpair --version` prints.
pub const VERSION: &str = "0.1.0";
