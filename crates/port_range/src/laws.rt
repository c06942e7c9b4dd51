//! The numbers that the definitions take from the code.
ghost use Rattle.std.specs.Prelude.{◌≡◌};
ghost use Rattle.port_range.specs.declared.TheConstants.{FIRST_PORT};

/// States the first port that a range may have: those below are for well-known services (RFC 6335).
pub fn limits_law()
    ensures first_port { FIRST_PORT.0 ≡ 1024 }
{}
