//! How a gateway chooses the outside port of a new pair.

/// How a gateway chooses the outside port of a new pair among its free ones of the inside port's parity.
#[derive(Clone, Copy, Debug, PartialEq, Eq)]
pub enum Choice {
    /// It takes the lowest one, so that whoever sees one port knows the next.
    Lowest,
    /// It draws one by a key of its own (RFC 6056, section 3.3.3).
    Drawn,
}
