//! The warnings of `[ports]`, and their texts.

use std::fmt;

/// For how many centiseconds a packet that waits for its pair is kept.
pub(crate) const KEPT: u16 = 300;

/// What is likely a mistake in the ports, though a pair can run with it.
#[derive(Clone, Copy)]
pub enum PortWarning {
    /// The range has one port.
    OnePort,
    /// No limit is set for a host.
    NoLimit,
    /// A gateway never makes pairs alone.
    NeverAlone,
    /// A gateway makes pairs alone only once packets that wait for a pair are lost.
    LateAlone,
    /// Each new pair has the lowest free port.
    LowestPort,
    /// No port is asked for ahead.
    NoneAhead,
    /// More ports are asked for ahead than a quarter of a range.
    MuchAhead,
}

/// Writes the text for the user.
impl fmt::Display for PortWarning {
    fn fmt<W: fmt::Write>(&self, f: &mut fmt::Formatter<W>) -> fmt::Result {
        let text = match self {
            PortWarning::OnePort => "the range has one port, for one UDP and one TCP pair",
            PortWarning::NoLimit => "left out: one inside host can take all ports",
            PortWarning::NeverAlone =>
                "0 or left out: new connections wait for the other box while it doesn't answer",
            PortWarning::LateAlone => {
                return write!(
                    f,
                    "above {KEPT}: a connection's first packet is kept for {KEPT} centiseconds, and then lost"
                );
            }
            PortWarning::LowestPort => "\"lowest\" or left out: the next port is known to anybody",
            PortWarning::NoneAhead =>
                "0 or left out: beyond a box's own ports each 17th new connection loses its first packet",
            PortWarning::MuchAhead =>
                "above a quarter of a range: where few ports are left, so many rest unused at one box",
        };
        f.write_str(text)
    }
}
