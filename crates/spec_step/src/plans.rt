//! The plan for a packet, and for an Echo.

use addresses::{Ip, Mac};
use nat_types::Endpoint;
use packet_rules::Translation;

/// The plan for a packet that isn't refused at once.
#[derive(Clone, Copy, Debug, PartialEq, Eq)]
pub enum Plan {
    /// The packet is sent at once, to a next hop whose hardware address is known.
    Send { by: Translation, next: Mac },
    /// The packet waits, and its next hop is asked for.
    Ask { by: Translation, hop: Ip },
    /// Another packet waits for the same next hop: this packet is dropped, and the hop may be asked
    /// for again.
    AskAgain { by: Translation, hop: Ip },
    /// The packet waits for the answer to the proposal of its source's pair.
    Wait(Endpoint),
}

/// The plan for an Echo to the gateway itself that isn't refused at once.
#[derive(Clone, Copy, Debug, PartialEq, Eq)]
pub enum Reply {
    /// The Echo is answered at once, by a next hop whose hardware address is known.
    Send { next: Mac },
    /// The Echo waits, and the next hop of its answer is asked for.
    Ask { hop: Ip },
    /// Another packet waits for that next hop: the Echo is dropped, and the hop may be asked for
    /// again.
    AskAgain { hop: Ip },
}
