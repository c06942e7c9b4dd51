//! Which entries a store looks at, so that they are found once they are idle.
ghost use Rattle.std.specs.Prelude.{◌≡◌};
ghost use Rattle.bindings.specs.Dues.{covers, is_watched, watch_of};

use crate::entries::{is_alone_state, may_go_state};
use nat_types::EntryState;

/// The entries that are looked at. The others cost nothing, however long they have been idle.
#[derive(Clone, Copy)]
pub(crate) enum Watch {
    /// The Alone ones.
    OnlyAlone,
    /// Those that may be released where the gateway isn't lone: the Alone and the Live ones.
    Own,
    /// Those that may be released where the gateway is lone: the Held ones too.
    HeldToo,
}

impl Watch {
    /// Returns the watch by which the idle entries that may be released are found.
    pub(crate) fn of(lone: bool) -> Watch
        ensures { result ≡ watch_of lone }
    {
        if lone { Watch::HeldToo } else { Watch::Own }
    }

    /// Whether entries of this state are looked at.
    pub(crate) fn sees(self, state: EntryState) -> bool
        ensures { result ≡ is_watched self state }
    {
        match self {
            Watch::OnlyAlone => is_alone_state(state),
            Watch::Own => may_go_state(false, state),
            Watch::HeldToo => may_go_state(true, state),
        }
    }

    /// Whether all entries that the other watch looks at are looked at.
    pub(crate) fn covers(self, other: Watch) -> bool
        ensures { result ≡ covers self other }
    {
        match self {
            Watch::HeldToo => true,
            Watch::Own => match other {
                Watch::HeldToo => false,
                Watch::OnlyAlone | Watch::Own => true,
            },
            Watch::OnlyAlone => match other {
                Watch::OnlyAlone => true,
                Watch::Own | Watch::HeldToo => false,
            },
        }
    }
}
