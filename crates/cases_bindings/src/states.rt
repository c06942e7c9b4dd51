//! The states of entries, as lines have them.
ghost use Rattle.std.specs.Prelude.{◌≡◌, true};
ghost use Rattle.slots.specs.declared.ranks.Rank.{Rank};
ghost use Rattle.bindings.specs.Entries.{is_markable, is_of_rank};

use nat_types::EntryState;

/// Returns the name of a state, as lines have it.
pub(crate) fn state_name(state: EntryState) -> &'static str {
    match state {
        EntryState::Pending { marked: false } => "Pending",
        EntryState::Pending { marked: true } => "PendingMarked",
        EntryState::Doomed => "Doomed",
        EntryState::Live => "Live",
        EntryState::Closing { marked: false } => "Closing",
        EntryState::Closing { marked: true } => "ClosingMarked",
        EntryState::Alone => "Alone",
        EntryState::Held => "Held",
    }
}

/// Whether an entry may turn from one state into another: an own pair into any but Held, a Held one into Held alone. Each
/// may be given up, and one that was given up is no pair any more.
pub(crate) fn may_turn(from: EntryState, to: EntryState) -> bool
    ensures { result ≡ true → (rank : Rank) → is_of_rank rank to ≡ true
        → is_of_rank rank from ≡ true }
{
    match (from, to) {
        (_, EntryState::Doomed) | (EntryState::Held, EntryState::Held) => true,
        (EntryState::Held | EntryState::Doomed, _) | (_, EntryState::Held) => false,
        _ => true,
    }
}

/// Whether a pair in this state may be marked: an answer about it is awaited.
pub(crate) fn is_markable(state: EntryState) -> bool
    ensures { result ≡ is_markable state }
{
    match state {
        EntryState::Pending { .. } | EntryState::Closing { .. } => true,
        EntryState::Doomed | EntryState::Live | EntryState::Alone | EntryState::Held => false,
    }
}
