//! The effect of a record on a loading, where it is in its place.
ghost use Rattle.std.specs.Prelude.{◌≡◌, Some, if◌then◌else◌};
ghost use Rattle.spec_binding.specs.declared.setups.Stage.TheVariants.{Paired};
ghost use Rattle.bind_core.specs.Cores.{is_whole, what_loaded};

use nat_types::{NoteKind, Record};
use spec_binding::Stage;

/// The effect of a record: whether the table is whole, and what is noted.
#[derive(Clone, Copy)]
pub(crate) struct Loads {
    pub is_whole: bool,
    pub what: Option<NoteKind>,
}

/// Returns the effect of a record that is in its place.
pub(crate) fn loading_of(entry: &Record) -> Loads
    ensures whole { result.is_whole ≡ is_whole entry.now }
    ensures what { result.what ≡ what_loaded entry.now }
{
    match entry {
        Record::Done => Loads {
            is_whole: true,
            what: Some(NoteKind::Synced),
        },
        Record::Put(pair) | Record::Tell(pair) => Loads {
            is_whole: false,
            what: Some(NoteKind::Retaken(*pair)),
        },
        _ => Loads {
            is_whole: false,
            what: None,
        },
    }
}

/// Returns the stage after a record: Paired once the table is whole, so that the peer has to agree
/// to new pairs.
pub(crate) fn stage_after(stage: Stage, is_whole: bool) -> Stage
    ensures { result ≡ (if is_whole then Paired else stage) }
{
    if is_whole { Stage::Paired } else { stage }
}
