//! The rows of the record table for one entry: the effect of a record, a wish, a tick or a packet.
//! A row is a `Transition`: the change of the table, the answer on the link, the note, and the
//! endpoint whose packets needn't wait any more.
ghost use Rattle.std.specs.Prelude.{◌≡◌, None, Some, true};
ghost use Rattle.spec_binding.specs.declared.changes.Change.TheVariants.{Add, Drop, Turn};
ghost use Rattle.bindings.specs.Entries.{entry_in};
ghost use Rattle.nat_types.specs.declared.pairs.EntryState.TheVariants.{Alone, Held, Live};
ghost use Rattle.nat_types.specs.declared.notes.NoteKind.TheVariants.{Alone as NoteAlone};
ghost use Rattle.spec_binding.specs.Books.{is_synced as is_synced_at, is_lone as is_lone_at};
ghost use Rattle.spec_binding.specs.Books.{is_paired as is_paired_at};
ghost use Rattle.spec_binding.specs.Rows.{row as row_with, quiet as quiet_row};
ghost use Rattle.spec_binding.specs.Rows.{answering as answering_row, ending as ending_row};
ghost use Rattle.spec_binding.specs.Rows.{gives_way as gives_way_at, accepted_row, accept_row};
ghost use Rattle.spec_binding.specs.Rows.{refused_row, refuse_row, asked_row, ask_row, left_row};
ghost use Rattle.spec_binding.specs.Rows.{yes_row, stayed_row, no_row, known_wish, used_row};
ghost use Rattle.spec_binding.specs.Rows.{use_row, released_row, release_row, dropping};
ghost use Rattle.spec_binding.specs.Rows.{taking as taking_row, paired_wish, marked_row};
ghost use Rattle.spec_binding.specs.Rows.{telling_row, sought_row};
ghost use Rattle.spec_binding.specs.Rows.{wish as wish_with};

use bindings::Entry;
use nat_types::{Endpoint, EntryState, GatewayId, Key, NoteKind, Pair, Record};
use spec_binding::{Change, PortRequest, Stage, Transition, Want};

/// Whether a gateway in this stage has its table loaded.
pub(crate) fn is_synced(stage: Stage) -> bool
    ensures { result ≡ is_synced_at stage }
{
    match stage {
        Stage::Unsynced => false,
        Stage::Paired | Stage::Lone => true,
    }
}

/// Whether a gateway in this stage needs no consent.
pub(crate) fn is_lone(stage: Stage) -> bool
    ensures { result ≡ is_lone_at stage }
{
    match stage {
        Stage::Unsynced | Stage::Paired => false,
        Stage::Lone => true,
    }
}

/// Whether a gateway in this stage is synced and not lone.
pub(crate) fn is_paired(stage: Stage) -> bool
    ensures { result ≡ is_paired_at stage }
{
    match stage {
        Stage::Unsynced | Stage::Lone => false,
        Stage::Paired => true,
    }
}

/// Returns the row of a change that is answered and noted, and ends no wait.
pub(crate) fn row(change: Change, answer: Option<Record>, what: Option<NoteKind>) -> Transition
    ensures { result ≡ row_with change answer what }
{
    Transition {
        change,
        answer,
        what,
        ended: None,
    }
}

/// Returns the row that changes, answers and notes nothing.
pub(crate) fn quiet() -> Transition
    ensures { result ≡ quiet_row }
{
    row(Change::Keep, None, None)
}

/// Returns the row that changes and notes nothing, and answers this record.
pub(crate) fn answering(answer: Record) -> Transition
    ensures { result ≡ answering_row answer }
{
    row(Change::Keep, Some(answer), None)
}

/// Returns the row with the endpoint whose packets needn't wait any more.
pub(crate) fn ending(endpoint: Endpoint, row: Transition) -> Transition
    ensures { result ≡ ending_row endpoint row }
{
    Transition {
        change: row.change,
        answer: row.answer,
        what: row.what,
        ended: Some(endpoint),
    }
}

/// Returns the request of an answer to a packet and the row of its wish.
pub(crate) fn wish(answer: Want, row: Transition) -> PortRequest
    ensures { result ≡ wish_with answer row }
{
    PortRequest { answer, row }
}

/// Whether the own pair gives way to the peer's proposal for the same endpoint.
pub(crate) fn gives_way(id: GatewayId, state: EntryState) -> bool
    ensures { result ≡ gives_way_at id state }
{
    match (state, id) {
        (EntryState::Pending { marked: false }, GatewayId::One) => true,
        _ => false,
    }
}

/// Returns the row by which a pair of the peer's is taken and accepted.
pub(crate) fn taking(pair: Pair) -> Transition
    ensures { result ≡ taking_row pair }
{
    add_row(
        pair,
        EntryState::Held,
        Some(Record::Accept(pair.key)),
        Some(NoteKind::Retaken(pair)),
    )
}

fn accepted(pair: Pair, state: EntryState) -> Transition
    ensures { result ≡ accepted_row pair state }
{
    match state {
        EntryState::Pending { marked } => {
            let change = Change::Turn(pair.key, EntryState::Live);
            let row = row(change, None, Some(NoteKind::Retaken(pair)));
            if marked {
                row
            } else {
                ending(pair.endpoint, row)
            }
        }
        EntryState::Doomed
        | EntryState::Live
        | EntryState::Closing { .. }
        | EntryState::Alone
        | EntryState::Held => quiet(),
    }
}

/// Returns the row of an Accept: the peer agrees to the pair of a key. `entry` is the key's.
pub(crate) fn accept(entry: Option<Entry>) -> Transition
    ensures { result ≡ accept_row entry }
{
    match entry {
        None => quiet(),
        Some(entry) => accepted(entry.pair, entry.state),
    }
}

fn free(pair: Pair) -> Transition
    ensures { result ≡ row_with (Drop pair.key) None None }
{
    row(Change::Drop(pair.key), None, None)
}

/// Returns the row by which a marked pair goes on, of which the peer has nothing.
fn go_alone(pair: Pair) -> Transition
    ensures { result ≡ row_with (Turn pair.key Alone) None None }
{
    row(Change::Turn(pair.key, EntryState::Alone), None, None)
}

fn refused(pair: Pair, state: EntryState) -> Transition
    ensures { result ≡ refused_row pair state }
{
    match state {
        EntryState::Pending { marked: true } => go_alone(pair),
        EntryState::Pending { marked: false } => ending(pair.endpoint, free(pair)),
        EntryState::Doomed => free(pair),
        EntryState::Live | EntryState::Closing { .. } | EntryState::Alone | EntryState::Held =>
            quiet(),
    }
}

/// Returns the row of a Refuse: the peer refuses the pair of a key. `entry` is the key's.
pub(crate) fn refuse(entry: Option<Entry>) -> Transition
    ensures { result ≡ refuse_row entry }
{
    match entry {
        None => quiet(),
        Some(entry) => refused(entry.pair, entry.state),
    }
}

fn release_rested(pair: Pair, rests: bool) -> Transition
    ensures { result ≡ asked_row pair rests Held }
{
    if rests {
        row(
            Change::Drop(pair.key),
            Some(Record::Yes(pair.key)),
            Some(NoteKind::Released(pair)),
        )
    } else {
        answering(Record::No(pair.key))
    }
}

fn asked(pair: Pair, rests: bool, state: EntryState) -> Transition
    ensures { result ≡ asked_row pair rests state }
{
    match state {
        EntryState::Held => release_rested(pair, rests),
        EntryState::Pending { .. }
        | EntryState::Doomed
        | EntryState::Live
        | EntryState::Closing { .. }
        | EntryState::Alone => answering(Record::Yes(pair.key)),
    }
}

/// Returns the row of an Ask: the peer asks whether the pair of a key may be released. `rests` says
/// that the pair is idle, or came by Install or Tell and was never used here since. `entry` is the
/// key's.
pub(crate) fn ask(key: Key, rests: bool, entry: Option<Entry>) -> Transition
    ensures { result ≡ ask_row key rests entry }
{
    match entry {
        None => answering(Record::Yes(key)),
        Some(entry) => asked(entry.pair, rests, entry.state),
    }
}

fn left(pair: Pair, state: EntryState) -> Transition
    ensures { result ≡ left_row pair state }
{
    match state {
        EntryState::Closing { marked: true } => go_alone(pair),
        EntryState::Closing { marked: false } => free(pair),
        EntryState::Pending { .. }
        | EntryState::Doomed
        | EntryState::Live
        | EntryState::Alone
        | EntryState::Held => quiet(),
    }
}

/// Returns the row of a Yes: the peer has released the pair of a key. `entry` is the key's.
pub(crate) fn yes(entry: Option<Entry>) -> Transition
    ensures { result ≡ yes_row entry }
{
    match entry {
        None => quiet(),
        Some(entry) => left(entry.pair, entry.state),
    }
}

fn stayed(pair: Pair, state: EntryState) -> Transition
    ensures { result ≡ stayed_row pair state }
{
    match state {
        EntryState::Closing { .. } => {
            row(Change::Renew(pair.key), None, Some(NoteKind::Retaken(pair)))
        }
        EntryState::Pending { .. }
        | EntryState::Doomed
        | EntryState::Live
        | EntryState::Alone
        | EntryState::Held => quiet(),
    }
}

/// Returns the row of a No: the peer keeps the pair of a key. `entry` is the key's.
pub(crate) fn no(entry: Option<Entry>) -> Transition
    ensures { result ≡ no_row entry }
{
    match entry {
        None => quiet(),
        Some(entry) => stayed(entry.pair, entry.state),
    }
}

/// Returns the request of a packet whose endpoint has an entry.
pub(crate) fn known(pair: Pair, state: EntryState) -> PortRequest
    ensures { result ≡ known_wish pair state }
{
    let answer = match state {
        EntryState::Pending { marked: false } => Want::Wait,
        EntryState::Closing { marked: false } | EntryState::Doomed => Want::NotNow,
        _ => Want::Port(pair.key.port),
    };
    wish(answer, quiet())
}

/// Returns the row by which a pair is added in a state, answered and noted.
pub(crate) fn add_row(
    pair: Pair,
    state: EntryState,
    answer: Option<Record>,
    what: Option<NoteKind>,
) -> Transition
    ensures { result ≡ row_with (Add (entry_in state pair)) answer what }
{
    row(Change::Add(Entry { pair, state }), answer, what)
}

/// Returns the request of a packet whose endpoint gets this pair, at a gateway that isn't lone: one
/// that is apart makes it alone, and another one proposes it, where the link isn't full.
pub(crate) fn paired(apart: bool, full: bool, pair: Pair) -> PortRequest
    ensures { result ≡ paired_wish apart full pair }
{
    if apart {
        let row = add_row(pair, EntryState::Alone, None, Some(NoteKind::Alone(pair)));
        return wish(Want::Port(pair.key.port), row);
    }
    if full {
        return wish(Want::NotNow, quiet());
    }
    let state = EntryState::Pending { marked: false };
    let row = add_row(pair, state, Some(Record::Install(pair)), None);
    wish(Want::Wait, row)
}

fn drop_row(pair: Pair) -> Transition
    ensures { result ≡ dropping pair }
{
    let what = NoteKind::Released(pair);
    row(Change::Drop(pair.key), None, Some(what))
}

fn released_live(is_lone: bool, may_ask: bool, pair: Pair) -> Transition
    ensures { result ≡ released_row is_lone may_ask pair Live }
{
    if is_lone {
        return drop_row(pair);
    }
    if !may_ask {
        return quiet();
    }
    row(
        Change::Turn(pair.key, EntryState::Closing { marked: false }),
        Some(Record::Ask(pair.key)),
        Some(NoteKind::Released(pair)),
    )
}

fn released(is_lone: bool, may_ask: bool, pair: Pair, state: EntryState) -> Transition
    ensures { result ≡ released_row is_lone may_ask pair state }
{
    match state {
        EntryState::Live => released_live(is_lone, may_ask, pair),
        EntryState::Alone => drop_row(pair),
        EntryState::Held => { if is_lone { drop_row(pair) } else { quiet() } }
        EntryState::Pending { .. } | EntryState::Doomed | EntryState::Closing { .. } => quiet(),
    }
}

/// Returns the row of an idle key on a tick. `may_ask` says whether the peer may be asked for a
/// pair's end.
pub(crate) fn release(is_lone: bool, may_ask: bool, entry: Option<Entry>) -> Transition
    ensures { result ≡ release_row is_lone may_ask entry }
{
    match entry {
        None => quiet(),
        Some(entry) => released(is_lone, may_ask, entry.pair, entry.state),
    }
}

/// Returns the row by which a pair goes on though an answer is awaited. `state` is its state with a
/// mark.
fn mark_row(pair: Pair, state: EntryState) -> Transition
    ensures { result ≡ row_with (Turn pair.key state) None (Some (NoteAlone pair)) }
{
    row(
        Change::Turn(pair.key, state),
        None,
        Some(NoteKind::Alone(pair)),
    )
}

fn marked(pair: Pair, state: EntryState) -> Transition
    ensures { result ≡ marked_row pair state }
{
    match state {
        EntryState::Pending { marked: false } => {
            let row = mark_row(pair, EntryState::Pending { marked: true });
            ending(pair.endpoint, row)
        }
        EntryState::Closing { marked: false } => {
            mark_row(pair, EntryState::Closing { marked: true })
        }
        EntryState::Pending { marked: true }
        | EntryState::Closing { marked: true }
        | EntryState::Doomed
        | EntryState::Live
        | EntryState::Alone
        | EntryState::Held => quiet(),
    }
}

fn tell_row(full: bool, pair: Pair) -> Transition
    ensures { result ≡ telling_row full pair Alone }
{
    if full {
        return quiet();
    }
    let change = Change::Turn(pair.key, EntryState::Pending { marked: true });
    row(change, Some(Record::Tell(pair)), None)
}

fn telling(full: bool, pair: Pair, state: EntryState) -> Transition
    ensures { result ≡ telling_row full pair state }
{
    match state {
        EntryState::Alone => tell_row(full, pair),
        EntryState::Pending { .. }
        | EntryState::Doomed
        | EntryState::Live
        | EntryState::Closing { .. }
        | EntryState::Held => quiet(),
    }
}

/// Returns the row of a key that a tick seeks: a gateway that is apart marks its entry, and another
/// one tells the peer of it, where the link isn't full.
pub(crate) fn seek(apart: bool, full: bool, entry: Option<Entry>) -> Transition
    ensures { result ≡ sought_row apart full entry }
{
    match entry {
        None => quiet(),
        Some(entry) => {
            if apart {
                marked(entry.pair, entry.state)
            } else {
                telling(full, entry.pair, entry.state)
            }
        }
    }
}

fn used(pair: Pair, state: EntryState) -> Transition
    ensures { result ≡ used_row pair state }
{
    match state {
        EntryState::Pending { marked: false }
        | EntryState::Closing { marked: false }
        | EntryState::Doomed => quiet(),
        _ => row(Change::Keep, None, Some(NoteKind::Used(pair))),
    }
}

/// Returns the row of a translated packet, which uses its pair.
pub(crate) fn carry(entry: Option<Entry>) -> Transition
    ensures { result ≡ use_row entry }
{
    match entry {
        None => quiet(),
        Some(entry) => used(entry.pair, entry.state),
    }
}
