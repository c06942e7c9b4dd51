//! What a message asks of a box: an event of its gateway, and a response to its operator.
ghost use Rattle.std.specs.Prelude.{◌≡◌, Some};
ghost use Rattle.rounds.specs.Runs.{IsMessage};

use crate::views::View;
use control::{PeerOffRefusal, Word};
use gateway::Event;
use nat_types::Key;
use sockets::Place;

/// A message, as the box takes it.
pub(crate) struct Message<'a> {
    /// The event of the gateway that the message is, if it is one.
    pub(crate) event: Option<Event<'a>>,
    /// The response to the operator, if the message is a word.
    pub(crate) response: Option<Response>,
}

impl<'a> Message<'a> {
    /// Returns the message that is this event, and is not replied to.
    fn of_event(event: Event<'a>) -> Message<'a>
        ensures { result.event ≡ Some event.entry }
    {
        Message {
            event: Some(event),
            response: None,
        }
    }
}

/// What an operator asks of a box. A request is answered at the end of the round in which it came.
#[derive(Clone, Copy, Debug, PartialEq, Eq)]
pub(crate) enum Request {
    Status,
    /// The pairs after a key, or the first ones.
    Pairs(Option<Key>),
}

/// What is replied to a word.
#[derive(Clone, Copy, Debug, PartialEq, Eq)]
pub(crate) enum Response {
    /// The word is taken.
    Heard,
    /// The word is taken: the box ends after this round.
    Ending,
    Refused(PeerOffRefusal),
    /// The answer to a request follows at the round's end.
    Later(Request),
}

/// Reads what came at a place: a frame of a side, a datagram of the other gateway, or an operator's word. Bytes that are
/// no word are neither an event nor replied to. `track`: a carrier's word on a side counts as an event.
pub(crate) fn read_message<'a>(
    view: &View,
    place: Place,
    bytes: &'a [u8],
    track: bool,
) -> Message<'a>
    ensures event { IsMessage place bytes.now result.event }
{
    let word = match place {
        Place::Side(side) => return Message::of_event(Event::Frame(side, bytes)),
        Place::Link => return Message::of_event(Event::Datagram(bytes)),
        Place::Operator => Word::read(bytes),
    };
    let (event, response) = match word {
        Some(Word::PeerOff { boot, forced }) => match judge(view, boot, forced) {
            Ok(boot) => (Some(Event::PeerOff(boot)), Some(Response::Heard)),
            Err(refusal) => (None, Some(Response::Refused(refusal))),
        },
        Some(Word::Side { side, up, carrier }) if track || !carrier => {
            (Some(Event::Side(side, up)), Some(Response::Heard))
        }
        Some(Word::Side { .. }) => (None, Some(Response::Heard)),
        Some(Word::Stop) => (None, Some(Response::Ending)),
        Some(Word::Status) => (None, Some(Response::Later(Request::Status))),
        Some(Word::Pairs(after)) => (None, Some(Response::Later(Request::Pairs(after)))),
        None => (None, None),
    };
    Message { event, response }
}

/// Decides on the word that a boot of the other gateway is off, and returns the boot; without a number the known boot is
/// meant.
///
/// # Errors
///
/// The first reason against the word, in the order of their numbers.
fn judge(view: &View, boot: Option<u64>, forced: bool) -> Result<u64, PeerOffRefusal> {
    let boot = boot.unwrap_or(view.peer);
    if !view.synced {
        Err(PeerOffRefusal::NotSynced)
    } else if view.peer == 0 {
        Err(PeerOffRefusal::NoPeer)
    } else if boot < view.peer {
        Err(PeerOffRefusal::PastBoot)
    } else if view.peer < boot && !forced {
        Err(PeerOffRefusal::UnknownBoot)
    } else if view.heard {
        Err(PeerOffRefusal::PeerHeard)
    } else {
        Ok(boot)
    }
}
