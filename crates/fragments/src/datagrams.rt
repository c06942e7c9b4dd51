//! A datagram of which fragments are there, and what one more does beside them.
ghost use Rattle.std.specs.Prelude.{◌≡◌, ◌≤◌, ◌*◌, ◌++◌, ◌∷◌, [], length, position, OnOk, OnErr, is_ok, if◌then◌else◌};
ghost use Rattle.std.specs.List.{count_by, list_any, sum_by};
ghost use Rattle.memory.specs.Memory.{WasRefused};
ghost use Rattle.fragments.specs.Fragment.{carried, contradicts, is_last, is_same, starts};
ghost use Rattle.fragments.specs.Whole.{carried_by, first_header_length, is_marked, is_whole, payload_end, whole_length};
ghost use Rattle.fragments.specs.Gathered.{effect_of, is_from, is_named, is_young};

use crate::Name;
use crate::copies::Fragment;
use crate::views::FragmentView;
use addresses::Ip;
use std::alloc::AllocError;
use std::marker::Model;

/// The most fragments of a datagram.
const MOST_FRAGMENTS: usize = 64;

/// The most bytes of an IPv4 packet.
const LONGEST_PACKET: usize = 65535;

/// The time for which a datagram waits for its other fragments, in centiseconds.
const LONGEST_WAIT: u64 = 300;

/// What a fragment does beside those of its datagram that are there.
#[derive(Clone, Copy, Debug, PartialEq, Eq)]
pub(crate) enum Effect {
    /// It is one of them again.
    Repeats,
    /// It carries a byte that one of them carries, or one of the two ends behind the datagram's end; or 64 are there.
    Contradicts,
    /// Others are missing.
    Waits,
    /// None is missing, and the packet has more than 65,535 bytes.
    TooLong,
    /// None is missing.
    Completes,
}

/// The fragments of a datagram that are there, without padding, in the order in which they came.
#[derive(Debug, Drop)]
pub(crate) struct Datagram {
    name: Name,
    /// The time at which the first of them came, in centiseconds.
    pub(crate) since: u64,
    fragments: Vec<Fragment>,
}

impl Model for Datagram {
    ghost use Rattle.fragments.specs.Gathered.{Datagram as Partial};

    ghost Value = { Partial };

    ghost view = { λ d. record { name = d.name; since = d.since; fragments = d.fragments.items } };
}

impl Datagram {
    /// Returns a datagram of which this fragment is there.
    pub(crate) fn begin(fragments: Vec<Fragment>, name: Name, since: u64) -> Datagram
        ensures { result ≡ record { name = name; since = since; fragments = fragments.items } }
    {
        Datagram {
            name,
            since,
            fragments,
        }
    }

    pub(crate) fn is_named(&self, name: &Name) -> bool
        ensures { result ≡ is_named name.now self.now }
    {
        name.is_same(&self.name)
    }

    pub(crate) fn is_from(&self, source: Ip) -> bool
        ensures { result ≡ is_from source.0 self.now }
    {
        self.name.source == source
    }

    /// Whether the datagram began less than 300 centiseconds ago.
    pub(crate) fn is_young(&self, now: u64) -> bool
        ensures { result ≡ is_young now self.now }
    {
        now.saturating_sub(self.since) < LONGEST_WAIT
    }

    /// Returns the fragments that are there.
    pub(crate) fn fragments(&self) -> &[Fragment]
        ensures { result.now ≡ self.now.fragments }
    {
        self.fragments.as_slice()
    }

    /// Returns the fragments of a datagram that ended.
    pub(crate) fn into_fragments(self) -> Vec<Fragment> {
        let Datagram {
            name: _,
            since: _,
            fragments,
        } = self;
        fragments
    }

    /// Appends a fragment, or answers an `AllocError` when out of memory and leaves the datagram as it was.
    pub(crate) fn push(&mut self, fragment: Fragment) -> Result<(), AllocError>
        ensures ok { OnOk result (self.new
            ≡ record self.old { fragments = self.old.fragments ++ fragment ∷ [] }) }
        ensures err { OnErr result (self.new ≡ self.old) }
        ensures refused { OnErr result (WasRefused 1) }
    {
        memory::push(&mut self.fragments, fragment)
    }
}

fn repeats(there: &[Fragment], new: &FragmentView<'_>) -> bool
    ensures { result ≡ list_any (is_same new.now.frame.now) there.now }
{
    there.iter().any(|fragment| new.is_same(&fragment.view()))
}

fn contradicts(there: &[Fragment], new: &FragmentView<'_>) -> bool
    ensures { result ≡ list_any (λ f. contradicts f new.now.frame.now) there.now }
{
    there
        .iter()
        .any(|fragment| fragment.view().contradicts(new))
}

/// Returns the index of the fragment with offset 0.
pub(crate) fn place_of_first(there: &[Fragment]) -> Option<usize>
    ensures { result ≡ position starts there.now }
{
    there.iter().position(|fragment| fragment.view().starts())
}

/// Returns the index of the fragment with More Fragments clear.
pub(crate) fn place_of_last(there: &[Fragment]) -> Option<usize>
    ensures { result ≡ position is_last there.now }
{
    there.iter().position(|fragment| fragment.view().is_last())
}

/// Whether one of the fragments met congestion.
pub(crate) fn is_one_marked(there: &[Fragment]) -> bool
    ensures { result ≡ list_any is_marked there.now }
{
    there.iter().any(|fragment| fragment.view().is_marked())
}

/// Returns how many bytes the fragments carry.
fn carried_by(there: &[Fragment]) -> usize
    requires { length there.now ≤ 64 }
    ensures value { result ≡ carried_by there.now }
    ensures most { result ≤ 65535 * 64 }
{
    let mut count = 0;
    for fragment in there {
        count += fragment.view().carried().len();
    }
    count
}

/// Whether the last fragment is there, or comes.
fn has_last_with(there: &[Fragment], new: &FragmentView<'_>) -> bool
    ensures { result ≡ list_any is_last (there.now ++ new.now.frame.now ∷ []) }
{
    if new.is_last() {
        return true;
    }
    place_of_last(there).is_some()
}

/// Returns the end that the last fragment gives, or 0 where it is missing.
fn end_with(there: &[Fragment], new: &FragmentView<'_>) -> usize
    ensures value { result ≡ payload_end (there.now ++ new.now.frame.now ∷ []) }
    ensures most { result ≤ 131063 }
{
    match place_of_last(there) {
        Some(at) => there[at].view().end(),
        None => new.end_if_last(),
    }
}

/// Returns the bytes of the header of the fragment with offset 0, or 0 where it is missing.
fn header_length_with(there: &[Fragment], new: &FragmentView<'_>) -> usize
    ensures value { result ≡ first_header_length (there.now ++ new.now.frame.now ∷ []) }
    ensures most { result ≤ 60 }
{
    match place_of_first(there) {
        Some(at) => there[at].view().header_length(),
        None => new.header_length_if_first(),
    }
}

/// Returns the bytes of header and payload that a datagram has with one more fragment.
pub(crate) fn length_with(there: &[Fragment], new: &FragmentView<'_>) -> usize
    ensures value { result ≡ whole_length (there.now ++ new.now.frame.now ∷ []) }
    ensures most { result ≤ 131123 }
{
    header_length_with(there, new) + end_with(there, new)
}

/// Whether nothing is missing with one more fragment.
fn is_whole_with(there: &[Fragment], new: &FragmentView<'_>) -> bool
    requires { length there.now ≤ 64 }
    ensures { result ≡ is_whole (there.now ++ new.now.frame.now ∷ []) }
{
    if !has_last_with(there, new) {
        return false;
    }
    let count = carried_by(there) + new.carried().len();
    count == end_with(there, new)
}

/// Returns what a fragment does beside those of its datagram that are there.
pub(crate) fn effect_of(there: &[Fragment], new: &FragmentView<'_>) -> Effect
    requires { length there.now ≤ 64 }
    ensures { result ≡ effect_of there.now new.now.frame.now }
{
    if repeats(there, new) {
        return Effect::Repeats;
    }
    if there.len() >= MOST_FRAGMENTS {
        return Effect::Contradicts;
    }
    if contradicts(there, new) {
        return Effect::Contradicts;
    }
    if !is_whole_with(there, new) {
        return Effect::Waits;
    }
    if length_with(there, new) > LONGEST_PACKET {
        return Effect::TooLong;
    }
    Effect::Completes
}
