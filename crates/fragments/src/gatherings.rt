//! The fragments that are there, and what comes of one more.
ghost use Rattle.std.specs.Prelude.{◌≡◌, ◌≤◌, ◌<◌, ◌⊎◌, ◌+◌, ◌==◌, length, position, unwrap_or, vec_len, vec_capacity};
ghost use Rattle.std.specs.Prelude.{IfOk, OnOk, OnErr, false};
ghost use Rattle.std.specs.List.{count_by, remove};
ghost use Rattle.fragments.specs.Fragment.{IsFragment, is_broken};
ghost use Rattle.fragments.specs.Name.{name_of};
ghost use Rattle.fragments.specs.Whole.{IsReady, reassembled, whole_length};
ghost use Rattle.fragments.specs.Gathered.{AreKept, IsKept, after, after_end, after_join, begun, dropped_old};
ghost use Rattle.fragments.specs.Gathered.{effect_of, ended, is_from, is_named, left_first, lost_for, none_there, of_side, taken};
ghost use Rattle.fragments.specs.Gathered.{with_place, without_first, without_old};
ghost use Rattle.fragments.specs.Places.{added_at, fragments_at, joined_at, with_at};
ghost use Rattle.fragments.specs.Memory.{LacksCopy, LacksTaking, LacksUpTo, LacksWhole};

use crate::Name;
use crate::copies::Fragment;
use crate::datagrams::{Datagram, Effect, effect_of, length_with};
use crate::spares::{Buffers, Spares};
use crate::views::FragmentView;
use crate::wholes::write_whole;
use addresses::Ip;
use nat_types::Side;
use std::alloc::{AllocError, Global};
use std::marker::Model;

/// The most datagrams of a source at a side of which fragments are there.
const MOST_OF_SOURCE: usize = 16;

/// The most datagrams at a side of which fragments are there.
const MOST: usize = 64;

/// The bytes of an Ethernet header.
const ETHERNET: usize = 14;

/// What comes of a fragment.
#[derive(Clone, Copy, Debug, PartialEq, Eq)]
pub enum Came {
    /// It is dropped.
    Refused,
    /// It waits for others.
    Held,
    /// With it the datagram is whole.
    Whole,
}

/// Why a datagram was given up whose fragments weren't all there.
#[derive(Clone, Copy, Debug, PartialEq, Eq)]
pub enum Loss {
    /// One more datagram began that had no place.
    CrowdedOut,
    /// A fragment contradicted those that were there, or 64 were there.
    Contradicted,
    /// With all its fragments the packet had more than 65,535 bytes.
    Oversized,
}

/// What came of a fragment, and why it gave a datagram up, where it did.
#[derive(Clone, Copy, Debug)]
struct Outcome {
    came: Came,
    lost: Option<Loss>,
}

impl Outcome {
    fn refused(lost: Option<Loss>) -> Outcome
        ensures { result ≡ record { came = Came.Refused; lost = lost } }
    {
        Outcome {
            came: Came::Refused,
            lost,
        }
    }

    fn held(lost: Option<Loss>) -> Outcome
        ensures { result ≡ record { came = Came.Held; lost = lost } }
    {
        Outcome {
            came: Came::Held,
            lost,
        }
    }
}

/// The datagrams of which some fragments are there: at most 64 at a side, and of one source at a side at most 16.
#[derive(Debug, Drop)]
pub struct Gathering {
    inside: Vec<Datagram>,
    outside: Vec<Datagram>,
    /// The whole frame that was made last, and memory for fragments to come.
    buffers: Buffers,
    /// Why the fragment that came last gave a datagram up, where it did.
    lost: Option<Loss>,
}

impl Model for Gathering {
    ghost use Rattle.fragments.specs.Gathered.{Gathered, IsKept};

    ghost Value = { Gathered };

    ghost view = { λ g. record {
      inside = g.inside.items;
      outside = g.outside.items;
      whole = g.buffers.whole.items;
      lost = g.lost;
    } };

    ghost invariant = { λ g. IsKept (record {
      inside = g.inside.items;
      outside = g.outside.items;
      whole = g.buffers.whole.items;
      lost = g.lost;
    }) };
}

/// Returns the index of the datagram of this name.
fn place_of(datagrams: &[Datagram], name: &Name) -> Option<usize>
    ensures { result ≡ position (is_named name.now) datagrams.now }
{
    datagrams
        .iter()
        .position(|datagram| datagram.is_named(name))
}

/// Returns the index of the first datagram of this source.
fn place_from(datagrams: &[Datagram], source: Ip) -> Option<usize>
    ensures { result ≡ position (is_from source.0) datagrams.now }
{
    datagrams
        .iter()
        .position(|datagram| datagram.is_from(source))
}

fn count_from(datagrams: &[Datagram], source: Ip) -> usize
    ensures { result ≡ count_by (is_from source.0) datagrams.now }
{
    datagrams
        .iter()
        .filter(|datagram| datagram.is_from(source))
        .count()
}

fn give_up_from(datagrams: &mut Vec<Datagram>, source: Ip)
    ensures items { datagrams.new.items ≡ without_first (is_from source.0) datagrams.old.items }
    ensures capacity { vec_capacity datagrams.new ≡ vec_capacity datagrams.old }
    ensures len { vec_len datagrams.new ≤ vec_len datagrams.old }
{
    match place_from(datagrams, source) {
        Some(at) => {
            let _ = datagrams.remove(at);
        }
        None => {}
    }
}

/// Takes the datagram of a frame's fragment off, and keeps its memory as spare.
#[tactic(auto, unfolding(crate::specs::Gathered::ended))]
fn give_up_named(datagrams: &mut Vec<Datagram>, spares: &mut Spares, frame: &[u8])
    requires { IsFragment frame.now }
    ensures { datagrams.new.items ≡ ended frame.now datagrams.old.items }
{
    let name = FragmentView::new(frame).trimmed().name();
    match place_of(datagrams, &name) {
        Some(at) => {
            let ended = datagrams.remove(at);
            spares.keep(ended.into_fragments());
        }
        None => {}
    }
}

/// Gives up a datagram where one more of a source has no place, and returns why.
#[tactic(auto, unfolding(crate::specs::Gathered::with_place, crate::specs::Gathered::lost_for))]
fn make_place(datagrams: &mut Vec<Datagram>, source: Ip) -> Option<Loss>
    ensures items { datagrams.new.items ≡ with_place source.0 datagrams.old.items }
    ensures lost { result ≡ lost_for source.0 datagrams.old.items }
    ensures capacity { vec_capacity datagrams.new ≡ vec_capacity datagrams.old }
    ensures len { vec_len datagrams.new ≤ vec_len datagrams.old }
{
    if count_from(datagrams, source) >= MOST_OF_SOURCE {
        give_up_from(datagrams, source);
        return Some(Loss::CrowdedOut);
    }
    if datagrams.len() >= MOST {
        let _ = datagrams.remove(0);
        return Some(Loss::CrowdedOut);
    }
    None
}

/// Begins a datagram with a fragment, and returns why another was given up, where one was. Fails where there isn't enough
/// memory, and changes nothing then.
fn begin(
    datagrams: &mut Vec<Datagram>,
    spares: &mut Spares,
    fragment: &FragmentView<'_>,
    name: Name,
    now: u64,
) -> Result<Option<Loss>, AllocError>
    requires { name ≡ name_of fragment.now.frame.now }
    ensures lost { IfOk result (λ lost. lost
        ≡ lost_for (name_of fragment.now.frame.now).source.0 datagrams.old.items) }
    ensures ok { OnOk result (datagrams.new.items
        ≡ begun now fragment.now.frame.now datagrams.old.items) }
    ensures err { OnErr result (datagrams.new.items ≡ datagrams.old.items) }
    ensures refused { OnErr result (LacksCopy fragment.now.frame.now) }
{
    let alloc = *datagrams.allocator();
    let copy = Fragment::copy(spares, alloc, fragment)?;
    let mut fragments = spares.list(alloc);
    memory::push(&mut fragments, copy)?;
    memory::reserve(datagrams, 1)?;
    let lost = make_place(datagrams, name.source);
    datagrams.push_reserved(Datagram::begin(fragments, name, now));
    Ok(lost)
}

fn effect_at(datagrams: &[Datagram], at: usize, fragment: &FragmentView<'_>) -> Effect
    requires at { at < length datagrams.now }
    requires few { length (fragments_at at datagrams.now) ≤ 64 }
    ensures { result ≡ effect_of (fragments_at at datagrams.now) fragment.now.frame.now }
{
    let datagram = &datagrams[at];
    effect_of(datagram.fragments(), fragment)
}

/// Returns the bytes of header and payload that a datagram has with one more fragment.
fn length_at(datagrams: &[Datagram], at: usize, fragment: &FragmentView<'_>) -> usize
    requires { at < length datagrams.now }
    ensures value { result ≡ whole_length (with_at at fragment.now.frame.now datagrams.now) }
    ensures most { result ≤ 131123 }
{
    let datagram = &datagrams[at];
    length_with(datagram.fragments(), fragment)
}

/// Puts a fragment behind those of its datagram. Fails where there isn't enough memory, and changes nothing then.
fn add(
    datagrams: &mut Vec<Datagram>,
    spares: &mut Spares,
    at: usize,
    fragment: &FragmentView<'_>,
) -> Result<(), AllocError>
    requires { at < vec_len datagrams.old }
    ensures ok { OnOk result (datagrams.new.items
        ≡ added_at at fragment.now.frame.now datagrams.old.items) }
    ensures err { OnErr result (datagrams.new.items ≡ datagrams.old.items) }
    ensures len { vec_len datagrams.new ≡ vec_len datagrams.old }
    ensures refused { OnErr result (LacksCopy fragment.now.frame.now) }
{
    let alloc = *datagrams.allocator();
    let copy = Fragment::copy(spares, alloc, fragment)?;
    let datagram = &mut datagrams[at];
    datagram.push(copy)
}

/// Writes the whole frame of the datagram at a place and the fragment that completes it over bytes that are as many.
#[inline(always)]
fn write_at(frame: &mut [u8], datagrams: &[Datagram], at: usize, fragment: &FragmentView<'_>)
    requires at { at < length datagrams.now }
    requires ready { IsReady (with_at at fragment.now.frame.now datagrams.now) }
    requires long { length frame.old
        ≡ 14 + whole_length (with_at at fragment.now.frame.now datagrams.now) }
    ensures { frame.new ≡ reassembled (with_at at fragment.now.frame.now datagrams.now) }
{
    let datagram = &datagrams[at];
    write_whole(frame, datagram.fragments(), fragment);
}

/// Gives a list so many bytes, whichever they are. Takes memory for those that it lacks; fails where there isn't enough, and
/// changes nothing then.
#[inline(always)]
fn give_length(list: &mut Vec<u8>, count: usize) -> Result<(), AllocError>
    ensures len { OnOk result (length list.new.items ≡ count) }
    ensures err { OnErr result (list.new.items ≡ list.old.items) }
    ensures refused { OnErr result (LacksUpTo count) }
{
    memory::reserve(list, count.saturating_sub(list.len()))?;
    match list.resize(count, 0) {
        Ok(()) => Ok(()),
        Err(_full) => unreachable!(),
    }
}

/// Makes the whole frame of a datagram and the fragment that completes it. Fails where there isn't enough memory, and changes
/// nothing then.
fn make_whole(
    datagrams: &[Datagram],
    at: usize,
    fragment: &FragmentView<'_>,
    whole: &mut Vec<u8>,
) -> Result<(), AllocError>
    requires at { at < length datagrams.now }
    requires ready { IsReady (with_at at fragment.now.frame.now datagrams.now) }
    ensures whole { OnOk result (whole.new.items
        ≡ reassembled (with_at at fragment.now.frame.now datagrams.now)) }
    ensures err { OnErr result (whole.new.items ≡ whole.old.items) }
    ensures refused { OnErr result
        (LacksUpTo (14 + whole_length (with_at at fragment.now.frame.now datagrams.now))) }
{
    let length = length_at(datagrams, at, fragment);
    give_length(whole, ETHERNET + length)?;
    write_at(whole, datagrams, at, fragment);
    Ok(())
}

/// Takes a fragment beside those of its datagram, which is at this place. Where it completes them, they stay. Fails where
/// there isn't enough memory, and changes nothing then.
fn join(
    datagrams: &mut Vec<Datagram>,
    at: usize,
    fragment: &FragmentView<'_>,
    buffers: &mut Buffers,
) -> Result<Outcome, AllocError>
    requires kept { AreKept datagrams.old.items }
    requires unbroken { is_broken fragment.now.frame.now ≡ false }
    requires at { position (is_named (name_of fragment.now.frame.now)) datagrams.old.items
        ≡ Some at }
    ensures outcome { IfOk result (λ outcome. outcome ≡ record {
      came = (joined_at at fragment.now.frame.now datagrams.old.items).came;
      lost = (joined_at at fragment.now.frame.now datagrams.old.items).lost;
    }) }
    ensures left { OnOk result (datagrams.new.items
        ≡ left_first (joined_at at fragment.now.frame.now datagrams.old.items)
        datagrams.old.items) }
    ensures whole { OnOk result (buffers.new.whole.items
        ≡ unwrap_or (joined_at at fragment.now.frame.now datagrams.old.items).made
        buffers.old.whole.items) }
    ensures err { OnErr result (datagrams.new.items ≡ datagrams.old.items) }
    ensures err_whole { OnErr result (buffers.new.whole.items ≡ buffers.old.whole.items) }
    ensures refused { OnErr result (LacksCopy fragment.now.frame.now
        ⊎ LacksWhole (joined_at at fragment.now.frame.now datagrams.old.items).made) }
{
    match effect_at(datagrams, at, fragment) {
        Effect::Repeats => Ok(Outcome::refused(None)),
        Effect::Contradicts => {
            let _ = datagrams.remove(at);
            Ok(Outcome::refused(Some(Loss::Contradicted)))
        }
        Effect::TooLong => {
            let _ = datagrams.remove(at);
            Ok(Outcome::refused(Some(Loss::Oversized)))
        }
        Effect::Waits => {
            add(datagrams, &mut buffers.spares, at, fragment)?;
            Ok(Outcome::held(None))
        }
        Effect::Completes => {
            make_whole(datagrams, at, fragment, &mut buffers.whole)?;
            Ok(Outcome {
                came: Came::Whole,
                lost: None,
            })
        }
    }
}

/// Takes a fragment at a side. Where it makes a whole frame, the fragments stay. Fails where there isn't enough memory, and
/// changes nothing then.
#[tactic(auto, unfolding(crate::specs::Gathered::taken))]
fn take_in(
    datagrams: &mut Vec<Datagram>,
    buffers: &mut Buffers,
    frame: &[u8],
    now: u64,
) -> Result<Outcome, AllocError>
    requires fragment { IsFragment frame.now }
    requires kept { AreKept datagrams.old.items }
    ensures outcome { IfOk result (λ outcome. outcome ≡ record {
      came = (taken now frame.now datagrams.old.items).came;
      lost = (taken now frame.now datagrams.old.items).lost;
    }) }
    ensures left { OnOk result (datagrams.new.items
        ≡ left_first (taken now frame.now datagrams.old.items) datagrams.old.items) }
    ensures whole { OnOk result (buffers.new.whole.items
        ≡ unwrap_or (taken now frame.now datagrams.old.items).made buffers.old.whole.items) }
    ensures err { OnErr result (datagrams.new.items ≡ datagrams.old.items) }
    ensures err_whole { OnErr result (buffers.new.whole.items ≡ buffers.old.whole.items) }
    ensures refused { OnErr result
        (LacksTaking frame.now (taken now frame.now datagrams.old.items).made) }
{
    let fragment = FragmentView::new(frame).trimmed();
    if fragment.is_broken() {
        return Ok(Outcome::refused(None));
    }
    let name = fragment.name();
    match place_of(datagrams, &name) {
        Some(at) => join(datagrams, at, &fragment, buffers),
        None => {
            let lost = begin(datagrams, &mut buffers.spares, &fragment, name, now)?;
            Ok(Outcome::held(lost))
        }
    }
}

/// Takes a fragment at a side, and keeps why it gave a datagram up. Where it makes a whole frame, the fragments stay. Fails
/// where there isn't enough memory, and changes nothing then.
fn take_at(
    datagrams: &mut Vec<Datagram>,
    buffers: &mut Buffers,
    lost: &mut Option<Loss>,
    frame: &[u8],
    now: u64,
) -> Result<Came, AllocError>
    requires fragment { IsFragment frame.now }
    requires kept { AreKept datagrams.old.items }
    ensures came { IfOk result (λ came. came
        ≡ (taken now frame.now datagrams.old.items).came) }
    ensures left { OnOk result (datagrams.new.items
        ≡ left_first (taken now frame.now datagrams.old.items) datagrams.old.items) }
    ensures whole { OnOk result (buffers.new.whole.items
        ≡ unwrap_or (taken now frame.now datagrams.old.items).made buffers.old.whole.items) }
    ensures lost { OnOk result (lost.new ≡ (taken now frame.now datagrams.old.items).lost) }
    ensures err { OnErr result (datagrams.new.items ≡ datagrams.old.items) }
    ensures err_whole { OnErr result (buffers.new.whole.items ≡ buffers.old.whole.items) }
    ensures err_lost { OnErr result (lost.new ≡ lost.old) }
    ensures refused { OnErr result
        (LacksTaking frame.now (taken now frame.now datagrams.old.items).made) }
{
    let outcome = take_in(datagrams, buffers, frame, now)?;
    *lost = outcome.lost;
    Ok(outcome.came)
}

fn retain_young(datagrams: &mut Vec<Datagram>, now: u64)
    ensures { datagrams.new.items ≡ dropped_old now datagrams.old.items }
{
    datagrams.retain(|datagram| datagram.is_young(now));
}

impl Gathering {
    /// Returns a gathering with no fragments. Takes no memory.
    pub fn new(alloc: Global) -> Gathering
        ensures { result ≡ none_there }
    {
        Gathering {
            inside: Vec::new(alloc),
            outside: Vec::new(alloc),
            buffers: Buffers::new(alloc),
            lost: None,
        }
    }

    /// Takes a frame that came in at a side and carries a fragment, at `now` (centiseconds). Where the fragment is the last
    /// one that was missing, the whole frame is made, and its fragments are gone. Answers an `AllocError` when out of memory,
    /// and changes nothing then.
    pub fn take(&mut self, side: Side, frame: &[u8], now: u64) -> Result<Came, AllocError>
        requires { IsFragment frame.now }
        ensures came { IfOk result (λ came. came
            ≡ (taken now frame.now (of_side side self.old)).came) }
        ensures after { OnOk result (self.new
            ≡ after side (taken now frame.now (of_side side self.old)) self.old) }
        ensures err { OnErr result (self.new ≡ self.old) }
        ensures refused { OnErr result
            (LacksTaking frame.now (taken now frame.now (of_side side self.old)).made) }
    {
        match self.join(side, frame, now)? {
            Came::Refused => Ok(Came::Refused),
            Came::Held => Ok(Came::Held),
            Came::Whole => {
                self.end(side, frame);
                Ok(Came::Whole)
            }
        }
    }

    /// Takes a frame as `take` does, but where the whole frame is made, the fragments that were there stay until `end`: so a
    /// caller that has no memory to go on with the whole frame can leave them.
    pub fn join(&mut self, side: Side, frame: &[u8], now: u64) -> Result<Came, AllocError>
        requires { IsFragment frame.now }
        ensures came { IfOk result (λ came. came
            ≡ (taken now frame.now (of_side side self.old)).came) }
        ensures after { OnOk result (self.new
            ≡ after_join side (taken now frame.now (of_side side self.old)) self.old) }
        ensures err { OnErr result (self.new ≡ self.old) }
        ensures refused { OnErr result
            (LacksTaking frame.now (taken now frame.now (of_side side self.old)).made) }
    {
        match side {
            Side::Inside => take_at(
                &mut self.inside,
                &mut self.buffers,
                &mut self.lost,
                frame,
                now,
            ),
            Side::Outside => take_at(
                &mut self.outside,
                &mut self.buffers,
                &mut self.lost,
                frame,
                now,
            ),
        }
    }

    /// Ends the datagram of a frame's fragment at a side: its fragments that are there are gone. Their memory stays, for
    /// fragments to come: of at most 64 fragments, of frames of at most 1,514 bytes.
    pub fn end(&mut self, side: Side, frame: &[u8])
        requires { IsFragment frame.now }
        ensures { self.new ≡ after_end side frame.now self.old }
    {
        match side {
            Side::Inside => give_up_named(&mut self.inside, &mut self.buffers.spares, frame),
            Side::Outside => give_up_named(&mut self.outside, &mut self.buffers.spares, frame),
        }
    }

    /// Returns the whole frame that was made last: of the last `take`, where that answered Whole.
    pub fn whole(&self) -> &[u8]
        ensures bytes { result.now ≡ self.now.whole }
        ensures most { length result.now ≤ 65549 }
    {
        self.buffers.whole.as_slice()
    }

    /// Returns why the fragment of the last `take` gave a datagram up, None where it gave none up.
    pub fn lost(&self) -> Option<Loss>
        ensures { result ≡ self.now.lost }
    {
        self.lost
    }

    /// Gives up the datagrams that began 300 centiseconds ago or more.
    pub fn drop_old(&mut self, now: u64)
        ensures { self.new ≡ without_old now self.old }
    {
        retain_young(&mut self.inside, now);
        retain_young(&mut self.outside, now);
    }

    /// Returns how many datagrams there are of which fragments are there.
    pub fn len(&self) -> usize
        ensures count { result ≡ length self.now.inside + length self.now.outside }
        ensures most { result ≤ 128 }
    {
        self.inside.len() + self.outside.len()
    }

    /// Whether no fragment is there.
    pub fn is_empty(&self) -> bool
        ensures { result ≡ (length self.now.inside + length self.now.outside == 0) }
    {
        self.len() == 0
    }

    /// Returns how many of them are there at a side.
    pub fn len_at(&self, side: Side) -> usize
        ensures count { result ≡ length (of_side side self.now) }
        ensures most { result ≤ 64 }
    {
        match side {
            Side::Inside => self.inside.len(),
            Side::Outside => self.outside.len(),
        }
    }

    /// Reminds the prover of what is kept at both sides; it does nothing when it runs.
    pub fn recall(&self)
        ensures { IsKept self.now }
    {
        let _ = &self.inside;
    }
}
