//! The whole frame that the fragments of a datagram make.
ghost use Rattle.std.specs.Prelude.{◌≡◌, ◌≤◌, ◌+◌, ◌++◌, [], ◌∷◌, length, take};
ghost use Rattle.std.specs.List.{AllByRecursion, list_any};
ghost use Rattle.frames.specs.Bytes.{Puts};
ghost use Rattle.ipv4.specs.Header.{header_of, options_of};
ghost use Rattle.fragments.specs.Fragment.{carried, end_of, first_of, ipv4_in};
ghost use Rattle.fragments.specs.Header.{header_with};
ghost use Rattle.fragments.specs.Over.{written_over};
ghost use Rattle.fragments.specs.Whole.{IsComplete, IsReady, first_fragment, is_marked, payload_again, payload_end};
ghost use Rattle.fragments.specs.Whole.{reassembled, whole_fields, whole_length, whole_service};

use crate::copies::Fragment;
use crate::datagrams::{is_one_marked, place_of_first};
use crate::headers::{Fields, layout, summed};
use crate::views::FragmentView;

/// The reserved bit, the one flag that a whole packet keeps.
const RESERVED: u16 = 0x8000;

/// The last two bits of a type of service, where congestion was met (RFC 3168).
const CONGESTION: u8 = 3;

/// The bytes of an Ethernet header.
const ETHERNET: usize = 14;

/// The place of the options in a frame.
const OPTIONS: usize = ETHERNET + layout::FIXED;

/// Returns the fragment with offset 0, of these and the one that completes them.
#[inline(always)]
fn first_with<'a>(there: &'a [Fragment], new: &FragmentView<'a>) -> FragmentView<'a>
    requires { IsComplete (there.now ++ new.now.frame.now ∷ []) }
    ensures { result.frame.now ≡ first_fragment (there.now ++ new.now.frame.now ∷ []) }
{
    match place_of_first(there) {
        Some(at) => there[at].view(),
        None => *new,
    }
}

/// Whether one of these fragments and one more met congestion.
#[inline(always)]
fn is_marked_with(there: &[Fragment], new: &FragmentView<'_>) -> bool
    ensures { result ≡ list_any is_marked (there.now ++ new.now.frame.now ∷ []) }
{
    is_one_marked(there) || new.is_marked()
}

#[inline(always)]
#[tactic(auto, unfolding(crate::specs::Whole::whole_service))]
fn service(there: &[Fragment], new: &FragmentView<'_>, first: &FragmentView<'_>) -> u8
    requires { first.now.frame.now
        ≡ first_fragment (there.now ++ new.now.frame.now ∷ []) }
    ensures { result ≡ whole_service (there.now ++ new.now.frame.now ∷ []) }
{
    let service = first.type_of_service();
    if is_marked_with(there, new) {
        service / 4 * 4 + CONGESTION
    } else {
        service
    }
}

/// Returns the fields of the whole packet's header that aren't those of the first fragment. The packet has `total` bytes.
#[inline(always)]
#[tactic(auto, unfolding(crate::specs::Whole::whole_fields))]
fn fields(
    there: &[Fragment],
    new: &FragmentView<'_>,
    first: &FragmentView<'_>,
    total: usize,
) -> Fields
    requires first { first.now.frame.now
        ≡ first_fragment (there.now ++ new.now.frame.now ∷ []) }
    requires total { total ≡ whole_length (there.now ++ new.now.frame.now ∷ []) }
    requires short { total ≤ 65535 }
    ensures { result ≡ whole_fields (there.now ++ new.now.frame.now ∷ []) }
{
    Fields {
        service: service(there, new, first),
        total: total as u16,
        identification: first.identification(),
        flags: first.flags_word() / RESERVED * RESERVED,
    }
}

/// Writes bytes at a place.
#[inline(always)]
fn put_bytes(frame: &mut [u8], at: usize, bytes: &[u8])
    requires { at + length bytes.now ≤ length frame.old }
    ensures { Puts at bytes.now frame.old frame.new }
{
    frame[at..at + bytes.len()].copy_from_slice(bytes);
}

/// Writes the bytes that a fragment carries into the payload, at their place.
fn put(payload: &mut [u8], fragment: &FragmentView<'_>)
    requires { end_of fragment.now.frame.now ≤ length payload.old }
    ensures { Puts (first_of fragment.now.frame.now) (carried fragment.now.frame.now)
        payload.old payload.new }
{
    payload[fragment.first()..fragment.end()].copy_from_slice(fragment.carried());
}

/// Writes the bytes that fragments carry over those of a payload. Where several carry a byte, that of the first one stays,
/// and where none carries it, what was there.
fn put_all(payload: &mut [u8], fragments: &[Fragment])
    requires { AllByRecursion (λ f. end_of f ≤ length payload.old) fragments.now }
    ensures { payload.new ≡ written_over payload.old fragments.now }
{
    let mut left = fragments;
    while let Some((fragment, before)) = left.split_last() {
        put(payload, &fragment.view());
        left = before;
    }
}

/// Writes the payload over bytes that are as many.
#[inline(always)]
fn fill(payload: &mut [u8], there: &[Fragment], new: &FragmentView<'_>)
    requires ready { IsReady (there.now ++ new.now.frame.now ∷ []) }
    requires long { length payload.old ≡ payload_end (there.now ++ new.now.frame.now ∷ []) }
    ensures { payload.new ≡ payload_again (there.now ++ new.now.frame.now ∷ []) }
{
    put(payload, new);
    put_all(payload, there);
}

/// Writes the payload over the bytes from a place on.
#[inline(always)]
fn fill_from(frame: &mut [u8], start: usize, there: &[Fragment], new: &FragmentView<'_>)
    requires ready { IsReady (there.now ++ new.now.frame.now ∷ []) }
    requires long { start + payload_end (there.now ++ new.now.frame.now ∷ [])
        ≡ length frame.old }
    ensures { frame.new ≡ take start frame.old
        ++ payload_again (there.now ++ new.now.frame.now ∷ []) }
{
    fill(&mut frame[start..], there, new);
}

/// Writes Ethernet header, IPv4 header and options over a frame's first bytes.
#[inline(always)]
#[tactic(auto, unfolding(crate::specs::Header::header_with))]
fn put_headers(frame: &mut [u8], first: &FragmentView<'_>, fields: Fields)
    requires { 14 + (header_of (ipv4_in first.now.frame.now)).header_length ≤ length frame.old }
    ensures front { let packet = ipv4_in first.now.frame.now
        in take (14 + (header_of packet).header_length) frame.new
        ≡ take 14 first.now.frame.now ++ header_with fields packet (options_of packet) }
    ensures len { length frame.new ≡ length frame.old }
{
    let header = summed(first.packet(), fields, first.options());
    put_bytes(frame, 0, first.ethernet());
    put_bytes(frame, ETHERNET, &header);
    put_bytes(frame, OPTIONS, first.options());
}

/// Writes the whole frame that the fragments of a datagram and the one that completes them make, over bytes that are as
/// many.
#[tactic(auto, unfolding(crate::specs::Whole::reassembled))]
pub(crate) fn write_whole(frame: &mut [u8], there: &[Fragment], new: &FragmentView<'_>)
    requires ready { IsReady (there.now ++ new.now.frame.now ∷ []) }
    requires long { length frame.old
        ≡ 14 + whole_length (there.now ++ new.now.frame.now ∷ []) }
    ensures { frame.new ≡ reassembled (there.now ++ new.now.frame.now ∷ []) }
{
    let first = first_with(there, new);
    let total = frame.len() - ETHERNET;
    put_headers(frame, &first, fields(there, new, &first, total));
    fill_from(frame, ETHERNET + first.header_length(), there, new);
}
