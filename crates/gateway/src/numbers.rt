//! The identifications of packets that go out in fragments.
ghost use Rattle.std.specs.Prelude.{◌≡◌, ◌≤◌, ◌<◌, ◌+◌, ◌++◌, ◌==◌, ℕ, List, IfSome, drop, length, slice_get, slice_index, take, true, if◌then◌else◌};
ghost use Rattle.ipv4.specs.Header.{header_of};
ghost use Rattle.fragments.specs.Cut.{IsIpv4Frame, IsMtu, identified, is_long};
ghost use Rattle.fragments.specs.Fragment.{ipv4_in};
ghost use Rattle.frames.specs.Frame.{frame_of};
ghost use Rattle.output.specs.Output.{changed_at, octet_count, with_frames};
ghost use Rattle.output.specs.Readers.{sent_of};
ghost use Rattle.packet_rules.specs.Networks.{mtu_of};
ghost use Rattle.packet_rules.specs.Own.{is_own_frame};
ghost use Rattle.spec_gateway.specs.Sendings.{is_for_many, is_numbered, next_number, number_after};
ghost use Rattle.spec_gateway.specs.Sendings.{number_of, numbered};
ghost use Rattle.gateway.specs.Numbers.{IsUncut, frames_by, number_by};

use crate::counts::Counts;
use crate::gathers::Fragments;
use fragments::{is_long, set_identification};
use frames::EthView;
use ipv4::{Ipv4View, ipv4_grammar};
use nat_types::{GatewayId, Side};
use output::{ChangeBytes, Frame, OutputBuffer};
use packet_rules::Networks;

/// The number of the protocol of ICMP.
const ICMP: u8 = 1;

/// How many numbers there are: after these the identifications are the same again.
const NUMBERS: u32 = 32768;

/// The bytes of an Ethernet header.
const ETHERNET: usize = 14;

/// Another identification for the packet of a frame.
#[derive(Clone, Copy)]
struct Identification {
    value: u16,
}

impl ChangeBytes for Identification {
    ghost can_change = { λ _ bytes. IsIpv4Frame bytes
        × (length bytes ≡ 14 + (header_of (ipv4_in bytes)).total_length) };

    ghost changed = { λ i bytes. identified i.value bytes };

    fn change(&self, bytes: &mut [u8]) {
        set_identification(bytes, self.value);
    }
}

/// Returns the bytes of the longest packet that is sent at a side.
pub(crate) fn mtu_of(networks: &Networks, side: Side) -> u16
    ensures value { result ≡ mtu_of networks.now side }
    ensures limits { IsMtu result }
{
    match side {
        Side::Inside => networks.inside.interface.mtu,
        Side::Outside => networks.outside.interface.mtu,
    }
}

/// Reminds the prover that a frame that is cut is an IPv4 packet without padding; it does nothing
/// when it runs.
fn recall_long(frame: &[u8])
    ensures packet { (mtu : ℕ) → is_long mtu frame.now ≡ true → IsIpv4Frame frame.now }
    ensures ethertype { (mtu : ℕ) → is_long mtu frame.now ≡ true
        → (frame_of frame.now).ethertype ≡ 2048 }
    ensures unpadded { (mtu : ℕ) → is_long mtu frame.now ≡ true
        → length frame.now ≡ 14 + (header_of (ipv4_in frame.now)).total_length }
{
    ipv4_grammar();
}

/// Whether a payload begins with 0, as that of a Reply does. An empty one counts as that.
fn is_reply(payload: &[u8]) -> bool
    ensures { result ≡ (slice_index payload.now 0 == 0) }
{
    match payload {
        [kind, ..] => *kind == 0,
        [] => true,
    }
}

/// Whether a frame of IPv4 at a side is one of the gateway's own.
#[tactic(auto, unfolding(packet_rules::specs::Own::is_own_frame))]
fn is_own_frame(networks: &Networks, side: Side, packet: &Ipv4View<'_>) -> bool
    ensures { (frame : List ℕ) → (frame_of frame).ethertype ≡ 2048
        → ipv4_in frame ≡ packet.now.bytes.now
        → result ≡ is_own_frame networks.now side frame }
{
    let network = networks.of(side);
    let source = packet.source();
    packet.protocol() == ICMP
        && (source == network.own_ip
            || is_reply(packet.payload())
                && (source == network.interface.virtual_ip
                    || source == networks.outside.interface.virtual_ip))
}

/// Whether a frame's source is the outside virtual address, which stands for many hosts. An own reply
/// isn't meant, whose Echo lent it its identification.
#[tactic(auto, unfolding(spec_gateway::specs::Sendings::is_for_many))]
fn is_for_many(networks: &Networks, frame: Frame<'_>) -> bool
    requires packet { IsIpv4Frame frame.bytes.now }
    requires ethertype { (frame_of frame.bytes.now).ethertype ≡ 2048 }
    ensures { result ≡ is_for_many networks.now (sent_of frame.entry) }
{
    let view = EthView { bytes: frame.bytes };
    let packet = Ipv4View { bytes: view.body() };
    packet.source() == networks.outside.interface.virtual_ip
        && !is_own_frame(networks, frame.side, &packet)
}

/// Whether a frame goes out in fragments with an identification of the gateway's own.
fn is_numbered(networks: &Networks, frame: Frame<'_>) -> bool
    ensures { result ≡ is_numbered networks.now (sent_of frame.entry) }
{
    if !is_long(frame.bytes, mtu_of(networks, frame.side)) {
        return false;
    }
    recall_long(frame.bytes);
    is_for_many(networks, frame)
}

/// Returns the identification of a packet by its number.
fn number_of(id: GatewayId, numbered: u16) -> u16
    ensures { result ≡ number_of id numbered }
{
    let twice = u32::from(numbered) * 2;
    match id {
        GatewayId::Zero => (twice % 65536) as u16,
        GatewayId::One => ((twice + 1) % 65536) as u16,
    }
}

/// Gives the frame at an index this identification, where it is to have one of the gateway's own.
/// Returns whether it is.
fn number_frame(networks: &Networks, page: &mut OutputBuffer, k: usize, identification: u16) -> bool
    requires { k < length page.old.told.frames }
    ensures numbered { IfSome (slice_get page.old.told.frames k)
        (λ f. result ≡ is_numbered networks.now f) }
    ensures told { page.new.told ≡ with_frames page.old.told (if result
        then changed_at k (identified identification) page.old.told.frames
        else page.old.told.frames) }
    ensures room { page.new.room ≡ page.old.room }
{
    let frame = page.frame(k);
    recall_long(frame.bytes);
    let numbered = is_numbered(networks, frame);
    if numbered {
        page.change_frame(
            k,
            &Identification {
                value: identification,
            },
        );
    }
    numbered
}

/// Returns the number of the packet after a packet.
fn next_number(number: u16) -> u16
    ensures { result ≡ next_number number }
{
    ((u32::from(number) + 1) % NUMBERS) as u16
}

/// Gives the frame at an index its identification, where it is to have one of the gateway's own, and
/// returns the number of the next packet.
fn number_next(
    networks: &Networks,
    page: &mut OutputBuffer,
    k: usize,
    id: GatewayId,
    number: u16,
) -> u16
    requires { k < length page.old.told.frames }
    ensures told { IfSome (slice_get page.old.told.frames k) (λ f. page.new.told
        ≡ with_frames page.old.told
        (frames_by (is_numbered networks.now f) id number k page.old.told.frames)) }
    ensures next { IfSome (slice_get page.old.told.frames k)
        (λ f. result ≡ number_by (is_numbered networks.now f) number) }
{
    if number_frame(networks, page, k, number_of(id, number)) {
        next_number(number)
    } else {
        number
    }
}

/// Gives the frames from an index on their identifications, where they are to have one of the
/// gateway's own, and returns the number of the next packet.
fn number_from(
    networks: &Networks,
    page: &mut OutputBuffer,
    first: usize,
    id: GatewayId,
    next: u16,
) -> u16
    requires { first ≤ length page.old.told.frames }
    ensures told { page.new.told ≡ with_frames page.old.told
        (take first page.old.told.frames
        ++ numbered networks.now id next (drop first page.old.told.frames)) }
    ensures next { result ≡ number_after networks.now next (drop first page.old.told.frames) }
{
    let mut number = next;
    for k in first..page.frame_count() {
        number = number_next(networks, page, k, id, number);
    }
    number
}

/// Counts the frames from an index on that go out in fragments. What is longer than its side takes may be cut: no other
/// packet is sent that is too long.
fn count_cut(networks: &Networks, page: &OutputBuffer, first: usize, counts: &mut Counts) {
    for frame in page.frames().skip(first) {
        if frame.bytes.len() > ETHERNET + usize::from(mtu_of(networks, frame.side)) {
            counts.cut(frame.side);
        }
    }
}

/// Numbers what was sent from an index on, and counts what of it goes out in fragments.
#[cold]
fn number(
    networks: &Networks,
    id: GatewayId,
    fragments: &mut Fragments,
    page: &mut OutputBuffer,
    first: usize,
)
    requires { first ≤ length page.old.told.frames }
    ensures told { page.new.told ≡ with_frames page.old.told
        (take first page.old.told.frames
        ++ numbered networks.now id fragments.old.numbered (drop first page.old.told.frames)) }
    ensures fragments { fragments.new ≡ record fragments.old {
      numbered = number_after networks.now fragments.old.numbered
          (drop first page.old.told.frames);
      counts = fragments.new.counts;
    } }
{
    fragments.numbered = number_from(networks, page, first, id, fragments.numbered);
    count_cut(networks, page, first, &mut fragments.counts);
}

/// How much was on a page before a step.
#[derive(Clone, Copy)]
pub(crate) struct Before {
    /// How many frames there were.
    pub(crate) frames: usize,
    /// The bytes that all frames may have together where those of the step fit at both sides.
    pub(crate) octets: usize,
}

/// Numbers what a step sent, and counts what of it goes out in fragments. Where few bytes were sent,
/// no frame is too long.
#[inline(always)]
pub(crate) fn number_sent(
    networks: &Networks,
    id: GatewayId,
    fragments: &mut Fragments,
    page: &mut OutputBuffer,
    before: Before,
)
    requires before { before.frames ≤ length page.old.told.frames }
    requires short { octet_count page.old.told.frames ≤ before.octets
        → IsUncut networks.now id fragments.old.numbered
        (drop before.frames page.old.told.frames) }
    ensures told { page.new.told ≡ with_frames page.old.told
        (take before.frames page.old.told.frames
        ++ numbered networks.now id fragments.old.numbered
        (drop before.frames page.old.told.frames)) }
    ensures fragments { fragments.new ≡ record fragments.old {
      numbered = number_after networks.now fragments.old.numbered
          (drop before.frames page.old.told.frames);
      counts = fragments.new.counts;
    } }
{
    if page.frame_octets() > before.octets {
        number(networks, id, fragments, page, before.frames);
    }
}
