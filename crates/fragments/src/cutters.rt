//! Frames cut one piece after the other, as they are sent.
ghost use Rattle.std.specs.Prelude.{◌≡◌, ◌≤◌, ◌<◌, ◌+◌, ◌∷◌, length, drop, vec_capacity, OnErr, true};
ghost use Rattle.memory.specs.Memory.{WasRefused};
ghost use Rattle.ipv4.specs.Header.{header_of};
ghost use Rattle.fragments.specs.Cut.{IsMtu, is_cuttable, is_long, piece, piece_count, pieces};
ghost use Rattle.fragments.specs.Fragment.{ipv4_in};

use crate::cuts::{append_piece, piece_count};
use frames::{EthView, EtherType, LONGEST};
use ipv4::Ipv4View;
use std::alloc::{AllocError, Global};
use std::marker::Model;

/// The bytes of an Ethernet header.
const ETHERNET: usize = 14;

/// Whether a frame is an IPv4 packet without padding, and without Don't Fragment.
#[tactic(auto, unfolding(crate::specs::Cut::is_cuttable))]
fn is_cuttable(frame: &[u8]) -> bool
    ensures { result ≡ is_cuttable frame.now }
{
    let Ok(view) = EthView::parse(frame) else {
        return false;
    };
    if view.ethertype() != EtherType::IPV4 {
        return false;
    }
    let Ok(packet) = Ipv4View::parse(view.body()) else {
        return false;
    };
    if frame.len() != ETHERNET + packet.total_length() {
        return false;
    }
    !packet.is_unbroken()
}

/// Whether a frame has to be cut for an exit that takes `mtu` bytes of IPv4: it is longer, an IPv4 packet without padding,
/// and without Don't Fragment.
#[tactic(auto, unfolding(crate::specs::Cut::is_long))]
pub fn is_long(frame: &[u8], mtu: u16) -> bool
    ensures { result ≡ is_long mtu frame.now }
{
    frame.len() > ETHERNET + usize::from(mtu) && is_cuttable(frame)
}

/// Returns into how many fragments a frame is cut that is too long.
fn long_count(frame: &[u8], mtu: u16) -> usize
    requires mtu { IsMtu mtu }
    requires long { is_long mtu frame.now ≡ true }
    ensures value { result ≡ piece_count mtu (ipv4_in frame.now) }
    ensures most { result ≤ 128 }
{
    piece_count(EthView { bytes: frame }.body(), mtu)
}

/// Whether a frame that has a k-th piece has to be cut. Only the first piece may be a frame that hasn't.
#[inline(always)]
fn is_cut(frame: &[u8], mtu: u16, k: usize) -> bool
    requires { k < length (pieces mtu frame.now) }
    ensures { result ≡ is_long mtu frame.now }
{
    k > 0 || is_long(frame, mtu)
}

/// Writes the k-th fragment of a frame that is too long into a list with capacity for the longest frame on a wire.
fn write_piece(list: &mut Vec<u8>, frame: &[u8], mtu: u16, k: usize)
    requires mtu { IsMtu mtu }
    requires long { is_long mtu frame.now ≡ true }
    requires there { k < piece_count mtu (ipv4_in frame.now) }
    requires room { 1514 ≤ vec_capacity list.old }
    ensures items { list.new.items
        ≡ piece mtu (header_of (ipv4_in frame.now)).identification frame.now k }
    ensures capacity { vec_capacity list.old ≤ vec_capacity list.new }
{
    let packet = Ipv4View {
        bytes: EthView { bytes: frame }.body(),
    };
    list.clear();
    append_piece(list, frame, mtu, packet.identification(), k);
}

/// Cuts frames as they are sent, one piece after the other. It has the memory for one fragment, and takes no more.
#[derive(Debug, Drop)]
pub struct Cutter {
    /// The fragment that was cut last.
    piece: Vec<u8>,
}

impl Model for Cutter {
    ghost use Rattle.std.specs.Prelude.{◌≤◌, ⊤, vec_capacity};

    ghost Value = { ⊤ };

    ghost view = { λ _. tt };

    ghost invariant = { λ c. 1514 ≤ vec_capacity c.piece };
}

impl Cutter {
    /// Returns a cutter, or an `AllocError` when out of memory.
    pub fn new(alloc: Global) -> Result<Cutter, AllocError>
        ensures refused { OnErr result (WasRefused 1514) }
    {
        let piece = memory::with_room(alloc, LONGEST)?;
        Ok(Cutter { piece })
    }

    /// Returns in how many pieces a frame goes out where at most `mtu` bytes of IPv4 are sent in one frame, 576 to 1,500:
    /// in its fragments where it has to be cut, else in one.
    pub fn count(&self, frame: &[u8], mtu: u16) -> usize
        requires mtu { IsMtu mtu }
        ensures value { result ≡ length (pieces mtu frame.now) }
        ensures least { 1 ≤ result }
        ensures most { result ≤ 128 }
    {
        if is_long(frame, mtu) {
            long_count(frame, mtu)
        } else {
            1
        }
    }

    /// Returns the k-th of these pieces, from 0: a fragment, or the frame itself where it doesn't have to be cut.
    pub fn piece<'a>(&'a mut self, frame: &'a [u8], mtu: u16, k: usize) -> &'a [u8]
        requires mtu { IsMtu mtu }
        requires there { k < length (pieces mtu frame.now) }
        ensures next { drop k (pieces mtu frame.now)
            ≡ result.now ∷ drop (k + 1) (pieces mtu frame.now) }
    {
        if is_cut(frame, mtu, k) {
            write_piece(&mut self.piece, frame, mtu, k);
            &self.piece
        } else {
            frame
        }
    }
}
