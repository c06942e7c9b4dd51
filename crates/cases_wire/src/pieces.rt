//! Packets that are cut, and frames as they go out.
ghost use Rattle.std.specs.Prelude.{◌≡◌, ◌+◌, ◌<◌, length, IsTrue};
ghost use Rattle.ipv4.specs.Header.{header_of};
ghost use Rattle.fragments.specs.Cut.{IsIpv4Frame, IsMtu, piece_count};
ghost use Rattle.fragments.specs.Fragment.{ipv4_in};

use crate::parts::{long_frame, tell_frame};
use cases_words::Case;
use fragments::{Cutter, append_piece, piece_count, set_identification};
use frames::EthView;
use ipv4::Ipv4View;
use std::alloc::{AllocError, Global};
use sums::sum;

/// Reads the most bytes of a packet that is sent, from 576 to 1500.
fn mtu(case: &mut Case) -> u16
    ensures { IsMtu result }
{
    case.within(576, 1500) as u16
}

/// Whether a frame carries an IPv4 packet that is no fragment. Where it doesn't, prints why.
fn is_whole(case: &mut Case, frame: &[u8]) -> bool
    ensures { IsTrue result → IsIpv4Frame frame.now }
{
    match EthView::parse(frame) {
        Ok(view) => match Ipv4View::parse(view.body()) {
            Ok(_) => true,
            Err(fault) => {
                case.refused(fault);
                false
            }
        },
        Err(fault) => {
            case.refused(fault);
            false
        }
    }
}

/// Returns one fragment of a frame's packet.
fn piece(
    alloc: Global,
    frame: &[u8],
    mtu: u16,
    identification: u16,
    k: usize,
) -> Result<Vec<u8>, AllocError>
    requires frame { IsIpv4Frame frame.now }
    requires mtu { IsMtu mtu }
    requires there { k < piece_count mtu (ipv4_in frame.now) }
{
    let mut list = Vec::with_capacity(alloc, usize::from(mtu) + 14)?;
    append_piece(&mut list, frame, mtu, identification, k);
    Ok(list)
}

/// Returns the fragments of a frame's packet, each as a list.
fn pieces(
    alloc: Global,
    frame: &[u8],
    mtu: u16,
    identification: u16,
) -> Result<Vec<Vec<u8>>, AllocError>
    requires frame { IsIpv4Frame frame.now }
    requires mtu { IsMtu mtu }
{
    let mut list = Vec::new(alloc);
    let view = EthView { bytes: frame };
    for k in 0..piece_count(view.body(), mtu) {
        list.push(piece(alloc, frame, mtu, identification, k)?)?;
    }
    Ok(list)
}

/// Reads `MTU ID HEX`. Prints how many fragments there are, and each.
pub fn cut(case: &mut Case) {
    let mtu = mtu(case);
    let identification = case.short();
    let frame = case.bytes();
    if !is_whole(case, frame.as_slice()) {
        return;
    }
    match pieces(case.alloc, frame.as_slice(), mtu, identification) {
        Ok(list) => {
            case.put(list.len());
            for piece in list.iter() {
                tell_frame(case, ";", piece.as_slice());
            }
        }
        Err(_) => case.fault(),
    }
}

/// Reads `MTU ID TOTAL HEX`: a packet of so many bytes with these options. Prints how many fragments there are, the IPv4
/// bytes of the first and of the last, and the sum of all fragments' sums.
pub fn cut_long(case: &mut Case) {
    let mtu = mtu(case);
    let identification = case.short();
    let frame = long_frame(case);
    if !is_whole(case, frame.as_slice()) {
        return;
    }
    match pieces(case.alloc, frame.as_slice(), mtu, identification) {
        Ok(list) => tell_pieces(case, list.as_slice()),
        Err(_) => case.fault(),
    }
}

fn tell_pieces(case: &mut Case, list: &[Vec<u8>]) {
    case.put(list.len());
    if let Some(first) = list.first() {
        case.say(": ", first.len().saturating_sub(14));
    }
    if let Some(last) = list.last() {
        case.say(" .. ", last.len().saturating_sub(14));
    }
    let mut total = 0;
    for piece in list {
        total = sums::add(total, sum(piece.as_slice()));
    }
    case.hex_short(" sum ", total);
}

/// Prints in how many pieces a frame goes out, and each.
fn tell_sent(case: &mut Case, cutter: &mut Cutter, frame: &[u8], mtu: u16)
    requires { IsMtu mtu }
{
    let count = cutter.count(frame, mtu);
    case.put(count);
    for k in 0..count {
        tell_frame(case, ";", cutter.piece(frame, mtu, k));
    }
}

/// Prints in how many pieces a frame goes out, the IPv4 bytes of the first and of the last, and the sum of all pieces' sums.
fn tell_long(case: &mut Case, cutter: &mut Cutter, frame: &[u8], mtu: u16)
    requires { IsMtu mtu }
{
    let count = cutter.count(frame, mtu);
    case.put(count);
    let mut total = 0;
    for k in 0..count {
        let piece = cutter.piece(frame, mtu, k);
        if k == 0 {
            case.say(": ", piece.len().saturating_sub(14));
        }
        if k == count - 1 {
            case.say(" .. ", piece.len().saturating_sub(14));
        }
        total = sums::add(total, sum(piece));
    }
    case.hex_short(" sum ", total);
}

/// Reads `MTU HEX`. Prints the pieces in which a frame goes out.
pub fn sent(case: &mut Case) {
    let mtu = mtu(case);
    let frame = case.bytes();
    match Cutter::new(case.alloc) {
        Ok(mut cutter) => tell_sent(case, &mut cutter, frame.as_slice(), mtu),
        Err(_) => case.fault(),
    }
}

/// Reads `MTU TOTAL HEX`: a packet of so many bytes with these options. Prints the same of its frame in short.
pub fn sent_long(case: &mut Case) {
    let mtu = mtu(case);
    let frame = long_frame(case);
    match Cutter::new(case.alloc) {
        Ok(mut cutter) => tell_long(case, &mut cutter, frame.as_slice(), mtu),
        Err(_) => case.fault(),
    }
}

/// Whether nothing stands behind a frame's packet.
fn is_unpadded(frame: &[u8]) -> bool
    requires { IsIpv4Frame frame.now }
    ensures { IsTrue result
        → length frame.now ≡ 14 + (header_of (ipv4_in frame.now)).total_length }
{
    let packet = Ipv4View {
        bytes: EthView { bytes: frame }.body(),
    };
    frame.len() == 14 + packet.total_length()
}

/// Reads `ID HEX`. Prints a frame whose packet has this identification.
pub fn number(case: &mut Case) {
    let identification = case.short();
    let mut frame = case.bytes();
    if !is_whole(case, frame.as_slice()) {
        return;
    }
    if is_unpadded(frame.as_slice()) {
        set_identification(frame.as_mut_slice(), identification);
        tell_frame(case, "with", frame.as_slice());
    } else {
        case.refused("padding");
    }
}
