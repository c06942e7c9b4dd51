//! Frames as they go out, each with its bytes.
ghost use Rattle.std.specs.Prelude.{◌≡◌, ◌++◌, IfOk, OnOk};
ghost use Rattle.fragments.specs.Cut.{IsMtu, pieces};
ghost use Rattle.packet_rules.specs.Networks.{mtu_of};
ghost use Rattle.spec_gateway.specs.Sendings.{all_pieces};
ghost use Rattle.sendings.specs.Pieces.{at_side};

use fragments::Cutter;
use nat_types::{NoMemory, Side};
use output::{Frame, Out};
use packet_rules::Networks;
use std::alloc::Global;
use std::marker::Model;

/// A frame as it goes out at a side: one that was sent whole, or a fragment of one.
#[derive(Debug, Drop)]
pub struct Piece {
    side: Side,
    bytes: Vec<u8>,
}

impl Model for Piece {
    ghost use Rattle.output.specs.Output.{Sent};

    ghost Value = { Sent };

    ghost view = { λ p. record {
      side = p.side;
      bytes = p.bytes.items;
    } };
}

impl Piece {
    /// Returns the side at which it goes out.
    pub fn side(&self) -> Side
        ensures { result ≡ self.now.side }
    {
        self.side
    }

    /// Returns the frame's bytes.
    pub fn bytes(&self) -> &[u8]
        ensures { result.now ≡ self.now.bytes }
    {
        self.bytes.as_slice()
    }
}

/// Returns the most bytes of a packet that a side takes.
fn mtu_at(networks: &Networks, side: Side) -> u16
    ensures value { result ≡ mtu_of networks.now side }
    ensures limits { IsMtu result }
{
    let network = networks.of(side);
    network.interface.mtu
}

/// Appends what goes out for a frame at a side with this `mtu`.
fn append_pieces(
    list: &mut Vec<Piece>,
    cutter: &mut Cutter,
    frame: Frame<'_>,
    mtu: u16,
) -> Result<(), NoMemory>
    requires { IsMtu mtu }
    ensures { OnOk result (list.new.items
        ≡ list.old.items ++ at_side frame.entry.side (pieces mtu frame.entry.bytes.now)) }
{
    let alloc = *list.allocator();
    for k in 0..cutter.count(frame.bytes, mtu) {
        let bytes = Vec::from_slice(alloc, cutter.piece(frame.bytes, mtu, k))?;
        list.push(Piece {
            side: frame.side,
            bytes,
        })?;
    }
    Ok(())
}

/// Returns what goes out for the frames of a gateway with these networks, in order.
pub fn pieces_of(alloc: Global, networks: &Networks, out: &Out) -> Result<Vec<Piece>, NoMemory>
    ensures { IfOk result (λ list. list.items ≡ all_pieces networks.now out.now.frames) }
{
    let mut list = Vec::new(alloc);
    let mut cutter = Cutter::new(alloc)?;
    for frame in out.frames() {
        let mtu = mtu_at(networks, frame.side);
        append_pieces(&mut list, &mut cutter, frame, mtu)?;
    }
    Ok(list)
}
