//! Frames as they go out in a run: each as it is, or in its fragments.
ghost use Rattle.std.specs.Prelude.{◌≡◌, IfOk};
ghost use Rattle.spec_gateway.specs.Sendings.{all_pieces};
ghost use Rattle.simulation.specs.Lines.{networks_by, networks_in};

use frame_sim::World;
use nat_types::{GatewayId, NoMemory};
use output::Out;
use packet_rules::Networks;
use sendings::{Piece, pieces_of};
use std::alloc::Global;
use std::io::{self, ErrorKind};
use std::marker::Model;

/// Cuts the frames that the two gateways of a world send, by their networks.
#[derive(Drop)]
pub(crate) struct FrameCutter {
    alloc: Global,
    zero: Networks,
    one: Networks,
}

impl Model for FrameCutter {
    ghost use Rattle.simulation.specs.Lines.{BothNetworks};

    ghost Value = { BothNetworks };

    ghost view = { λ c. record {
      zero = c.zero;
      one = c.one;
    } };
}

impl FrameCutter {
    /// Returns the cutter of a world.
    pub(crate) fn of(alloc: Global, world: &World<'_>) -> FrameCutter
        ensures { result ≡ networks_in world.now }
    {
        FrameCutter {
            alloc,
            zero: world.networks(GatewayId::Zero),
            one: world.networks(GatewayId::One),
        }
    }

    fn networks(&self, id: GatewayId) -> &Networks
        ensures { result.now ≡ networks_by self.now id }
    {
        match id {
            GatewayId::Zero => &self.zero,
            GatewayId::One => &self.one,
        }
    }

    /// Returns what goes out for the frames that a gateway sent in a step, in order.
    ///
    /// # Errors
    ///
    /// `OutOfMemory`.
    pub(crate) fn pieces(&self, id: GatewayId, out: &Out) -> io::Result<Vec<Piece>>
        ensures { IfOk result (λ list. list.items
            ≡ all_pieces (networks_by self.now id) out.now.frames) }
    {
        match pieces_of(self.alloc, self.networks(id), out) {
            Ok(pieces) => Ok(pieces),
            Err(NoMemory) => Err(io::Error::from(ErrorKind::OutOfMemory)),
        }
    }
}
