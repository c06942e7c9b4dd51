//! The step that an event gives, and the faults of refused events.
ghost use Rattle.std.specs.Prelude.{◌≡◌};
ghost use Rattle.frame_sim.specs.Texts.{refusal_text};

use gateway::{Out, Outcome};
use nat_types::NoMemory;
use std::alloc::AllocError;
use std::fmt;
use thiserror::Error;

/// The reason why an event was refused; the world is then as before.
#[derive(Clone, Copy, Debug, PartialEq, Eq, Error)]
pub enum WorldFault {
    /// The event isn't allowed in this world.
    PremiseBroken,
    /// The other gateway never sent a datagram of this number.
    NoSuchDatagram,
    /// An allocation failed.
    NoMemory,
}

impl WorldFault {
    /// Returns the fault's number and name, as `2 NoSuchDatagram`.
    pub fn text(&self) -> &str
        ensures { result.now ≡ refusal_text self.now }
    {
        match self {
            WorldFault::PremiseBroken => "1 PremiseBroken",
            WorldFault::NoSuchDatagram => "2 NoSuchDatagram",
            WorldFault::NoMemory => "3 NoMemory",
        }
    }
}

/// Writes the text of `WorldFault::text`.
impl fmt::Display for WorldFault {
    ghost use Rattle.std.specs.Fmt.{WritesOnOk};
    ghost use Rattle.std.specs.Prelude.{Some};
    ghost use Rattle.frame_sim.specs.Texts.{refusal_text};

    ghost output = { λ fault. Some (refusal_text fault) };

    fn fmt<W: fmt::Write>(&self, f: &mut fmt::Formatter<W>) -> fmt::Result
        ensures writes { WritesOnOk W.write_str_gives f.old result (refusal_text self.now) f.new }
    {
        f.write_str(self.text())
    }
}

impl From<AllocError> for WorldFault {
    ghost use Rattle.std.specs.Prelude.{◌≡◌};
    ghost use Rattle.frame_sim.specs.declared.events.WorldFault.TheVariants as faults;

    ghost from_gives = { λ _ fault. fault ≡ faults.NoMemory };

    fn from(_: AllocError) -> WorldFault {
        WorldFault::NoMemory
    }
}

impl From<NoMemory> for WorldFault {
    ghost use Rattle.std.specs.Prelude.{◌≡◌};
    ghost use Rattle.frame_sim.specs.declared.events.WorldFault.TheVariants as faults;

    ghost from_gives = { λ _ fault. fault ≡ faults.NoMemory };

    fn from(_: NoMemory) -> WorldFault {
        WorldFault::NoMemory
    }
}

/// What an event gave: its outcome or its refusal, and what the gateway sent and noted.
#[derive(Drop)]
pub struct Step {
    pub answer: Result<Outcome, WorldFault>,
    pub out: Out,
}
