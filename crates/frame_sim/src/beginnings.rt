//! The beginning of a world, for the run of a script and its loop.
ghost use Rattle.std.specs.Prelude.{IfOk, OnErr};
ghost use Rattle.frame_sim.specs.Lacks.{WasUnfounded};
ghost use Rattle.frame_sim.specs.Status.{IsNew};

use crate::World;
use nat_types::NoMemory;
use settings::Settings;
use std::alloc::Global;

impl<'a> World<'a> {
    /// Returns a new world of these settings, as `new` does, or NoMemory. In contracts the world is named `IsNew`, and
    /// NoMemory `WasUnfounded`.
    pub fn founded(alloc: Global, settings: &'a Settings) -> Result<World<'a>, NoMemory>
        ensures new { IfOk result (IsNew settings.now) }
        ensures unfounded { OnErr result (WasUnfounded settings.now) }
    {
        World::new(alloc, settings)
    }
}
