//! Fragments that are kept.
ghost use Rattle.std.specs.Prelude.{◌≡◌, length, IfOk, OnErr};
ghost use Rattle.memory.specs.Memory.{WasRefused};

use crate::spares::Spares;
use crate::views::FragmentView;
use std::alloc::{AllocError, Global};
use std::marker::Model;

/// A fragment that is kept, as the frame in which it came.
#[derive(Debug, Drop)]
pub(crate) struct Fragment {
    frame: Vec<u8>,
}

impl Model for Fragment {
    ghost use Rattle.std.specs.Prelude.{ℕ, List};
    ghost use Rattle.fragments.specs.Fragment.{IsFragment};

    ghost Value = { List ℕ };

    ghost view = { λ f. f.frame.items };

    ghost invariant = { λ f. IsFragment f.frame.items };
}

impl Fragment {
    /// Returns a copy of a fragment, in a spare buffer where there is one. Fails where there isn't enough memory.
    #[inline(always)]
    pub(crate) fn copy(
        spares: &mut Spares,
        alloc: Global,
        view: &FragmentView<'_>,
    ) -> Result<Fragment, AllocError>
        ensures frame { IfOk result (λ f. f ≡ view.now.frame.now) }
        ensures refused { OnErr result (WasRefused (length view.now.frame.now)) }
    {
        let frame = spares.copy_of(alloc, view.frame)?;
        Ok(Fragment { frame })
    }

    /// Returns the buffer of a fragment that is kept no longer.
    pub(crate) fn into_buffer(self) -> Vec<u8> {
        let Fragment { frame } = self;
        frame
    }

    pub(crate) fn view(&self) -> FragmentView<'_>
        ensures { result.frame.now ≡ self.now }
    {
        FragmentView { frame: &self.frame }
    }
}
