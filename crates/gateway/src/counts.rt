//! What came of the fragments and of the packets that are too long, by side.
use fragments::{Came, Loss};
use nat_types::Side;

/// Of one side: the datagrams of which fragments are there now, and numbers since the boot.
#[derive(Clone, Copy, Debug, PartialEq, Eq, Default)]
pub struct FragmentCounts {
    /// Datagrams of which fragments are there, and others are missing.
    pub incomplete: usize,
    /// Fragments that were taken.
    pub taken: u64,
    /// Datagrams that became whole.
    pub whole: u64,
    /// Datagrams that were given up because fragments were missing for too long.
    pub late: u64,
    /// Datagrams that were given up because another one began that had no place.
    pub crowded_out: u64,
    /// Datagrams that were given up because a fragment contradicted the others, was one too many, or
    /// made the packet too long.
    pub contradicted: u64,
    /// Packets that were sent in fragments.
    pub cut: u64,
}

impl FragmentCounts {
    /// Counts what came of a fragment, and why it gave a datagram up, where it did.
    fn came(&mut self, came: Came, lost: Option<Loss>) {
        match came {
            Came::Refused => {}
            Came::Held => self.taken = self.taken.saturating_add(1),
            Came::Whole => {
                self.taken = self.taken.saturating_add(1);
                self.whole = self.whole.saturating_add(1);
            }
        }
        match lost {
            None => {}
            Some(Loss::CrowdedOut) => self.crowded_out = self.crowded_out.saturating_add(1),
            Some(Loss::Contradicted | Loss::Oversized) => {
                self.contradicted = self.contradicted.saturating_add(1);
            }
        }
    }
}

/// The numbers of both sides. `incomplete` isn't kept here.
#[derive(Clone, Copy, Debug, PartialEq, Eq, Default)]
pub(crate) struct Counts {
    inside: FragmentCounts,
    outside: FragmentCounts,
}

impl Counts {
    /// Returns the numbers of a side.
    pub(crate) fn of(&self, side: Side) -> FragmentCounts {
        match side {
            Side::Inside => self.inside,
            Side::Outside => self.outside,
        }
    }

    /// Counts what came of a fragment at a side.
    pub(crate) fn came(&mut self, side: Side, came: Came, lost: Option<Loss>) {
        match side {
            Side::Inside => self.inside.came(came, lost),
            Side::Outside => self.outside.came(came, lost),
        }
    }

    /// Counts so many datagrams at a side that were given up because fragments were missing for too
    /// long.
    pub(crate) fn gave_up(&mut self, side: Side, count: usize) {
        match side {
            Side::Inside => self.inside.late = self.inside.late.saturating_add(count as u64),
            Side::Outside => self.outside.late = self.outside.late.saturating_add(count as u64),
        }
    }

    /// Counts a packet that is sent in fragments at a side.
    pub(crate) fn cut(&mut self, side: Side) {
        match side {
            Side::Inside => self.inside.cut = self.inside.cut.saturating_add(1),
            Side::Outside => self.outside.cut = self.outside.cut.saturating_add(1),
        }
    }
}
