//! The numbers of slots.

/// The number of a slot of [`PortSlots`].
#[derive(Clone, Copy, Debug, PartialEq, Eq)]
pub struct SlotNumber(pub(crate) usize);
