//! The neighbours with faults, one after the other.

use crate::Name;
use crate::bad_values::neighbour_rows;
use crate::neighbours::{field_of, ip_of, mac_of, side_of};
use crate::works::{is_group, is_ours};
use addresses::Prefix;
use settings::Settings;
use toml::Value;

/// What is checked of a neighbour's keys.
#[derive(Clone, Copy)]
pub(crate) enum NeighbourCheck<'a> {
    /// The key is there.
    Present,
    /// The value is good. The networks are those that are known.
    Good {
        inside: Option<Prefix>,
        outside: Option<Prefix>,
    },
    /// The value can work.
    Works(&'a Settings),
}

impl NeighbourCheck<'_> {
    /// Whether a key of a neighbour fails the check.
    fn fails(self, neighbour: &Value, name: Name) -> bool {
        match self {
            NeighbourCheck::Present => field_of(neighbour, name).is_none(),
            NeighbourCheck::Good { inside, outside } => {
                let [(_, has_side), (_, has_ip), (_, has_mac)] = neighbour_rows(
                    neighbour, inside, outside,
                );
                !match name {
                    Name::Side => has_side,
                    Name::Ip => has_ip,
                    _ => has_mac,
                }
            }
            NeighbourCheck::Works(settings) => match name {
                Name::Ip => match (side_of(neighbour), ip_of(neighbour)) {
                    (Some(side), Some(ip)) => is_ours(settings, side, ip),
                    _ => false,
                },
                _ => match mac_of(neighbour) {
                    Some(mac) => is_group(mac),
                    None => false,
                },
            },
        }
    }
}

/// Where the search for the next neighbour with a fault begins.
#[derive(Clone, Copy)]
pub(crate) struct NeighbourCursor {
    /// The neighbour that was found last, counted from 0.
    index: usize,
    /// The rank of the key that was found last; 0 before the first.
    rank: u8,
}

impl NeighbourCursor {
    /// Returns the cursor before the first neighbour.
    pub(crate) fn new() -> NeighbourCursor {
        NeighbourCursor { index: 0, rank: 0 }
    }

    /// Returns the next neighbour of which a key fails a check, with its number, counted from 1.
    pub(crate) fn next<'t>(
        &mut self,
        neighbours: &'t [Value],
        check: NeighbourCheck<'_>,
        name: Name,
    ) -> Option<(usize, &'t Value)> {
        let rank = rank_of(name);
        // Of one neighbour the keys are checked in the order of their ranks.
        let first = if rank > self.rank {
            self.index
        } else {
            self.index.saturating_add(1)
        };
        let mut number = first;
        for neighbour in neighbours.get(first..)? {
            number = number.saturating_add(1);
            if check.fails(neighbour, name) {
                self.index = number.saturating_sub(1);
                self.rank = rank;
                return Some((number, neighbour));
            }
        }
        None
    }
}

/// Returns the place of a key in a neighbour, from 1.
fn rank_of(name: Name) -> u8 {
    match name {
        Name::Side => 1,
        Name::Ip => 2,
        _ => 3,
    }
}
