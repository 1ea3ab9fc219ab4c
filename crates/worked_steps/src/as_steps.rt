//! The plain program's ways and moves as paths and steps of the tree, and back.

use crate::by_ways::{self, HIGH, LOW, Way};
use crate::moves::Move;
use be_base::{AttrNo, Id, NoMemory};
use be_model::{Hop, Path, Step};
use std::alloc::Global;

/// A way as a path of the tree.
pub fn path_of(alloc: Global, way: Way) -> Result<Path, NoMemory> {
    let mut path = Path::make(alloc);
    for hop in way.hops {
        if hop == 0 {
            return Ok(path);
        }
        path.push(hop_of(hop))?;
    }
    Ok(path)
}

fn hop_of(hop: u8) -> Hop {
    match hop {
        LOW => Hop::Low,
        HIGH => Hop::High,
        _ => Hop::Part(AttrNo(hop.saturating_sub(1) as u16)),
    }
}

fn way_of(path: &Path) -> Way {
    let mut way = Way::root();
    for hop in path.hops() {
        way = way.below(match hop {
            Hop::Low => LOW,
            Hop::High => HIGH,
            Hop::Part(a) => by_ways::part(attr_of(*a)),
        });
    }
    way
}

fn attr_of(a: AttrNo) -> u8 {
    if a.0 < 4 { a.0 as u8 } else { 4 }
}

/// A move as a step.
pub fn step_of(alloc: Global, step: Move) -> Result<Step, NoMemory> {
    Ok(match step {
        Move::Part(way, attr) => Step::SplitPart {
            path: path_of(alloc, way)?,
            attr: AttrNo(attr as u16),
        },
        Move::Half(way, half) => Step::SplitHalf {
            path: path_of(alloc, way)?,
            half: hop_of(half),
        },
        Move::Merge(way) => Step::Merge {
            path: path_of(alloc, way)?,
        },
        Move::Shift(way, from, to, id) => Step::Shift {
            path: path_of(alloc, way)?,
            from: AttrNo(from as u16),
            to: AttrNo(to as u16),
            id: Id(id),
        },
    })
}

/// A step as a move.
pub fn move_of(step: &Step) -> Move {
    match step {
        Step::SplitPart { path, attr } => Move::Part(way_of(path), attr_of(*attr)),
        Step::SplitHalf { path, half } => Move::Half(
            way_of(path),
            match half {
                Hop::Low => LOW,
                _ => HIGH,
            },
        ),
        Step::Merge { path } => Move::Merge(way_of(path)),
        Step::Shift { path, from, to, id } => {
            Move::Shift(way_of(path), attr_of(*from), attr_of(*to), id.0)
        }
    }
}
