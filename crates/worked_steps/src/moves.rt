//! Of the plain program by ways: the steps, the plan and the cost.

use crate::by_ways::{
    HIGH, Kept, LOW, Way, count_below, count_in_leaf, count_passing, goes_to, is_there, move_down,
    part, pick, settle,
};
use be_base::NoMemory;
use std::alloc::Global;

const HOPS: [u8; 6] = [1, 2, 3, 4, LOW, HIGH];

/// A step, which may stand or not.
#[derive(Clone, Copy, Debug, PartialEq, Eq)]
pub(crate) enum Move {
    Part(Way, u8),
    Half(Way, u8),
    Merge(Way),
    Shift(Way, u8, u8, u64),
}

// Whether the row keeps clear of the parts and halves of the node, other than that one.
fn may_rise(rows: &[Kept], row: &Kept, node: Way, dropped: Way) -> bool {
    HOPS.iter().all(|hop| {
        let other = node.below(*hop);
        other == dropped || !is_there(rows, other) || !row.passes(node, *hop)
    })
}

fn may_merge(rows: &[Kept], way: Way) -> bool {
    let up = way.up();
    let count = count_below(rows, way);
    way != Way::root()
        && is_there(rows, way)
        && count <= 4
        && count.saturating_add(count_in_leaf(rows, up)) <= 16
        && rows.iter().all(|row| !way.is_over(&row.way) || may_rise(rows, row, up, way))
}

fn may_shift(rows: &[Kept], way: Way, from: u8, to: u8, id: u64) -> bool {
    let source = way.below(part(from));
    from != to
        && is_there(rows, source)
        && is_there(rows, way.below(part(to)))
        && rows.iter().any(|row| row.id == id && source.is_over(&row.way) && row.has(to))
}

pub(crate) fn stands(rows: &[Kept], step: Move) -> bool {
    match step {
        Move::Part(way, attr) => {
            is_there(rows, way)
                && !way.uses(attr)
                && !is_there(rows, way.below(part(attr)))
                && 0 < count_passing(rows, way, part(attr))
        }
        Move::Half(way, half) => {
            (half == LOW || half == HIGH)
                && is_there(rows, way)
                && !is_there(rows, way.below(half))
                && 0 < count_passing(rows, way, half)
        }
        Move::Merge(way) => may_merge(rows, way),
        Move::Shift(way, from, to, id) => may_shift(rows, way, from, to, id),
    }
}

fn shift(rows: &mut [Kept], target: Way, id: u64) {
    for place in 0..rows.len() {
        let mut row = rows[place];
        if row.id == id {
            let way = goes_to(rows, &row, target);
            row.way = way;
            rows[place] = row;
            settle(rows, way);
            return;
        }
    }
}

/// Makes a step that stands.
pub(crate) fn make(rows: &mut [Kept], step: Move) {
    match step {
        Move::Part(way, attr) => move_down(rows, way, part(attr)),
        Move::Half(way, half) => move_down(rows, way, half),
        Move::Merge(way) => {
            for row in rows {
                if way.is_over(&row.way) {
                    row.way = way.up();
                }
            }
        }
        Move::Shift(way, _, to, id) => shift(rows, way.below(part(to)), id),
    }
}

/// The nodes that are there, in their order.
pub(crate) fn nodes(alloc: Global, rows: &[Kept]) -> Result<Vec<Way>, NoMemory> {
    let mut all = Vec::new(alloc);
    all.push(Way::root())?;
    for row in rows {
        for len in 1..=row.way.len() {
            all.push(row.way.cut(len))?;
        }
    }
    all.sort_unstable();
    all.dedup();
    Ok(all)
}

fn plan_shift(rows: &[Kept], way: Way) -> Option<Move> {
    for from in 0..4 {
        let source = way.below(part(from));
        for row in rows {
            if source.is_over(&row.way) {
                let step = plan_shift_of(rows, row, way, from);
                if step.is_some() {
                    return step;
                }
            }
        }
    }
    None
}

fn plan_shift_of(rows: &[Kept], row: &Kept, way: Way, from: u8) -> Option<Move> {
    for to in 0..4 {
        let step = Move::Shift(way, from, to, row.id);
        if row.weight(from).saturating_add(500) <= row.weight(to) && stands(rows, step) {
            return Some(step);
        }
    }
    None
}

fn plan_part(rows: &[Kept], way: Way) -> Option<Move> {
    let attr = pick(rows, way)?;
    let step = Move::Part(way, attr);
    let is_early = 8 <= count_passing(rows, way, part(attr));
    if is_early && stands(rows, step) {
        Some(step)
    } else {
        None
    }
}

fn plan_half(rows: &[Kept], way: Way) -> Option<Move> {
    for half in [LOW, HIGH] {
        let step = Move::Half(way, half);
        if 8 <= count_passing(rows, way, half) && stands(rows, step) {
            return Some(step);
        }
    }
    None
}

// The first step of this kind, by node: the rows' ids rise.
fn plan_kind(rows: &[Kept], nodes: &[Way], kind: u8) -> Option<Move> {
    for way in nodes {
        let step = match kind {
            0 if may_merge(rows, *way) => Some(Move::Merge(*way)),
            1 => plan_shift(rows, *way),
            2 => plan_part(rows, *way),
            3 => plan_half(rows, *way),
            _ => None,
        };
        if step.is_some() {
            return step;
        }
    }
    None
}

/// The plan, over rows whose ids rise.
pub(crate) fn plan(rows: &[Kept], nodes: &[Way]) -> Option<Move> {
    for kind in 0..4 {
        let step = plan_kind(rows, nodes, kind);
        if step.is_some() {
            return step;
        }
    }
    None
}

/// The visits and the tested rows of a search.
pub(crate) fn cost(rows: &[Kept], nodes: &[Way], event: &[Option<i64>; 4]) -> (u64, u64) {
    let visits = nodes.iter().filter(|way| way.is_visited(event)).count();
    let tested = rows.iter().filter(|row| row.way.is_visited(event)).count();
    (visits as u64, tested as u64)
}
