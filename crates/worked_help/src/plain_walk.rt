//! A plain program that walks through a tree, and looks whether it is placed, drawn, pruned and settled.

use be_base::{AttrNo, NoMemory};
use be_model::{Row, Schema};
use be_shape::{Leaf, Node, Part};
use std::alloc::Global;

/// A node on the way from the root: its attribute, and the ends of its range.
#[derive(Clone, Copy, Debug, PartialEq, Eq)]
struct Stage {
    attr: AttrNo,
    lo: i64,
    hi: i64,
}

impl Stage {
    fn can_split(self) -> bool {
        self.lo < self.hi
    }

    fn middle(self) -> i64 {
        self.lo.wrapping_add(self.hi.wrapping_sub(self.lo) / 2)
    }

    fn low(self) -> Stage {
        Stage {
            attr: self.attr,
            lo: self.lo,
            hi: self.middle(),
        }
    }

    fn high(self) -> Stage {
        Stage {
            attr: self.attr,
            lo: self.middle().wrapping_add(1),
            hi: self.hi,
        }
    }

    fn encloses(self, s: &Schema, row: &Row) -> bool {
        if !row.lies(s) {
            return false;
        }
        match row.conj.span(s, self.attr) {
            Some((lo, hi)) => self.lo <= lo && hi <= self.hi,
            None => false,
        }
    }
}

fn last(way: &[Stage]) -> Option<Stage> {
    match way {
        [] => None,
        [.., stage] => Some(*stage),
    }
}

fn is_used(way: &[Stage], a: AttrNo) -> bool {
    way.iter().any(|stage| stage.attr.0 == a.0)
}

fn has(row: &Row, a: AttrNo) -> bool {
    row.conj.preds().iter().any(|pred| pred.attr.0 == a.0)
}

fn is_placed(row: &Row, s: &Schema, way: &[Stage]) -> bool {
    way.iter().all(|stage| stage.encloses(s, row))
}

fn is_drawn(row: &Row, s: &Schema, n: &Node, way: &[Stage]) -> bool {
    if n.parts.as_slice().iter().any(|part| has(row, part.attr)) {
        return false;
    }
    match last(way) {
        Some(stage) => {
            !(n.low.is_some() && stage.low().encloses(s, row))
                && !(n.high.is_some() && stage.high().encloses(s, row))
        }
        None => true,
    }
}

fn is_stuck(row: &Row, s: &Schema, way: &[Stage]) -> bool {
    if !row.conj.preds().iter().all(|pred| is_used(way, pred.attr)) {
        return false;
    }
    match last(way) {
        Some(stage) => {
            !stage.can_split() || !(stage.low().encloses(s, row) || stage.high().encloses(s, row))
        }
        None => true,
    }
}

fn is_settled(leaf: &Leaf, s: &Schema, way: &[Stage]) -> bool {
    if leaf.len() <= 16 {
        return true;
    }
    for place in 0..leaf.len() {
        if !is_stuck(leaf.row(place), s, way) {
            return false;
        }
    }
    true
}

// Whether the parts rise, and none of their attributes is used.
fn are_parts(parts: &[Part], way: &[Stage]) -> bool {
    let mut least = 0;
    for part in parts {
        if part.attr.0 < least || is_used(way, part.attr) {
            return false;
        }
        least = part.attr.0.saturating_add(1);
    }
    true
}

fn may_have_halves(way: &[Stage]) -> bool {
    match last(way) {
        Some(stage) => stage.can_split(),
        None => false,
    }
}

// Whether the node itself is as it should be, where the nodes below it are.
fn is_right_here(n: &Node, s: &Schema, way: &[Stage]) -> bool {
    let has_half = n.low.is_some() || n.high.is_some();
    let is_empty = n.leaf.len() <= 0 && n.parts.as_slice().is_empty() && !has_half;
    for place in 0..n.leaf.len() {
        let row = n.leaf.row(place);
        if !is_placed(row, s, way) || !is_drawn(row, s, n, way) {
            return false;
        }
    }
    (way.is_empty() || !is_empty)
        && (!has_half || may_have_halves(way))
        && are_parts(n.parts.as_slice(), way)
        && is_settled(&n.leaf, s, way)
}

/// What a walk through a tree sees.
#[derive(Drop)]
pub struct Seen {
    way: Vec<Stage>,
    /// The ids of the rows, in the order of the walk.
    pub ids: Vec<u64>,
    /// Whether each node is placed, drawn, pruned and settled.
    pub is_right: bool,
}

impl Seen {
    /// Nothing was seen yet.
    pub fn make(alloc: Global) -> Seen {
        Seen {
            way: Vec::new(alloc),
            ids: Vec::new(alloc),
            is_right: true,
        }
    }

    fn note(&mut self, n: &Node, s: &Schema) -> Result<(), NoMemory> {
        if !is_right_here(n, s, self.way.as_slice()) {
            self.is_right = false;
        }
        for place in 0..n.leaf.len() {
            self.ids.push(n.leaf.row(place).id.0)?;
        }
        Ok(())
    }
}

/// Looks at the node and at all below it.
#[cycle(looks)]
pub fn look(n: &Node, s: &Schema, seen: &mut Seen) -> Result<(), NoMemory> {
    seen.note(n, s)?;
    for part in n.parts.as_slice() {
        look_in_part(part, s, seen)?;
    }
    let Some(stage) = last(seen.way.as_slice()) else {
        return Ok(());
    };
    look_in_half(&n.low, s, seen, stage.low())?;
    look_in_half(&n.high, s, seen, stage.high())
}

#[cycle(looks)]
fn look_in_part(part: &Part, s: &Schema, seen: &mut Seen) -> Result<(), NoMemory> {
    let Some((lo, hi)) = s.range(part.attr) else {
        seen.is_right = false;
        return Ok(());
    };
    let attr = part.attr;
    seen.way.push(Stage { attr, lo, hi })?;
    look(&part.root, s, seen)?;
    let _ = seen.way.pop();
    Ok(())
}

#[cycle(looks)]
fn look_in_half(
    half: &Option<Box<Node>>,
    s: &Schema,
    seen: &mut Seen,
    stage: Stage,
) -> Result<(), NoMemory> {
    let Some(n) = half else {
        return Ok(());
    };
    seen.way.push(stage)?;
    look(n, s, seen)?;
    let _ = seen.way.pop();
    Ok(())
}
