//! The search for the rows that an event satisfies.

ghost use Rattle.std.specs.Prelude.{◌≡◌, ◌<◌, ◌≤◌, ◌∷◌, [], true, length, take, drop, slice_get, Some, OnOk, OnErr, if◌then◌else◌};
ghost use Rattle.std.specs.Arc.{arc_value};
ghost use Rattle.be_model.specs.declared.changes.Row.{Row};
ghost use Rattle.be_model.specs.Matching.{satisfies};
ghost use Rattle.be_shape.specs.Columns.{AreColumnsOf};
ghost use Rattle.be_shape.specs.Lanes.{are_single};
ghost use Rattle.be_shape.specs.Plain.{plain, parts_as, half_as, part_as, parts_of, leaf_of};
ghost use Rattle.be_shape.specs.Shape.{lower, upper};
ghost use Rattle.be_shape.specs.Ranges.{is_bounded, is_rising};
ghost use Rattle.be_shape.specs.Search.{visited, visited_in_parts, visited_in_half, all_of, holds_value};
ghost use Rattle.be_index.specs.Puts.{Adds, Grows, hits_of};
ghost use Rattle.be_match.specs.Ahead.{AreOthersCountable, CountsOthers, ahead_in_parts, ahead_in_half};

use crate::ahead::{count_ahead, count_entered};
use be_base::NoMemory;
use be_index::Hits;
use be_model::{Cost, Row, Schema};
use be_shape::{
    BLOCK, Chosen, Columns, Kept, Leaf, Met, NONE_CHOSEN, NONE_MET, Node, NodeRange, Part, Sight,
    lower_range, upper_range, whole_range,
};
use std::sync::Arc;

// At a node where a search has counted so many, it counts those below ahead. A search that comes to so many is one of a large tree,
// and the nodes of a small tree stand in the processor's caches.
const MANY_NODES: u64 = 256;

// Appends what the event satisfies in a node and in all below it. The leaf of the node is counted before. Where one half alone holds a
// value of the event, the search goes on there, without a call.
#[cycle(searches)]
pub(crate) fn search_node<C: Hits>(
    n: &Node,
    s: &Schema,
    e: &Sight,
    range: NodeRange,
    found: &mut C,
    cost: &mut Cost,
) -> Result<(), NoMemory>
    requires bounded { is_bounded range ≡ true }
    requires rising { is_rising range ≡ true }
    requires countable { AreOthersCountable cost.old (leaf_of (plain n.now) ∷ []) (visited s.now e.now range (plain n.now)) }
    ensures put { OnOk result (Adds (C.held found.old) (C.held found.new) (hits_of C.item_of e.now (all_of (visited s.now e.now range (plain n.now))))) }
    ensures refused { OnErr result ((C.held found.old).sure < length (hits_of C.item_of e.now (all_of (visited s.now e.now range (plain n.now))))) }
    ensures cost { OnOk result (CountsOthers cost.old cost.new (leaf_of (plain n.now) ∷ []) (visited s.now e.now range (plain n.now))) }
    ensures grown { Grows (C.held found.old) (C.held found.new) }
{
    let mut here = n;
    let mut within = range;
    loop {
        let lower = lower_range(within);
        let upper = upper_range(within);
        let in_low = e.holds_value(lower);
        let in_high = e.holds_value(upper);
        let ahead = MANY_NODES <= cost.visits;
        count_ahead(here, e, in_low, in_high, ahead, cost);
        search_leaf(&here.leaf, e, found)?;
        search_parts(here.parts.as_slice(), s, e, ahead, found, cost)?;
        if in_low == in_high {
            if in_low {
                search_half(&here.low, s, e, lower, ahead, found, cost)?;
                search_half(&here.high, s, e, upper, ahead, found, cost)?;
            }
            return Ok(());
        }
        match chosen(in_low, &here.low, &here.high) {
            Some(half) => {
                count_entered(half, ahead, cost);
                here = half;
            }
            None => return Ok(()),
        }
        within = chosen_range(in_low, within);
    }
}

// Appends what it satisfies in parts. The leaf of each root that is entered is counted here, unless it was counted ahead.
#[cycle(searches)]
fn search_parts<C: Hits>(
    parts: &[Part],
    s: &Schema,
    e: &Sight,
    ahead: bool,
    found: &mut C,
    cost: &mut Cost,
) -> Result<(), NoMemory>
    requires countable { AreOthersCountable cost.old (if ahead then ahead_in_parts e.now (parts_as parts.now) else []) (visited_in_parts s.now e.now (parts_as parts.now)) }
    ensures put { OnOk result (Adds (C.held found.old) (C.held found.new) (hits_of C.item_of e.now (all_of (visited_in_parts s.now e.now (parts_as parts.now))))) }
    ensures refused { OnErr result ((C.held found.old).sure < length (hits_of C.item_of e.now (all_of (visited_in_parts s.now e.now (parts_as parts.now))))) }
    ensures cost { OnOk result (CountsOthers cost.old cost.new (if ahead then ahead_in_parts e.now (parts_as parts.now) else []) (visited_in_parts s.now e.now (parts_as parts.now))) }
    ensures grown { Grows (C.held found.old) (C.held found.new) }
{
    for part in parts {
        search_part(part, s, e, ahead, found, cost)?;
    }
    Ok(())
}

// In one part. Where the root is entered, its leaf is counted here, unless it was counted ahead.
#[cycle(searches)]
fn search_part<C: Hits>(
    part: &Part,
    s: &Schema,
    e: &Sight,
    ahead: bool,
    found: &mut C,
    cost: &mut Cost,
) -> Result<(), NoMemory>
    requires countable { AreOthersCountable cost.old (if ahead then ahead_in_parts e.now (parts_of (part_as part.now ∷ [])) else []) (visited_in_parts s.now e.now (parts_of (part_as part.now ∷ []))) }
    ensures put { OnOk result (Adds (C.held found.old) (C.held found.new) (hits_of C.item_of e.now (all_of (visited_in_parts s.now e.now (parts_of (part_as part.now ∷ [])))))) }
    ensures refused { OnErr result ((C.held found.old).sure < length (hits_of C.item_of e.now (all_of (visited_in_parts s.now e.now (parts_of (part_as part.now ∷ [])))))) }
    ensures cost { OnOk result (CountsOthers cost.old cost.new (if ahead then ahead_in_parts e.now (parts_of (part_as part.now ∷ [])) else []) (visited_in_parts s.now e.now (parts_of (part_as part.now ∷ [])))) }
    ensures grown { Grows (C.held found.old) (C.held found.new) }
{
    if e.assigns(part.attr) {
        count_entered(&part.root, ahead, cost);
        search_node(&part.root, s, e, whole_range(s, part.attr), found, cost)
    } else {
        Ok(())
    }
}

// In a half of this range, which holds a value of the event. Its leaf is counted here, unless it was counted ahead.
#[cycle(searches)]
fn search_half<C: Hits>(
    half: &Option<Box<Node>>,
    s: &Schema,
    e: &Sight,
    range: NodeRange,
    ahead: bool,
    found: &mut C,
    cost: &mut Cost,
) -> Result<(), NoMemory>
    requires bounded { is_bounded range ≡ true }
    requires rising { is_rising range ≡ true }
    requires holds { holds_value e.now range ≡ true }
    requires countable { AreOthersCountable cost.old (if ahead then ahead_in_half true (half_as half.now) else []) (visited_in_half s.now e.now range (half_as half.now)) }
    ensures put { OnOk result (Adds (C.held found.old) (C.held found.new) (hits_of C.item_of e.now (all_of (visited_in_half s.now e.now range (half_as half.now))))) }
    ensures refused { OnErr result ((C.held found.old).sure < length (hits_of C.item_of e.now (all_of (visited_in_half s.now e.now range (half_as half.now))))) }
    ensures cost { OnOk result (CountsOthers cost.old cost.new (if ahead then ahead_in_half true (half_as half.now) else []) (visited_in_half s.now e.now range (half_as half.now))) }
    ensures grown { Grows (C.held found.old) (C.held found.new) }
{
    match half {
        Some(n) => {
            count_entered(n, ahead, cost);
            search_node(n, s, e, range, found, cost)
        }
        None => Ok(()),
    }
}

// The low half, or else the high one. Where an event has one value, which half holds it can't be foreseen; a choice needs no jump.
fn chosen<'a>(
    in_low: bool,
    low: &'a Option<Box<Node>>,
    high: &'a Option<Box<Node>>,
) -> &'a Option<Box<Node>>
    ensures { result.now ≡ (if in_low then low.now else high.now) }
{
    if in_low { low } else { high }
}

fn chosen_end(in_low: bool, low: i64, high: i64) -> i64
    ensures { result ≡ (if in_low then low else high) }
{
    if in_low { low } else { high }
}

// The range of the low half, or else of the high one.
fn chosen_range(in_low: bool, range: NodeRange) -> NodeRange
    requires bounded { is_bounded range ≡ true }
    requires rising { is_rising range ≡ true }
    ensures { result ≡ (if in_low then lower range else upper range) }
{
    let (a, low) = lower_range(range)?;
    let (_, high) = upper_range(range)?;
    Some((
        a,
        (
            chosen_end(in_low, low.0, high.0),
            chosen_end(in_low, low.1, high.1),
        ),
    ))
}

// Appends the rows of a leaf that the event satisfies.
fn search_leaf<C: Hits>(leaf: &Leaf, e: &Sight, found: &mut C) -> Result<(), NoMemory>
    ensures put { OnOk result (Adds (C.held found.old) (C.held found.new) (hits_of C.item_of e.now leaf.now)) }
    ensures refused { OnErr result ((C.held found.old).sure < length (hits_of C.item_of e.now leaf.now)) }
    ensures grown { Grows (C.held found.old) (C.held found.new) }
{
    let count = leaf.len();
    let mut from = 0;
    while from < count {
        search_block(leaf, from, e, found)?;
        let many = (count - from).min(BLOCK);
        from += many;
    }
    Ok(())
}

// Appends those of a block, by its columns where it has them.
fn search_block<C: Hits>(leaf: &Leaf, from: usize, e: &Sight, found: &mut C) -> Result<(), NoMemory>
    requires { from ≤ length leaf.now }
    ensures put { OnOk result (Adds (C.held found.old) (C.held found.new) (hits_of C.item_of e.now (take 32 (drop from leaf.now)))) }
    ensures refused { OnErr result ((C.held found.old).sure < length (hits_of C.item_of e.now (take 32 (drop from leaf.now)))) }
    ensures grown { Grows (C.held found.old) (C.held found.new) }
{
    match leaf.columns(from) {
        Some(columns) if e.is_exact() => search_columns(columns, leaf, from, e, found),
        _ => search_places(leaf, from, e, found),
    }
}

// Appends those of a block by its columns, which tell for sure where they stand.
fn search_columns<C: Hits>(
    columns: &Columns,
    leaf: &Leaf,
    from: usize,
    e: &Sight,
    found: &mut C,
) -> Result<(), NoMemory>
    requires starts { from ≤ length leaf.now }
    requires single { are_single e.now ≡ true }
    requires rows { AreColumnsOf columns.now (take 32 (drop from leaf.now)) }
    ensures put { OnOk result (Adds (C.held found.old) (C.held found.new) (hits_of C.item_of e.now (take 32 (drop from leaf.now)))) }
    ensures refused { OnErr result ((C.held found.old).sure < length (hits_of C.item_of e.now (take 32 (drop from leaf.now)))) }
    ensures grown { Grows (C.held found.old) (C.held found.new) }
{
    let mut met: Met = NONE_MET;
    let many = columns.met(e, &mut met);
    for i in 0..many {
        put_met(columns, met[i], leaf, from, found)?;
    }
    Ok(())
}

// Appends the row at a place of a block, by its id alone where that is enough.
fn put_met<C: Hits>(
    columns: &Columns,
    at: u8,
    leaf: &Leaf,
    from: usize,
    found: &mut C,
) -> Result<(), NoMemory>
    requires rows { AreColumnsOf columns.now (take 32 (drop from leaf.now)) }
    requires within { at < length (take 32 (drop from leaf.now)) }
    ensures put { OnOk result ((row : Row) → slice_get (take 32 (drop from leaf.now)) at ≡ Some row → Adds (C.held found.old) (C.held found.new) (C.item_of row ∷ [])) }
    ensures refused { OnErr result ((C.held found.old).sure < 1) }
    ensures grown { Grows (C.held found.old) (C.held found.new) }
{
    let id = columns.id(at);
    if !found.put_id(id)? {
        // Called so that the proof knows how long a leaf can be.
        let _ = leaf.len();
        found.put(id, leaf.row(from + usize::from(at)))?;
    }
    Ok(())
}

// Appends those of a block by its places. First they are chosen, without a jump by a row, and then each that isn't sure is asked,
// which mostly says yes.
fn search_places<C: Hits>(
    leaf: &Leaf,
    from: usize,
    e: &Sight,
    found: &mut C,
) -> Result<(), NoMemory>
    requires { from ≤ length leaf.now }
    ensures put { OnOk result (Adds (C.held found.old) (C.held found.new) (hits_of C.item_of e.now (take 32 (drop from leaf.now)))) }
    ensures refused { OnErr result ((C.held found.old).sure < length (hits_of C.item_of e.now (take 32 (drop from leaf.now)))) }
    ensures grown { Grows (C.held found.old) (C.held found.new) }
{
    let mut chosen: Chosen = NONE_CHOSEN;
    let count = leaf.choose(from, e, &mut chosen);
    // Called so that the proof knows how long a leaf can be.
    let _ = leaf.len();
    for i in 0..count {
        let choice = chosen[i];
        let kept = leaf.kept(from + usize::from(choice.at));
        test(kept, choice.sure, kept.row(), e, found)?;
    }
    Ok(())
}

// Appends the row of a place where the event satisfies it, as it does for sure where that is said.
fn test<C: Hits>(
    kept: &Kept,
    sure: bool,
    row: &Arc<Row>,
    e: &Sight,
    found: &mut C,
) -> Result<(), NoMemory>
    requires stands { kept.now ≡ Some (arc_value row.now) }
    requires sure { sure ≡ true → satisfies e.now (arc_value row.now).conj ≡ true }
    ensures put { OnOk result (Adds (C.held found.old) (C.held found.new) (hits_of C.item_of e.now (arc_value row.now ∷ []))) }
    ensures refused { OnErr result ((C.held found.old).sure < length (hits_of C.item_of e.now (arc_value row.now ∷ []))) }
    ensures grown { Grows (C.held found.old) (C.held found.new) }
{
    if sure || kept.is_met(e) {
        found.put(kept.id(), row)?;
    }
    Ok(())
}
