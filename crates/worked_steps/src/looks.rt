//! Looks at a tree, beside a plain list.

use be_base::{AttrNo, NoMemory};
use be_match::{cost_of, find_in};
use be_model::{Event, Found, Row, Values};
use be_shape::Tree;
use std::alloc::Global;
use std::sync::Arc;
use std::test::Fail;
use worked_help::{Seen, look};

/// The visits and the tested rows of a search for these values of attributes, which rise.
pub(crate) fn cost(alloc: Global, tree: &Tree, values: &[(u16, i64)]) -> Result<(u64, u64), Fail> {
    let mut event = Event::make(alloc);
    for (attr, value) in values {
        let attr = AttrNo(*attr);
        if event.accepts(attr) {
            event.push((attr, Values::one(alloc, *value)?))?;
        }
    }
    if !event.lies(&tree.schema) {
        return Ok((0, 0));
    }
    let cost = cost_of(tree, &event);
    Ok((cost.visits, cost.tested))
}

/// Whether the tree has the rows of the list, whose ids rise, each once, and is placed, drawn, pruned and settled.
pub(crate) fn has_ids(alloc: Global, tree: &Tree, rows: &[Arc<Row>]) -> Result<bool, NoMemory> {
    let mut seen = Seen::make(alloc);
    look(&tree.root, &tree.schema, &mut seen)?;
    seen.ids.sort_unstable();
    let mut want = Vec::new(alloc);
    for row in rows {
        want.push(row.id.0)?;
    }
    Ok(seen.is_right && seen.ids.as_slice() == want.as_slice())
}

/// Whether a search finds the rows that a filter over the list gives.
pub(crate) fn finds_as_list(
    alloc: Global,
    tree: &Tree,
    rows: &[Arc<Row>],
    event: &Event,
) -> Result<bool, Fail> {
    let mut found = Found::make(alloc);
    if !event.lies(&tree.schema) {
        return Ok(false);
    }
    let _ = find_in(tree, event, &mut found)?;
    found.order();
    let mut ids = Vec::new(alloc);
    for row in found.rows() {
        ids.push(row.id.0)?;
    }
    let mut want = Vec::new(alloc);
    for row in rows {
        if row.conj.satisfied_by(event) {
            want.push(row.id.0)?;
        }
    }
    Ok(ids.as_slice() == want.as_slice())
}
