//! Weights, and the choice of an attribute among rows. `None` alone is an answer that no row wants.

ghost use Rattle.std.specs.Prelude.{◌≡◌};
ghost use Rattle.std.specs.List.{list_all};
ghost use Rattle.std.specs.Arc.{arc_value};
ghost use Rattle.be_model.specs.Lies.{row_lies};
ghost use Rattle.be_model.specs.Rows.{rows_in};

use crate::rows::row_of;
use be_base::AttrNo;
use be_model::{Row, Schema};
use be_score::{pick_attr, weight};
use be_shape::Leaf;
use std::alloc::Global;
use std::sync::Arc;

fn all_lie(schema: &Schema, rows: &Vec<Arc<Row>>) -> bool
    ensures { result ≡ list_all (row_lies schema.now) (rows_in rows.now.items) }
{
    each_lies(schema, rows.as_slice())
}

fn each_lies(schema: &Schema, rows: &[Arc<Row>]) -> bool
    ensures { result ≡ list_all (λ row. row_lies schema.now (arc_value row)) rows.now }
{
    rows.iter().all(|row| row.lies(schema))
}

fn rows_of(alloc: Global, schema: &Schema, conditions: &str) -> Option<Vec<Arc<Row>>> {
    let mut rows = Vec::new(alloc);
    for condition in conditions.split(';') {
        if condition != "-" {
            rows.push(row_of(alloc, schema, 0, condition.as_bytes())?)
                .ok()?;
        }
    }
    Some(rows)
}

// A digit each.
fn attributes(alloc: Global, digits: &str) -> Option<Vec<AttrNo>> {
    let mut attributes = Vec::new(alloc);
    for digit in digits.as_bytes() {
        let number = u16::from(digit.wrapping_sub(b'0'));
        attributes.push(AttrNo(number)).ok()?;
    }
    Some(attributes)
}

/// The attribute that is chosen where those before the first semicolon are used, among rows of the conditions after it.
pub fn pick(alloc: Global, schema: &Schema, text: &str) -> Option<Option<AttrNo>> {
    let (used, conditions) = text.split_once(';')?;
    let used = attributes(alloc, used)?;
    let rows = rows_of(alloc, schema, conditions)?;
    if !all_lie(schema, &rows) {
        return None;
    }
    Some(pick_attr(schema, &rows, used.as_slice(), 50))
}

/// What a row of the condition after it weighs at an attribute, where it has that.
pub fn weighed(alloc: Global, schema: &Schema, text: &str) -> Option<Option<i64>> {
    let (attr, condition) = text.split_once(' ')?;
    let attr = AttrNo(attr.parse().ok()?);
    let row = row_of(alloc, schema, 0, condition.as_bytes())?;
    if !row.lies(schema) {
        return None;
    }
    if row.conj.span(schema, attr).is_none() {
        return Some(None);
    }
    Some(Some(weight(schema, &row, attr)))
}

/// How many rows a leaf has into which those of the ids 3 and 1 were put, and which it has at its first two places.
pub fn leaf(alloc: Global, schema: &Schema) -> Option<(usize, u64, u64)> {
    let mut leaf = Leaf::make(alloc);
    leaf.put(row_of(alloc, schema, 3, b"all")?);
    leaf.put(row_of(alloc, schema, 1, b"all")?);
    Some((leaf.len(), leaf.row(0).id.0, leaf.row(1).id.0))
}
