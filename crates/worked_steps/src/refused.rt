//! Insertion where memory is refused. With ample memory nothing is; with one allocation that fails
//! (`rt try --test --fail-alloc N`) the row comes back, the tree keeps its contents and its form, and the row finds its place
//! at the next try. `bench/refused.sh` makes each allocation fail in turn.
//! All that the test needs of its own is made before the first row is placed; where that is refused, it says so and tests
//! nothing.

use crate::looks::has_ids;
use be_base::{AttrNo, Id, Name, SessionNo};
use be_model::{Conj, Domain, Op, Pred, Row, Schema};
use std::alloc::Global;
use std::sync::Arc;
use worked_help::Grown;

const ROWS: u64 = 60;

// A row of each of these in turn: two go down one path, and one into another part.
const WANTED: [(u16, i64); 3] = [(0, 5), (0, 5), (1, 0)];

// The schema `int price 0 1000`, `int qty -5 5`.
fn schema(alloc: Global) -> Option<Arc<Schema>> {
    let mut schema = Schema::make(alloc);
    for (word, lo, hi) in [("price", 0, 1000), ("qty", -5, 5)] {
        let name = Name::read(word.as_bytes()).ok()?;
        let domain = Domain::Int { lo, hi };
        if schema.accepts(&name, &domain) {
            schema.push((name, domain)).ok()?;
        }
    }
    Arc::new(alloc, schema).ok()
}

fn row(alloc: Global, id: u64) -> Option<Arc<Row>> {
    let (attr, value) = WANTED[(id % 3) as usize];
    let mut conj = Conj::make(alloc);
    conj.push(Pred {
        attr: AttrNo(attr),
        op: Op::Eq(value),
    })
    .ok()?;
    let row = Row {
        id: Id(id),
        session: SessionNo(1),
        name: Name::read(b"a").ok()?,
        conj,
    };
    Arc::new(alloc, row).ok()
}

fn rows(alloc: Global) -> Option<Vec<Arc<Row>>> {
    let mut rows = Vec::new(alloc);
    for id in 0..ROWS {
        rows.push(row(alloc, id)?).ok()?;
    }
    Some(rows)
}

/// What a run of the test came to.
#[derive(Clone, Copy, Debug, PartialEq, Eq)]
pub(crate) enum Outcome {
    /// Memory of its own was refused, so nothing was tested.
    Untested,
    /// No row came back.
    AllPlaced,
    /// The row of this id came back; the tree had these rows and its form then, and after a second try the row too.
    CameBack(u64),
    Wrong,
}

// Whether the tree has the first rows, as many, and its form. It is wrong, too, where memory is refused to the look.
fn has_first(alloc: Global, grown: &Grown, rows: &[Arc<Row>], count: usize) -> bool {
    match rows.get(..count) {
        Some(rows) => has_ids(alloc, &grown.tree, rows).unwrap_or(false),
        None => false,
    }
}

// Looks at the tree after this row came back, and tries it again.
fn try_again(alloc: Global, grown: &mut Grown, rows: &[Arc<Row>], row: Arc<Row>) -> bool {
    let id = row.id.0;
    let count = id as usize;
    let Some(after) = count.checked_add(1) else {
        return false;
    };
    id == grown.next
        && has_first(alloc, grown, rows, count)
        && grown.try_put(row).is_ok()
        && has_first(alloc, grown, rows, after)
}

// Places the rows, one of which may come back once.
fn place_all(alloc: Global, grown: &mut Grown, rows: &[Arc<Row>]) -> Outcome {
    let mut outcome = Outcome::AllPlaced;
    for row in rows {
        let Ok(row) = Arc::try_clone(row) else {
            return Outcome::Wrong;
        };
        let id = row.id.0;
        if let Err(row) = grown.try_put(row) {
            if outcome != Outcome::AllPlaced
                || row.id.0 != id
                || !try_again(alloc, grown, rows, row)
            {
                return Outcome::Wrong;
            }
            outcome = Outcome::CameBack(id);
        }
    }
    outcome
}

/// Places rows that were made before. A look at all of them at the end needs memory too.
pub(crate) fn ran(alloc: Global) -> Outcome {
    let (Some(schema), Some(rows)) = (schema(alloc), rows(alloc)) else {
        return Outcome::Untested;
    };
    let mut grown = Grown::make(alloc, schema);
    let outcome = place_all(alloc, &mut grown, rows.as_slice());
    match has_ids(alloc, &grown.tree, rows.as_slice()) {
        Ok(true) => outcome,
        Ok(false) => Outcome::Wrong,
        Err(_) if outcome == Outcome::AllPlaced => Outcome::Untested,
        Err(_) => Outcome::Wrong,
    }
}

#[test]
fn refused_rows_come_back(rt: HostRuntime) {
    let outcome = ran(rt.alloc());
    let _ = rt.println(format_args!("{outcome:?}"));
    assert!(rt; outcome != Outcome::Wrong);
}
