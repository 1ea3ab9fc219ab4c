//! Of removal, what no clause says: which nodes are left, and rows of mixed conditions taken in mixed order beside a plain
//! list.

use crate::looks::{finds_as_list, has_ids};
use crate::rows::{row_of, schema_of_four, take_row};
use be_base::{AttrNo, Id, Name, SessionNo};
use be_expr::read_expr;
use be_model::{Conj, Event, Hop, Path, Row, Values};
use be_shape::Tree;
use std::alloc::Global;
use std::process::Abort;
use std::sync::Arc;
use std::test::Fail;
use worked_help::Grown;

const MIXED: [&str; 12] = [
    "price = 5",
    "price < 100 and side = buy",
    "side = sell",
    "qty = 0 and price >= 900",
    "price >= 250 and price <= 260",
    "one = 7",
    "qty in {1, 2} and one = 7 and side != hold",
    "price != 5",
    "side = hold and qty < 0",
    "price in {10, 20, 990}",
    "qty >= 4 and side in {buy, sell}",
    "price = 700 and qty = 3 and side = buy and one = 7",
];

fn conj_of(rt: &impl Abort, alloc: Global, tree: &Tree, text: &str) -> Result<Conj, Fail> {
    match read_expr(alloc, &tree.schema, text.as_bytes()) {
        Ok(conj) => Ok(conj),
        Err(_) => panic!(rt; "{text}"),
    }
}

/// Puts a row of this condition, and gives it back too.
pub(crate) fn put(
    rt: &impl Abort,
    alloc: Global,
    grown: &mut Grown,
    text: &str,
) -> Result<Arc<Row>, Fail> {
    let conj = conj_of(rt, alloc, &grown.tree, text)?;
    let row = row_of(alloc, grown.next, conj)?;
    assert!(rt; grown.put(Arc::try_clone(&row)?), "{text}");
    Ok(row)
}

// Takes the row, which is there, and then isn't.
fn take_once(rt: &impl Abort, grown: &mut Grown, row: &Row) {
    let before = grown.tree.len();
    match take_row(grown, row) {
        Some(taken) => assert_eq!(rt; taken.id.0, row.id.0),
        None => panic!(rt; "{} isn't there", row.id.0),
    }
    assert_eq!(rt; grown.tree.len().checked_add(1), Some(before));
    assert!(rt;
        take_row(grown, row).is_none(),
        "{} is there twice",
        row.id.0
    );
}

fn is_there(tree: &Tree, path: &Path) -> bool {
    tree.at(path).is_some()
}

#[test]
fn rows_of_one_price_leave_no_node_behind(rt: HostRuntime) -> Result<(), Fail> {
    let alloc = rt.alloc();
    let mut grown = Grown::make(alloc, schema_of_four(alloc)?);
    let mut rows = Vec::new(alloc);
    for _ in 0..17 {
        rows.push(put(&rt, alloc, &mut grown, "price = 5")?)?;
    }
    let mut path = Path::make(alloc);
    path.push(Hop::Part(AttrNo(0)))?;
    for _ in 0..7 {
        path.push(Hop::Low)?;
    }
    assert!(rt; is_there(&grown.tree, &path));
    for place in 0..17 {
        // Every row is taken once: 7 and 17 have no common divisor.
        let place = place * 7 % 17;
        if let Some(row) = rows.get(place) {
            take_once(&rt, &mut grown, row);
        }
    }
    assert_eq!(rt;
        (grown.tree.len(), is_there(&grown.tree, &path)),
        (0, false)
    );
    assert_eq!(rt;
        (grown.tree.root.parts.len(), grown.tree.root.leaf.len()),
        (0, 0)
    );
    Ok(())
}

// What the tree shows of its shape: its rows, the parts and the rows of its root, and whether a node stands there.
fn shape_of(tree: &Tree, path: &Path) -> (u64, usize, usize, bool) {
    (
        tree.len(),
        tree.root.parts.len(),
        tree.root.leaf.len(),
        is_there(tree, path),
    )
}

#[test]
fn a_tree_that_is_cleared_grows_as_a_new_one(rt: HostRuntime) -> Result<(), Fail> {
    let alloc = rt.alloc();
    let mut grown = Grown::make(alloc, schema_of_four(alloc)?);
    let mut path = Path::make(alloc);
    path.push(Hop::Part(AttrNo(0)))?;
    path.push(Hop::Low)?;
    for _ in 0..3 {
        for number in 0..400usize {
            let _ = put(&rt, alloc, &mut grown, MIXED[number % 12])?;
        }
        // Each condition tests the price, the side or `one`, so that no part by quantity is made.
        assert_eq!(rt; shape_of(&grown.tree, &path), (400, 3, 0, true));
        grown.clear();
        assert_eq!(rt; shape_of(&grown.tree, &path), (0, 0, 0, false));
    }
    Ok(())
}

#[test]
fn a_row_that_differs_is_not_taken(rt: HostRuntime) -> Result<(), Fail> {
    let alloc = rt.alloc();
    let mut grown = Grown::make(alloc, schema_of_four(alloc)?);
    let _ = put(&rt, alloc, &mut grown, "price = 5")?;
    let _ = put(&rt, alloc, &mut grown, "price = 5")?;
    for (id, session, name, text) in [
        (0, 1, "a", "price = 6"),
        (0, 2, "a", "price = 5"),
        (0, 1, "b", "price = 5"),
        (2, 1, "a", "price = 5"),
        (0, 1, "a", "side = buy"),
    ] {
        let other = Row {
            id: Id(id),
            session: SessionNo(session),
            name: Name::read(name.as_bytes())?,
            conj: conj_of(&rt, alloc, &grown.tree, text)?,
        };
        assert!(rt;
            take_row(&mut grown, &other).is_none(),
            "{id} {session} {name} {text}"
        );
    }
    assert_eq!(rt; grown.tree.len(), 2);
    Ok(())
}

#[test]
fn four_hundred_rows_are_taken_in_mixed_order(rt: HostRuntime) -> Result<(), Fail> {
    let alloc = rt.alloc();
    let mut grown = Grown::make(alloc, schema_of_four(alloc)?);
    let mut rows = Vec::new(alloc);
    for number in 0..400usize {
        rows.push(put(&rt, alloc, &mut grown, MIXED[number % 12])?)?;
    }
    let mut event = Event::make(alloc);
    for (attr, value) in [(0, 5), (1, 0), (2, 0), (3, 7)] {
        if event.accepts(AttrNo(attr)) {
            event.push((AttrNo(attr), Values::one(alloc, value)?))?;
        }
    }
    for number in 0..400usize {
        // The rows that are left are in order, so that this one is in their midst.
        let place = number * 149 % rows.len().max(1);
        if place < rows.len() {
            let row = rows.remove(place);
            take_once(&rt, &mut grown, &row);
        }
        if number % 50 == 49 {
            assert!(rt;
                has_ids(alloc, &grown.tree, rows.as_slice())?,
                "at {number}"
            );
            assert!(rt;
                finds_as_list(alloc, &grown.tree, rows.as_slice(), &event)?,
                "at {number}"
            );
        }
    }
    assert_eq!(rt; (grown.tree.len(), grown.tree.root.parts.len()), (0, 0));
    Ok(())
}
