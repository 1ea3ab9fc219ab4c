//! Of the steps that reshape a tree, what no clause says: that they are made where there is memory, on trees walked by hand.

use crate::looks::{cost, has_ids};
use crate::remove::put;
use crate::rows::{apply_step, schema_of_four, take_row};
use be_base::{AttrNo, Id};
use be_model::{Hop, Path, Row, Step, StepDone};
use std::alloc::Global;
use std::process::Abort;
use std::sync::Arc;
use std::test::Fail;
use worked_help::Grown;

const PRICE: AttrNo = AttrNo(0);

const QTY: AttrNo = AttrNo(1);

const SIDE: AttrNo = AttrNo(2);

#[derive(Clone, Copy)]
enum What {
    Part(AttrNo),
    Half(Hop),
    Merge,
    Shift(AttrNo, AttrNo, u64),
}

fn step_of(alloc: Global, hops: &[Hop], what: What) -> Result<Step, Fail> {
    let mut path = Path::make(alloc);
    for hop in hops {
        path.push(*hop)?;
    }
    Ok(match what {
        What::Part(attr) => Step::SplitPart { path, attr },
        What::Half(half) => Step::SplitHalf { path, half },
        What::Merge => Step::Merge { path },
        What::Shift(from, to, id) => Step::Shift {
            path,
            from,
            to,
            id: Id(id),
        },
    })
}

// Makes the steps one after another, each with its answer, and looks at the tree after each.
fn make_all(
    rt: &impl Abort,
    alloc: Global,
    grown: &mut Grown,
    rows: &[Arc<Row>],
    steps: &[(&[Hop], What, StepDone)],
) -> Result<(), Fail> {
    for number in 0..steps.len() {
        let (hops, what, done) = steps[number];
        let step = step_of(alloc, hops, what)?;
        assert_eq!(rt; apply_step(grown, &step), done, "step {number}");
        assert!(rt; has_ids(alloc, &grown.tree, rows)?, "step {number}");
    }
    Ok(())
}

fn put_all(
    rt: &impl Abort,
    alloc: Global,
    grown: &mut Grown,
    texts: &[&str],
) -> Result<Vec<Arc<Row>>, Fail> {
    let mut rows = Vec::new(alloc);
    for text in texts {
        rows.push(put(rt, alloc, grown, text)?)?;
    }
    Ok(rows)
}

#[test]
fn splits_and_merges_are_made_where_they_stand(rt: HostRuntime) -> Result<(), Fail> {
    let alloc = rt.alloc();
    let mut grown = Grown::make(alloc, schema_of_four(alloc)?);
    let cheap = "price = 5";
    let dear = "price = 900 and side = buy";
    let rows = put_all(
        &rt,
        alloc,
        &mut grown,
        &[cheap, dear, cheap, dear, cheap, dear, cheap, dear],
    )?;
    let price = Hop::Part(PRICE);
    let side = Hop::Part(SIDE);
    let steps: [(&[Hop], What, StepDone); 17] = [
        (&[], What::Half(Hop::Low), StepDone::NotHere),
        (&[], What::Half(price), StepDone::NotHere),
        (&[], What::Part(QTY), StepDone::NotHere),
        (&[side], What::Part(PRICE), StepDone::NotHere),
        (&[], What::Part(PRICE), StepDone::Done),
        (&[], What::Part(PRICE), StepDone::NotHere),
        (&[price], What::Part(PRICE), StepDone::NotHere),
        (&[price], What::Part(SIDE), StepDone::Done),
        (&[price], What::Half(Hop::Low), StepDone::Done),
        (&[price], What::Half(Hop::Low), StepDone::NotHere),
        (&[price], What::Half(Hop::High), StepDone::NotHere),
        (&[], What::Merge, StepDone::NotHere),
        (&[price], What::Merge, StepDone::NotHere),
        (&[price, side], What::Merge, StepDone::Done),
        (&[price, side], What::Merge, StepDone::NotHere),
        (&[price], What::Half(Hop::High), StepDone::Done),
        (&[price, Hop::Low], What::Merge, StepDone::Done),
    ];
    make_all(&rt, alloc, &mut grown, rows.as_slice(), &steps)?;
    assert_eq!(rt; cost(alloc, &grown.tree, &[(0, 5)])?, (2, 4));
    assert_eq!(rt; cost(alloc, &grown.tree, &[(0, 900)])?, (3, 8));
    Ok(())
}

#[test]
fn a_few_rows_left_of_seventeen_go_to_the_root(rt: HostRuntime) -> Result<(), Fail> {
    let alloc = rt.alloc();
    let mut grown = Grown::make(alloc, schema_of_four(alloc)?);
    let left = put_all(&rt, alloc, &mut grown, &["price = 5"; 3])?;
    let gone = put_all(&rt, alloc, &mut grown, &["price = 5"; 14])?;
    let price: &[Hop] = &[Hop::Part(PRICE)];
    let step = step_of(alloc, price, What::Merge)?;
    assert_eq!(rt; apply_step(&mut grown, &step), StepDone::NotHere);
    for row in gone.as_slice() {
        assert!(rt; take_row(&mut grown, row).is_some());
    }
    let few = [
        (price, What::Merge, StepDone::Done),
        (price, What::Merge, StepDone::NotHere),
    ];
    make_all(&rt, alloc, &mut grown, left.as_slice(), &few)?;
    assert_eq!(rt; cost(alloc, &grown.tree, &[(0, 5)])?, (1, 3));
    Ok(())
}

#[test]
fn a_row_of_another_part_stays(rt: HostRuntime) -> Result<(), Fail> {
    let alloc = rt.alloc();
    let mut grown = Grown::make(alloc, schema_of_four(alloc)?);
    let texts = ["price = 5 and side = buy", "side = sell"];
    let rows = put_all(&rt, alloc, &mut grown, &texts)?;
    let price: &[Hop] = &[Hop::Part(PRICE)];
    let steps = [
        (&[] as &[Hop], What::Part(PRICE), StepDone::Done),
        (&[], What::Part(SIDE), StepDone::Done),
        (price, What::Merge, StepDone::NotHere),
    ];
    make_all(&rt, alloc, &mut grown, rows.as_slice(), &steps)
}

#[test]
fn rows_are_shifted_once_each(rt: HostRuntime) -> Result<(), Fail> {
    let alloc = rt.alloc();
    let mut grown = Grown::make(alloc, schema_of_four(alloc)?);
    let both = "price = 5 and side = buy";
    let rows = put_all(
        &rt,
        alloc,
        &mut grown,
        &[both, both, "side = sell", "price = 7"],
    )?;
    let root: &[Hop] = &[];
    let steps = [
        (root, What::Part(PRICE), StepDone::Done),
        (root, What::Shift(PRICE, SIDE, 0), StepDone::NotHere),
        (root, What::Part(SIDE), StepDone::Done),
        (root, What::Shift(PRICE, PRICE, 0), StepDone::NotHere),
        (root, What::Shift(PRICE, SIDE, 2), StepDone::NotHere),
        (root, What::Shift(PRICE, SIDE, 3), StepDone::NotHere),
        (root, What::Shift(PRICE, SIDE, 0), StepDone::Done),
        (root, What::Shift(PRICE, SIDE, 0), StepDone::NotHere),
        (root, What::Shift(SIDE, PRICE, 0), StepDone::Done),
        (root, What::Shift(PRICE, SIDE, 0), StepDone::Done),
        (root, What::Shift(PRICE, SIDE, 1), StepDone::Done),
    ];
    make_all(&rt, alloc, &mut grown, rows.as_slice(), &steps)?;
    assert_eq!(rt; cost(alloc, &grown.tree, &[(0, 5)])?, (2, 1));
    assert_eq!(rt; cost(alloc, &grown.tree, &[(2, 0)])?, (2, 3));
    Ok(())
}

#[test]
fn the_last_row_of_a_part_leaves_no_part(rt: HostRuntime) -> Result<(), Fail> {
    let alloc = rt.alloc();
    let mut grown = Grown::make(alloc, schema_of_four(alloc)?);
    let texts = ["price = 5 and side = buy", "side = sell"];
    let rows = put_all(&rt, alloc, &mut grown, &texts)?;
    let root: &[Hop] = &[];
    let steps = [
        (root, What::Part(PRICE), StepDone::Done),
        (root, What::Part(SIDE), StepDone::Done),
        (root, What::Shift(PRICE, SIDE, 0), StepDone::Done),
        (root, What::Shift(SIDE, PRICE, 0), StepDone::NotHere),
    ];
    make_all(&rt, alloc, &mut grown, rows.as_slice(), &steps)?;
    assert_eq!(rt; cost(alloc, &grown.tree, &[(0, 5)])?, (1, 0));
    Ok(())
}
