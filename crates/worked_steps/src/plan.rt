//! Of the plan, what no clause says: that it answers where there is memory, and trees whose plan was worked out by hand.

use crate::rows::{row_of, schema_of_two};
use be_base::AttrNo;
use be_model::{Conj, Hop, Op, Pred, Step};
use be_plan::plan;
use std::alloc::Global;
use std::test::Fail;
use worked_help::Grown;

// Puts so many rows of these ranges, of prices and of quantities, into the tree, and says whether all stand there.
fn put_rows(
    alloc: Global,
    grown: &mut Grown,
    count: usize,
    ranges: &[(u16, i64, i64)],
) -> Result<bool, Fail> {
    for _ in 0..count {
        let mut conj = Conj::make(alloc);
        for (attr, lo, hi) in ranges {
            if !conj.is_full() {
                conj.push(Pred {
                    attr: AttrNo(*attr),
                    op: Op::Between(*lo, *hi),
                })?;
            }
        }
        if !grown.put(row_of(alloc, grown.next, conj)?) {
            return Ok(false);
        }
    }
    Ok(true)
}

// A step as its kind, the length of its path, its attributes and its id.
fn told(step: &Option<Step>) -> (u8, usize, u16, u16, u64) {
    match step {
        None => (0, 0, 0, 0, 0),
        Some(Step::Merge { path }) => (1, path.hops().len(), 0, 0, 0),
        Some(Step::Shift { path, from, to, id }) => (2, path.hops().len(), from.0, to.0, id.0),
        Some(Step::SplitPart { path, attr }) => (3, path.hops().len(), attr.0, 0, 0),
        Some(Step::SplitHalf { path, half }) => match half {
            Hop::High => (4, path.hops().len(), 1, 0, 0),
            _ => (4, path.hops().len(), 0, 0, 0),
        },
    }
}

#[test]
fn rows_of_one_price_have_the_plans_that_were_worked_out(rt: HostRuntime) -> Result<(), Fail> {
    let alloc = rt.alloc();
    let mut grown = Grown::make(alloc, schema_of_two(alloc)?);
    assert_eq!(rt; told(&plan(&grown.tree)?), (0, 0, 0, 0, 0), "no row");
    assert!(rt; put_rows(alloc, &mut grown, 7, &[(0, 5, 5)])?);
    assert_eq!(rt;
        told(&plan(&grown.tree)?),
        (0, 0, 0, 0, 0),
        "fewer than 8 have it"
    );
    assert!(rt; put_rows(alloc, &mut grown, 1, &[(0, 5, 5)])?);
    assert_eq!(rt;
        told(&plan(&grown.tree)?),
        (3, 0, 0, 0, 0),
        "a part of the price"
    );
    assert!(rt; put_rows(alloc, &mut grown, 9, &[(0, 5, 5)])?);
    assert_eq!(rt;
        told(&plan(&grown.tree)?),
        (0, 0, 0, 0, 0),
        "17 rows in the range of that price"
    );
    assert!(rt; put_rows(alloc, &mut grown, 1, &[(0, 900, 900)])?);
    assert_eq!(rt;
        told(&plan(&grown.tree)?),
        (0, 0, 0, 0, 0),
        "one row in the part's leaf"
    );
    Ok(())
}

#[test]
fn few_rows_of_a_part_are_merged_where_the_leaf_has_room(rt: HostRuntime) -> Result<(), Fail> {
    let alloc = rt.alloc();
    let mut grown = Grown::make(alloc, schema_of_two(alloc)?);
    assert!(rt; put_rows(alloc, &mut grown, 13, &[])?);
    assert!(rt; put_rows(alloc, &mut grown, 2, &[(0, 0, 1000)])?);
    assert!(rt; put_rows(alloc, &mut grown, 2, &[(1, 0, 0)])?);
    // The quantity scores higher, since the prices narrow nothing: 15 rows are left in the leaf.
    assert_eq!(rt; told(&plan(&grown.tree)?), (0, 0, 0, 0, 0));
    assert!(rt; put_rows(alloc, &mut grown, 2, &[(0, 0, 1000)])?);
    // The 4 prices have a part now; 13 rows are left, and 2 more have room.
    assert_eq!(rt; told(&plan(&grown.tree)?), (1, 1, 0, 0, 0));
    Ok(())
}

#[test]
fn a_row_that_gains_moves_to_another_part(rt: HostRuntime) -> Result<(), Fail> {
    let alloc = rt.alloc();
    let mut grown = Grown::make(alloc, schema_of_two(alloc)?);
    assert!(rt; put_rows(alloc, &mut grown, 3, &[(0, 0, 1000)])?);
    assert!(rt; put_rows(alloc, &mut grown, 1, &[(0, 0, 1000), (1, 0, 0)])?);
    assert!(rt; put_rows(alloc, &mut grown, 13, &[(0, 0, 1000)])?);
    assert_eq!(rt;
        told(&plan(&grown.tree)?),
        (0, 0, 0, 0, 0),
        "there is one part"
    );
    assert!(rt; put_rows(alloc, &mut grown, 17, &[(1, 0, 0)])?);
    // Row 3 weighs 0 on the price and 910 on the quantity.
    assert_eq!(rt; told(&plan(&grown.tree)?), (2, 0, 0, 1, 3));
    Ok(())
}

#[test]
fn a_half_is_made_early_by_node_and_then_by_half(rt: HostRuntime) -> Result<(), Fail> {
    let alloc = rt.alloc();
    let mut grown = Grown::make(alloc, schema_of_two(alloc)?);
    assert!(rt; put_rows(alloc, &mut grown, 5, &[(0, 0, 1000)])?);
    assert!(rt; put_rows(alloc, &mut grown, 12, &[(0, 5, 5)])?);
    assert!(rt; put_rows(alloc, &mut grown, 7, &[(0, 900, 900)])?);
    // The part's high half would have 7 rows; the low half of the low half has 12.
    assert_eq!(rt; told(&plan(&grown.tree)?), (4, 2, 0, 0, 0));
    assert!(rt; put_rows(alloc, &mut grown, 1, &[(0, 900, 900)])?);
    assert_eq!(rt; told(&plan(&grown.tree)?), (4, 1, 1, 0, 0));
    Ok(())
}
