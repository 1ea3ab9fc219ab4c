//! Of the plain index, through its trait: that the calls succeed where there is memory, and what was counted by hand.

ghost use Rattle.std.specs.Prelude.{◌≡◌, ◌+◌, ◌<◌, [], true, OnOk};
ghost use Rattle.std.specs.Arc.{arc_value};
ghost use Rattle.be_base.specs.declared.limits.TheConstants.{LOG_CHANGES};
ghost use Rattle.be_model.specs.ByIds.{AllBelow};
ghost use Rattle.be_model.specs.Lies.{event_lies};
ghost use Rattle.be_model.specs.Rows.{id_of};

use crate::parts::{ids, price, prices, row};
use be_base::{NoMemory, SessionNo};
use be_index::{Index, ListIndex};
use be_model::{Cost, Event, Found, Path, Row, Schema, Step, StepDone};
use std::alloc::Global;
use std::process::Abort;
use std::sync::Arc;
use std::test::Fail;

// Puts a row whose id all ids are below.
fn put<I: Index>(index: &mut I, row: Arc<Row>) -> Result<(), NoMemory>
    requires low { id_of (arc_value row) < LOG_CHANGES }
    requires below { AllBelow (id_of (arc_value row)) (I.rows index.old) }
    ensures schema { I.schema index.new ≡ I.schema index.old }
    ensures below { OnOk result (AllBelow (id_of (arc_value row) + 1) (I.rows index.new)) }
{
    if !index.lies(&row) {
        return Err(NoMemory);
    }
    match index.insert(row) {
        Ok(()) => Ok(()),
        Err((_, no_memory)) => Err(no_memory),
    }
}

// The ids of the rows that the event finds, with the cost of the search, and that of a search that isn't made.
fn found_by<I: Index>(
    alloc: Global,
    index: &I,
    event: &Event,
) -> Result<(Vec<u64>, Cost, Cost), Fail>
    requires { event_lies (I.schema index.now) event.now ≡ true }
{
    let mut found = Found::make(alloc);
    let cost = index.find(event, &mut found)?;
    Ok((ids(alloc, found)?, cost, index.cost(event)))
}

fn of_session<I: Index>(alloc: Global, index: &I, session: u64) -> Result<Vec<u64>, Fail> {
    let mut found = Found::make(alloc);
    index.rows_of(SessionNo(session), &mut found)?;
    ids(alloc, found)
}

fn all_of<I: Index>(alloc: Global, index: &I) -> Result<Vec<u64>, Fail> {
    let mut found = Found::make(alloc);
    index.all(&mut found)?;
    ids(alloc, found)
}

// Puts rows 0 and 2 of session 1, and row 1 of session 2.
fn fill<I: Index>(alloc: Global, index: &mut I) -> Result<(), Fail>
    requires { I.rows index.old ≡ [] }
    ensures { I.schema index.new ≡ I.schema index.old }
{
    put(index, row(alloc, 0, 1, "a", Some(3))?)?;
    put(index, row(alloc, 1, 2, "b", Some(10))?)?;
    put(index, row(alloc, 2, 1, "c", None)?)?;
    Ok(())
}

// Looks for the three rows, by events and by sessions.
fn look<I: Index>(rt: &impl Abort, alloc: Global, index: &I, schema: &Schema) -> Result<(), Fail>
    requires { I.schema index.now ≡ schema.now }
{
    assert_eq!(rt; index.len(), 3);
    for (at, want) in [(7, [0, 2].as_slice()), (10, [0, 1, 2].as_slice())] {
        let event = price(alloc, at)?;
        if event.lies(schema) {
            let (found, cost, alone) = found_by(alloc, index, &event)?;
            assert!(rt; found.as_slice() == want, "at {at}");
            assert!(rt;
                cost == alone && cost.tested >= want.len() as u64,
                "at {at}"
            );
        }
    }
    for (session, want) in [
        (1, [0, 2].as_slice()),
        (2, [1].as_slice()),
        (3, [].as_slice()),
    ] {
        let found = of_session(alloc, index, session)?;
        assert!(rt; found.as_slice() == want, "of {session}");
    }
    Ok(())
}

// Takes row 1 out, and not another row of its id.
fn take_out<I: Index>(rt: &impl Abort, alloc: Global, index: &mut I) -> Result<(), Fail>
    ensures { I.schema index.new ≡ I.schema index.old }
{
    let second = row(alloc, 1, 2, "b", Some(10))?;
    let other = row(alloc, 1, 2, "b", Some(11))?;
    assert!(rt; !index.remove(&other));
    assert!(rt; index.remove(&second));
    assert!(rt; !index.remove(&second));
    assert_eq!(rt; index.len(), 2);
    assert!(rt; all_of(alloc, index)?.as_slice() == [0, 2].as_slice());
    Ok(())
}

#[test]
fn the_plain_index_is_an_index(rt: HostRuntime) -> Result<(), Fail> {
    let alloc = rt.alloc();
    let schema = prices(alloc)?;
    let mut index = ListIndex::make(alloc, Arc::try_clone(&schema)?);
    fill(alloc, &mut index)?;
    look(&rt, alloc, &index, &schema)?;
    take_out(&rt, alloc, &mut index)?;
    // Of the rows that are left, row 2 has no attribute.
    let (found, cost, _) = found_by(alloc, &index, &Event::make(alloc))?;
    assert!(rt; found.as_slice() == [2].as_slice());
    let want = Cost {
        visits: 1,
        tested: 1,
    };
    assert_eq!(rt; cost, want);
    let outside = row(alloc, 3, 1, "d", Some(1001))?;
    assert!(rt; !index.lies(&outside));
    let merge = Step::Merge {
        path: Path::make(alloc),
    };
    assert_eq!(rt; index.step(&merge), StepDone::NotHere);
    assert!(rt; index.plan()?.is_none());
    Ok(())
}
