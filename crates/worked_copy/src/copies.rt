//! Of the copy: that the calls succeed where there is memory, and each kind of edit.

use crate::parts::{ids, price, prices, row};
use be_base::{Name, SessionNo};
use be_copy::{Copy2, Edit};
use be_index::{Index, ListIndex};
use be_model::{Change, Found, Hop, Path, Row, Step, StepDone};
use std::alloc::Global;
use std::sync::Arc;
use std::test::Fail;

fn sub(alloc: Global, row: Arc<Row>) -> Result<Edit, Fail> {
    let change = Change::Sub {
        session: row.session,
        serial: 0,
        row,
    };
    Ok(Edit::Change(Arc::new(alloc, change)?))
}

fn unsub(alloc: Global, session: u64, name: &str) -> Result<Edit, Fail> {
    let name = Name::read(name.as_bytes())?;
    let change = Change::removal(alloc, SessionNo(session), 0, name)?;
    Ok(Edit::Change(Arc::new(alloc, change)?))
}

fn bye(alloc: Global, session: u64) -> Result<Edit, Fail> {
    let change = Change::Bye {
        session: SessionNo(session),
        serial: 0,
    };
    Ok(Edit::Change(Arc::new(alloc, change)?))
}

// The ids of the live rows.
fn live<I: Index>(alloc: Global, copy: &Copy2<I>) -> Result<Vec<u64>, Fail> {
    let mut found = Found::make(alloc);
    copy.index().all(&mut found)?;
    ids(alloc, found)
}

// The id of the live row of a name.
fn named<I: Index>(copy: &Copy2<I>, name: &str) -> Result<Option<u64>, Fail> {
    let name = Name::read(name.as_bytes())?;
    Ok(copy.named(&name).map(|row| row.id.0))
}

// A copy of nothing.
fn empty(alloc: Global) -> Result<Copy2<ListIndex>, Fail> {
    Ok(Copy2::make(alloc, ListIndex::make(alloc, prices(alloc)?)))
}

// Makes the edits in order, and compares the answer, the length of the list and the live rows after each.
#[test]
fn each_kind_of_edit_is_absorbed(rt: HostRuntime) -> Result<(), Fail> {
    let alloc = rt.alloc();
    let mut copy = empty(alloc)?;
    let done = StepDone::Done;
    let merge = Step::Merge {
        path: Path::make(alloc),
    };
    // Rows 1 and 2 share a name, which a well formed list doesn't have.
    let edits = [
        (
            sub(alloc, row(alloc, 0, 1, "a", Some(3))?)?,
            done,
            1,
            [0].as_slice(),
        ),
        (
            sub(alloc, row(alloc, 0, 1, "b", None)?)?,
            StepDone::NotHere,
            1,
            [0].as_slice(),
        ),
        (
            sub(alloc, row(alloc, 1, 1, "b", Some(1001))?)?,
            StepDone::NotHere,
            1,
            [0].as_slice(),
        ),
        (
            sub(alloc, row(alloc, 1, 2, "b", None)?)?,
            done,
            2,
            [0, 1].as_slice(),
        ),
        (
            sub(alloc, row(alloc, 2, 1, "b", None)?)?,
            done,
            3,
            [0, 1, 2].as_slice(),
        ),
        (unsub(alloc, 2, "a")?, done, 4, [0, 1, 2].as_slice()),
        (unsub(alloc, 2, "b")?, done, 5, [0, 2].as_slice()),
        (
            Edit::Reshape(merge),
            StepDone::NotHere,
            5,
            [0, 2].as_slice(),
        ),
        (bye(alloc, 3)?, done, 6, [0, 2].as_slice()),
        (bye(alloc, 1)?, done, 7, [].as_slice()),
    ];
    for (place, (edit, answer, len, ids)) in edits.iter().enumerate() {
        assert_eq!(rt; copy.absorb(edit)?, *answer, "at {place}");
        assert_eq!(rt; copy.log().len(), *len, "at {place}");
        assert!(rt; live(alloc, &copy)?.as_slice() == *ids, "at {place}");
    }
    Ok(())
}

#[test]
fn a_live_name_is_found(rt: HostRuntime) -> Result<(), Fail> {
    let alloc = rt.alloc();
    let mut copy = empty(alloc)?;
    for (id, session, name) in [(0, 1, "a"), (1, 2, "b"), (2, 1, "c")] {
        let edit = sub(alloc, row(alloc, id, session, name, None)?)?;
        assert_eq!(rt; copy.absorb(&edit)?, StepDone::Done);
    }
    assert_eq!(rt; copy.absorb(&unsub(alloc, 1, "a")?)?, StepDone::Done);
    for (name, want) in [("a", None), ("b", Some(1)), ("c", Some(2)), ("d", None)] {
        assert_eq!(rt; named(&copy, name)?, want, "{name}");
    }
    Ok(())
}
