//! One thread, which writes and reads.

ghost use Rattle.std.specs.Prelude.{◌≡◌, ◌<◌, [], IfSome, true};
ghost use Rattle.std.specs.Arc.{arc_value};
ghost use Rattle.std.specs.List.{list_all};
ghost use Rattle.be_model.specs.Lies.{row_lies};
ghost use Rattle.be_model.specs.Schemas.{Attributes};
ghost use Rattle.be_change.specs.Opening.{IsTable};
ghost use Rattle.be_index.specs.Rows.{plain_index};

use crate::changes::{add, next_change};
use be_base::{Id, Name, SessionNo};
use be_copy::Copy2;
use be_index::ListIndex;
use be_model::{Change, Conj, Event, Found, Row, Schema};
use be_published::{Glass, Naming, Opened, Page, Press, Sheet, make_pair, open_pair};
use std::alloc::Global;
use std::marker::Brand;
use std::sync::{Arc, Wait};

// Whether the rows are one row, of this id and of the name a.
fn is_row(found: &Found, id: u64) -> bool {
    match found.rows().first() {
        Some(row) => found.len() == 1 && row.id.0 == id && row.name.bytes() == b"a".as_slice(),
        None => false,
    }
}

// Whether the glass reads one change, that of session 1, in each of its reads.
fn reads_one<T: Sheet<J>, J: Naming>(alloc: Global, glass: &mut Glass<T, J>) -> Option<bool> {
    let mut found = Found::make(alloc);
    let event = Event::make(alloc);
    let (n, cost) = glass.find(&event, &mut found).ok()?;
    let finds = n == 1 && is_row(&found, 0) && cost.visits == 1;
    let lists = glass.all(&mut found).ok()? == 1 && is_row(&found, 0);
    let owns = glass.mine(SessionNo(1), &mut found).ok()? == 1 && is_row(&found, 0);
    let others = glass.mine(SessionNo(2), &mut found).ok()? == 1 && found.is_empty();
    let costs = glass.cost(&event).ok()?.0 == 1;
    let mut changes = Vec::new(alloc);
    let tails = glass.tail(0, 5, &mut changes).ok()? == 1 && is_sub(changes.as_slice());
    let plans = glass.plan().ok()?.is_none();
    Some(finds && lists && owns && others && costs && tails && plans && glass.front() == 1)
}

fn is_sub(changes: &[Arc<Change>]) -> bool {
    match changes.first() {
        Some(change) => changes.len() == 1 && is_subscription(change),
        None => false,
    }
}

fn is_subscription(change: &Change) -> bool {
    match change {
        Change::Sub { .. } => true,
        Change::Unsub { .. } => false,
        Change::Bye { .. } => false,
    }
}

// The press publishes one change. The second glass is told nothing.
fn publish_one<T: Sheet<J>, J: Naming, R: Wait>(
    rt: &R,
    alloc: Global,
    press: &mut Press<T, J>,
    copy: &mut Copy2<ListIndex>,
    mut glasses: Vec<Glass<T, J>>,
) -> Option<bool>
    requires same { press.old.list ≡ copy.old.list }
    requires schema { copy.old.index.schema ≡ J.schema }
{
    add(press, copy, next_change(alloc, 0)?).ok()?;
    let published = press.publish(rt).ok()?;
    let second = reads_one(alloc, glasses.get_mut(1)?)?;
    Some(published == 1 && second)
}

// A change is pending: no glass sees it, nor does one that is told.
fn hold_one<T: Sheet<J>, J: Naming>(
    alloc: Global,
    press: &mut Press<T, J>,
    copy: &mut Copy2<ListIndex>,
    mut glasses: Vec<Glass<T, J>>,
) -> Option<bool>
    requires same { press.old.list ≡ copy.old.list }
    requires schema { copy.old.index.schema ≡ J.schema }
{
    add(press, copy, next_change(alloc, 0)?).ok()?;
    let glass = glasses.get_mut(0)?;
    glass.learn(press.tell());
    let mut found = Found::make(alloc);
    let n = glass.all(&mut found).ok()?;
    Some(
        press.len() == 0
            && n == 0
            && found.is_empty()
            && glass.front() == 0
            && glass.shade().is_none(),
    )
}

fn index(alloc: Global, schema: &Arc<Schema>) -> Option<ListIndex>
    ensures { IfSome result (λ index. index ≡ plain_index (arc_value schema.now) []) }
{
    Some(ListIndex::make(alloc, Arc::try_clone(schema).ok()?))
}

/// A copy of no changes.
pub fn copy(alloc: Global, schema: &Arc<Schema>) -> Option<Copy2<ListIndex>>
    ensures list { IfSome result (λ copy. copy.list ≡ []) }
    ensures schema { IfSome result (λ copy. copy.index.schema ≡ arc_value schema.now) }
{
    Some(Copy2::make(alloc, index(alloc, schema)?))
}

/// A press over two plain indexes, and so many glasses.
pub fn pair<J: Naming, R: Wait>(
    rt: &R,
    alloc: Global,
    opened: Opened,
    schema: &Arc<Schema>,
    readers: u32,
) -> Option<
    (
        Press<Page<ListIndex, J>, J>,
        Vec<Glass<Page<ListIndex, J>, J>>,
    ),
>
    requires named { opened.seen.book ≡ J.book }
    requires schema { arc_value schema.now ≡ J.schema }
    requires readers { 0 < readers }
    ensures { IfSome result (λ pair. pair.0.list ≡ []) }
{
    let (first, second) = (index(alloc, schema)?, index(alloc, schema)?);
    make_pair(rt, alloc, opened, first, second, readers).ok()
}

fn untold<J: Naming, R: Wait>(
    rt: &R,
    alloc: Global,
    opened: Opened,
    schema: &Arc<Schema>,
) -> Option<bool>
    requires named { opened.seen.book ≡ J.book }
    requires schema { arc_value schema.now ≡ J.schema }
{
    let mut copy = copy(alloc, schema)?;
    let (mut press, glasses) = pair::<J, R>(rt, alloc, opened, schema, 2)?;
    let done = publish_one(rt, alloc, &mut press, &mut copy, glasses);
    press.end(rt);
    done
}

fn pending<J: Naming, R: Wait>(
    rt: &R,
    alloc: Global,
    opened: Opened,
    schema: &Arc<Schema>,
) -> Option<bool>
    requires named { opened.seen.book ≡ J.book }
    requires schema { arc_value schema.now ≡ J.schema }
{
    let mut copy = copy(alloc, schema)?;
    let (mut press, glasses) = pair::<J, R>(rt, alloc, opened, schema, 1)?;
    let done = hold_one(alloc, &mut press, &mut copy, glasses);
    press.end(rt);
    done
}

// One row of nobody's.
fn table(alloc: Global) -> Option<Vec<Row>>
    ensures table { IfSome result (λ rows. IsTable rows.items) }
    ensures lie { IfSome result (λ rows. (s : Attributes) → list_all (row_lies s) rows.items ≡ true) }
{
    let row = Row {
        id: Id(0),
        session: SessionNo(0),
        name: Name::read(b"a").ok()?,
        conj: Conj::make(alloc),
    };
    let mut rows = Vec::new(alloc);
    rows.push(row).ok()?;
    Some(rows)
}

// The glass knows the opening before it reads, and each read finds its row.
fn reads_opening<T: Sheet<J>, J: Naming>(
    alloc: Global,
    press: &Press<T, J>,
    mut glasses: Vec<Glass<T, J>>,
) -> Option<bool> {
    let glass = glasses.get_mut(0)?;
    let known = glass.front() == 1 && press.len() == 1;
    let mut found = Found::make(alloc);
    let lists = glass.all(&mut found).ok()? == 1 && is_row(&found, 0);
    let owns = glass.mine(SessionNo(1), &mut found).ok()? == 1 && found.is_empty();
    Some(known && lists && owns)
}

fn opening<J: Naming, R: Wait>(
    rt: &R,
    alloc: Global,
    opened: Opened,
    schema: &Arc<Schema>,
) -> Option<bool>
    requires named { opened.seen.book ≡ J.book }
    requires schema { arc_value schema.now ≡ J.schema }
{
    let (first, second) = (index(alloc, schema)?, index(alloc, schema)?);
    let rows = table(alloc)?;
    let (press, glasses) = open_pair::<ListIndex, J, R>(
        rt, alloc, opened, first, second, rows, 1,
    ).ok()?;
    let done = reads_opening(alloc, &press, glasses);
    press.end(rt);
    done
}

pub fn untold_glass_reads<R: Wait>(rt: &R, alloc: Global, schema: &Arc<Schema>) -> Option<bool> {
    untold::<Brand, R>(rt, alloc, Opened::new(), schema)
}

pub fn pending_is_unseen<R: Wait>(rt: &R, alloc: Global, schema: &Arc<Schema>) -> Option<bool> {
    pending::<Brand, R>(rt, alloc, Opened::new(), schema)
}

pub fn opening_is_known<R: Wait>(rt: &R, alloc: Global, schema: &Arc<Schema>) -> Option<bool> {
    opening::<Brand, R>(rt, alloc, Opened::new(), schema)
}
