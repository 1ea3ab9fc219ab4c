//! The two copies, their writer and its readers.

ghost use Rattle.std.specs.Prelude.{◌≡◌, ◌<◌, ◌++◌, ◌∷◌, [], true, length, All, OnOk, IfOk};
ghost use Rattle.std.specs.List.{list_all};
ghost use Rattle.be_model.specs.Lies.{row_lies};
ghost use Rattle.be_change.specs.History.{subscribed};
ghost use Rattle.be_change.specs.Opening.{IsTable, opening_of};
ghost use Rattle.be_change.specs.Sound.{MayAppend};
ghost use Rattle.be_published.specs.States.{settled, new_glass};

use crate::front::Front;
use crate::glass::Glass;
use crate::history::{Book, Naming, Opened};
use crate::notes::{Note, led_on};
use crate::page::{FIRST_MARK, Page, SECOND_MARK};
use crate::press::Press;
use crate::sheet::Sheet;
use be_base::{NoMemory, SessionNo};
use be_copy::Edit;
use be_index::Index;
use be_model::{Change, Row};
use std::alloc::Global;
use std::sync::{Arc, Wait};

/// The session of an opening: nobody's.
const NOBODY: SessionNo = SessionNo(0);

/// A press over two empty copies, and its readers. It may wait, where it gives up what it has made.
pub fn make_pair<I: Index, J: Naming, R: Wait>(
    rt: &R,
    alloc: Global,
    opened: Opened,
    index_a: I,
    index_b: I,
    readers: u32,
) -> Result<(Press<Page<I, J>, J>, Vec<Glass<Page<I, J>, J>>), NoMemory>
    requires named { opened.seen.book ≡ J.book }
    requires schema { (I.schema index_a ≡ J.schema) × (I.schema index_b ≡ J.schema) }
    requires bounded { (I.is_bounded index_a ≡ true) × (I.is_bounded index_b ≡ true) }
    requires empty { (I.rows index_a ≡ []) × (I.rows index_b ≡ []) }
    requires readers { 0 < readers }
    ensures press { IfOk result (λ pair. pair.0 ≡ settled [] []) }
    ensures count { IfOk result (λ pair. length pair.1.items ≡ readers) }
    ensures glasses { IfOk result (λ pair. All (λ glass. glass ≡ new_glass []) pair.1.items) }
{
    open_pair(
        rt,
        alloc,
        opened,
        index_a,
        index_b,
        Vec::new(alloc),
        readers,
    )
}

/// A press over two copies of a list that begins with these rows, and is that, and its readers, which know it.
pub fn open_pair<I: Index, J: Naming, R: Wait>(
    rt: &R,
    alloc: Global,
    opened: Opened,
    index_a: I,
    index_b: I,
    rows: Vec<Row>,
    readers: u32,
) -> Result<(Press<Page<I, J>, J>, Vec<Glass<Page<I, J>, J>>), NoMemory>
    requires named { opened.seen.book ≡ J.book }
    requires schema { (I.schema index_a ≡ J.schema) × (I.schema index_b ≡ J.schema) }
    requires bounded { (I.is_bounded index_a ≡ true) × (I.is_bounded index_b ≡ true) }
    requires empty { (I.rows index_a ≡ []) × (I.rows index_b ≡ []) }
    requires table { IsTable rows.items }
    requires lie { list_all (row_lies J.schema) rows.items ≡ true }
    requires readers { 0 < readers }
    ensures press { IfOk result (λ pair. pair.0 ≡ settled (opening_of rows.items) []) }
    ensures count { IfOk result (λ pair. length pair.1.items ≡ readers) }
    ensures glasses { IfOk result (λ pair. All (λ glass. glass ≡ new_glass (opening_of rows.items)) pair.1.items) }
{
    let press = open_press(alloc, opened, index_a, index_b, rows, readers)?;
    match glasses_of(alloc, &press, readers) {
        Ok(glasses) => Ok((press, glasses)),
        Err(NoMemory) => {
            press.end(rt);
            Err(NoMemory)
        }
    }
}

fn open_press<I: Index, J: Naming>(
    alloc: Global,
    opened: Opened,
    index_a: I,
    index_b: I,
    rows: Vec<Row>,
    readers: u32,
) -> Result<Press<Page<I, J>, J>, NoMemory>
    requires named { opened.seen.book ≡ J.book }
    requires schema { (I.schema index_a ≡ J.schema) × (I.schema index_b ≡ J.schema) }
    requires bounded { (I.is_bounded index_a ≡ true) × (I.is_bounded index_b ≡ true) }
    requires empty { (I.rows index_a ≡ []) × (I.rows index_b ≡ []) }
    requires table { IsTable rows.items }
    requires lie { list_all (row_lies J.schema) rows.items ≡ true }
    requires readers { 0 < readers }
    ensures { IfOk result (λ press. press ≡ settled (opening_of rows.items) []) }
{
    let (book, mut front) = opened.named::<J>();
    let mut first = Page::make(alloc, index_a, front.again(), FIRST_MARK);
    let mut second = Page::make(alloc, index_b, front.again(), SECOND_MARK);
    for row in rows {
        front = add_row(alloc, &book, &front, &mut first, &mut second, row)?;
    }
    Press::make(alloc, book, front, first, second, readers)
}

// Adds a row of nobody's to both copies.
fn add_row<I: Index, J: Naming>(
    alloc: Global,
    book: &Book<J>,
    front: &Front<J>,
    first: &mut Page<I, J>,
    second: &mut Page<I, J>,
    row: Row,
) -> Result<Front<J>, NoMemory>
    requires may { MayAppend J.schema front.now (subscribed 0 (length front.now) row) }
    requires first { first.old.list ≡ front.now }
    requires second { second.old.list ≡ front.now }
    ensures front { IfOk result (λ next. next ≡ front.now ++ subscribed 0 (length front.now) row ∷ []) }
    ensures first { IfOk result (λ next. first.new.list ≡ next) }
    ensures second { IfOk result (λ next. second.new.list ≡ next) }
{
    let row = Arc::new(alloc, row).map_err(|_| NoMemory)?;
    let change = Change::Sub {
        session: NOBODY,
        serial: front.len(),
        row,
    };
    let edit = Edit::Change(Arc::new(alloc, change).map_err(|_| NoMemory)?);
    let next = led_on(front, book, &edit)?;
    let note = Note::make(edit, next.again());
    first.take_in(&note)?;
    second.take_in(&note)?;
    Ok(next)
}

fn glasses_of<T: Sheet<J>, J: Naming>(
    alloc: Global,
    press: &Press<T, J>,
    readers: u32,
) -> Result<Vec<Glass<T, J>>, NoMemory>
    ensures count { IfOk result (λ glasses. length glasses.items ≡ readers) }
    ensures glasses { IfOk result (λ glasses. All (λ glass. glass ≡ new_glass press.now.published) glasses.items) }
{
    let mut glasses = Vec::new(alloc);
    for _ in 0..readers {
        glasses.push(press.glass()?)?;
    }
    Ok(glasses)
}
