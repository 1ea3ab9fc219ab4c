//! How a desk is made, with its seats.

ghost use Rattle.std.specs.Prelude.{◌≡◌, ◌+◌, ◌<◌, ◌≤◌, ◌++◌, [], true, length, map, All, OnOk, IfOk};
ghost use Rattle.std.specs.List.{list_all, range_with_len};
ghost use Rattle.be_base.specs.declared.limits.TheConstants.{SEATS};
ghost use Rattle.be_model.specs.Lies.{row_lies};
ghost use Rattle.be_change.specs.Entries.{entries_in};
ghost use Rattle.be_change.specs.History.{IsWellFormed, IsWellFormedAfter};
ghost use Rattle.be_change.specs.Opening.{IsTable, opening_of};
ghost use Rattle.be_mail.specs.Passes.{new_passes};
ghost use Rattle.be_published.specs.States.{settled, new_glass};
ghost use Rattle.be_desk.specs.Desks.{new_desk};
ghost use Rattle.be_desk.specs.Seats.{first_seat, seat_for};

use crate::desk::Desk;
use crate::ledger::Ledger;
use crate::patience::Patience;
use crate::seat::Seat;
use be_base::{NoMemory, Reserve, SessionNo};
use be_index::Index;
use be_mail::{BoxNames, MailPasses};
use be_model::{Change, Row};
use be_published::{Glass, Naming, Opened, Page, Press, Sheet, open_pair};
use std::alloc::Global;
use std::sync::{Arc, Wait};

/// A desk over two empty copies, and its seats. It may wait, where it gives up what it has made.
pub fn make_desk<I: Index, J: Naming + BoxNames, R: Wait>(
    rt: &R,
    alloc: Global,
    opened: Opened,
    index_a: I,
    index_b: I,
    seats: u32,
    passes: Vec<MailPasses>,
) -> Result<(Desk<Page<I, J>, J>, Vec<Seat<Page<I, J>, J>>), NoMemory>
    requires named { (opened.seen.book ≡ J.book) × (J.opening ≡ []) }
    requires schema { (I.schema index_a ≡ J.schema) × (I.schema index_b ≡ J.schema) }
    requires bounded { (I.is_bounded index_a ≡ true) × (I.is_bounded index_b ≡ true) }
    requires empty { (I.rows index_a ≡ []) × (I.rows index_b ≡ []) }
    requires seats { (0 < seats) × (seats ≤ SEATS) × (length J.boxes ≡ seats) }
    requires passes { passes.items ≡ map (new_passes J.boxes) (range_with_len 0 seats) }
    ensures desk { IfOk result (λ r. r.0 ≡ new_desk []) }
    ensures seats { IfOk result (λ r. r.1.items ≡ map (first_seat [] J.boxes) (range_with_len 0 seats)) }
{
    open_desk(
        rt,
        alloc,
        opened,
        index_a,
        index_b,
        seats,
        Vec::new(alloc),
        passes,
    )
}

/// A desk whose list begins with these rows, and is that, and its seats, which know it.
pub fn open_desk<I: Index, J: Naming + BoxNames, R: Wait>(
    rt: &R,
    alloc: Global,
    opened: Opened,
    index_a: I,
    index_b: I,
    seats: u32,
    rows: Vec<Row>,
    passes: Vec<MailPasses>,
) -> Result<(Desk<Page<I, J>, J>, Vec<Seat<Page<I, J>, J>>), NoMemory>
    requires named { (opened.seen.book ≡ J.book) × (J.opening ≡ opening_of rows.items) }
    requires schema { (I.schema index_a ≡ J.schema) × (I.schema index_b ≡ J.schema) }
    requires bounded { (I.is_bounded index_a ≡ true) × (I.is_bounded index_b ≡ true) }
    requires empty { (I.rows index_a ≡ []) × (I.rows index_b ≡ []) }
    requires seats { (0 < seats) × (seats ≤ SEATS) × (length J.boxes ≡ seats) }
    requires table { IsTable rows.items }
    requires lie { list_all (row_lies J.schema) rows.items ≡ true }
    requires passes { passes.items ≡ map (new_passes J.boxes) (range_with_len 0 seats) }
    ensures desk { IfOk result (λ r. r.0 ≡ new_desk (opening_of rows.items)) }
    ensures seats { IfOk result (λ r. r.1.items ≡ map (first_seat (opening_of rows.items) J.boxes) (range_with_len 0 seats)) }
{
    let (press, glasses) = open_pair(rt, alloc, opened, index_a, index_b, rows, seats + 1)?;
    match furnish(alloc, &press, glasses, passes) {
        Err(NoMemory) => {
            press.end(rt);
            Err(NoMemory)
        }
        Ok((ledger, glass, all)) => {
            let desk = Desk {
                press,
                glass,
                ledger,
                seats,
                patience: Patience::make(),
                held: Reserve::make(alloc),
            };
            Ok((desk, all))
        }
    }
}

// What stands beside a new press: the list, the desk's reader, and the seats.
fn furnish<T: Sheet<J>, J: Naming + BoxNames>(
    alloc: Global,
    press: &Press<T, J>,
    glasses: Vec<Glass<T, J>>,
    passes: Vec<MailPasses>,
) -> Result<(Ledger, Glass<T, J>, Vec<Seat<T, J>>), NoMemory>
    requires press { press.now.published ≡ press.now.list }
    requires count { length glasses.items ≡ length J.boxes + 1 }
    requires few { length J.boxes ≤ SEATS }
    requires glasses { All (λ glass. glass ≡ new_glass press.now.list) glasses.items }
    requires passes { passes.items ≡ map (new_passes J.boxes) (range_with_len 0 (length J.boxes)) }
    ensures ledger { IfOk result (λ r. r.0 ≡ press.now.list) }
    ensures glass { IfOk result (λ r. r.1 ≡ new_glass press.now.list) }
    ensures seats { IfOk result (λ r. r.2.items ≡ map (first_seat press.now.list J.boxes) (range_with_len 0 (length J.boxes))) }
{
    let ledger = listed(alloc, press)?;
    let mut glasses = glasses;
    let Some(glass) = glasses.pop() else {
        unreachable!();
    };
    let seats = seated(alloc, press, glasses, passes)?;
    Ok((ledger, glass, seats))
}

// The list of what is published.
fn listed<T: Sheet<J>, J: Naming>(alloc: Global, press: &Press<T, J>) -> Result<Ledger, NoMemory>
    requires { press.now.published ≡ press.now.list }
    ensures { IfOk result (λ ledger. ledger ≡ press.now.list) }
{
    // Called for its clause that it is well formed.
    let _ = press.len();
    let mut changes: Vec<Arc<Change>> = Vec::new(alloc);
    press.changes(&mut changes)?;
    let mut ledger = Ledger::make(alloc);
    for change in changes {
        ledger.push(change)?;
    }
    Ok(ledger)
}

// A seat for each of the passes, with a reader each. All that is published is known to each reader.
fn seated<T: Sheet<J>, J: Naming + BoxNames>(
    alloc: Global,
    press: &Press<T, J>,
    glasses: Vec<Glass<T, J>>,
    passes: Vec<MailPasses>,
) -> Result<Vec<Seat<T, J>>, NoMemory>
    requires count { length glasses.items ≡ length J.boxes }
    requires glasses { All (λ glass. glass ≡ new_glass press.now.list) glasses.items }
    requires passes { passes.items ≡ map (new_passes J.boxes) (range_with_len 0 (length J.boxes)) }
    ensures { IfOk result (λ seats. seats.items ≡ map (seat_for press.now.list) passes.items) }
{
    let _ = press.len();
    let mut glasses = glasses;
    let mut seats = Vec::new(alloc);
    for pass in passes {
        let Some(glass) = glasses.pop() else {
            unreachable!();
        };
        let session = SessionNo(u64::from(pass.seat()) + 1);
        seats.push(Seat::make(alloc, session, glass, pass))?;
    }
    Ok(seats)
}
