//! A door settled, once its workers are done.

ghost use Rattle.std.specs.Prelude.{◌≡◌, ◌≤◌, ◌↔◌, ◌+◌, ◌++◌, ◌∷◌, [], None, length, map, find, option_copied, All, IfOk, IfErr, OnOk};
ghost use Rattle.std.specs.List.{list_any};
ghost use Rattle.be_base.specs.declared.limits.TheConstants.{SEATS};
ghost use Rattle.be_desk.specs.Seats.{IsKeptSeat};
ghost use Rattle.be_door.specs.Counts.{with_counts};
ghost use Rattle.be_door.specs.Door.{AreAllCounts, after_settle};
ghost use Rattle.be_door.specs.Sums.{no_sums};
ghost use Rattle.be_hub.specs.Files.{lacks_memory, is_split_end};
ghost use Rattle.be_hub.specs.Settling.{IsUnbroken, CountsSplits, MaySettle};

use crate::close::CloseFault;
use crate::links::WorkEnd;
use be_base::NoMemory;
use be_desk::Seat;
use be_door::{Door, DoorCount, Sums};
use be_io::Link;
use be_mail::BoxNames;
use be_published::{Naming, Shade, Sheet};
use be_session::SessionEnd;
use std::alloc::Global;

// What the workers leave, once the door is settled.
#[derive(Drop)]
pub(crate) struct LinksLeft<T: Sheet<J>, J: Naming + BoxNames> {
    pub(crate) seats: Vec<Seat<T, J>>,
    // The numbers of all links.
    pub(crate) sums: Sums,
    pub(crate) shade: Option<Shade>,
}

// The same, with the counts that are to be settled.
#[derive(Drop)]
struct Parted<T: Sheet<J>, J: Naming + BoxNames, L> {
    seats: Vec<Seat<T, J>>,
    counts: Vec<DoorCount<L>>,
    sums: Sums,
    shade: Option<Shade>,
}

// Settles the door, and gives what the workers leave, or says why there is no list to be given.
pub(crate) fn settle_links<T: Sheet<J>, J: Naming + BoxNames, L: Link + Drop, D: Door<L>>(
    alloc: Global,
    door: &mut D,
    ends: Vec<WorkEnd<T, J, L>>,
) -> Result<LinksLeft<T, J>, CloseFault>
    requires few { length ends.items ≤ SEATS }
    requires all { AreAllCounts (D.state door.old) (map (λ end. end.count) ends.items) }
    requires splits { All (λ end. CountsSplits end.seat end.ends.items) ends.items }
    ensures seats { IfOk result (λ left. left.seats.items ≡ map (λ end. end.seat) ends.items) }
    ensures kept { IfOk result (λ left. All (IsKeptSeat J.boxes) left.seats.items) }
    ensures sums { IfOk result (λ left. left.sums ≡ with_counts no_sums (map (λ end. end.count) ends.items)) }
    ensures none_refused { IfOk result (λ left. left.sums.refused ≡ 0) }
    ensures unbroken { OnOk result (All (λ end. All IsUnbroken end.ends.items) ends.items) }
    ensures shade { IfOk result (λ left. (left.shade ≡ None) ↔ All (λ end. end.seat.glass.shuts ≡ 0) ends.items) }
    ensures settled { OnOk result (D.state door.new ≡ after_settle (D.state door.old) (map (λ end. end.count) ends.items)) }
    ensures links { OnOk result ((D.state door.new).given + (D.state door.new).failed + (D.state door.new).refused ≡ (D.state door.new).links) }
    ensures fault { IfErr result (λ fault. MaySettle (D.state door.old) (D.state door.new) (map (λ end. end.count) ends.items) fault) }
{
    let fault = fault_in(ends.as_slice());
    let Ok(parted) = part_links(alloc, ends) else {
        return Err(CloseFault::NoMemory);
    };
    let Parted {
        seats,
        counts,
        sums,
        shade,
    } = parted;
    if door.settle(counts).is_err() || sums.refused > 0 {
        return Err(CloseFault::NoMemory);
    }
    match fault {
        Some(fault) => Err(fault),
        None => Ok(LinksLeft { seats, sums, shade }),
    }
}

// Parts what the workers leave, and adds up what they counted.
fn part_links<T: Sheet<J>, J: Naming + BoxNames, L: Link + Drop>(
    alloc: Global,
    ends: Vec<WorkEnd<T, J, L>>,
) -> Result<Parted<T, J, L>, NoMemory>
    requires { length ends.items ≤ SEATS }
    ensures seats { IfOk result (λ parted. parted.seats.items ≡ map (λ end. end.seat) ends.items) }
    ensures kept { IfOk result (λ parted. All (IsKeptSeat J.boxes) parted.seats.items) }
    ensures counts { IfOk result (λ parted. parted.counts.items ≡ map (λ end. end.count) ends.items) }
    ensures sums { IfOk result (λ parted. parted.sums ≡ with_counts no_sums (map (λ end. end.count) ends.items)) }
    ensures shade { IfOk result (λ parted. (parted.shade ≡ None) ↔ All (λ end. end.seat.glass.shuts ≡ 0) ends.items) }
{
    let mut seats = Vec::new(alloc);
    let mut counts = Vec::new(alloc);
    let mut sums = Sums::none();
    let mut shade = None;
    for end in ends {
        let WorkEnd {
            seat,
            count,
            ends: _,
            tended: _,
            asked: _,
            between: _,
        } = end;
        // Called for what its type keeps.
        let _ = seat.session();
        sums.add(&count.sums());
        shade = shade.or(seat.shade());
        put(&mut seats, &mut counts, seat, count)?;
    }
    Ok(Parted {
        seats,
        counts,
        sums,
        shade,
    })
}

// Puts each of them last.
fn put<X: Drop, Y: Drop>(
    seats: &mut Vec<X>,
    counts: &mut Vec<Y>,
    seat: X,
    count: Y,
) -> Result<(), NoMemory>
    ensures seats { OnOk result (seats.new.items ≡ seats.old.items ++ seat ∷ []) }
    ensures counts { OnOk result (counts.new.items ≡ counts.old.items ++ count ∷ []) }
{
    seats.push(seat)?;
    counts.push(count)?;
    Ok(())
}

// Want of memory in any session comes before two numbers that differ in any.
fn fault_in<T: Sheet<J>, J: Naming + BoxNames, L>(ends: &[WorkEnd<T, J, L>]) -> Option<CloseFault>
    requires { All (λ end. CountsSplits end.seat end.ends.items) ends.now }
    ensures { (result ≡ None) → All (λ end. All IsUnbroken end.ends.items) ends.now }
{
    if any_lacks_memory(ends) {
        return Some(CloseFault::NoMemory);
    }
    match first_split(ends) {
        Some(end) => end.seat.rift().map(CloseFault::Split),
        None => None,
    }
}

fn any_lacks_memory<T: Sheet<J>, J: Naming + BoxNames, L>(ends: &[WorkEnd<T, J, L>]) -> bool
    ensures { result ≡ list_any (λ end. list_any lacks_memory end.ends.items) ends.now }
{
    ends.iter().any(|end| lack_memory(end.ends.as_slice()))
}

fn first_split<T: Sheet<J>, J: Naming + BoxNames, L>(
    ends: &[WorkEnd<T, J, L>],
) -> Option<&WorkEnd<T, J, L>>
    ensures { option_copied result ≡ find (λ end. list_any is_split_end end.ends.items) ends.now }
{
    ends.iter().find(|end| are_split(end.ends.as_slice()))
}

fn lack_memory(ends: &[SessionEnd]) -> bool
    ensures { result ≡ list_any lacks_memory ends.now }
{
    ends.iter().any(|end| matches!(*end, SessionEnd::NoMemory))
}

fn are_split(ends: &[SessionEnd]) -> bool
    ensures { result ≡ list_any is_split_end ends.now }
{
    ends.iter()
        .any(|end| matches!(*end, SessionEnd::Split { .. }))
}
