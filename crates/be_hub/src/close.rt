//! The close, where the records of all seats are compared with the list.

ghost use Rattle.std.specs.Prelude.{◌≡◌, length, map, All, IfOk, IfErr};
ghost use Rattle.be_base.specs.Lists.{BeginsWith};
ghost use Rattle.be_change.specs.Sound.{Sound};
ghost use Rattle.be_mail.specs.Passes.{AreOfSeat};
ghost use Rattle.be_mail.specs.Settled.{AreAll};
ghost use Rattle.be_desk.specs.Closing.{AreRecorded};
ghost use Rattle.be_desk.specs.Desks.{IsOpened};
ghost use Rattle.be_desk.specs.Rifts.{numbers_of};
ghost use Rattle.be_hub.specs.Closing.{KeepsAll, AreInOrder, IsShown, IsAhead, IsLate, IsFault, IsRefused};

use crate::hub::Hub;
use be_change::ChangeLog;
use be_desk::{Desk, Rift, Seat, Stray};
use be_mail::{BoxNames, Mail, MailPasses, Post};
use be_published::{Naming, Sheet};
use std::alloc::Global;
use std::sync::Wait;

/// The list, which keeps the words of all seats.
#[derive(Drop)]
pub struct Closed {
    pub log: ChangeLog,
}

/// Why no list is given.
#[derive(Drop)]
pub enum CloseFault {
    /// A seat has seen more than what is published.
    Split(Rift),
    /// The records of the seats and the list differ.
    Stray(Stray),
    NoMemory,
}

impl<T: Sheet<J>, J: Naming + BoxNames, S: Post> Hub<T, J, S> {
    /// Gives the list out, with the change that is held, once it is compared with what all seats saw, made and took. It
    /// may wait for readers.
    pub fn close<R: Wait>(
        self,
        rt: &R,
        alloc: Global,
        seats: Vec<Seat<T, J>>,
    ) -> Result<Closed, CloseFault>
        requires all { AreAll J.boxes (map (λ s. s.passes) seats.items) }
        ensures sound { IfOk result (λ closed. Sound J.schema closed.log.list) }
        ensures opened { IfOk result (λ closed. IsOpened J.opening closed.log.list) }
        ensures keeps { IfOk result (λ closed. All (KeepsAll J.boxes closed.log.list) seats.items) }
        ensures recorded { IfOk result (λ closed. AreRecorded (length closed.log.list) closed.log.list seats.items) }
        ensures letters { IfOk result (λ _. AreInOrder S.schema S.found J.boxes seats.items) }
        ensures fault { IfErr result (λ fault. IsRefused J.opening J.boxes seats.items fault) }
    {
        let Hub {
            desk,
            mail,
            published: _,
            schema: _,
        } = self;
        let mut desk = desk.into_inner();
        let _ = desk.free(rt);
        match compare(rt, alloc, &desk, &mail, seats) {
            Ok(()) => Ok(Closed {
                log: desk.into_log(rt),
            }),
            Err(fault) => {
                desk.end(rt);
                Err(fault)
            }
        }
    }
}

// Compares the list with what the seats saw, made and took.
fn compare<T: Sheet<J>, J: Naming + BoxNames, S: Post, R: Wait>(
    rt: &R,
    alloc: Global,
    desk: &Desk<T, J>,
    mail: &Mail<S>,
    seats: Vec<Seat<T, J>>,
) -> Result<(), CloseFault>
    requires mail { mail.now ≡ J.boxes }
    requires all { AreAll J.boxes (map (λ s. s.passes) seats.items) }
    ensures sound { Sound J.schema desk.now.list }
    ensures opened { IsOpened J.opening desk.now.list }
    ensures begins { BeginsWith desk.now.list desk.now.published }
    ensures keeps { IfOk result (λ _. All (KeepsAll J.boxes desk.now.list) seats.items) }
    ensures recorded { IfOk result (λ _. AreRecorded (length desk.now.list) desk.now.list seats.items) }
    ensures letters { IfOk result (λ _. AreInOrder S.schema S.found J.boxes seats.items) }
    ensures fault { IfErr result (λ fault. IsFault J.boxes desk.now.published desk.now.list seats.items fault) }
{
    // Called for its clause that the list is well formed.
    let _ = desk.len();
    let Ok(found) = desk.check_records(&seats) else {
        return Err(CloseFault::NoMemory);
    };
    let passes = part_all(rt, alloc, desk, seats)?;
    match found {
        Some(stray) => Err(CloseFault::Stray(stray)),
        None => {
            // Called for its clause on how many mailboxes there are.
            let _ = mail.seats();
            mail.settle(passes);
            Ok(())
        }
    }
}

// The passes of all seats, none of which then knows more than what is published.
fn part_all<T: Sheet<J>, J: Naming + BoxNames, R: Wait>(
    rt: &R,
    alloc: Global,
    desk: &Desk<T, J>,
    seats: Vec<Seat<T, J>>,
) -> Result<Vec<MailPasses>, CloseFault>
    ensures passes { IfOk result (λ passes. passes.items ≡ map (λ s. s.passes) seats.items) }
    ensures form { IfOk result (λ passes. All AreOfSeat passes.items) }
    ensures shown { IfOk result (λ _. All (IsShown J.boxes desk.now.published) seats.items) }
    ensures fault { IfErr result (λ fault. IsLate desk.now.published seats.items fault) }
{
    let mut all = Vec::new(alloc);
    for seat in seats {
        match part(rt, desk, seat) {
            Err(rift) => return Err(CloseFault::Split(rift)),
            Ok(passes) => {
                if all.push(passes).is_err() {
                    return Err(CloseFault::NoMemory);
                }
            }
        }
    }
    Ok(all)
}

// Shows the seat what is published, and gives its passes, where it then knows no more than that.
fn part<T: Sheet<J>, J: Naming + BoxNames, R: Wait>(
    rt: &R,
    desk: &Desk<T, J>,
    seat: Seat<T, J>,
) -> Result<MailPasses, Rift>
    ensures passes { IfOk result (λ passes. passes ≡ seat.passes) }
    ensures form { IfOk result (λ passes. AreOfSeat passes) }
    ensures shown { IfOk result (λ _. IsShown J.boxes desk.now.published seat) }
    ensures ahead { IfErr result (λ rift. IsAhead desk.now.published (numbers_of rift) seat) }
{
    // Called for what its type keeps of its letters.
    let _ = seat.session();
    let mut seat = seat;
    desk.show(rt, &mut seat);
    match desk.ahead(&seat) {
        Some(rift) => Err(rift),
        None => {
            let passes = seat.into_passes();
            // Called for its clause that each mailbox has its list.
            let _ = passes.seat();
            Ok(passes)
        }
    }
}
