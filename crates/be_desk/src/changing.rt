//! How a change is taken.

ghost use Rattle.std.specs.Prelude.{◌≡◌, ◌≢◌, ◌+◌, ◌<◌, ◌≤◌, ◌^◌, ◌⊎◌, ◌++◌, ◌∷◌, [], true, false, length, IfOk, IfErr, OnOk, OnErr, MatchResult};
ghost use Rattle.std.specs.Arc.{arc_value};
ghost use Rattle.be_base.specs.Lists.{BeginsWith};
ghost use Rattle.be_base.specs.declared.limits.TheConstants.{COUNT_END, LOG_CHANGES};
ghost use Rattle.be_change.specs.Entries.{entry_of};
ghost use Rattle.be_change.specs.History.{session_of, IsWellFormed};
ghost use Rattle.be_change.specs.Made.{change_named};
ghost use Rattle.be_change.specs.Requests as asked;
ghost use Rattle.be_change.specs.Sound.{MayAppend, Sound};
ghost use Rattle.be_model.specs.Lies.{conj_lies};
ghost use Rattle.be_board.specs.Changes.{Answers};
ghost use Rattle.be_board.specs.Word.{top};
ghost use Rattle.be_desk.specs.Asks.{request_of, ask_lies};
ghost use Rattle.be_desk.specs.Changes.{Agrees, IsRift, IsRefusal, Changed, Took, Counts, Continues, Earns, LeavesSteps, serial_in};
ghost use Rattle.be_desk.specs.Core.{IsRunOfCore};
ghost use Rattle.be_desk.specs.Desks.{DeskState};
ghost use Rattle.be_desk.specs.Seats.{SeatState, word_of, is_over, list_in};

use crate::ask::Ask;
use crate::desk::Desk;
use crate::ledger::Ledger;
use crate::patience::WORK_A_CHANGE;
use crate::rift::Rift;
use crate::seat::Seat;
use be_base::{Id, Name, NoMemory};
use be_board::Answer;
use be_change::is_leave_of;
use be_mail::BoxNames;
use be_model::{Change, Conj, Row};
use be_published::{Front, Naming, Press, Sheet};
use std::alloc::Global;
use std::sync::{Arc, Wait};

impl<T: Sheet<J>, J: Naming + BoxNames> Desk<T, J> {
    /// Takes a change of the seat's present session: publishes what is held first, then lets the seat's reader look and
    /// compares what the seat knows and made with the list, then puts the change last and publishes it. It may wait.
    pub fn change<R: Wait>(
        &mut self,
        rt: &R,
        alloc: Global,
        seat: &mut Seat<T, J>,
        ask: Ask,
    ) -> Answer
        requires present { is_over seat.old ≡ false }
        requires lies { ask_lies J.schema ask ≡ true }
        ensures changed { Changed self.old self.new seat.old seat.new (request_of ask) result }
        ensures counts { Counts seat.old seat.new result }
        ensures seat { Continues seat.old seat.new }
        ensures steps { LeavesSteps self.old self.new result }
        ensures patience { Earns self.old self.new result }
        ensures answers { Answers (word_of seat.old) (word_of seat.new) (request_of ask) result }
        ensures formed { IsWellFormed seat.new.glass.known }
        ensures core { IsRunOfCore self.old self.new seat.old seat.new (request_of ask) result }
    {
        if !ask.takes_out() {
            return self.change_now(rt, alloc, seat, ask);
        }
        self.held.open();
        let answer = self.change_now(rt, alloc, seat, ask);
        self.held.close();
        answer
    }

    fn change_now<R: Wait>(
        &mut self,
        rt: &R,
        alloc: Global,
        seat: &mut Seat<T, J>,
        ask: Ask,
    ) -> Answer
        requires present { is_over seat.old ≡ false }
        requires lies { ask_lies J.schema ask ≡ true }
        ensures changed { Changed self.old self.new seat.old seat.new (request_of ask) result }
        ensures counts { Counts seat.old seat.new result }
        ensures seat { Continues seat.old seat.new }
        ensures steps { LeavesSteps self.old self.new result }
        ensures patience { Earns self.old self.new result }
        ensures answers { Answers (word_of seat.old) (word_of seat.new) (request_of ask) result }
        ensures formed { IsWellFormed seat.new.glass.known }
        ensures core { IsRunOfCore self.old self.new seat.old seat.new (request_of ask) result }
    {
        // Called for its clauses that at most one change is held, and then that the list is well formed.
        let _ = self.len();
        let answer = self.decide(rt, alloc, seat, ask);
        let _ = self.len();
        self.few(seat);
        // Called for its clause that what the seat knows is well formed.
        let _ = seat.session();
        answer
    }

    // A session whose changes lie in the list has few of them. To call it does nothing.
    fn few(&self, seat: &Seat<T, J>)
        ensures { top seat.now.own ≤ length self.now.list → serial_in seat.now < COUNT_END }
    {
        let _ = self.ledger.len();
        let _serial = seat.serial;
    }

    fn decide<R: Wait>(&mut self, rt: &R, alloc: Global, seat: &mut Seat<T, J>, ask: Ask) -> Answer
        requires present { is_over seat.old ≡ false }
        requires lies { ask_lies J.schema ask ≡ true }
        ensures changed { Changed self.old self.new seat.old seat.new (request_of ask) result }
        ensures counts { Counts seat.old seat.new result }
        ensures seat { Continues seat.old seat.new }
        ensures steps { LeavesSteps self.old self.new result }
        ensures patience { Earns self.old self.new result }
    {
        match self.free(rt) {
            Err(NoMemory) => return Answer::NoMemory,
            Ok(()) => {}
        }
        if let Err((seen, written)) = self.compare(rt, seat) {
            return Answer::Split { seen, written };
        }
        match self.draw(alloc, seat, ask) {
            Err(answer) => answer,
            Ok(change) => self.take(rt, seat, change),
        }
    }

    // The seat's reader looks at what is published, and the seat is compared with it. What differs is counted.
    fn compare<R: Wait>(&self, rt: &R, seat: &mut Seat<T, J>) -> Result<(), (u64, u64)>
        requires published { self.now.published ≡ self.now.list }
        requires present { is_over seat.old ≡ false }
        ensures goes { Continues seat.old seat.new }
        ensures own { seat.new.own ≡ seat.old.own }
        ensures agrees { OnOk result (Agrees self.now seat.new × (serial_in seat.new < 2 ^ 63)) }
        ensures same { OnOk result ((seat.new.splits ≡ seat.old.splits) × (seat.new.rift ≡ seat.old.rift)) }
        ensures rift { IfErr result (λ r. IsRift self.now seat.new r.0 r.1) }
        ensures counted { IfErr result (λ r. Counts seat.old seat.new (Answer.Split r.0 r.1)) }
    {
        seat.glass.learn(self.press.tell());
        let front = seat.glass.meet(rt);
        let written = self.press.len();
        let made = seat.top();
        let stand = self.ledger.stand(seat.session);
        let _few = self.ledger.len();
        let (seen, written) = if front > written {
            (front, written)
        } else if made > written {
            (made, written)
        } else if seat.serial != stand {
            (seat.serial, stand)
        } else {
            return Ok(());
        };
        seat.splits = seat.splits.saturating_add(1);
        seat.rift = Some(Rift::make(seen, written));
        Err((seen, written))
    }

    // The change that is asked for, or why there is none.
    fn draw(&self, alloc: Global, seat: &Seat<T, J>, ask: Ask) -> Result<Arc<Change>, Answer>
        requires agrees { Agrees self.now seat.now }
        requires few { serial_in seat.now < 2 ^ 63 }
        requires lies { ask_lies J.schema ask ≡ true }
        ensures may { IfOk result (λ c. MayAppend J.schema self.now.list (entry_of (arc_value c))) }
        ensures named { IfOk result (λ c. change_named seat.now.session (serial_in seat.now) (length self.now.list) (request_of ask) ≡ entry_of (arc_value c) ∷ []) }
        ensures refused { IfErr result (λ a. (a ≢ Answer.NoMemory) → IsRefusal self.now.list seat.now.session (request_of ask) a) }
    {
        let change = match ask {
            Ask::Subscribe { name, conj } => self.draw_sub(alloc, seat, name, conj)?,
            Ask::Unsubscribe { name } => self.draw_unsub(alloc, seat, name)?,
            Ask::Leave => self.draw_bye(seat),
        };
        Arc::new(alloc, change).map_err(|_| Answer::NoMemory)
    }
}

impl<T: Sheet<J>, J: Naming + BoxNames> Desk<T, J> {
    fn draw_sub(
        &self,
        alloc: Global,
        seat: &Seat<T, J>,
        name: Name,
        conj: Conj,
    ) -> Result<Change, Answer>
        requires agrees { Agrees self.now seat.now }
        requires few { serial_in seat.now < 2 ^ 63 }
        requires lies { conj_lies J.schema conj ≡ true }
        ensures may { IfOk result (λ c. MayAppend J.schema self.now.list (entry_of c)) }
        ensures named { IfOk result (λ c. change_named seat.now.session (serial_in seat.now) (length self.now.list) (asked.subscribe name conj) ≡ entry_of c ∷ []) }
        ensures refused { IfErr result (λ a. (a ≢ Answer.NoMemory) → IsRefusal self.now.list seat.now.session (asked.subscribe name conj) a) }
    {
        // Called for its clause that the list is well formed.
        let m = self.press.len();
        match self.ledger.named(&name) {
            Some((id, _)) => return Err(Answer::Dup { m, id }),
            None => {}
        }
        if !self.ledger.may_grow(alloc) {
            return Err(Answer::NoMemory);
        }
        let row = Row {
            id: Id(m),
            session: seat.session,
            name,
            conj,
        };
        match Arc::new(alloc, row) {
            Err(_) => Err(Answer::NoMemory),
            Ok(row) => Ok(Change::Sub {
                session: seat.session,
                serial: seat.serial,
                row,
            }),
        }
    }

    fn draw_unsub(&self, alloc: Global, seat: &Seat<T, J>, name: Name) -> Result<Change, Answer>
        requires agrees { Agrees self.now seat.now }
        requires few { serial_in seat.now < 2 ^ 63 }
        ensures may { IfOk result (λ c. MayAppend J.schema self.now.list (entry_of c)) }
        ensures named { IfOk result (λ c. change_named seat.now.session (serial_in seat.now) (length self.now.list) (asked.unsubscribe name) ≡ entry_of c ∷ []) }
        ensures refused { IfErr result (λ a. (a ≢ Answer.NoMemory) → IsRefusal self.now.list seat.now.session (asked.unsubscribe name) a) }
    {
        let m = self.press.len();
        match self.ledger.named(&name) {
            None => Err(Answer::NoName { m }),
            Some((id, owner)) => {
                if owner.0 != seat.session.0 {
                    return Err(Answer::Other { m, id });
                }
                match Change::removal(alloc, seat.session, seat.serial, name) {
                    Ok(change) => Ok(change),
                    Err(NoMemory) => Err(Answer::NoMemory),
                }
            }
        }
    }

    fn draw_bye(&self, seat: &Seat<T, J>) -> Change
        requires agrees { Agrees self.now seat.now }
        requires few { serial_in seat.now < 2 ^ 63 }
        ensures may { MayAppend J.schema self.now.list (entry_of result) }
        ensures named { change_named seat.now.session (serial_in seat.now) (length self.now.list) asked.quit ≡ entry_of result ∷ [] }
    {
        let _ = self.press.len();
        Change::Bye {
            session: seat.session,
            serial: seat.serial,
        }
    }

    // Puts the change last, and publishes it.
    fn take<R: Wait>(&mut self, rt: &R, seat: &mut Seat<T, J>, change: Arc<Change>) -> Answer
        requires agrees { Agrees self.old seat.old }
        requires shaped { self.old.reshaped ≡ self.old.steps }
        requires present { is_over seat.old ≡ false }
        requires may { MayAppend J.schema self.old.list (entry_of (arc_value change)) }
        requires own { session_of (entry_of (arc_value change)) ≡ seat.old.session }
        ensures took { Took self.old self.new seat.old seat.new (entry_of (arc_value change)) result }
        ensures seat { Continues seat.old seat.new × (seat.new.splits ≡ seat.old.splits) × (seat.new.rift ≡ seat.old.rift) }
        ensures steps { (self.new.glass ≡ self.old.glass) × (self.new.steps ≡ self.old.steps) × (self.new.reshaped ≡ self.old.steps) }
        ensures patience { Earns self.old self.new result }
    {
        let leaves = is_leave_of(&change, seat.session);
        begins(&seat.made, self.press.whole());
        let Ok(n) = append(&mut self.ledger, &mut self.press, &mut seat.places, change) else {
            return Answer::NoMemory;
        };
        seat.made = Some(self.press.whole().again());
        seat.serial += 1;
        seat.gone = leaves;
        self.patience.earn(WORK_A_CHANGE);
        match self.free(rt) {
            Err(NoMemory) => return Answer::Held { n },
            Ok(()) => seat.glass.learn(self.press.tell()),
        }
        Answer::Done { n }
    }
}

// Puts the change last in the list and in the history, and its place last in the record; or does nothing.
fn append<T: Sheet<J>, J: Naming>(
    ledger: &mut Ledger,
    press: &mut Press<T, J>,
    places: &mut Vec<u64>,
    change: Arc<Change>,
) -> Result<u64, NoMemory>
    requires same { press.old.list ≡ ledger.old }
    requires may { MayAppend J.schema ledger.old (entry_of (arc_value change)) }
    ensures list { MatchResult result (λ _. ledger.new ≡ ledger.old ++ entry_of (arc_value change) ∷ []) (λ _. ledger.new ≡ ledger.old) }
    ensures places { MatchResult result (λ _. places.new.items ≡ places.old.items ++ length ledger.old ∷ []) (λ _. places.new.items ≡ places.old.items) }
    ensures length { IfOk result (λ n. n ≡ length ledger.new) }
    ensures few { IfOk result (λ n. n ≤ LOG_CHANGES + 1) }
    ensures press { (press.new.list ≡ ledger.new) × (press.new.published ≡ press.old.published) }
    ensures steps { (press.new.reshaped ≡ press.old.reshaped) × (press.new.steps ≡ press.old.steps) }
{
    // Called for its clause that the list is well formed.
    let _ = press.len();
    let place = ledger.len();
    places.reserve(1)?;
    ledger.append(press, change)?;
    places.push_reserved(place);
    Ok(place + 1)
}

// The seat's beginning of the list begins all of it. To call it does nothing.
fn begins<J: Naming>(made: &Option<Front<J>>, whole: &Front<J>)
    requires { length (list_in made.now) ≤ length whole.now }
    ensures { BeginsWith whole.now (list_in made.now) }
{
    match made {
        Some(made) => made.begins(whole),
        None => {}
    }
}
