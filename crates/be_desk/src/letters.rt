//! What a seat puts into mailboxes, and takes out of its own, as the board of its session.

ghost use Rattle.std.specs.Prelude.{◌≡◌, ℕ, ◌<◌, ◌≤◌, ◌==◌, true, length, map, option_map, All, [], IfSome, IfErr, IfOk, OnOk, OnErr, MatchBool};
ghost use Rattle.std.specs.Option.{IfNone};
ghost use Rattle.be_base.specs.Counts.{last_count, HasRisen};
ghost use Rattle.be_base.specs.declared.limits.TheConstants.{BOX_LETTERS};
ghost use Rattle.be_model.specs.ByIds.{rows_of};
ghost use Rattle.be_model.specs.Letters.{plain_letter};
ghost use Rattle.be_model.specs.Lies.{event_lies};
ghost use Rattle.be_change.specs.History.{hit_rows};
ghost use Rattle.be_mail.specs.Letters.{posting, seat_of, IsFit, IsFor};
ghost use Rattle.be_mail.specs.Passes.{after_put, after_full, after_fetch, after_empty, AreOfSeat, Held};
ghost use Rattle.be_board.specs.Letters.{IsLetterFor, Sends, RefusesSend, Posts, Fetches};
ghost use Rattle.be_board.specs.Local.{letters_for};
ghost use Rattle.be_board.specs.State.{LeavesLetters};
ghost use Rattle.be_board.specs.Word.{IsDelivered};
ghost use Rattle.be_desk.specs.Boards.{OnBoards, Offers};
ghost use Rattle.be_desk.specs.Emptied.{IsEmptied};

use crate::seat::Seat;
use be_base::{BOX_LETTERS, NoRead};
use be_board::{Sent, make_letters};
use be_mail::{BoxNames, Mail, Post};
use be_model::{Event, Found, Letter};
use be_published::{Naming, Sheet};
use be_waiting::Bed;
use std::alloc::Global;
use std::sync::Wait;

impl<T: Sheet<J>, J: Naming + BoxNames> Seat<T, J> {
    /// Puts one letter for each live row that the event satisfies, by rising id, into the mailbox of the row's session. A
    /// letter that comes back from a full one is dropped. It makes all letters first, and where it is refused puts none and
    /// finds none.
    pub fn send<S: Post, R: Wait>(
        &mut self,
        rt: &R,
        alloc: Global,
        mail: &Mail<S>,
        event: &Event,
        found: &mut Found,
    ) -> Result<Sent, NoRead>
        requires lies { event_lies J.schema event.now ≡ true }
        requires mail { mail.now ≡ J.boxes }
        requires schema { S.schema ≡ J.schema }
        ensures sends { OnBoards J.schema Sends self.old self.new }
        ensures posts { IfOk result (λ sent. OnBoards J.schema (λ b b'. Posts b b' event.now sent) self.old self.new) }
        ensures offers { IfOk result (λ sent. Offers (λ q mailbox. Held S.schema S.seats S.found q mailbox BOX_LETTERS) (length J.boxes) (letters_for sent.n event.now (rows_of (hit_rows self.new.glass.known event.now))) sent.put self.old.passes self.new.passes) }
        ensures found { OnOk result (found.new.rows ≡ rows_of (hit_rows self.new.glass.known event.now)) }
        ensures refused { IfErr result (λ why. OnBoards J.schema (λ b b'. RefusesSend b b' why) self.old self.new) }
        ensures kept { OnErr result (OnBoards J.schema LeavesLetters self.old self.new) }
        ensures passes { OnErr result (self.new.passes ≡ self.old.passes) }
        ensures none { OnErr result (found.new.rows ≡ []) }
        ensures seat { self.new ≡ record self.old { glass = self.new.glass; passes = self.new.passes } }
    {
        let n = self.find(event, found)?;
        // Called for what the seat's type keeps.
        self.count();
        self.form();
        let Ok(letters) = make_letters(alloc, n, event, found.rows(), found.len()) else {
            found.clear();
            return Err(NoRead::NoMemory);
        };
        let put = self.post(rt, mail, letters);
        Ok(Sent {
            n,
            put,
            dropped: found.len() as u64 - put,
        })
    }

    // Offers each letter once, and says how many were put.
    fn post<S: Post, R: Wait>(&mut self, rt: &R, mail: &Mail<S>, letters: Vec<Letter>) -> u64
        requires mail { mail.now ≡ J.boxes }
        requires fit { All (IsFit S.schema) (map plain_letter letters.items) }
        requires delivered { All (IsDelivered self.old.glass.known) (map plain_letter letters.items) }
        ensures seat { self.new ≡ record self.old { passes = self.new.passes } }
        ensures offers { Offers (λ q mailbox. Held S.schema S.seats S.found q mailbox BOX_LETTERS) (length J.boxes) (map plain_letter letters.items) result self.old.passes self.new.passes }
    {
        self.form();
        // Called for its clause that they are no more than can be counted.
        let _ = letters.len();
        let mut put = 0;
        for letter in letters {
            if self.offer(rt, mail, letter) {
                put += 1;
            }
        }
        put
    }

    // Offers a letter to the mailbox of its session's seat, and says whether it was put.
    fn offer<S: Post, R: Wait>(&mut self, rt: &R, mail: &Mail<S>, letter: Letter) -> bool
        requires mail { mail.now ≡ J.boxes }
        requires fit { IsFit S.schema (plain_letter letter) }
        requires delivered { IsDelivered self.old.glass.known (plain_letter letter) }
        ensures seat { self.new ≡ record self.old { passes = self.new.passes } }
        ensures put { MatchBool result
            (self.new.passes ≡ after_put self.old.passes (seat_of (length J.boxes) letter.session.0) (plain_letter letter))
            ((self.new.passes ≡ after_full self.old.passes) × Held S.schema S.seats S.found self.old.passes (seat_of (length J.boxes) letter.session.0) BOX_LETTERS) }
    {
        // Called for its clause that the seat is one of those that have a mailbox.
        let _ = self.passes.seat();
        let to = (letter.session.0 - 1) % mail.seats() as u64;
        match mail.put(rt, &mut self.passes, to as u32, letter) {
            Ok(()) => true,
            Err(_) => false,
        }
    }

    // Called for its clauses that each mailbox has its list, and that the count is not past its type's end.
    fn form(&self)
        ensures form { AreOfSeat self.now.passes }
        ensures boxes { self.now.passes.boxes ≡ J.boxes }
        ensures fulls { self.now.passes.fulls ≤ last_count }
    {
        let _ = (self.passes.seat(), self.passes.fulls());
    }

    /// Takes the session's next letter out of its mailbox. Letters for an earlier session of the seat are taken out and not
    /// given. It takes no memory.
    pub fn fetch<S: Post, R: Wait>(&mut self, rt: &R, mail: &Mail<S>) -> Option<Letter>
        requires mail { mail.now ≡ J.boxes }
        requires schema { S.schema ≡ J.schema }
        ensures fetches { OnBoards J.schema (λ b b'. Fetches b b' (option_map plain_letter result)) self.old self.new }
        ensures letter { IfSome result (λ l. IsLetterFor J.schema self.old.session (plain_letter l)) }
        ensures empty { IfNone result (HasRisen self.old.passes.empties self.new.passes.empties) }
        ensures seat { self.new ≡ record self.old { passes = self.new.passes } }
    {
        for _ in rt.forever() {
            let (letter, mine) = self.take(rt, mail)?;
            if mine {
                return Some(letter);
            }
        }
        unreachable!()
    }

    /// Waits until a letter lies in the seat's mailbox, or so many milliseconds have passed, or the bed is called. It takes no letter,
    /// and no memory.
    pub fn await_letter<S: Post, B: Bed>(&mut self, bed: &B, mail: &Mail<S>, millis: u64)
        requires mail { mail.now ≡ J.boxes }
        ensures { self.new ≡ self.old }
    {
        self.form();
        mail.await_letter(bed, &mut self.passes, millis);
    }

    /// Takes out what is in the seat's mailbox, and gives none of it. It stops where the mailbox is empty at the step that
    /// looks, or after a box full, however many letters others put meanwhile. It takes no memory.
    ///
    /// The next session begins with what is put from then on, where this is called after one session and before the next is entered:
    /// no row of a session that hasn't begun is live, so each letter is for a session that is over. Such letters may still be under
    /// way, and take up room until they are fetched. None of this is a clause, since the seat doesn't see what others know. Whatever
    /// comes here, `fetch` gives only letters for the present session.
    pub fn empty_box<S: Post, R: Wait>(&mut self, rt: &R, mail: &Mail<S>)
        requires mail { mail.now ≡ J.boxes }
        requires schema { S.schema ≡ J.schema }
        ensures { IsEmptied J.schema (length J.boxes) self.old self.new }
    {
        // Called for its clause that the count is not past its type's end.
        let _ = self.passes.empties();
        for _ in 0..BOX_LETTERS {
            let Some(_) = self.take(rt, mail) else {
                return;
            };
        }
    }

    // Takes the next letter out of the seat's mailbox, and says whether it is for the present session.
    fn take<S: Post, R: Wait>(&mut self, rt: &R, mail: &Mail<S>) -> Option<(Letter, bool)>
        requires mail { mail.now ≡ J.boxes }
        requires schema { S.schema ≡ J.schema }
        ensures seat { self.new ≡ record self.old { passes = self.new.passes } }
        ensures taken { IfSome result (λ r. (from : ℕ) × (self.new.passes ≡ after_fetch self.old.passes (posting from (plain_letter r.0))) × IsFor J.schema (length J.boxes) self.old.passes.seat (posting from (plain_letter r.0))) }
        ensures fit { IfSome result (λ r. IsFit J.schema (plain_letter r.0)) }
        ensures mine { IfSome result (λ r. r.1 ≡ (r.0.session.0 == self.old.session)) }
        ensures none { IfNone result (self.new.passes ≡ after_empty self.old.passes) }
        ensures empties { self.old.passes.empties ≤ last_count }
    {
        // Called for its clauses that the count is not past its type's end, and how many mailboxes there are.
        let _ = (self.passes.empties(), mail.seats());
        let letter = mail.fetch(rt, &mut self.passes)?;
        let mine = letter.session.0 == self.session.0;
        Some((letter, mine))
    }
}
