//! The board, as a session sees it.

ghost use Rattle.std.specs.Prelude.{◌≡◌, ◌≢◌, ◌++◌, [], true, false, length, option_map, All, IfOk, IfErr, IfSome, OnOk, OnErr, None, Err};
ghost use Rattle.std.specs.Option.{IfNone};
ghost use Rattle.be_base.specs.Counts.{HasRisen};
ghost use Rattle.be_model.specs.Bounds.{IsWithinBound};
ghost use Rattle.be_model.specs.ByIds.{rows_of, session_rows};
ghost use Rattle.be_model.specs.Letters.{plain_letter};
ghost use Rattle.be_model.specs.Lies.{conj_lies, event_lies};
ghost use Rattle.be_change.specs.Entries.{entries_in};
ghost use Rattle.be_change.specs.History.{live, hit_rows, hits, IsWellFormed};
ghost use Rattle.be_change.specs.Requests as asked;
ghost use Rattle.be_change.specs.Sound.{all_lie};
ghost use Rattle.be_change.specs.Walk.{live_rows, tail_from, IsNoteFor};
ghost use Rattle.be_index.specs.Ids.{ids_of};
ghost use Rattle.be_index.specs.Names.{spaced};
ghost use Rattle.be_board.specs.State.{is_gone, LeavesLetters, Tends};
ghost use Rattle.be_board.specs.Reads.{Looks, IsReadAt, Refuses};
ghost use Rattle.be_board.specs.Changes.{Asked};
ghost use Rattle.be_board.specs.Letters.{IsLetterFor, Sends, RefusesSend, Posts, Fetches};

use crate::answers::{Answer, Sent};
use be_base::{Name, NoRead};
use be_index::Ids;
use be_io::Sink;
use be_model::{Change, Conj, Cost, Event, Found, Letter};
use std::alloc::Global;
use std::sync::Arc;

/// What one session asks. Every list of changes that keeps the board's word bears out all its answers.
pub trait Board: Drop {
    ghost use Rattle.be_board.specs.State.{BoardState};

    ghost state: { Self → BoardState };

    /// Adds a row under a name that isn't live.
    fn subscribe(&mut self, alloc: Global, name: Name, conj: Conj) -> Answer
        requires present { is_gone (state self.old) ≡ false }
        requires lies { conj_lies (state self.old).schema conj ≡ true }
        ensures asked { Asked (state self.old) (state self.new) (asked.subscribe name conj) result };

    /// Removes the session's row of a name.
    fn unsubscribe(&mut self, alloc: Global, name: &Name) -> Answer
        requires present { is_gone (state self.old) ≡ false }
        ensures asked { Asked (state self.old) (state self.new) (asked.unsubscribe name.now) result };

    /// Ends the session, and removes all its rows.
    fn leave(&mut self, alloc: Global) -> Answer
        requires present { is_gone (state self.old) ≡ false }
        ensures asked { Asked (state self.old) (state self.new) asked.quit result };

    /// Whether the session has left.
    fn left(&self) -> bool
        ensures left { result ≡ is_gone (state self.now) }
        ensures somebody { (state self.now).word.session ≢ 0 }
        ensures formed { IsWellFormed (state self.now).word.known }
        ensures lies { all_lie (state self.now).schema (state self.now).word.known ≡ true };

    /// Finds the live rows that the event satisfies, by rising id, and says in which first changes.
    fn find(&mut self, event: &Event, found: &mut Found) -> Result<u64, NoRead>
        requires lies { event_lies (state self.old).schema event.now ≡ true }
        ensures looks { Looks (state self.old) (state self.new) }
        ensures read { IfOk result (IsReadAt (state self.old) (state self.new)) }
        ensures found { OnOk result (found.new.rows ≡ rows_of (hit_rows (state self.new).word.known event.now)) }
        ensures refused { IfErr result (Refuses (state self.old) (state self.new)) }
        ensures none { OnErr result (found.new.rows ≡ []) };

    /// Finds the ids of the live rows that the event satisfies, by rising id, and their names, each after a space, and says in which
    /// first changes.
    fn hits(&mut self, event: &Event, ids: &mut Ids, names: &mut Vec<u8>) -> Result<u64, NoRead>
        requires lies { event_lies (state self.old).schema event.now ≡ true }
        ensures looks { Looks (state self.old) (state self.new) }
        ensures read { IfOk result (IsReadAt (state self.old) (state self.new)) }
        ensures ids { OnOk result (ids.new.ids ≡ ids_of (hit_rows (state self.new).word.known event.now)) }
        ensures names { OnOk result (names.new.items ≡ spaced (hits (state self.new).word.known event.now)) }
        ensures refused { IfErr result (Refuses (state self.old) (state self.new)) }
        ensures none { OnErr result (names.new.items ≡ []) };

    /// What a search for the event costs. It takes no memory.
    fn cost(&mut self, event: &Event) -> Result<(u64, Cost), NoRead>
        requires lies { event_lies (state self.old).schema event.now ≡ true }
        ensures looks { Looks (state self.old) (state self.new) }
        ensures read { IfOk result (λ r. IsReadAt (state self.old) (state self.new) r.0) }
        ensures bound { IfOk result (λ r. IsWithinBound (state self.new).schema event.now (live_rows (state self.new).word.known) r.1) }
        ensures refused { IfErr result (Refuses (state self.old) (state self.new)) }
        ensures memory { result ≢ Err NoRead.NoMemory };

    /// Finds the session's live rows, by rising id.
    fn mine(&mut self, found: &mut Found) -> Result<u64, NoRead>
        ensures looks { Looks (state self.old) (state self.new) }
        ensures read { IfOk result (IsReadAt (state self.old) (state self.new)) }
        ensures found { OnOk result (found.new.rows ≡ session_rows (state self.old).word.session (live (state self.new).word.known)) }
        ensures refused { IfErr result (Refuses (state self.old) (state self.new)) }
        ensures none { OnErr result (found.new.rows ≡ []) };

    /// Finds all live rows, by rising id.
    fn all(&mut self, found: &mut Found) -> Result<u64, NoRead>
        ensures looks { Looks (state self.old) (state self.new) }
        ensures read { IfOk result (IsReadAt (state self.old) (state self.new)) }
        ensures found { OnOk result (found.new.rows ≡ live_rows (state self.new).word.known) }
        ensures lies { all_lie (state self.new).schema (state self.new).word.known ≡ true }
        ensures refused { IfErr result (Refuses (state self.old) (state self.new)) }
        ensures none { OnErr result (found.new.rows ≡ []) };

    /// Appends the changes from the place `from` on, at most `max`.
    fn tail(&mut self, from: u64, max: u64, changes: &mut Vec<Arc<Change>>) -> Result<u64, NoRead>
        ensures looks { Looks (state self.old) (state self.new) }
        ensures read { IfOk result (IsReadAt (state self.old) (state self.new)) }
        ensures tail { OnOk result (entries_in changes.new.items ≡ entries_in changes.old.items ++ tail_from from max (state self.new).word.known) }
        ensures lies { all_lie (state self.new).schema (state self.new).word.known ≡ true }
        ensures refused { IfErr result (Refuses (state self.old) (state self.new)) }
        ensures none { OnErr result (changes.new.items ≡ changes.old.items) };

    /// Puts one letter for each live row that the event satisfies, by rising id, into the mailbox of the row's session. It puts
    /// none where it is refused. The found rows are left in `found`.
    fn send(&mut self, alloc: Global, event: &Event, found: &mut Found) -> Result<Sent, NoRead>
        requires lies { event_lies (state self.old).schema event.now ≡ true }
        ensures sends { Sends (state self.old) (state self.new) }
        ensures posts { IfOk result (Posts (state self.old) (state self.new) event.now) }
        ensures found { OnOk result (found.new.rows ≡ rows_of (hit_rows (state self.new).word.known event.now)) }
        ensures refused { IfErr result (RefusesSend (state self.old) (state self.new)) }
        ensures kept { OnErr result (LeavesLetters (state self.old) (state self.new)) };

    /// Takes the session's next letter out of its mailbox. Letters for an earlier session of the same mailbox are taken out
    /// and not given. It takes no memory.
    fn fetch(&mut self) -> Option<Letter>
        ensures fetches { Fetches (state self.old) (state self.new) (option_map plain_letter result) }
        ensures letter { IfSome result (λ l. IsLetterFor (state self.old).schema (state self.old).word.session (plain_letter l)) }
        // Each letter of a box that is told is one for the session.
        ensures holds { IfSome (state self.old).box (All (IsNoteFor (state self.old).word.session (state self.old).word.known)) }
        ensures empty { IfNone result (HasRisen (state self.old).counts.empties (state self.new).counts.empties) };

    /// Whether others may put letters and change the list meanwhile, so that a wait for them is worth while. A board that tells its box
    /// doesn't wait.
    fn may_wait(&self) -> bool
        ensures { result ≡ true → (state self.now).box ≡ None };

    /// Waits until a letter lies in the session's mailbox, or so many milliseconds have passed, or whoever is answered through `out` has
    /// sent more or is gone. No clause says that it ends then.
    fn await_letter<K: Sink>(&mut self, millis: u64, out: &K)
        ensures { state self.new ≡ state self.old };

    /// Waits until the list that reads see has more changes than `place`, or so many milliseconds have passed, or whoever is answered
    /// through `out` has sent more or is gone. No clause says that it ends then.
    fn await_change<K: Sink>(&mut self, place: u64, millis: u64, out: &K)
        ensures { state self.new ≡ state self.old };

    /// May change how the rows are kept.
    fn tend(&mut self)
        ensures { Tends (state self.old) (state self.new) };
}
