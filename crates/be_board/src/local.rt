//! A board over one copy, for one session alone.

ghost use Rattle.std.specs.Prelude.{◌≡◌, ◌≢◌, [], true, false, length, IfOk, IfErr, OnErr, Err};
ghost use Rattle.std.specs.List.{list_all};
ghost use Rattle.be_base.specs.Counts.{raised};
ghost use Rattle.be_model.specs.Bounds.{IsWithinBound};
ghost use Rattle.be_model.specs.ByIds.{rows_of};
ghost use Rattle.be_model.specs.Lies.{conj_lies, event_lies, row_lies};
ghost use Rattle.be_model.specs.Matching.{FindsSome, satisfied};
ghost use Rattle.be_change.specs.History.{live, hit_rows, is_live_name};
ghost use Rattle.be_change.specs.Opening.{IsTable};
ghost use Rattle.be_change.specs.Requests as asked;
ghost use Rattle.be_change.specs.Walk.{live_rows};
ghost use Rattle.be_board.specs.Word.{Keeps};
ghost use Rattle.be_board.specs.Changes.{Asked};
ghost use Rattle.be_board.specs.State.{is_gone};
ghost use Rattle.be_board.specs.Letters.{Sends, Posts};
ghost use Rattle.be_board.specs.LocalCopy.{IsLocalList};
ghost use Rattle.be_board.specs.Local.{local_state, opened_state};
ghost use Rattle.be_board.specs.Reads.{Looks, IsReadAt, Refuses};

use crate::answers::{Answer, Sent};
use crate::board::Board;
use crate::letter_box::LetterBox;
use crate::local_copy::{LocalCopy, SESSION};
use crate::posting::{count_addressed, make_letters};
use be_base::{Name, NoMemory, NoRead};
use be_change::ChangeLog;
use be_index::{Ids, Index};
use be_io::Sink;
use be_model::{Change, Conj, Cost, Event, Found, Letter, Row};
use std::alloc::Global;
use std::marker::Model;
use std::sync::Arc;

/// A board over one copy, for session 1 alone, which knows the whole list and has its box of letters.
#[derive(Drop)]
pub struct LocalBoard<I: Index> {
    copy: LocalCopy<I>,
    letters: LetterBox,
    reads: u64,
    fulls: u64,
    empties: u64,
}

impl<I: Index> Model for LocalBoard<I> {
    ghost use Rattle.std.specs.Prelude.{All};
    ghost use Rattle.be_board.specs.Local.{Local};

    ghost Value = { Local I };

    ghost use Rattle.be_board.specs.Local.{IsLocalLetter};

    ghost view = { λ b. record { list = b.copy.list; index = b.copy.index; letters = b.letters; reads = b.reads; fulls = b.fulls; empties = b.empties } };

    ghost invariant = { λ b. All (IsLocalLetter (I.schema b.copy.index) b.copy.list) b.letters };
}

impl<I: Index> LocalBoard<I> {
    /// A board of no changes, with an empty box.
    pub fn make(alloc: Global, index: I) -> Result<LocalBoard<I>, NoMemory>
        requires empty { I.rows index ≡ [] }
        requires bounded { I.is_bounded index ≡ true }
        ensures { IfOk result (λ board. local_state (I.schema board.index) board ≡ opened_state (I.schema index) []) }
    {
        LocalBoard::open(alloc, index, Vec::new(alloc))
    }

    /// A board whose list begins with these rows, and is that, with an empty box.
    pub fn open(alloc: Global, index: I, rows: Vec<Row>) -> Result<LocalBoard<I>, NoMemory>
        requires empty { I.rows index ≡ [] }
        requires bounded { I.is_bounded index ≡ true }
        requires table { IsTable rows.items }
        requires lie { list_all (row_lies (I.schema index)) rows.items ≡ true }
        ensures { IfOk result (λ board. local_state (I.schema board.index) board ≡ opened_state (I.schema index) rows.items) }
    {
        Ok(LocalBoard {
            copy: LocalCopy::open(alloc, index, rows)?,
            letters: LetterBox::make(alloc)?,
            reads: 0,
            fulls: 0,
            empties: 0,
        })
    }

    /// The whole list, which keeps the board's word.
    pub fn log(&self) -> &ChangeLog
        ensures list { result.now.list ≡ self.now.list }
        ensures form { IsLocalList self.now.list }
        ensures keeps { Keeps self.now.list (local_state (I.schema self.now.index) self.now).word }
    {
        self.copy.read().log()
    }

    /// How many live rows the event satisfies. It is no read of the session, and puts none of their names.
    pub fn count_hits(&self, event: &Event, ids: &mut Ids) -> Result<u64, NoMemory>
        requires { event_lies (I.schema self.now.index) event.now ≡ true }
        ensures count { IfOk result (λ n. n ≡ length (satisfied event.now (live_rows self.now.list))) }
        ensures some { OnErr result (FindsSome event.now (live_rows self.now.list)) }
    {
        self.copy.read().count_hits(event, ids)
    }

    // Counts a read, and says of how many changes it is.
    fn count_read(&mut self) -> u64
        ensures counted { self.new ≡ record self.old { reads = raised 1 self.old.reads } }
        ensures len { result ≡ length self.old.list }
    {
        self.reads = self.reads.saturating_add(1);
        self.copy.len()
    }

    // Puts a letter for each of the found rows that are somebody's, as many as there is room for. It makes all of them first.
    fn post(&mut self, alloc: Global, event: &Event, found: &Found) -> Result<Sent, NoMemory>
        requires lies { event_lies (I.schema self.old.index) event.now ≡ true }
        requires found { found.now.rows ≡ rows_of (hit_rows self.old.list event.now) }
        ensures sends { Sends (local_state (I.schema self.old.index) self.old) (local_state (I.schema self.new.index) self.new) }
        ensures posts { IfOk result (Posts (local_state (I.schema self.old.index) self.old) (local_state (I.schema self.new.index) self.new) event.now) }
        ensures list { self.new.list ≡ self.old.list }
        ensures refused { OnErr result (self.new ≡ self.old) }
    {
        let n = self.copy.len();
        let letters = make_letters(alloc, n, event, found.rows(), self.letters.room())?;
        let put = letters.len();
        let full = count_addressed(found.rows()) - put;
        self.letters.put_all(letters);
        self.fulls = self.fulls.saturating_add(full as u64);
        self.reads = self.reads.saturating_add(1);
        Ok(Sent {
            n,
            put: put as u64,
            dropped: (found.len() - put) as u64,
        })
    }
}

impl<I: Index> Board for LocalBoard<I> {
    ghost use Rattle.be_board.specs.Local.{local_state};

    ghost state = { λ b. local_state (I.schema b.index) b };

    fn subscribe(&mut self, alloc: Global, name: Name, conj: Conj) -> Answer
        requires present { is_gone (local_state (I.schema self.old.index) self.old) ≡ false }
        requires lies { conj_lies (I.schema self.old.index) conj ≡ true }
        ensures asked { Asked (local_state (I.schema self.old.index) self.old) (local_state (I.schema self.new.index) self.new) (asked.subscribe name conj) result }
        // Memory is wanting only where the name isn't live.
        ensures free { result ≡ Answer.NoMemory → is_live_name name (live self.old.list) ≡ false }
    {
        let answer = self.copy.subscribe(alloc, name, conj);
        // Called for its clause that the list is well formed.
        let _ = self.copy.read();
        answer
    }

    fn unsubscribe(&mut self, alloc: Global, name: &Name) -> Answer {
        let answer = self.copy.unsubscribe(alloc, name);
        let _ = self.copy.read();
        answer
    }

    fn leave(&mut self, alloc: Global) -> Answer {
        let answer = self.copy.leave(alloc);
        let _ = self.copy.read();
        answer
    }

    fn left(&self) -> bool {
        let _ = self.copy.read();
        self.copy.gone()
    }

    fn find(&mut self, event: &Event, found: &mut Found) -> Result<u64, NoRead> {
        self.copy
            .read()
            .find(event, found)
            .map_err(|_| NoRead::NoMemory)?;
        Ok(self.count_read())
    }

    fn hits(&mut self, event: &Event, ids: &mut Ids, names: &mut Vec<u8>) -> Result<u64, NoRead> {
        self.copy
            .read()
            .hits(event, ids, names)
            .map_err(|_| NoRead::NoMemory)?;
        Ok(self.count_read())
    }

    /// What a search for the event costs, exactly.
    fn cost(&mut self, event: &Event) -> Result<(u64, Cost), NoRead>
        requires lies { event_lies (I.schema self.old.index) event.now ≡ true }
        ensures looks { Looks (local_state (I.schema self.old.index) self.old) (local_state (I.schema self.new.index) self.new) }
        ensures read { IfOk result (λ r. IsReadAt (local_state (I.schema self.old.index) self.old) (local_state (I.schema self.new.index) self.new) r.0) }
        ensures bound { IfOk result (λ r. IsWithinBound (I.schema self.new.index) event.now (live_rows self.new.list) r.1) }
        ensures refused { IfErr result (Refuses (local_state (I.schema self.old.index) self.old) (local_state (I.schema self.new.index) self.new)) }
        ensures memory { result ≢ Err NoRead.NoMemory }
        ensures exact { IfOk result (λ r. r.1 ≡ I.cost_of self.old.index event.now) }
    {
        let cost = self.copy.read().cost(event);
        Ok((self.count_read(), cost))
    }

    fn mine(&mut self, found: &mut Found) -> Result<u64, NoRead> {
        self.copy
            .read()
            .rows_of(SESSION, found)
            .map_err(|_| NoRead::NoMemory)?;
        Ok(self.count_read())
    }

    fn all(&mut self, found: &mut Found) -> Result<u64, NoRead> {
        self.copy.read().all(found).map_err(|_| NoRead::NoMemory)?;
        Ok(self.count_read())
    }

    fn tail(&mut self, from: u64, max: u64, changes: &mut Vec<Arc<Change>>) -> Result<u64, NoRead> {
        self.copy
            .read()
            .tail(from, max, changes)
            .map_err(|_| NoRead::NoMemory)?;
        Ok(self.count_read())
    }

    fn send(&mut self, alloc: Global, event: &Event, found: &mut Found) -> Result<Sent, NoRead> {
        self.copy
            .read()
            .find(event, found)
            .map_err(|_| NoRead::NoMemory)?;
        self.post(alloc, event, found).map_err(|_| NoRead::NoMemory)
    }

    fn fetch(&mut self) -> Option<Letter> {
        match self.letters.take() {
            Some(letter) => Some(letter),
            None => {
                self.empties = self.empties.saturating_add(1);
                None
            }
        }
    }

    fn may_wait(&self) -> bool {
        false
    }

    fn await_letter<K: Sink>(&mut self, _millis: u64, _out: &K) {}

    fn await_change<K: Sink>(&mut self, _place: u64, _millis: u64, _out: &K) {}

    fn tend(&mut self) {}
}
