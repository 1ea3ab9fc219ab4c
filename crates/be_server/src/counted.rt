//! A run whose replies are counted and not written.

ghost use Rattle.std.specs.Prelude.{◌≡◌, ◌++◌, [], length, true, false, OnOk, OnErr, IfOk};
ghost use Rattle.be_model.specs.Bounds.{IsWithinBound};
ghost use Rattle.be_model.specs.Lies.{conj_lies, event_lies};
ghost use Rattle.be_model.specs.Matching.{FindsSome, satisfied};
ghost use Rattle.be_change.specs.History.{live, is_live_name};
ghost use Rattle.be_change.specs.Made.{change_named};
ghost use Rattle.be_change.specs.Requests as asked;
ghost use Rattle.be_change.specs.Walk.{live_rows};
ghost use Rattle.be_board.specs.Local.{local_state};
ghost use Rattle.be_board.specs.LocalCopy.{local_word};
ghost use Rattle.be_board.specs.State.{is_gone};
ghost use Rattle.be_board.specs.Word.{own_in};

use be_base::{Name, NoMemory};
use be_board::{Answer, Board, LocalBoard};
use be_index::{Ids, Index};
use be_model::{Conj, Cost, Event};
use std::alloc::Global;

/// A board, and room for the ids of what an event finds among its rows. All that a generated run asks of its board stands here.
#[derive(Drop)]
pub struct CountedBoard<I: Index> {
    pub board: LocalBoard<I>,
    ids: Ids,
}

impl<I: Index> CountedBoard<I> {
    /// No changes.
    pub fn make(alloc: Global, index: I) -> Result<CountedBoard<I>, NoMemory>
        requires empty { I.rows index ≡ [] }
        requires bounded { I.is_bounded index ≡ true }
        ensures list { IfOk result (λ counted. counted.board.list ≡ []) }
        ensures schema { IfOk result (λ counted. I.schema counted.board.index ≡ I.schema index) }
    {
        Ok(CountedBoard {
            board: LocalBoard::make(alloc, index)?,
            ids: Ids::make(alloc),
        })
    }

    /// Adds a row under a name that isn't live.
    pub fn subscribe(&mut self, alloc: Global, name: Name, conj: Conj) -> Result<(), NoMemory>
        requires present { is_gone (local_state (I.schema self.old.board.index) self.old.board) ≡ false }
        requires lies { conj_lies (I.schema self.old.board.index) conj ≡ true }
        requires free { is_live_name name (live self.old.board.list) ≡ false }
        ensures added { OnOk result (self.new.board.list ≡ self.old.board.list
            ++ change_named 1 (length (own_in (local_word self.old.board.list))) (length self.old.board.list) (asked.subscribe name conj)) }
        ensures refused { OnErr result (self.new.board.list ≡ self.old.board.list) }
        ensures schema { I.schema self.new.board.index ≡ I.schema self.old.board.index }
    {
        match self.board.subscribe(alloc, name, conj) {
            Answer::Done { .. } => Ok(()),
            Answer::NoMemory => Err(NoMemory),
            _ => unreachable!(),
        }
    }

    /// How many live rows the event satisfies.
    pub fn count_hits(&mut self, event: &Event) -> Result<u64, NoMemory>
        requires { event_lies (I.schema self.old.board.index) event.now ≡ true }
        ensures hits { IfOk result (λ n. n ≡ length (satisfied event.now (live_rows self.old.board.list))) }
        ensures some { OnErr result (FindsSome event.now (live_rows self.old.board.list)) }
        ensures list { self.new.board.list ≡ self.old.board.list }
        ensures schema { I.schema self.new.board.index ≡ I.schema self.old.board.index }
    {
        self.board.count_hits(event, &mut self.ids)
    }

    /// What a search for the event costs.
    pub fn cost(&mut self, event: &Event) -> Cost
        requires { event_lies (I.schema self.old.board.index) event.now ≡ true }
        ensures cost { IsWithinBound (I.schema self.old.board.index) event.now (live_rows self.old.board.list) result }
        ensures list { self.new.board.list ≡ self.old.board.list }
        ensures schema { I.schema self.new.board.index ≡ I.schema self.old.board.index }
    {
        match self.board.cost(event) {
            Ok((_, cost)) => cost,
            // A board alone refuses no reader, and a cost takes no memory.
            Err(_) => unreachable!(),
        }
    }
}
