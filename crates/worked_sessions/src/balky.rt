//! A board that counts how often it is asked to leave, and tended, and refuses some calls of `leave`, as one does where memory is
//! wanting.

ghost use Rattle.std.specs.Prelude.{◌≡◌, ◌==◌, true, false};
ghost use Rattle.std.specs.List.{list_any};
ghost use Rattle.be_base.specs.Counts.{raised};
ghost use Rattle.be_change.specs.Requests as asked;
ghost use Rattle.be_board.specs.Changes.{Asked};
ghost use Rattle.be_board.specs.State.{is_gone};

use be_base::{Name, NoRead};
use be_board::{Answer, Board, Sent};
use be_index::Ids;
use be_io::Sink;
use be_model::{Change, Conj, Cost, Event, Found, Letter};
use std::alloc::Global;
use std::sync::Arc;

/// A board, and which of its calls of `leave` are refused, counted from 1.
#[derive(Drop)]
pub struct BalkyBoard<B: Board> {
    board: B,
    refuse: Vec<u64>,
    // How often `leave` was called.
    leaves: u64,
    // How often it was tended.
    tends: u64,
}

impl<B: Board> BalkyBoard<B> {
    /// It takes no memory.
    pub fn make(board: B, refuse: Vec<u64>) -> BalkyBoard<B>
        ensures board { result.board ≡ board }
        ensures refuse { result.refuse ≡ refuse }
        ensures leaves { result.leaves ≡ 0 }
    {
        BalkyBoard {
            board,
            refuse,
            leaves: 0,
            tends: 0,
        }
    }

    pub fn board(&self) -> &B
        ensures { result.now ≡ self.now.board }
    {
        &self.board
    }

    pub fn leaves(&self) -> u64 {
        self.leaves
    }

    pub fn tends(&self) -> u64 {
        self.tends
    }
}

impl<B: Board> Board for BalkyBoard<B> {
    ghost state = { λ b. B.state b.board };

    fn subscribe(&mut self, alloc: Global, name: Name, conj: Conj) -> Answer {
        self.board.subscribe(alloc, name, conj)
    }

    fn unsubscribe(&mut self, alloc: Global, name: &Name) -> Answer {
        self.board.unsubscribe(alloc, name)
    }

    fn leave(&mut self, alloc: Global) -> Answer
        requires present { is_gone (B.state self.old.board) ≡ false }
        ensures asked { Asked (B.state self.old.board) (B.state self.new.board) asked.quit result }
        ensures counted { self.new.leaves ≡ raised 1 self.old.leaves }
        ensures refused { list_any (λ n. n == self.new.leaves) self.old.refuse.items ≡ true → result ≡ Answer.NoMemory }
    {
        self.leaves = self.leaves.saturating_add(1);
        if self.refuse.contains(&self.leaves) {
            // Called for its clause that what is known is well formed.
            let _ = self.board.left();
            return Answer::NoMemory;
        }
        self.board.leave(alloc)
    }

    fn left(&self) -> bool {
        self.board.left()
    }

    fn find(&mut self, event: &Event, found: &mut Found) -> Result<u64, NoRead> {
        self.board.find(event, found)
    }

    fn hits(&mut self, event: &Event, ids: &mut Ids, names: &mut Vec<u8>) -> Result<u64, NoRead> {
        self.board.hits(event, ids, names)
    }

    fn cost(&mut self, event: &Event) -> Result<(u64, Cost), NoRead> {
        self.board.cost(event)
    }

    fn mine(&mut self, found: &mut Found) -> Result<u64, NoRead> {
        self.board.mine(found)
    }

    fn all(&mut self, found: &mut Found) -> Result<u64, NoRead> {
        self.board.all(found)
    }

    fn tail(&mut self, from: u64, max: u64, changes: &mut Vec<Arc<Change>>) -> Result<u64, NoRead> {
        self.board.tail(from, max, changes)
    }

    fn send(&mut self, alloc: Global, event: &Event, found: &mut Found) -> Result<Sent, NoRead> {
        self.board.send(alloc, event, found)
    }

    fn fetch(&mut self) -> Option<Letter> {
        self.board.fetch()
    }

    fn may_wait(&self) -> bool {
        self.board.may_wait()
    }

    fn await_letter<K: Sink>(&mut self, millis: u64, out: &K) {
        self.board.await_letter(millis, out);
    }

    fn await_change<K: Sink>(&mut self, place: u64, millis: u64, out: &K) {
        self.board.await_change(place, millis, out);
    }

    fn tend(&mut self) {
        self.tends = self.tends.saturating_add(1);
        self.board.tend();
    }
}
