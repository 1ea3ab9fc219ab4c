//! Counts that workers raise together.

ghost use Rattle.std.specs.Prelude.{◌≡◌, ◌<◌, ◌≤◌, ℕ, [], All, IfOk, length, replicate};
ghost use Rattle.be_base.specs.declared.limits.TheConstants.{SEATS};
ghost use Rattle.be_heat.specs.declared.limits.TheConstants.{HEAT_WORDS, SEAT_ADDS};
ghost use Rattle.be_heat.specs.Seats.{IsOf, AreAllSeats, heat_state, new_seat, with_one_more, at_word, total_of, totals};

use crate::limits::{HEAT_WORDS, SEAT_ADDS};
use crate::rule::{Adds, Both, Hand, OneShare, Size, Summed};
use crate::seats::HeatSeat;
use atomic_table::{Seat, Table};
use be_base::{NoMemory, SEATS};
use std::alloc::{AllocError, Global};
use std::marker::Model;

/// The words. It has no seat of its own, so that threads can share it.
#[derive(Drop)]
pub struct Heat {
    alloc: Global,
    words: u32,
    table: Words,
}

impl Model for Heat {
    ghost use Rattle.be_heat.specs.Seats.{HeatState, heat_state};
    ghost use Rattle.be_heat.specs.Counted.{IsHeatOf};

    ghost Value = { HeatState };

    ghost view = { λ h. heat_state h.table.shared.table_id h.words h.table.shared.key.seats };

    ghost invariant = { λ h. IsHeatOf h.table.shared.table_id h.words h.table.shared.key };
}

// The words, and what their rule is told of them.
type Words = Table<(), Hand, Size, Summed, Global>;

// A zero for each word.
fn zeros(alloc: Global, words: u32) -> Result<Vec<u64>, AllocError>
    ensures { IfOk result (λ counts. counts.items ≡ replicate words 0) }
{
    vec![in alloc; 0; words as usize]
}

// All seats in one.
fn gathered(table: &Words, mut seats: Vec<HeatSeat>) -> Seat<(), Hand>
    requires words { 0 < table.now.shared.table_id.words }
    requires some { 0 < length seats.items }
    requires of { All (λ s. s.of ≡ table.now.shared.table_id) seats.items }
    ensures of { result.table_id ≡ table.now.shared.table_id }
    ensures slots { result.me.1 ≡ [] }
    ensures share { result.me.0.share ≡ length seats.items }
    ensures counts { (word : ℕ) → at_word result.me.0.counts word ≡ total_of seats.items word }
{
    let Some(first) = seats.pop() else {
        unreachable!()
    };
    let mut home = first.seat;
    for seat in seats {
        table.shared.join_seat::<Both>(&mut home, seat.seat);
    }
    home
}

impl Heat {
    /// Words at 0, and one seat for each worker.
    pub fn make(alloc: Global, words: u32, seats: u32) -> Result<(Heat, Vec<HeatSeat>), NoMemory>
        requires words { (0 < words) × (words ≤ HEAT_WORDS) }
        requires seats { (0 < seats) × (seats ≤ SEATS) }
        ensures heat { IfOk result (λ made. made.0 ≡ heat_state made.0.of words seats) }
        ensures seats { IfOk result (λ made. made.1.items ≡ replicate seats (new_seat made.0.of words)) }
    {
        let counts = zeros(alloc, words)?;
        let size = Size { words, seats };
        let (table, mut home) = Table::of_words(alloc, counts.as_slice(), &size)?;
        let mut all = Vec::new(alloc);
        for _ in 0..seats {
            let own = zeros(alloc, words)?;
            let seat = table.shared.split_seat::<OneShare>(&mut home);
            all.push(HeatSeat { seat, own })?;
        }
        let heat = Heat {
            alloc,
            words,
            table,
        };
        Ok((heat, all))
    }

    /// Adds 1 to a word, by one atomic step.
    pub fn add(&self, seat: &mut HeatSeat, word: u32)
        requires of { IsOf self.now seat.old }
        requires word { word < self.now.words }
        requires room { at_word seat.old.own word < SEAT_ADDS }
        ensures seat { seat.new ≡ with_one_more seat.old word }
        ensures words { length seat.new.own ≡ self.now.words }
    {
        self.table
            .shared
            .fetch_add::<Adds>(&mut seat.seat, word as usize, 1);
        seat.own[word as usize] += 1;
    }

    /// Takes all seats back. Where there is no memory for the totals, the heat and its seats are gone.
    pub fn close(self, seats: Vec<HeatSeat>) -> Result<Vec<u64>, NoMemory>
        requires seats { AreAllSeats self seats.items }
        ensures totals { IfOk result (λ all. all.items ≡ totals self.words seats.items) }
    {
        let Heat {
            alloc,
            words,
            table,
        } = self;
        let mut totals = zeros(alloc, words)?;
        let home = gathered(&table, seats);
        let closed = table.close_with(home);
        for word in 0..words as usize {
            totals[word] = closed.word(word);
        }
        closed.free();
        Ok(totals)
    }
}
