//! What every door keeps of its listens.

ghost use Rattle.std.specs.Prelude.{◌≡◌, ◌+◌, ◌<◌, ◌≤◌, false, true, All, None, Some, IfOk, OnOk, OnErr, IfSome, IfNone, length};
ghost use Rattle.be_base.specs.declared.limits.TheConstants.{LINKS, SEATS};
ghost use Rattle.be_base.specs.Counts.{raised};
ghost use Rattle.be_door.specs.Door.{DoorState, IsNew, AreAllCounts, new_door, door_sums, after_try, after_open, after_settle};

use crate::count::{DoorCount, count_kept, deal, gather};
use crate::kept::Kept;
use crate::numbers::{Numbers, Turn};
use crate::sums::Sums;
use be_base::{NoMemory, SessionNo};
use std::alloc::Global;
use std::marker::Model;

/// The numbers that are drawn now, and what was settled.
#[derive(Drop)]
pub struct Book<L> {
    numbers: Option<Numbers>,
    tries: u64,
    port: u16,
    listens: u64,
    links: u64,
    workers: u32,
    sums: Sums,
    kept: Kept<L>,
}

impl<L> Model for Book<L> {
    ghost use Rattle.std.specs.Prelude.{◌≡◌, ◌<◌, ◌≤◌, IfSome};
    ghost use Rattle.be_base.specs.declared.limits.TheConstants.{SEATS};
    ghost use Rattle.be_door.specs.Door.{DoorState, table_of};

    ghost Value = { DoorState L };

    ghost view = { λ b. record {
      tries = b.tries;
      port = b.port;
      listens = b.listens;
      «open» = table_of b.numbers;
      links = b.links;
      workers = b.workers;
      given = b.sums.given;
      back = b.sums.back;
      failed = b.sums.failed;
      refused = b.sums.refused;
      most = b.sums.most;
      keeps = b.kept.keeps;
      kept = b.kept.links;
      read_faults = b.sums.read_faults;
      write_faults = b.sums.write_faults;
    } };

    ghost invariant = { λ b. (b.workers ≤ SEATS) × IfSome b.numbers (λ n. (n ≡ record { of = n.of; links = b.links; workers = b.workers })
        × (0 < b.workers) × (b.sums.given ≡ 0) × (b.sums.back ≡ 0) × (b.sums.failed ≡ 0) × (b.sums.refused ≡ 0)) };
}

impl<L: Drop> Book<L> {
    pub fn make(alloc: Global, keeps: bool) -> Book<L>
        ensures { result ≡ new_door keeps }
    {
        Book {
            numbers: None,
            tries: 0,
            port: 0,
            listens: 0,
            links: 0,
            workers: 0,
            sums: Sums::none(),
            kept: Kept::make(alloc, keeps),
        }
    }

    pub fn sums(&self) -> Sums
        ensures { result ≡ door_sums self.now }
    {
        self.sums
    }

    pub fn kept(&self) -> &[(SessionNo, L)]
        ensures { result.now ≡ self.now.kept }
    {
        self.kept.links()
    }

    /// How many calls to listen were noted.
    pub fn tries(&self) -> u64
        ensures { result ≡ self.now.tries }
    {
        self.tries
    }

    /// Notes a call to listen.
    pub fn add_try(&mut self, port: u16)
        ensures { self.new ≡ after_try self.old port }
    {
        self.tries = self.tries.saturating_add(1);
        self.port = port;
    }

    /// Notes that the door can't listen.
    pub fn add_fault(&mut self)
        ensures { self.new ≡ record self.old { read_faults = raised 1 self.old.read_faults } }
    {
        self.sums.read_faults = self.sums.read_faults.saturating_add(1);
    }

    /// Makes the counts of a listen, whose try was noted.
    pub fn open(
        &mut self,
        alloc: Global,
        links: u64,
        workers: u32,
    ) -> Result<Vec<DoorCount<L>>, NoMemory>
        requires links { links ≤ LINKS }
        requires workers { (0 < workers) × (workers ≤ SEATS) }
        ensures listens { OnOk result (self.new ≡ after_open self.old self.new.«open» links workers) }
        ensures many { IfOk result (λ counts. length counts.items ≡ workers) }
        ensures counts { IfOk result (λ counts. All (IsNew self.new) counts.items) }
        ensures refused { OnErr result (self.new ≡ self.old) }
    {
        let keeps = self.kept.keeps();
        let (numbers, counts) = deal(alloc, links, workers, keeps)?;
        *self = Book {
            numbers: Some(numbers),
            tries: self.tries,
            port: self.port,
            listens: self.listens.saturating_add(1),
            links,
            workers,
            sums: Sums {
                read_faults: self.sums.read_faults,
                write_faults: self.sums.write_faults,
                ..Sums::none()
            },
            kept: Kept::make(alloc, keeps),
        };
        Ok(counts)
    }

    /// Draws one number, and gives it where it is below the number of links.
    pub fn draw(&self, turn: &mut Turn) -> Option<u64>
        requires { (self.now.«open» ≡ Some turn.old.of) × (turn.old.ended ≡ false) }
        ensures drawn { IfSome result (λ n. (n < turn.old.links) × (turn.old.drawn < turn.old.links) × (turn.new ≡ record turn.old { drawn = turn.old.drawn + 1 })) }
        ensures ended { IfNone result (turn.new ≡ record turn.old { ended = true }) }
    {
        let Some(numbers) = &self.numbers else {
            unreachable!()
        };
        numbers.draw(turn)
    }

    /// Takes back all counts of the last listen. It makes the room for the links that they kept before it takes any.
    pub fn settle(&mut self, counts: Vec<DoorCount<L>>) -> Result<(), NoMemory>
        requires { AreAllCounts self.old counts.items }
        ensures settled { OnOk result (self.new ≡ after_settle self.old counts.items) }
        ensures links { OnOk result (self.new.given + self.new.failed + self.new.refused ≡ self.new.links) }
        ensures refused { OnErr result (self.new ≡ self.old) }
    {
        self.kept.reserve(count_kept(&counts))?;
        let Some(numbers) = self.numbers.take() else {
            unreachable!()
        };
        gather(numbers, counts, &mut self.sums, &mut self.kept);
        Ok(())
    }
}
