//! A door that can't listen.

ghost use Rattle.std.specs.Prelude.{◌≡◌, ◌+◌, ◌<◌, ◌≤◌, Err, IfErr, OnOk, false};
ghost use Rattle.be_base.specs.declared.limits.TheConstants.{LINKS, SEATS};
ghost use Rattle.be_base.specs.Counts.{raised};
ghost use Rattle.be_door.specs.Door.{AreAllCounts, new_door, after_try, after_settle};

use crate::book::Book;
use crate::count::DoorCount;
use crate::door::Door;
use crate::meter::Metered;
use be_base::{NoMemory, SessionNo};
use be_io::{AcceptFault, Link, ListenFault};
use std::alloc::Global;

/// A door that can't listen, so that no count is of it.
#[derive(Drop)]
pub struct NoDoor<L> {
    book: Book<Metered<L>>,
}

impl<L: Drop> NoDoor<L> {
    /// It takes no memory.
    pub fn make(alloc: Global) -> NoDoor<L>
        ensures { result.book ≡ new_door false }
    {
        NoDoor {
            book: Book::make(alloc, false),
        }
    }
}

impl<L: Link + Drop> Door<Metered<L>> for NoDoor<L> {
    ghost state = { λ d. d.book };

    fn listen(
        &mut self,
        port: u16,
        links: u64,
        workers: u32,
    ) -> Result<Vec<DoorCount<Metered<L>>>, ListenFault>
        requires links { links ≤ LINKS }
        requires some { 0 < workers }
        requires workers { workers ≤ SEATS }
        ensures fails { result ≡ Err ListenFault.Failed }
        ensures after { self.new.book ≡ record (after_try self.old.book port) { read_faults = raised 1 self.old.book.read_faults } }
    {
        self.book.add_try(port);
        self.book.add_fault();
        Err(ListenFault::Failed)
    }

    fn accept(&self, count: &mut DoorCount<Metered<L>>) -> Result<Option<Metered<L>>, AcceptFault> {
        if self.book.draw(&mut count.turn).is_none() {
            return Ok(None);
        }
        count.sums.count(Err(AcceptFault::Failed))
    }

    fn give_back(&self, count: &mut DoorCount<Metered<L>>, session: SessionNo, link: Metered<L>) {
        let meter = link.meter;
        count.take_back(session, link, meter);
    }

    fn settle(&mut self, counts: Vec<DoorCount<Metered<L>>>) -> Result<(), NoMemory>
        requires { AreAllCounts self.old.book counts.items }
        ensures settled { OnOk result (self.new.book ≡ after_settle self.old.book counts.items) }
        ensures links { OnOk result (self.new.book.given + self.new.book.failed + self.new.book.refused ≡ self.new.book.links) }
        ensures no_memory { IfErr result (λ _. self.new.book ≡ self.old.book) }
    {
        self.book.settle(counts)
    }
}
