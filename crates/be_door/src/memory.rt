//! A door in memory.

ghost use Rattle.std.specs.Prelude.{◌≡◌, ◌↔◌, ◌==◌, ◌+◌, ◌<◌, ◌≤◌, [], All, Ok, Err, IfOk, IfErr, IfSome, OnOk, IsTrue, None, false, true, length};
ghost use Rattle.std.specs.List.{list_any};
ghost use Rattle.std.specs.List.Sorted.{IsStrictlyIncreasing};
ghost use Rattle.be_base.specs.declared.limits.TheConstants.{LINKS, SEATS};
ghost use Rattle.be_base.specs.Counts.{raised, HasRisen};
ghost use Rattle.be_io.specs.Outside.{link_state};
ghost use Rattle.be_door.specs.Links.{IsUnused, no_numbers};
ghost use Rattle.be_door.specs.Counts.{IsSound, after_given, after_failed, after_refused, after_end, after_back};
ghost use Rattle.be_door.specs.Door.{DoorState, IsOf, IsNew, AreAllCounts, new_door, door_sums, after_try, after_listen, after_settle};

use crate::book::Book;
use crate::count::DoorCount;
use crate::door::Door;
use crate::meter::Metered;
use crate::stock::Stock;
use crate::sums::Sums;
use be_base::{NoMemory, SessionNo};
use be_io::{AcceptFault, Link, ListenFault};
use std::alloc::Global;
use std::sync::{Mutex, Wait};

/// A door that gives out its links in order, each under a meter, and keeps those that come back.
#[derive(Drop)]
pub struct MemDoor<L: Link, R> {
    rt: R,
    alloc: Global,
    stock: Mutex<Stock<L>>,
    // The numbers of the accepts and of the listens that fail, from 1.
    accept_fails: Vec<u64>,
    listen_fails: Vec<u64>,
    book: Book<Metered<L>>,
}

impl<L: Link + Drop, R> MemDoor<L, R> {
    /// A door of these links. The accepts that draw these numbers fail, where the first accept has the number 1, and so do
    /// accepts that find no link left. It takes no memory.
    pub fn make(rt: R, alloc: Global, links: Vec<L>, fails: Vec<u64>) -> MemDoor<L, R>
        requires rise { IsStrictlyIncreasing fails.items }
        requires unused { All (λ link. IsUnused (link_state L.Source L.Sink link)) links.items }
        ensures new { result.book ≡ new_door true }
        ensures never { result.listen_fails.items ≡ [] }
    {
        MemDoor {
            rt,
            alloc,
            stock: Mutex::new(Stock::make(links)),
            accept_fails: fails,
            listen_fails: Vec::new(alloc),
            book: Book::make(alloc, true),
        }
    }

    /// The same door, whose listens of these numbers fail, where the first has the number 1.
    pub fn failing_listens(self, fails: Vec<u64>) -> MemDoor<L, R>
        requires { IsStrictlyIncreasing fails.items }
        ensures { result ≡ record self { listen_fails = fails } }
    {
        MemDoor {
            listen_fails: fails,
            ..self
        }
    }

    /// What the last listen came to, once it is settled.
    pub fn sums(&self) -> Sums
        ensures { result ≡ door_sums self.now.book }
    {
        self.book.sums()
    }

    /// The links that came back in the last listen, once it is settled, each with its session.
    pub fn kept(&self) -> &[(SessionNo, Metered<L>)]
        ensures { result.now ≡ self.now.book.kept }
    {
        self.book.kept()
    }
}

impl<L: Link + Drop, R: Wait> MemDoor<L, R> {
    // The link for this number.
    fn link_for(&self, number: u64) -> Result<Metered<L>, AcceptFault>
        requires { number < LINKS }
        ensures { IfOk result (λ link. IsUnused (link_state L.Source L.Sink link.link) × (link ≡ record { link = link.link; meter = no_numbers })) }
    {
        if self.accept_fails.contains(&(number + 1)) {
            return Err(AcceptFault::Failed);
        }
        match self.stock.lock(&self.rt).next() {
            Some(link) => Ok(Metered::of(link)),
            None => Err(AcceptFault::Failed),
        }
    }
}

impl<L: Link + Drop, R: Wait> Door<Metered<L>> for MemDoor<L, R> {
    ghost state = { λ d. d.book };

    fn listen(
        &mut self,
        port: u16,
        links: u64,
        workers: u32,
    ) -> Result<Vec<DoorCount<Metered<L>>>, ListenFault> {
        let number = self.book.tries().saturating_add(1);
        self.book.add_try(port);
        if self.listen_fails.contains(&number) {
            self.book.add_fault();
            return Err(ListenFault::Failed);
        }
        match self.book.open(self.alloc, links, workers) {
            Ok(counts) => Ok(counts),
            Err(NoMemory) => Err(ListenFault::NoMemory),
        }
    }

    fn accept(&self, count: &mut DoorCount<Metered<L>>) -> Result<Option<Metered<L>>, AcceptFault> {
        let Some(number) = self.book.draw(&mut count.turn) else {
            return Ok(None);
        };
        let link = match count.kept.make_room(count.sums.out() + 1) {
            Ok(()) => self.link_for(number),
            Err(NoMemory) => Err(AcceptFault::NoMemory),
        };
        count.sums.count(link)
    }

    fn give_back(&self, count: &mut DoorCount<Metered<L>>, session: SessionNo, link: Metered<L>) {
        let meter = link.meter;
        count.take_back(session, link, meter);
    }

    fn settle(&mut self, counts: Vec<DoorCount<Metered<L>>>) -> Result<(), NoMemory>
        requires { AreAllCounts self.old.book counts.items }
        ensures settled { OnOk result (self.new.book ≡ after_settle self.old.book counts.items) }
        ensures links { OnOk result (self.new.book.given + self.new.book.failed + self.new.book.refused ≡ self.new.book.links) }
        ensures no_memory { IfErr result (λ _. self.new.book ≡ self.old.book) }
    {
        self.book.settle(counts)
    }
}
