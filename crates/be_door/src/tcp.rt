//! A door on the loopback address.

ghost use Rattle.std.specs.Prelude.{◌≡◌, ◌+◌, IfErr, IfOk, OnOk, false};
ghost use Rattle.be_io.specs.Gathered.{new_gathered};
ghost use Rattle.be_io.specs.declared.gathered.TheConstants.{GATHERED_BYTES};
ghost use Rattle.be_door.specs.Door.{AreAllCounts, new_door, door_sums, after_settle};
ghost use Rattle.be_door.specs.Links.{no_numbers};

use crate::accept_errors::is_passing;
use crate::book::Book;
use crate::count::DoorCount;
use crate::door::Door;
use crate::pause::Pause;
use crate::sums::Sums;
use crate::tcp_link::TcpLink;
use be_base::{NoMemory, SessionNo};
use be_io::{AcceptFault, GATHERED_BYTES, Gathered, ListenFault};
use std::alloc::Global;
use std::net::{Ipv4Addr, Net, OpenListener, TcpListener};
use std::sync::Wait;
use std::time::Clock;

/// A door that gives out the connections to a port of 127.0.0.1, each with a buffer in which it gathers what is written,
/// and drops those that come back.
#[derive(Drop)]
pub struct TcpDoor<R: Net> {
    rt: R,
    alloc: Global,
    listener: Option<R::Listener>,
    book: Book<Gathered<TcpLink<R>>>,
}

impl<R: Net> TcpDoor<R> {
    /// A door that doesn't listen yet. It takes no memory.
    pub fn make(rt: R, alloc: Global) -> TcpDoor<R>
        ensures { result.book ≡ new_door false }
    {
        TcpDoor {
            rt,
            alloc,
            listener: None,
            book: Book::make(alloc, false),
        }
    }

    /// What the last listen came to, once it is settled.
    pub fn sums(&self) -> Sums
        ensures { result ≡ door_sums self.now.book }
    {
        self.book.sums()
    }

    /// The port at which it listens. After a listen at port 0 it is the one that the system chose.
    pub fn local_port(&self) -> Option<u16> {
        let address = self.listener.as_ref()?.local_addr().ok()?;
        Some(address.port())
    }
}

impl<R: Net + Wait + Clock> TcpDoor<R> {
    /// The connection with its buffer.
    fn gathered(&self, link: TcpLink<R>) -> Result<Gathered<TcpLink<R>>, AcceptFault>
        ensures { IfOk result (λ gathered. gathered ≡ new_gathered link GATHERED_BYTES) }
    {
        Gathered::make(self.alloc, link, GATHERED_BYTES).map_err(|_| AcceptFault::NoMemory)
    }

    // The next connection. It waits until there is one; where the system can't give one now, it asks again after a pause.
    fn next_link(&self) -> Result<Gathered<TcpLink<R>>, AcceptFault>
        ensures { IfOk result (λ link. link ≡ new_gathered (record { stream = link.sink.stream; meter = no_numbers }) GATHERED_BYTES) }
    {
        let Some(listener) = &self.listener else {
            return Err(AcceptFault::Failed);
        };
        let mut pause = Pause::first();
        for _ in self.rt.forever() {
            match listener.accept() {
                Ok((stream, _peer)) => return self.gathered(TcpLink::of(stream)),
                Err(error) if is_passing(&error) => {}
                Err(_) => return Err(AcceptFault::Failed),
            }
            pause.take(&self.rt);
        }
        Err(AcceptFault::Failed)
    }
}

impl<R: Net + Wait + Clock> Door<Gathered<TcpLink<R>>> for TcpDoor<R> {
    ghost state = { λ d. d.book };

    fn listen(
        &mut self,
        port: u16,
        links: u64,
        workers: u32,
    ) -> Result<Vec<DoorCount<Gathered<TcpLink<R>>>>, ListenFault> {
        self.book.add_try(port);
        let Ok(listener) = TcpListener::bind(&self.rt, (Ipv4Addr::LOCALHOST, port)) else {
            self.book.add_fault();
            return Err(ListenFault::Failed);
        };
        let Ok(counts) = self.book.open(self.alloc, links, workers) else {
            return Err(ListenFault::NoMemory);
        };
        self.listener = Some(listener);
        Ok(counts)
    }

    fn accept(
        &self,
        count: &mut DoorCount<Gathered<TcpLink<R>>>,
    ) -> Result<Option<Gathered<TcpLink<R>>>, AcceptFault> {
        if self.book.draw(&mut count.turn).is_none() {
            return Ok(None);
        }
        let link = match count.kept.make_room(count.sums.out() + 1) {
            Ok(()) => self.next_link(),
            Err(NoMemory) => Err(AcceptFault::NoMemory),
        };
        count.sums.count(link)
    }

    fn give_back(
        &self,
        count: &mut DoorCount<Gathered<TcpLink<R>>>,
        session: SessionNo,
        link: Gathered<TcpLink<R>>,
    ) {
        let meter = link.sink().meter;
        count.take_back(session, link, meter);
    }

    fn settle(&mut self, counts: Vec<DoorCount<Gathered<TcpLink<R>>>>) -> Result<(), NoMemory>
        requires { AreAllCounts self.old.book counts.items }
        ensures settled { OnOk result (self.new.book ≡ after_settle self.old.book counts.items) }
        ensures links { OnOk result (self.new.book.given + self.new.book.failed + self.new.book.refused ≡ self.new.book.links) }
        ensures no_memory { IfErr result (λ _. self.new.book ≡ self.old.book) }
    {
        self.book.settle(counts)?;
        self.listener = None;
        Ok(())
    }
}
