//! The links of a door served and the hub closed, in one call.

ghost use Rattle.std.specs.Prelude.{◌≡◌, ℕ, ◌≤◌, ◌<◌, List, Some, slice_get, length, map, IfOk, IfErr};
ghost use Rattle.std.specs.List.{range_with_len};
ghost use Rattle.std.specs.Option.{is_some};
ghost use Rattle.be_base.specs.declared.limits.TheConstants.{LINKS, SEATS};
ghost use Rattle.be_change.specs.Sound.{Sound};
ghost use Rattle.be_mail.specs.Passes.{Passes};
ghost use Rattle.be_mail.specs.Settled.{AreAll};
ghost use Rattle.be_desk.specs.Seats.{first_seat};
ghost use Rattle.be_hub.specs.Posted.{WasBox};
ghost use Rattle.be_hub.specs.Serving.{LinksAreServed, LeavesDoor, served_door, fault_of_listen, fault_of_close};
ghost use Rattle.be_io.specs.Outside.{link_state};

use crate::close::{CloseFault, Closed};
use crate::hub::Hub;
use crate::settling::{LinksLeft, settle_links};
use be_change::ChangeLog;
use be_desk::{Rift, Seat, Stray};
use be_door::{Door, Sums};
use be_io::{Gate, Link, ListenFault};
use be_mail::{BoxNames, Post};
use be_published::{Naming, Shade, Sheet};
use std::alloc::Global;
use std::sync::Wait;
use std::thread::Threads;
use std::time::Clock;

/// What is left once all links of a door were served: the closing list, and the door's numbers.
#[derive(Drop)]
pub struct Served {
    pub log: ChangeLog,
    pub sums: Sums,
    /// What shows that a reader was refused an entry, where one was.
    pub shade: Option<Shade>,
}

/// Why no list is given.
#[derive(Drop)]
pub enum ServeFault {
    /// The door can't listen.
    Failed,
    /// A seat has seen more than what is published.
    Split(Rift),
    /// The records of the seats and the list differ.
    Stray(Stray),
    NoMemory,
}

impl From<ListenFault> for ServeFault {
    ghost from_gives = { λ fault given. given ≡ fault_of_listen fault };

    fn from(fault: ListenFault) -> ServeFault {
        match fault {
            ListenFault::Failed => ServeFault::Failed,
            ListenFault::NoMemory => ServeFault::NoMemory,
        }
    }
}

impl From<CloseFault> for ServeFault {
    ghost from_gives = { λ fault given. given ≡ fault_of_close fault };

    fn from(fault: CloseFault) -> ServeFault {
        match fault {
            CloseFault::Split(rift) => ServeFault::Split(rift),
            CloseFault::Stray(stray) => ServeFault::Stray(stray),
            CloseFault::NoMemory => ServeFault::NoMemory,
        }
    }
}

impl<T: Sheet<J> + Send + Sync, J: Naming + BoxNames + Send + Sync, S: Post + Send + Sync> Hub<
    T,
    J,
    S,
> {
    /// Serves so many links of a door, by one worker a seat, settles the door and closes the hub. It may wait. The first fault
    /// that applies is given: the door can't listen; want of memory, to an accept and a session too; two numbers that differ;
    /// records that differ from the list.
    pub fn serve<
        R: Threads + Wait + Clock + Sync,
        L: Link + Drop + Send,
        D: Door<L> + Sync,
        G: Gate + Sync,
    >(
        self,
        rt: &R,
        alloc: Global,
        seats: Vec<Seat<T, J>>,
        door: &mut D,
        port: u16,
        links: u64,
        gate: &G,
    ) -> Result<Served, ServeFault>
        requires seats { seats.items ≡ map (first_seat J.opening J.boxes) (range_with_len 0 (length J.boxes)) }
        requires few { (0 < length J.boxes) × (length J.boxes ≤ SEATS) }
        requires links { links ≤ LINKS }
        ensures served { IfOk result (λ served. LinksAreServed (link_state L.Source L.Sink) J.schema J.opening served.log.list (is_some served.shade)
            (length J.boxes) links served.sums (D.state door.new).keeps (D.state door.new).kept) }
        // Each worker's box was a mailbox, as the close found it, and each mailbox is one of these.
        ensures letters { IfOk result (λ served. (told : LinksAreServed (link_state L.Source L.Sink) J.schema J.opening served.log.list (is_some served.shade)
            (length J.boxes) links served.sums (D.state door.new).keeps (D.state door.new).kept)
            × (passes : List Passes) × AreAll J.boxes passes × ((i : ℕ) (worker : _) → slice_get told.workers i ≡ Some worker → WasBox S.schema S.found J.boxes passes i worker.box)) }
        ensures sound { IfOk result (λ served. Sound J.schema served.log.list) }
        ensures door { IfOk result (λ served. D.state door.new ≡ served_door (D.state door.old) port links (length J.boxes) served.sums (D.state door.new).kept) }
        ensures fault { IfErr result (λ fault. LeavesDoor (D.state door.old) (D.state door.new) port links (length J.boxes) fault) }
    {
        let counts = match door.listen(port, links, seats.len() as u32) {
            Ok(counts) => counts,
            Err(fault) => {
                self.end(rt);
                return Err(ServeFault::from(fault));
            }
        };
        let Ok(ends) = self.run_door(rt, alloc, seats, &*door, counts, gate) else {
            self.end(rt);
            return Err(ServeFault::NoMemory);
        };
        let LinksLeft { seats, sums, shade } = match settle_links(alloc, door, ends) {
            Ok(left) => left,
            Err(fault) => {
                self.end(rt);
                return Err(ServeFault::from(fault));
            }
        };
        match self.close(rt, alloc, seats) {
            Ok(Closed { log }) => Ok(Served { log, sums, shade }),
            Err(fault) => Err(ServeFault::from(fault)),
        }
    }
}
