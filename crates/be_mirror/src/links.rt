//! A worker that serves links of a door, each as a session of reads.

ghost use Rattle.std.specs.Prelude.{◌≡◌, ◌+◌, ◌<◌, ◌≤◌, IfOk, vec_len, vec_capacity};
ghost use Rattle.be_base.specs.declared.limits.TheConstants.{SEATS};
ghost use Rattle.be_door.specs.Counts.{IsSound};
ghost use Rattle.be_door.specs.Door.{IsOf, IsNew};
ghost use Rattle.be_door.specs.Links.{IsUnused};
ghost use Rattle.be_io.specs.Outside.{link_state};
ghost use Rattle.be_mirror.specs.Links.{ReadLinksServed, ReadWorkerServed};

use crate::session::Session;
use be_base::{NoMemory, SessionNo};
use be_door::{Door, DoorCount};
use be_io::{Gate, Link};
use be_protocol::SessionEnd;
use be_published::{Naming, Sheet};
use std::alloc::Global;

/// What a worker begins with.
#[derive(Drop)]
pub(crate) struct Job<T: Sheet<J>, J: Naming, L> {
    pub(crate) session: Session<T, J>,
    pub(crate) count: DoorCount<L>,
    // The worker's number, from 1.
    pub(crate) worker: u32,
}

/// What a worker leaves of the links that it served: its reader and its count, and how each session ended, in the order in which the
/// links were given back.
#[derive(Drop)]
pub(crate) struct WorkEnd<T: Sheet<J>, J: Naming, L> {
    pub(crate) session: Session<T, J>,
    pub(crate) count: DoorCount<L>,
    pub(crate) ends: Vec<SessionEnd>,
}

// Serves links until there are none left, as one of so many workers. It stops where there is no room for the next session's end.
pub(crate) fn serve_links<T: Sheet<J>, J: Naming, L: Link + Drop, D: Door<L>, G: Gate>(
    alloc: Global,
    door: &D,
    gate: &G,
    workers: u32,
    job: Job<T, J, L>,
) -> Result<WorkEnd<T, J, L>, NoMemory>
    requires few { (job.worker ≤ SEATS) × (workers ≤ SEATS) }
    requires new { IsNew (D.state door.now) job.count }
    ensures { IfOk result (λ end. ReadWorkerServed (link_state L.Source L.Sink) J.schema (D.state door.now) end.session end.count end.ends.items) }
{
    let Job {
        session,
        count,
        worker,
    } = job;
    let mut work = WorkEnd {
        session,
        count,
        ends: Vec::new(alloc),
    };
    loop {
        work.ends.reserve(1)?;
        match door.accept(&mut work.count) {
            Ok(Some(link)) => work = serve_next(door, gate, worker, workers, work, link),
            Ok(None) => return Ok(work),
            Err(_) => {}
        }
    }
}

// Serves the link that was given out last, and gives it back.
fn serve_next<T: Sheet<J>, J: Naming, L: Link + Drop, D: Door<L>, G: Gate>(
    door: &D,
    gate: &G,
    worker: u32,
    workers: u32,
    work: WorkEnd<T, J, L>,
    link: L,
) -> WorkEnd<T, J, L>
    requires few { (worker ≤ SEATS) × (workers ≤ SEATS) }
    requires of_last { IsOf (D.state door.now) work.count }
    requires out { (work.count.given ≡ work.count.back + 1) × IsSound work.count }
    requires room { vec_len work.ends < vec_capacity work.ends }
    requires unused { IsUnused (link_state L.Source L.Sink link) }
    requires served { ReadLinksServed (link_state L.Source L.Sink) J.schema work.session work.count work.ends.items }
    ensures served { ReadLinksServed (link_state L.Source L.Sink) J.schema result.session result.count result.ends.items }
    ensures back { (result.count.given ≡ work.count.given) × (result.count.back ≡ work.count.given) × (result.count.failed ≡ work.count.failed) × (result.count.refused ≡ work.count.refused) }
    ensures same { IsOf (D.state door.now) result.count × (result.count.ended ≡ work.count.ended) × (result.count.links ≡ work.count.links) }
{
    let WorkEnd {
        mut session,
        mut count,
        mut ends,
    } = work;
    // A worker's numbers are those of its first link and of each that is so many workers later.
    let number = SessionNo(u64::from(worker) + ends.len() as u64 * u64::from(workers));
    let mut link = link;
    let end = session.serve(&mut link, gate, worker);
    door.give_back(&mut count, number, link);
    ends.push_reserved(end);
    WorkEnd {
        session,
        count,
        ends,
    }
}
