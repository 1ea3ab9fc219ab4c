//! Workers over one door, each with a seat and a count of its own.

ghost use Rattle.std.specs.Prelude.{◌≡◌, ℕ, ◌≤◌, ◌<◌, length, map, slice_get, Some, Ok, All, IfOk};
ghost use Rattle.be_base.specs.declared.limits.TheConstants.{SEATS};
ghost use Rattle.be_door.specs.Door.{DoorState, IsNew};
ghost use Rattle.be_hub.specs.Links.{MayStart, MayBegin, WorkerServed};
ghost use Rattle.be_io.specs.Outside.{link_state};

use crate::hub::Hub;
use crate::jobs::{Job, pairs_of};
use crate::links::{WorkEnd, serve_links};
use be_base::NoMemory;
use be_desk::Seat;
use be_door::{Door, DoorCount};
use be_io::{Gate, Link};
use be_mail::{BoxNames, Post};
use be_published::{Naming, Sheet};
use std::alloc::{AllocError, Global};
use std::sync::Wait;
use std::thread;
use std::thread::Threads;
use std::time::Clock;

impl<T: Sheet<J> + Send + Sync, J: Naming + BoxNames + Send + Sync, S: Post + Send + Sync> Hub<
    T,
    J,
    S,
> {
    /// Serves the links of a door, by one worker a seat, until each has met their end. The workers' numbers are those of their
    /// seats, from 1. It may wait.
    pub fn run_door<
        R: Threads + Wait + Clock + Sync,
        L: Link + Drop + Send,
        D: Door<L> + Sync,
        G: Gate + Sync,
    >(
        &self,
        rt: &R,
        alloc: Global,
        seats: Vec<Seat<T, J>>,
        door: &D,
        counts: Vec<DoorCount<L>>,
        gate: &G,
    ) -> Result<Vec<WorkEnd<T, J, L>>, NoMemory>
        requires few { (0 < length J.boxes) × (length J.boxes ≤ SEATS) }
        requires count { length seats.items ≡ length counts.items }
        requires start { All MayStart seats.items }
        requires new { All (IsNew (D.state door.now)) counts.items }
        ensures count { IfOk result (λ ends. length ends.items ≡ length seats.items) }
        ensures ends { IfOk result (λ ends. (i : ℕ) (seat : _) (end : _) → slice_get seats.items i ≡ Some seat → slice_get ends.items i ≡ Some end
            → WorkerServed (link_state L.Source L.Sink) J.schema J.boxes (D.state door.now) seat end.seat end.count end.ends.items end.tended end.asked end.between) }
    {
        let jobs = jobs_for::<T, J, L, D>(alloc, seats, door, counts)?;
        let ends = self.serve_doors(rt, alloc, door, jobs, gate)?;
        all_done(alloc, ends)
    }

    // Does each job by a worker of its own.
    fn serve_doors<
        R: Threads + Wait + Clock + Sync,
        L: Link + Drop + Send,
        D: Door<L> + Sync,
        G: Gate + Sync,
    >(
        &self,
        rt: &R,
        alloc: Global,
        door: &D,
        jobs: Vec<Job<T, J, DoorCount<L>>>,
        gate: &G,
    ) -> Result<Vec<Result<WorkEnd<T, J, L>, NoMemory>>, AllocError>
        requires few { (0 < length J.boxes) × (length J.boxes ≤ SEATS) }
        requires jobs { All (λ job. MayBegin (D.state door.now) job.seat job.task) jobs.items }
        ensures count { IfOk result (λ ends. length ends.items ≡ length jobs.items) }
        ensures ends { IfOk result (λ ends. (i : ℕ) (job : _) (end : _) → slice_get jobs.items i ≡ Some job → slice_get ends.items i ≡ Some (Ok end)
            → WorkerServed (link_state L.Source L.Sink) J.schema J.boxes (D.state door.now) job.seat end.seat end.count end.ends.items end.tended end.asked end.between) }
    {
        thread::map_vec(
            rt,
            jobs,
            &|job: Job<T, J, DoorCount<L>>| -> Result<WorkEnd<T, J, L>, NoMemory>
                requires { (0 < length J.boxes) × (length J.boxes ≤ SEATS) × MayBegin (D.state door.now) job.seat job.task }
                ensures { IfOk result (λ end. WorkerServed (link_state L.Source L.Sink) J.schema J.boxes (D.state door.entry.now) job.seat end.seat end.count end.ends.items end.tended end.asked end.between) }
            { serve_links(rt, alloc, self, door, gate, job) },
        )
    }
}

// A job for each seat, with its count.
fn jobs_for<T: Sheet<J>, J: Naming + BoxNames, L: Link + Drop, D: Door<L>>(
    alloc: Global,
    seats: Vec<Seat<T, J>>,
    door: &D,
    counts: Vec<DoorCount<L>>,
) -> Result<Vec<Job<T, J, DoorCount<L>>>, NoMemory>
    requires count { length seats.items ≡ length counts.items }
    requires start { All MayStart seats.items }
    requires new { All (IsNew (D.state door.now)) counts.items }
    ensures seats { IfOk result (λ jobs. map (λ job. job.seat) jobs.items ≡ seats.items) }
    ensures may { IfOk result (λ jobs. All (λ job. MayBegin (D.state door.now) job.seat job.task) jobs.items) }
{
    let jobs = pairs_of(alloc, seats, counts)?;
    Ok(jobs)
}

// What all workers leave, where none of them stopped.
fn all_done<E: Drop>(alloc: Global, results: Vec<Result<E, NoMemory>>) -> Result<Vec<E>, NoMemory>
    ensures { IfOk result (λ ends. map (λ end. Ok end) ends.items ≡ results.items) }
{
    let mut ends = Vec::new(alloc);
    for result in results {
        ends.push(result?)?;
    }
    Ok(ends)
}
