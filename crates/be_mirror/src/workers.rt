//! Workers over one door, each with a reader and a count of its own.

ghost use Rattle.std.specs.Prelude.{◌≡◌, ◌≤◌, length, map, All, IfOk};
ghost use Rattle.std.specs.Arc.{arc_value};
ghost use Rattle.be_base.specs.declared.limits.TheConstants.{SEATS};
ghost use Rattle.be_door.specs.Door.{IsNew};
ghost use Rattle.be_io.specs.Outside.{link_state};
ghost use Rattle.be_mirror.specs.Links.{ReadWorkerServed};

use crate::links::{Job, WorkEnd, serve_links};
use crate::session::Session;
use be_base::NoMemory;
use be_door::{Door, DoorCount};
use be_io::{Gate, Link};
use be_model::Schema;
use be_published::{Glass, Naming, Sheet};
use std::alloc::{AllocError, Global};
use std::sync::Arc;
use std::thread;
use std::thread::Threads;

// Does each job by a worker of its own, until each has met the end of the links.
pub(crate) fn serve_jobs<
    T: Sheet<J> + Send + Sync,
    J: Naming + Send + Sync,
    R: Threads + Sync,
    L: Link + Drop + Send,
    D: Door<L> + Sync,
    G: Gate + Sync,
>(
    rt: &R,
    alloc: Global,
    door: &D,
    jobs: Vec<Job<T, J, L>>,
    gate: &G,
) -> Result<Vec<WorkEnd<T, J, L>>, NoMemory>
    requires few { length jobs.items ≤ SEATS }
    requires jobs { All (λ job. (job.worker ≤ SEATS) × IsNew (D.state door.now) job.count) jobs.items }
    ensures count { IfOk result (λ ends. length ends.items ≡ length jobs.items) }
    ensures ends { IfOk result (λ ends. All (λ end. ReadWorkerServed (link_state L.Source L.Sink) J.schema (D.state door.now) end.session end.count end.ends.items) ends.items) }
{
    let results = serve_each(rt, alloc, door, jobs, gate)?;
    all_done(alloc, results)
}

fn serve_each<
    T: Sheet<J> + Send + Sync,
    J: Naming + Send + Sync,
    R: Threads + Sync,
    L: Link + Drop + Send,
    D: Door<L> + Sync,
    G: Gate + Sync,
>(
    rt: &R,
    alloc: Global,
    door: &D,
    jobs: Vec<Job<T, J, L>>,
    gate: &G,
) -> Result<Vec<Result<WorkEnd<T, J, L>, NoMemory>>, AllocError>
    requires few { length jobs.items ≤ SEATS }
    requires jobs { All (λ job. (job.worker ≤ SEATS) × IsNew (D.state door.now) job.count) jobs.items }
    ensures count { IfOk result (λ ends. length ends.items ≡ length jobs.items) }
    ensures ends { IfOk result (λ ends. All (λ end. IfOk end (λ end. ReadWorkerServed (link_state L.Source L.Sink) J.schema (D.state door.now) end.session end.count end.ends.items)) ends.items) }
{
    let workers = jobs.len() as u32;
    thread::map_vec(
        rt,
        jobs,
        &|job: Job<T, J, L>| -> Result<WorkEnd<T, J, L>, NoMemory>
            requires { (workers ≤ SEATS) × (job.worker ≤ SEATS) × IsNew (D.state door.now) job.count }
            ensures { IfOk result (λ end. ReadWorkerServed (link_state L.Source L.Sink) J.schema (D.state door.entry.now) end.session end.count end.ends.items) }
        { serve_links(alloc, door, gate, workers, job) },
    )
}

// What all workers leave, where none of them stopped.
fn all_done<E: Drop>(alloc: Global, results: Vec<Result<E, NoMemory>>) -> Result<Vec<E>, NoMemory>
    ensures { IfOk result (λ ends. map (λ end. Ok end) ends.items ≡ results.items) }
{
    let mut ends = Vec::new(alloc);
    for result in results {
        ends.push(result?)?;
    }
    Ok(ends)
}

// A job for each glass, with its count.
pub(crate) fn jobs_for<T: Sheet<J>, J: Naming, L: Link + Drop, D: Door<L>>(
    alloc: Global,
    schema: Arc<Schema>,
    glasses: Vec<Glass<T, J>>,
    door: &D,
    counts: Vec<DoorCount<L>>,
) -> Result<Vec<Job<T, J, L>>, NoMemory>
    requires schema { arc_value schema ≡ J.schema }
    requires few { length glasses.items ≤ SEATS }
    requires count { length glasses.items ≡ length counts.items }
    requires new { All (IsNew (D.state door.now)) counts.items }
    ensures count { IfOk result (λ jobs. length jobs.items ≡ length glasses.items) }
    ensures new { IfOk result (λ jobs. All (λ job. (job.worker ≤ SEATS) × IsNew (D.state door.now) job.count) jobs.items) }
{
    let mut jobs = Vec::new(alloc);
    let mut worker: u32 = 0;
    let mut counts = counts.into_iter();
    for glass in glasses {
        let Some(count) = counts.next() else {
            unreachable!();
        };
        let schema = Arc::try_clone(&schema)?;
        worker += 1;
        jobs.push(Job {
            session: Session::over(alloc, schema, glass),
            count,
            worker,
        })?;
    }
    Ok(jobs)
}
