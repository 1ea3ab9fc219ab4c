//! What each worker is given.

ghost use Rattle.std.specs.Prelude.{◌≡◌, length, map, IfOk};

use be_base::NoMemory;
use be_desk::Seat;
use be_mail::BoxNames;
use be_published::{Naming, Sheet};
use std::alloc::Global;

/// A seat, and what its worker is to do.
#[derive(Drop)]
pub(crate) struct Job<T: Sheet<J>, J: Naming + BoxNames, X> {
    pub(crate) seat: Seat<T, J>,
    pub(crate) task: X,
    // The worker's number, from 1.
    pub(crate) worker: u32,
}

// Each seat with its task.
pub(crate) fn pairs_of<T: Sheet<J>, J: Naming + BoxNames, X: Drop>(
    alloc: Global,
    seats: Vec<Seat<T, J>>,
    tasks: Vec<X>,
) -> Result<Vec<Job<T, J, X>>, NoMemory>
    requires { length seats.items ≡ length tasks.items }
    ensures seats { IfOk result (λ jobs. map (λ job. job.seat) jobs.items ≡ seats.items) }
    ensures tasks { IfOk result (λ jobs. map (λ job. job.task) jobs.items ≡ tasks.items) }
{
    let mut jobs = Vec::new(alloc);
    let mut worker: u32 = 0;
    let mut tasks = tasks.into_iter();
    for seat in seats {
        let Some(task) = tasks.next() else {
            unreachable!();
        };
        worker = worker.saturating_add(1);
        jobs.push(Job { seat, task, worker })?;
    }
    Ok(jobs)
}
