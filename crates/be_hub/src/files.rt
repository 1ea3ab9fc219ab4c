//! Files, each served by a worker of its own, beside a maintainer.

ghost use Rattle.std.specs.Prelude.{◌≡◌, ℕ, ◌≤◌, [], length, map, slice_get, Some, All, IfOk};
ghost use Rattle.be_base.specs.declared.limits.TheConstants.{FILE_BYTES, SEATS, ROUNDS};
ghost use Rattle.be_board.specs.Word.{own_in};
ghost use Rattle.be_desk.specs.Seats.{word_of};
ghost use Rattle.be_hub.specs.Files.{FileServed};

use crate::board::DeskBoard;
use crate::hub::Hub;
use crate::jobs::{Job, pairs_of};
use crate::quiet::{FileSource, Transcript};
use be_base::NoMemory;
use be_desk::{Broom, Seat, TendCount};
use be_io::{Gate, Pair};
use be_mail::{BoxNames, Post};
use be_published::{Naming, Sheet};
use be_session::{SessionEnd, serve_link};
use std::alloc::{AllocError, Global};
use std::sync::Wait;
use std::thread;
use std::thread::{Threads, join};
use std::time::Clock;

/// What a worker leaves of a file: its seat, what it wrote, how the session ended, and how many tends its board counted: none.
#[derive(Drop)]
pub struct FileEnd<T: Sheet<J>, J: Naming + BoxNames> {
    pub seat: Seat<T, J>,
    pub transcript: Vec<u8>,
    pub end: SessionEnd,
    pub asked: u64,
    ghost still: { asked ≡ 0 },
}

/// What all workers leave, in the order of the files, and the maintainer's broom.
#[derive(Drop)]
pub struct FileRun<T: Sheet<J>, J: Naming + BoxNames> {
    pub ends: Vec<FileEnd<T, J>>,
    pub broom: Broom,
}

// Serves a file as a session. The desk is left to the maintainer.
fn serve_file<T: Sheet<J>, J: Naming + BoxNames, S: Post, R: Wait + Clock, G: Gate>(
    rt: &R,
    alloc: Global,
    hub: &Hub<T, J, S>,
    gate: &G,
    job: Job<T, J, Vec<u8>>,
) -> FileEnd<T, J>
    requires first { own_in (word_of job.seat) ≡ [] }
    requires size { length job.task.items ≤ FILE_BYTES }
    ensures { FileServed J.schema job.task.items job.seat result.seat result.transcript.items result.end }
{
    let Job { seat, task, worker } = job;
    let mut board = DeskBoard::<T, J, S, R, 0>::make(rt, hub, seat, 0, TendCount::make());
    let mut link = Pair {
        source: FileSource::make(alloc, task),
        sink: Transcript::make(alloc),
    };
    let end = serve_link(
        alloc,
        &hub.schema,
        &mut board,
        &mut link,
        true,
        gate,
        worker,
    );
    let (seat, asked, _) = board.take();
    FileEnd {
        seat,
        transcript: link.sink.take(),
        end,
        asked,
    }
}

impl<T: Sheet<J> + Send + Sync, J: Naming + BoxNames + Send + Sync, S: Post + Send + Sync> Hub<
    T,
    J,
    S,
> {
    // So many calls of the maintainer.
    fn sweep<R: Wait>(&self, rt: &R, rounds: u64) -> Broom
        requires { rounds ≤ ROUNDS }
        ensures { result ≡ rounds }
    {
        let mut broom = Broom::make();
        for _ in 0..rounds {
            let mut guard = self.desk.lock(rt);
            guard.maintain(rt, &mut broom);
            self.leave_desk(guard);
        }
        broom
    }

    /// Serves each file by a worker of its own, beside a maintainer of so many calls. The workers' numbers are those of their
    /// files, from 1. It may wait.
    pub fn run_files<R: Threads + Wait + Clock + Sync, G: Gate + Sync>(
        &self,
        rt: &R,
        alloc: Global,
        seats: Vec<Seat<T, J>>,
        files: Vec<Vec<u8>>,
        rounds: u64,
        gate: &G,
    ) -> Result<FileRun<T, J>, NoMemory>
        requires count { length seats.items ≡ length files.items }
        requires few { length files.items ≤ SEATS }
        requires first { All (λ seat. own_in (word_of seat) ≡ []) seats.items }
        requires size { All (λ file. length file.items ≤ FILE_BYTES) files.items }
        requires rounds { rounds ≤ ROUNDS }
        ensures count { IfOk result (λ run. length run.ends.items ≡ length files.items) }
        ensures ends { IfOk result (λ run. (i : ℕ) (seat : _) (file : _) (end : _) → slice_get seats.items i ≡ Some seat → slice_get files.items i ≡ Some file → slice_get run.ends.items i ≡ Some end
            → FileServed J.schema file.items seat end.seat end.transcript.items end.end) }
        ensures rounds { IfOk result (λ run. run.broom ≡ rounds) }
    {
        let jobs = jobs_of(alloc, seats, files)?;
        let (ends, broom) = join(
            rt,
            || -> Result<Vec<FileEnd<T, J>>, AllocError>
                requires jobs { All (λ job. (own_in (word_of job.seat) ≡ []) × (length job.task.items ≤ FILE_BYTES)) jobs.items }
                ensures count { IfOk result (λ ends. length ends.items ≡ length jobs.items) }
                ensures ends { IfOk result (λ ends. (i : ℕ) (job : _) (end : _) → slice_get jobs.items i ≡ Some job → slice_get ends.items i ≡ Some end
                    → FileServed J.schema job.task.items job.seat end.seat end.transcript.items end.end) }
            { self.serve_all(rt, alloc, jobs, gate) },
            || -> Broom
                requires { rounds ≤ ROUNDS }
                ensures { result ≡ rounds }
            { self.sweep(rt, rounds) },
        );
        Ok(FileRun { ends: ends?, broom })
    }

    // Serves each job by a worker of its own.
    fn serve_all<R: Threads + Wait + Clock + Sync, G: Gate + Sync>(
        &self,
        rt: &R,
        alloc: Global,
        jobs: Vec<Job<T, J, Vec<u8>>>,
        gate: &G,
    ) -> Result<Vec<FileEnd<T, J>>, AllocError>
        requires jobs { All (λ job. (own_in (word_of job.seat) ≡ []) × (length job.task.items ≤ FILE_BYTES)) jobs.items }
        ensures count { IfOk result (λ ends. length ends.items ≡ length jobs.items) }
        ensures ends { IfOk result (λ ends. (i : ℕ) (job : _) (end : _) → slice_get jobs.items i ≡ Some job → slice_get ends.items i ≡ Some end → FileServed J.schema job.task.items job.seat end.seat end.transcript.items end.end) }
    {
        thread::map_vec(
            rt,
            jobs,
            &|job: Job<T, J, Vec<u8>>| -> FileEnd<T, J>
                requires { (own_in (word_of job.seat) ≡ []) × (length job.task.items ≤ FILE_BYTES) }
                ensures { FileServed J.schema job.task.items job.seat result.seat result.transcript.items result.end }
            { serve_file(rt, alloc, self, gate, job) },
        )
    }
}

// A job for each file. No session has an accepted change yet, and no file is too long.
fn jobs_of<T: Sheet<J>, J: Naming + BoxNames>(
    alloc: Global,
    seats: Vec<Seat<T, J>>,
    files: Vec<Vec<u8>>,
) -> Result<Vec<Job<T, J, Vec<u8>>>, NoMemory>
    requires count { length seats.items ≡ length files.items }
    requires first { All (λ seat. own_in (word_of seat) ≡ []) seats.items }
    requires size { All (λ file. length file.items ≤ FILE_BYTES) files.items }
    ensures seats { IfOk result (λ jobs. map (λ job. job.seat) jobs.items ≡ seats.items) }
    ensures files { IfOk result (λ jobs. map (λ job. job.task) jobs.items ≡ files.items) }
    ensures may { IfOk result (λ jobs. All (λ job. (own_in (word_of job.seat) ≡ []) × (length job.task.items ≤ FILE_BYTES)) jobs.items) }
{
    let jobs = pairs_of(alloc, seats, files)?;
    Ok(jobs)
}
