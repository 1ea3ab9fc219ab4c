//! The counts of all sessions.

ghost use Rattle.std.specs.Prelude.{◌≡◌, ℕ, ◌+◌, ◌-◌, ◌<◌, ◌≤◌, length, map, slice_get, slice_index, Some, All, IfOk};
ghost use Rattle.be_base.specs.declared.limits.TheConstants.{FILE_BYTES, SEATS};
ghost use Rattle.be_heat.specs.Seats.{IsOf, new_seat};
ghost use Rattle.be_demand.specs.Demand.{AreOver, demand};
ghost use Rattle.be_demand.specs.Jobs.{AreJobs, CountsAt, done, plain};

use crate::counting::count_session;
use be_base::{AttrNo, NoMemory};
use be_heat::{Heat, HeatSeat};
use be_model::Schema;
use std::alloc::Global;
use std::marker::Model;
use std::thread::{self, Threads};

/// What the answered events of all sessions ask for.
#[derive(Drop)]
pub struct Demand {
    // The number of HITs, and then that of each attribute.
    words: Vec<u64>,
}

impl Model for Demand {
    ghost use Rattle.std.specs.Prelude.{◌<◌, length};
    ghost use Rattle.be_demand.specs.Demand.{DemandState};
    ghost use Rattle.be_demand.specs.Jobs.{told_by};

    ghost Value = { DemandState };

    ghost view = { λ d. told_by d.words.items };

    ghost invariant = { λ d. 0 < length d.words.items };
}

impl Demand {
    /// How many replies are a HIT.
    pub fn hits(&self) -> u64
        ensures { result ≡ self.now.hits }
    {
        self.words[0]
    }

    /// How many of these answer an event that assigns the attribute.
    pub fn asked(&self, a: AttrNo) -> u64
        requires { a.0 < length self.now.asked }
        ensures { result ≡ slice_index self.now.asked a.0 }
    {
        self.words[usize::from(a.0) + 1]
    }

    /// How many of them answer an event that doesn't.
    pub fn missed(&self, a: AttrNo) -> u64
        requires { a.0 < length self.now.asked }
        ensures { result ≡ self.now.hits - slice_index self.now.asked a.0 }
    {
        self.hits().saturating_sub(self.asked(a))
    }
}

// A worker's seat, and the place of the file that it counts.
#[derive(Drop)]
struct CountJob {
    seat: HeatSeat,
    place: usize,
}

/// Counts each file beside its transcript, by a worker of its own. The workers count into words that they share.
pub fn count_all<R: Threads + Sync>(
    rt: &R,
    alloc: Global,
    schema: &Schema,
    files: &[Vec<u8>],
    transcripts: &[Vec<u8>],
) -> Result<Demand, NoMemory>
    requires some { 0 < length files.now }
    requires few { length files.now ≤ SEATS }
    requires each { length transcripts.now ≡ length files.now }
    requires short { All (λ file. length file.items ≤ FILE_BYTES) files.now }
    ensures long { IfOk result (λ d. length d.asked ≡ length schema.now) }
    ensures exact { IfOk result (λ d. (sessions : _) → AreOver schema.now (map plain files.now) (map plain transcripts.now) sessions → d ≡ demand schema.now sessions) }
{
    let words = 1 + u32::from(schema.count());
    let (heat, seats) = Heat::make(alloc, words, files.len() as u32)?;
    let jobs = jobs_of(alloc, seats)?;
    let ends = count_each(rt, alloc, schema, &heat, jobs, files, transcripts)?;
    let words = heat.close(seats_of(alloc, ends)?)?;
    Ok(Demand { words })
}

// A job for each seat, in the order of the files.
fn jobs_of(alloc: Global, seats: Vec<HeatSeat>) -> Result<Vec<CountJob>, NoMemory>
    ensures { IfOk result (λ jobs. AreJobs seats.items jobs.items) }
{
    let mut jobs = Vec::new(alloc);
    for seat in seats {
        let place = jobs.len();
        jobs.push(CountJob { seat, place })?;
    }
    Ok(jobs)
}

// Does each job by a worker of its own.
fn count_each<R: Threads + Sync>(
    rt: &R,
    alloc: Global,
    schema: &Schema,
    heat: &Heat,
    jobs: Vec<CountJob>,
    files: &[Vec<u8>],
    transcripts: &[Vec<u8>],
) -> Result<Vec<Result<HeatSeat, NoMemory>>, NoMemory>
    requires words { heat.now.words ≡ 1 + length schema.now }
    requires jobs { All (λ job. (job.seat ≡ new_seat heat.now.of heat.now.words) × (job.place < length files.now)) jobs.items }
    requires each { length transcripts.now ≡ length files.now }
    requires short { All (λ file. length file.items ≤ FILE_BYTES) files.now }
    ensures count { IfOk result (λ ends. length ends.items ≡ length jobs.items) }
    ensures ends { IfOk result (λ ends. (i : ℕ) (job : _) (end : _) → slice_get jobs.items i ≡ Some job → slice_get ends.items i ≡ Some end
        → IfOk end (CountsAt schema.now heat.now (map plain files.now) (map plain transcripts.now) job.place)) }
{
    let ends = thread::map_vec(
        rt,
        jobs,
        &|job: CountJob| -> Result<HeatSeat, NoMemory>
            requires { (job.seat ≡ new_seat heat.now.of heat.now.words) × (job.place < length files.now) × (heat.now.words ≡ 1 + length schema.now)
                × (length transcripts.now ≡ length files.now) × All (λ file. length file.items ≤ FILE_BYTES) files.now }
            ensures { IfOk result (CountsAt schema.entry.now heat.entry.now (map plain files.entry.now) (map plain transcripts.entry.now) job.place) }
        { count_job(alloc, schema, heat, job, files, transcripts) },
    );
    Ok(ends?)
}

// Counts the file of a job, and gives the seat back.
fn count_job(
    alloc: Global,
    schema: &Schema,
    heat: &Heat,
    job: CountJob,
    files: &[Vec<u8>],
    transcripts: &[Vec<u8>],
) -> Result<HeatSeat, NoMemory>
    requires words { heat.now.words ≡ 1 + length schema.now }
    requires new { job.seat ≡ new_seat heat.now.of heat.now.words }
    requires place { job.place < length files.now }
    requires each { length transcripts.now ≡ length files.now }
    requires short { All (λ file. length file.items ≤ FILE_BYTES) files.now }
    ensures { IfOk result (CountsAt schema.now heat.now (map plain files.now) (map plain transcripts.now) job.place) }
{
    let CountJob { mut seat, place } = job;
    let file = files[place].as_slice();
    let transcript = transcripts[place].as_slice();
    count_session(alloc, schema, heat, &mut seat, file, transcript)?;
    Ok(seat)
}

// All seats, where each file was counted.
fn seats_of(alloc: Global, ends: Vec<Result<HeatSeat, NoMemory>>) -> Result<Vec<HeatSeat>, NoMemory>
    ensures { IfOk result (λ seats. map done seats.items ≡ ends.items) }
{
    let mut seats = Vec::new(alloc);
    for end in ends {
        seats.push(end?)?;
    }
    Ok(seats)
}
