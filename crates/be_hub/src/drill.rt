//! Files served and the hub closed, in one call.

ghost use Rattle.std.specs.Prelude.{◌≡◌, ℕ, ◌≤◌, ◌↔◌, List, None, Some, slice_get, length, map, find, option_copied, All, IfOk};
ghost use Rattle.std.specs.List.{list_any, range_with_len};
ghost use Rattle.std.specs.Option.{is_some};
ghost use Rattle.be_base.specs.declared.limits.TheConstants.{FILE_BYTES, SEATS, ROUNDS};
ghost use Rattle.be_change.specs.Sound.{Sound};
ghost use Rattle.be_mail.specs.Passes.{Passes};
ghost use Rattle.be_mail.specs.Settled.{AreAll};
ghost use Rattle.be_desk.specs.Seats.{first_seat, IsKeptSeat};
ghost use Rattle.be_hub.specs.Files.{IsRead, lacks_memory, is_split_end, IsEndOf};
ghost use Rattle.be_hub.specs.Posted.{WasBox};
ghost use Rattle.be_hub.specs.Transcripts.{AreServed};

use crate::close::{CloseFault, Closed};
use crate::files::{FileEnd, FileRun};
use crate::hub::Hub;
use be_change::ChangeLog;
use be_desk::{Broom, Seat};
use be_io::Gate;
use be_mail::{BoxNames, Post};
use be_published::{Naming, Shade, Sheet};
use be_session::SessionEnd;
use std::alloc::Global;
use std::sync::Wait;
use std::thread::Threads;
use std::time::Clock;

/// What is left once each file is served, in the order of the files, and the closing list.
#[derive(Drop)]
pub struct Drilled {
    pub transcripts: Vec<Vec<u8>>,
    pub log: ChangeLog,
    /// The calls of the maintainer.
    pub broom: Broom,
    /// What shows that a reader was refused an entry, where one was.
    pub shade: Option<Shade>,
}

// What the workers leave, where each file was read to its end or to a QUIT.
#[derive(Drop)]
struct Left<T: Sheet<J>, J: Naming + BoxNames> {
    seats: Vec<Seat<T, J>>,
    transcripts: Vec<Vec<u8>>,
    shade: Option<Shade>,
}

impl<T: Sheet<J> + Send + Sync, J: Naming + BoxNames + Send + Sync, S: Post + Send + Sync> Hub<
    T,
    J,
    S,
> {
    /// Serves each file as a session, by a worker of its own and beside a maintainer of so many calls, and closes the hub. It
    /// may wait. The first fault that applies is given: want of memory, two numbers that differ, records that differ from the
    /// list.
    pub fn drill<R: Threads + Wait + Clock + Sync, G: Gate + Sync>(
        self,
        rt: &R,
        alloc: Global,
        seats: Vec<Seat<T, J>>,
        files: Vec<Vec<u8>>,
        rounds: u64,
        gate: &G,
    ) -> Result<Drilled, CloseFault>
        requires seats { seats.items ≡ map (first_seat J.opening J.boxes) (range_with_len 0 (length files.items)) }
        requires count { length files.items ≡ length J.boxes }
        requires few { length files.items ≤ SEATS }
        requires size { All (λ file. length file.items ≤ FILE_BYTES) files.items }
        requires rounds { rounds ≤ ROUNDS }
        ensures served { IfOk result (λ drilled. AreServed J.schema J.opening drilled.log.list (is_some drilled.shade)
            (map (λ file. file.items) files.items) (map (λ transcript. transcript.items) drilled.transcripts.items)) }
        // Each box was a mailbox, as the close found it.
        ensures letters { IfOk result (λ drilled. (served : AreServed J.schema J.opening drilled.log.list (is_some drilled.shade)
            (map (λ file. file.items) files.items) (map (λ transcript. transcript.items) drilled.transcripts.items))
            × (passes : List Passes) × AreAll J.boxes passes × ((i : ℕ) (box : _) → slice_get served.boxes i ≡ Some box → WasBox S.schema S.found J.boxes passes i box)) }
        ensures sound { IfOk result (λ drilled. Sound J.schema drilled.log.list) }
        ensures rounds { IfOk result (λ drilled. drilled.broom ≡ rounds) }
    {
        let Ok(run) = self.run_files(rt, alloc, seats, files, rounds, gate) else {
            self.end(rt);
            return Err(CloseFault::NoMemory);
        };
        let FileRun { ends, broom } = run;
        let Left {
            seats,
            transcripts,
            shade,
        } = match left_by(alloc, ends) {
            Ok(left) => left,
            Err(fault) => {
                self.end(rt);
                return Err(fault);
            }
        };
        let Closed { log } = self.close(rt, alloc, seats)?;
        Ok(Drilled {
            transcripts,
            log,
            broom,
            shade,
        })
    }
}

// Parts what the workers leave, or says why there is no list to be given.
fn left_by<T: Sheet<J>, J: Naming + BoxNames>(
    alloc: Global,
    ends: Vec<FileEnd<T, J>>,
) -> Result<Left<T, J>, CloseFault>
    requires ends { All (λ end. IsEndOf end.seat end.end) ends.items }
    ensures seats { IfOk result (λ left. left.seats.items ≡ map (λ end. end.seat) ends.items) }
    ensures transcripts { IfOk result (λ left. map (λ t. t.items) left.transcripts.items ≡ map (λ end. end.transcript.items) ends.items) }
    ensures kept { IfOk result (λ left. All (IsKeptSeat J.boxes) left.seats.items) }
    ensures read { IfOk result (λ _. All (λ end. IsRead end.end) ends.items) }
    ensures shade { IfOk result (λ left. (left.shade ≡ None) ↔ All (λ end. end.seat.glass.shuts ≡ 0) ends.items) }
{
    if let Some(fault) = fault_of(ends.as_slice()) {
        return Err(fault);
    }
    let mut seats = Vec::new(alloc);
    let mut transcripts = Vec::new(alloc);
    let mut shade = None;
    for end in ends {
        let FileEnd {
            seat,
            transcript,
            end: _,
            asked: _,
        } = end;
        // Called for what its type keeps.
        let _ = seat.session();
        shade = shade.or(seat.shade());
        if seats.push(seat).is_err() || transcripts.push(transcript).is_err() {
            return Err(CloseFault::NoMemory);
        }
    }
    Ok(Left {
        seats,
        transcripts,
        shade,
    })
}

// Want of memory in any session comes before two numbers that differ in any.
fn fault_of<T: Sheet<J>, J: Naming + BoxNames>(ends: &[FileEnd<T, J>]) -> Option<CloseFault>
    requires ends { All (λ end. IsEndOf end.seat end.end) ends.now }
    ensures read { (result ≡ None) → All (λ end. IsRead end.end) ends.now }
{
    if lacks_memory(ends) {
        return Some(CloseFault::NoMemory);
    }
    match first_split(ends) {
        Some(end) => end.seat.rift().map(CloseFault::Split),
        None => None,
    }
}

fn lacks_memory<T: Sheet<J>, J: Naming + BoxNames>(ends: &[FileEnd<T, J>]) -> bool
    ensures { result ≡ list_any (λ end. lacks_memory end.end) ends.now }
{
    ends.iter()
        .any(|end| matches!(end.end, SessionEnd::NoMemory))
}

fn first_split<T: Sheet<J>, J: Naming + BoxNames>(ends: &[FileEnd<T, J>]) -> Option<&FileEnd<T, J>>
    ensures { option_copied result ≡ find (λ end. is_split_end end.end) ends.now }
{
    ends.iter()
        .find(|end| matches!(end.end, SessionEnd::Split { .. }))
}
