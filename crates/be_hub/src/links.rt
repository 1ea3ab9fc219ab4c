//! A worker that serves links of a door, each as a session of its own.

ghost use Rattle.std.specs.Prelude.{◌≡◌, ◌+◌, ◌<◌, ◌≤◌, ◌*◌, [], length, true, false, MatchBool, IfOk, vec_len, vec_capacity};
ghost use Rattle.be_base.specs.declared.limits.TheConstants.{LINKS, SEATS};
ghost use Rattle.be_base.specs.Counts.{HasRisen};
ghost use Rattle.be_board.specs.Word.{own_in};
ghost use Rattle.be_desk.specs.Seats.{SeatState, word_of, IsKeptSeat};
ghost use Rattle.be_desk.specs.declared.desk.TheConstants.{SESSIONS_END};
ghost use Rattle.be_door.specs.Counts.{CountState, IsSound, after_given};
ghost use Rattle.be_door.specs.Door.{IsOf};
ghost use Rattle.be_door.specs.Links.{IsUnused};
ghost use Rattle.be_hub.specs.Links.{EntersNext, SessionServed, LinksServed, WorkerServed, MayBegin, session_at};
ghost use Rattle.be_io.specs.Outside.{link_state};

use crate::board::DeskBoard;
use crate::hub::Hub;
use crate::jobs::Job;
use be_base::NoMemory;
use be_desk::{Maintained, Seat, TendCount};
use be_door::{Door, DoorCount};
use be_io::{Gate, Link};
use be_mail::{BoxNames, Post};
use be_published::{Naming, Sheet};
use be_session::{SessionEnd, serve_link};
use std::alloc::Global;
use std::sync::{MutexGuard, Wait};
use std::time::Clock;

/// The session of a worker's seat is below this at the beginning: 2^61.
pub const FIRST_END: u64 = 2305843009213693952;

/// After a session the desk is tended at most so many times, until there is memory for it.
const TRIES: u64 = 8;

/// What a worker leaves of the links that it served: its seat and its count, how each session ended, in the order in which the
/// links were given back, how often it tended the desk behind a link, how many tends its boards were asked for between replies, and
/// how many of those reached the desk.
#[derive(Drop)]
pub struct WorkEnd<T: Sheet<J>, J: Naming + BoxNames, L> {
    pub seat: Seat<T, J>,
    pub count: DoorCount<L>,
    pub ends: Vec<SessionEnd>,
    pub tended: TendCount,
    pub asked: u64,
    /// A tend isn't made where another one is at the desk. So no contract tells it, but that it is no more than were asked for.
    pub between: TendCount,
}

// A link that was served, what served it, and how its session ended.
#[derive(Drop)]
struct Visit<T: Sheet<J>, J: Naming + BoxNames, L> {
    seat: Seat<T, J>,
    asked: u64,
    between: TendCount,
    link: L,
    end: SessionEnd,
}

// Serves links until there are none left. It stops where there is no room for the next session's end.
pub(crate) fn serve_links<
    T: Sheet<J>,
    J: Naming + BoxNames,
    S: Post,
    R: Wait + Clock,
    L: Link + Drop,
    D: Door<L>,
    G: Gate,
>(
    rt: &R,
    alloc: Global,
    hub: &Hub<T, J, S>,
    door: &D,
    gate: &G,
    job: Job<T, J, DoorCount<L>>,
) -> Result<WorkEnd<T, J, L>, NoMemory>
    requires few { (0 < length J.boxes) × (length J.boxes ≤ SEATS) }
    requires may { MayBegin (D.state door.now) job.seat job.task }
    ensures { IfOk result (λ end. WorkerServed (link_state L.Source L.Sink) J.schema J.boxes (D.state door.now) job.seat end.seat end.count end.ends.items end.tended end.asked end.between) }
{
    let Job { seat, task, worker } = job;
    let mut work = WorkEnd {
        seat,
        count: task,
        ends: Vec::new(alloc),
        tended: TendCount::make(),
        asked: 0,
        between: TendCount::make(),
    };
    loop {
        work.ends.reserve(1)?;
        match door.accept(&mut work.count) {
            Ok(Some(link)) => work = serve_next(rt, alloc, hub, door, gate, worker, work, link),
            Ok(None) => return Ok(work),
            Err(_) => {}
        }
    }
}

// Serves the link that was given out last, and gives it back. The seat enters a new session for each link after its first.
fn serve_next<
    T: Sheet<J>,
    J: Naming + BoxNames,
    S: Post,
    R: Wait + Clock,
    L: Link + Drop,
    D: Door<L>,
    G: Gate,
>(
    rt: &R,
    alloc: Global,
    hub: &Hub<T, J, S>,
    door: &D,
    gate: &G,
    worker: u32,
    work: WorkEnd<T, J, L>,
    link: L,
) -> WorkEnd<T, J, L>
    requires some { 0 < length J.boxes }
    requires of_last { IsOf (D.state door.now) work.count }
    requires out { (work.count.given ≡ work.count.back + 1) × IsSound work.count }
    requires room { vec_len work.ends < vec_capacity work.ends }
    requires fresh { work.ends.items ≡ [] → own_in (word_of work.seat) ≡ [] }
    requires number { work.seat.session < SESSIONS_END }
    requires unused { IsUnused (link_state L.Source L.Sink link) }
    requires reached { work.between ≤ work.asked }
    ensures served { (first : SeatState) → LinksServed (link_state L.Source L.Sink) J.schema J.boxes first work.seat work.count work.ends.items work.tended work.asked
        → LinksServed (link_state L.Source L.Sink) J.schema J.boxes first result.seat result.count result.ends.items result.tended result.asked }
    ensures reached { result.between ≤ result.asked }
    ensures ended { length result.ends.items ≡ length work.ends.items + 1 }
    ensures back { (result.count.given ≡ work.count.given) × (result.count.back ≡ work.count.given) × (result.count.failed ≡ work.count.failed) × (result.count.refused ≡ work.count.refused) }
    ensures same { IsOf (D.state door.now) result.count × (result.count.ended ≡ work.count.ended) × (result.count.links ≡ work.count.links) }
{
    let WorkEnd {
        seat,
        mut count,
        mut ends,
        mut tended,
        asked,
        between,
    } = work;
    let seat = next_seat(rt, hub, seat, ends.is_empty());
    let session = seat.session();
    let Visit {
        seat,
        asked,
        between,
        link,
        end,
    } = serve_session(rt, alloc, hub, gate, worker, seat, asked, between, link);
    publish_held(rt, hub, &mut tended);
    door.give_back(&mut count, session, link);
    ends.push_reserved(end);
    WorkEnd {
        seat,
        count,
        ends,
        tended,
        asked,
        between,
    }
}

// The seat in its next session, or in its first one. Before a next one it empties its mailbox, without the lock.
fn next_seat<T: Sheet<J>, J: Naming + BoxNames, S: Post, R: Wait>(
    rt: &R,
    hub: &Hub<T, J, S>,
    seat: Seat<T, J>,
    is_first: bool,
) -> Seat<T, J>
    requires number { seat.session < SESSIONS_END }
    requires fresh { is_first ≡ true → own_in (word_of seat) ≡ [] }
    ensures entered { MatchBool is_first (result ≡ seat) (EntersNext J.schema (length J.boxes) seat result) }
    ensures fresh { own_in (word_of result) ≡ [] }
{
    if is_first {
        return seat;
    }
    let mut seat = seat;
    seat.empty_box(rt, &hub.mail);
    let guard = hub.desk.lock(rt);
    guard.enter(&mut seat);
    MutexGuard::unlock(guard);
    seat
}

// Serves the seat's session over a link.
fn serve_session<T: Sheet<J>, J: Naming + BoxNames, S: Post, R: Wait + Clock, L: Link, G: Gate>(
    rt: &R,
    alloc: Global,
    hub: &Hub<T, J, S>,
    gate: &G,
    worker: u32,
    seat: Seat<T, J>,
    asked: u64,
    between: TendCount,
    link: L,
) -> Visit<T, J, L>
    requires fresh { own_in (word_of seat) ≡ [] }
    requires reached { between ≤ asked }
    ensures served { SessionServed J.schema asked result.asked seat result.seat (link_state L.Source L.Sink link) (link_state L.Source L.Sink result.link) result.end }
    ensures reached { result.between ≤ result.asked }
{
    let mut link = link;
    let mut board = DeskBoard::<T, J, S, R, 1>::make(rt, hub, seat, asked, between);
    let end = serve_link(
        alloc,
        &hub.schema,
        &mut board,
        &mut link,
        false,
        gate,
        worker,
    );
    let (seat, asked, between) = board.take();
    Visit {
        seat,
        asked,
        between,
        link,
        end,
    }
}

// Tends the desk until there is memory for it, so that a change that is held is published. It looks for a step only where a look
// was earned.
fn publish_held<T: Sheet<J>, J: Naming + BoxNames, S: Post, R: Wait>(
    rt: &R,
    hub: &Hub<T, J, S>,
    tended: &mut TendCount,
)
    ensures { HasRisen tended.old tended.new }
{
    for _ in 0..TRIES {
        let mut guard = hub.desk.lock(rt);
        let done = guard.tend(rt, tended);
        hub.leave_desk(guard);
        if !matches!(done, Some(Maintained::NoMemory)) {
            return;
        }
    }
}
