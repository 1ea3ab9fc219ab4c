//! Workers that serve the links of any door, each in a thread of its own. A link is served by giving back what it gives.

ghost use Rattle.std.specs.Prelude.{◌≡◌, ◌+◌, ◌<◌, ◌≤◌, true, false, All, IfOk, OnOk, length};
ghost use Rattle.be_base.specs.declared.limits.TheConstants.{LINKS, SEATS};
ghost use Rattle.worked_door.specs.Served.{IsReady, IsServed};

use be_base::{NoMemory, SessionNo};
use be_door::{Door, DoorCount};
use be_io::{Link, ListenFault, hand_on, write_all};
use std::alloc::AllocError;
use std::sync::atomic::{AtomicU64, Ordering};
use std::thread;
use std::thread::Threads;

// Writes back what the link gives, until its end or a fault. Nothing is kept back while it reads.
fn echo<L: Link>(link: &mut L) {
    let mut bytes = [0; 16];
    for _ in 0..u64::MAX {
        if hand_on(link).is_err() {
            return;
        }
        match link.read(&mut bytes) {
            Ok(0) | Err(_) => return,
            Ok(count) => {
                if write_all(link, &bytes[..count]).is_err() {
                    return;
                }
            }
        }
    }
}

// Serves links until there are none, each with the next session.
fn serve<L: Link + Drop, D: Door<L>>(
    door: &D,
    sessions: &AtomicU64,
    mut count: DoorCount<L>,
) -> DoorCount<L>
    requires { IsReady (D.state door.now) count }
    ensures { IsServed (D.state door.now) result }
{
    loop {
        match door.accept(&mut count) {
            Ok(Some(mut link)) => {
                let session = sessions.fetch_add(1, Ordering::SeqCst);
                echo(&mut link);
                door.give_back(&mut count, SessionNo(session), link);
            }
            Ok(None) => return count,
            Err(_) => {}
        }
    }
}

// One thread for each count.
fn serve_all<L: Link + Drop + Send, D: Door<L> + Sync, R: Threads + Sync>(
    rt: &R,
    door: &D,
    counts: Vec<DoorCount<L>>,
) -> Result<Vec<DoorCount<L>>, AllocError>
    requires { All (IsReady (D.state door.now)) counts.items }
    ensures many { IfOk result (λ served. length served.items ≡ length counts.items) }
    ensures served { IfOk result (λ served. All (IsServed (D.state door.now)) served.items) }
{
    let sessions = AtomicU64::new(1);
    thread::map_vec(
        rt,
        counts,
        &|count: DoorCount<L>| -> DoorCount<L>
            requires { IsReady (D.state door.now) count }
            ensures { IsServed (D.state door.entry.now) result }
        { serve(door, &sessions, count) },
    )
}

/// Serves all links of a listen, and takes all its counts back.
pub fn serve_and_settle<L: Link + Drop + Send, D: Door<L> + Sync, R: Threads + Sync>(
    rt: &R,
    door: &mut D,
    counts: Vec<DoorCount<L>>,
) -> Result<(), NoMemory>
    requires counts { All (IsReady (D.state door.old)) counts.items }
    requires many { (length counts.items ≡ (D.state door.old).workers) × (0 < (D.state door.old).workers) }
    ensures links { OnOk result ((D.state door.new).given + (D.state door.new).failed + (D.state door.new).refused ≡ (D.state door.old).links) }
{
    let served = serve_all(rt, &*door, counts)?;
    door.settle(served)
}

/// Gives out so many links to so many workers, and takes all counts back.
pub fn run<L: Link + Drop + Send, D: Door<L> + Sync, R: Threads + Sync>(
    rt: &R,
    door: &mut D,
    port: u16,
    links: u64,
    workers: u32,
) -> Result<(), ListenFault>
    requires links { links ≤ LINKS }
    requires workers { (0 < workers) × (workers ≤ SEATS) }
    ensures links { OnOk result ((D.state door.new).given + (D.state door.new).failed + (D.state door.new).refused ≡ links) }
{
    let counts = door.listen(port, links, workers)?;
    match serve_and_settle(rt, door, counts) {
        Ok(()) => Ok(()),
        Err(NoMemory) => Err(ListenFault::NoMemory),
    }
}
