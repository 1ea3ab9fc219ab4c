//! A link of a door in memory, and how often its worker tends the desk.
//!
//! A worker tends the desk after every sixteenth reply of a session that goes on, and, once the session is over, again and again until
//! there was memory for it, which is once here: no row runs out of it. So a session of 15 lines is tended 0 + 1 times, one of 16 lines
//! 1 + 1 times, and one of 33 lines 2 + 1 times, after its replies 16 and 32 and at its end.

ghost use Rattle.std.specs.Prelude.{◌<◌, ◌≤◌, length, All};
ghost use Rattle.be_base.specs.declared.limits.TheConstants.{SEATS};
ghost use Rattle.be_hub.specs.Links.{MayStart};

use be_desk::Seat;
use be_door::{Door, MemDoor};
use be_hub::Hub;
use be_io::{MemSink, MemSource, NoGate, Pair};
use be_mail::{BoxNames, Post};
use be_published::{Naming, Sheet};
use std::alloc::Global;
use std::sync::Wait;
use std::thread::Threads;
use std::time::Clock;

/// A read of the link gives at most so many bytes.
const PIECE: usize = 65536;

/// Serves a link that gives these bytes, and says how often the first seat's worker tended the desk.
pub fn tends<
    T: Sheet<J> + Send + Sync,
    J: Naming + BoxNames + Send + Sync,
    S: Post + Send + Sync,
    R: Threads + Wait + Clock + Sync,
>(rt: &R, alloc: Global, hub: &Hub<T, J, S>, seats: Vec<Seat<T, J>>, bytes: Vec<u8>) -> Option<u64>
    requires few { (0 < length J.boxes) × (length J.boxes ≤ SEATS) }
    requires count { (0 < length seats.items) × (length seats.items ≤ SEATS) }
    requires start { All MayStart seats.items }
{
    let link = Pair {
        source: MemSource::make(bytes, PIECE, Vec::new(alloc)),
        sink: MemSink::make(alloc, Vec::new(alloc)),
    };
    let links = vec![in alloc; link].ok()?;
    let mut door = MemDoor::make(rt, alloc, links, Vec::new(alloc));
    let counts = door.listen(0, 1, seats.len() as u32).ok()?;
    let ends = hub.run_door(rt, alloc, seats, &door, counts, &NoGate).ok()?;
    let end = ends.get(0)?;
    end.tended.calls().checked_add(end.between.calls())
}
