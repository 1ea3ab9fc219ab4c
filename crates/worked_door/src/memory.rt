//! A row over a door in memory.

ghost use Rattle.std.specs.Prelude.{All, IfSome};
ghost use Rattle.worked_door.specs.Peers.{IsFresh};

use crate::row::Row;
use crate::serve::run;
use crate::shown::{shown_kept, shown_sums};
use be_door::MemDoor;
use be_io::{MemSink, MemSource, Pair};
use std::alloc::Global;
use std::sync::Wait;
use std::thread::Threads;

/// A peer in memory.
pub type Peer = Pair<MemSource, MemSink>;

/// What came of the listen, and of a second one where the first failed.
pub fn served<R: Threads + Wait + Sync + Copy>(rt: R, alloc: Global, row: &Row) -> Option<String> {
    let accept = vec![in alloc; row.failing_accept].ok()?;
    let listen = vec![in alloc; row.failing_listen].ok()?;
    let peers = peers(alloc, row)?;
    let mut door = MemDoor::make(rt, alloc, peers, accept).failing_listens(listen);
    let mut out = String::new(alloc);
    if run(&rt, &mut door, 1, row.links, row.workers).is_err() {
        out.push_str("failed; ").ok()?;
        run(&rt, &mut door, 1, row.links, row.workers).ok()?;
    }
    out.push_str(shown_sums(alloc, &door.sums())?.as_str())
        .ok()?;
    out.push_str(shown_kept(alloc, door.kept(), row)?.as_str())
        .ok()?;
    Some(out)
}

fn peers(alloc: Global, row: &Row) -> Option<Vec<Peer>>
    ensures { IfSome result (λ peers. All (λ peer. IsFresh peer.source peer.sink) peers.items) }
{
    let mut peers = Vec::new(alloc);
    for number in 0..row.peers {
        peers.push(peer(alloc, row, number)?).ok()?;
    }
    Some(peers)
}

fn peer(alloc: Global, row: &Row, number: u64) -> Option<Peer>
    ensures { IfSome result (λ peer. IsFresh peer.source peer.sink) }
{
    let mut bytes = Vec::new(alloc);
    bytes
        .extend_from_slice(format!(in alloc; "{number}").ok()?.as_bytes())
        .ok()?;
    let reads = vec![in alloc; row.failing_read].ok()?;
    let writes = vec![in alloc; row.failing_write].ok()?;
    Some(Pair {
        source: MemSource::make(bytes, 2, reads),
        sink: MemSink::make(alloc, writes),
    })
}
