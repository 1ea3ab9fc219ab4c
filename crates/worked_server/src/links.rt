//! The door of a row, and its links.

ghost use Rattle.std.specs.Prelude.{All, IfSome};
ghost use Rattle.worked_server.specs.Peers.{IsFresh};

use crate::lines::bytes_of;
use crate::row::{LinkRow, Row};
use be_door::MemDoor;
use be_io::{MemSink, MemSource, Pair};
use std::alloc::Global;

/// A link in memory.
pub type Peer = Pair<MemSource, MemSink>;

/// A door of the row's links.
pub fn door_of<R: Drop>(rt: R, alloc: Global, row: &Row<'_>) -> Option<MemDoor<Peer, R>> {
    let accept = vec![in alloc; row.failing_accept].ok()?;
    let listen = vec![in alloc; row.failing_listen].ok()?;
    let peers = peers(alloc, row)?;
    Some(MemDoor::make(rt, alloc, peers, accept).failing_listens(listen))
}

fn peers(alloc: Global, row: &Row<'_>) -> Option<Vec<Peer>>
    ensures { IfSome result (λ peers. All (λ peer. IsFresh peer.source peer.sink) peers.items) }
{
    let mut peers = Vec::new(alloc);
    for link in &row.links {
        peers.push(peer(alloc, link)?).ok()?;
    }
    Some(peers)
}

fn peer(alloc: Global, link: &LinkRow<'_>) -> Option<Peer>
    ensures { IfSome result (λ peer. IsFresh peer.source peer.sink) }
{
    let bytes = bytes_of(alloc, link.lines)?;
    let reads = vec![in alloc; link.failing_read].ok()?;
    let writes = vec![in alloc; link.failing_write].ok()?;
    Some(Pair {
        source: MemSource::make(bytes, link.piece, reads),
        sink: MemSink::make(alloc, writes),
    })
}
