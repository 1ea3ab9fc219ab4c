//! Rows as they are read.

ghost use Rattle.std.specs.Prelude.{◌<◌, ◌≤◌};
ghost use Rattle.be_base.specs.declared.limits.TheConstants.{LINKS, SEATS};

use be_base::{LINKS, SEATS};
use std::alloc::Global;

/// `mem` or `tcp`, and numbers: of workers, of links that the door gives out, of the accept that fails and of the listen that
/// fails (0: none), and of the peers that there are. Peer i gives the digits of i.
#[derive(Drop)]
pub struct Row {
    pub is_tcp: bool,
    pub workers: u32,
    pub links: u64,
    pub failing_accept: u64,
    pub failing_listen: u64,
    pub peers: u64,
    /// The numbers of the read and of the write of each peer that fail.
    pub failing_read: u64,
    pub failing_write: u64,
    ghost some: { 0 < workers },
    ghost seats: { workers ≤ SEATS },
    ghost few: { links ≤ LINKS },
}

/// The row of a line, where its numbers may be those of a door.
pub fn read_row(alloc: Global, line: &str) -> Option<Row> {
    let mut numbers = Vec::new(alloc);
    let mut words = line.split(' ');
    let is_tcp = words.next()? == "tcp";
    for word in words {
        numbers.push(word.parse::<u64>().ok()?).ok()?;
    }
    let (workers, links) = (*numbers.get(0)?, *numbers.get(1)?);
    if workers == 0 || workers > SEATS as u64 || links > LINKS {
        return None;
    }
    Some(Row {
        is_tcp,
        workers: workers as u32,
        links,
        failing_accept: *numbers.get(2)?,
        failing_listen: *numbers.get(3)?,
        peers: *numbers.get(4)?,
        failing_read: *numbers.get(5)?,
        failing_write: *numbers.get(6)?,
    })
}
