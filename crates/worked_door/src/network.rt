//! A row over a door on 127.0.0.1.

use crate::row::Row;
use crate::serve::serve_and_settle;
use crate::shown::shown_sums;
use be_door::{Door, TcpDoor};
use std::alloc::Global;
use std::io::{Read, Write};
use std::net::{Ipv4Addr, Net, Shutdown, TcpListener, TcpStream};
use std::sync::Wait;
use std::thread::Threads;
use std::time::Clock;

/// What came of the listen, and how many peers were given back what they gave.
pub fn served<
    R: Threads + Wait + Clock + Sync + Net<Listener = TcpListener, Stream = TcpStream> + Copy,
>(rt: R, alloc: Global, row: &Row) -> Option<String> {
    let mut door = TcpDoor::make(rt, alloc);
    let counts = door.listen(0, row.links, row.workers).ok()?;
    let port = door.local_port()?;
    let mut peers = Vec::new(alloc);
    for number in 0..row.peers {
        peers.push(peer(&rt, alloc, port, number)?).ok()?;
    }
    serve_and_settle(&rt, &mut door, counts).ok()?;
    let sums = shown_sums(alloc, &door.sums())?;
    let answered = answered(alloc, peers)?;
    format!(in alloc; "{sums}, answered {answered}").ok()
}

// A peer that has given the digits of its number, and gives no more.
fn peer<R: Net<Stream = TcpStream>>(
    rt: &R,
    alloc: Global,
    port: u16,
    number: u64,
) -> Option<TcpStream> {
    let text = format!(in alloc; "{number}").ok()?;
    let mut stream = TcpStream::connect(rt, (Ipv4Addr::LOCALHOST, port)).ok()?;
    stream.write_all(text.as_bytes()).ok()?;
    stream.shutdown(Shutdown::Write).ok()?;
    Some(stream)
}

// How many read their own number back.
fn answered(alloc: Global, peers: Vec<TcpStream>) -> Option<u64> {
    let mut count: u64 = 0;
    let mut number: u64 = 0;
    for mut stream in peers {
        let mut text = String::new(alloc);
        let read = stream.read_to_string(&mut text);
        if read.is_ok() && text.parse::<u64>() == Ok(number) {
            count = count.saturating_add(1);
        }
        number = number.saturating_add(1);
    }
    Some(count)
}
