//! Tests of doors whose links are served by workers, each in a thread of its own. A link is served by writing back what it
//! gives.
//!
//! A line of the input is a row, and a line of the output is the same with what came of it; the rows stand in `stdin`, and with
//! their answers, worked by hand from the rules, in `stdout`; the gate compares. Rows of memory.rt are over a door in memory, and
//! rows of network.rt over one on 127.0.0.1, whose peers are made by the program itself.
#![tactic(auto)]

mod memory;
mod network;
mod row;
mod serve;
mod shown;

use std::alloc::Global;
use std::io;
use std::net::{Net, TcpListener, TcpStream};
use std::sync::Wait;
use std::thread::Threads;
use std::time::Clock;
use worked_help::answer_each;

// What came of a row.
fn served<
    R: Threads + Wait + Clock + Sync + Net<Listener = TcpListener, Stream = TcpStream> + Copy,
>(rt: R, alloc: Global, line: &str) -> Option<String> {
    let row = row::read_row(alloc, line)?;
    if row.is_tcp {
        network::served(rt, alloc, &row)
    } else {
        memory::served(rt, alloc, &row)
    }
}

fn main(rt: HostRuntime) -> io::Result<()> {
    let alloc = rt.alloc();
    answer_each(&rt, alloc, |line| served(rt, alloc, line))
}
