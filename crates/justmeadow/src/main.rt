//! The program: real input, output, files and connections for the one call that does the work.
#![tactic(auto)]

use be_door::{TcpDoor, TcpLink};
use be_io::{FileShelf, GATHERED_BYTES, Gathered, NoGate, StdinSource, StdoutSink};
use be_server::{Status, be_main};
use std::alloc::Global;
use std::net::{Net, TcpListener, TcpStream};
use std::process::ExitCode;
use std::rt::{Env, Files};
use std::sync::Wait;
use std::thread::Threads;
use std::time::Clock;
use std::{env, io};

/// The words after the program's name.
fn read_words(rt: &(impl Env + Alloc<A = Global>)) -> io::Result<Vec<String>> {
    let mut words = env::args(rt)?;
    let _name = words.next();
    Ok(words.collect(rt.alloc())?)
}

/// Does what the words ask, over the real input, output, files and connections.
fn serve<
    R: Threads
        + Wait
        + Clock
        + Sync
        + Files
        + Input
        + Print
        + Net<Listener = TcpListener, Stream = TcpStream>
        + Copy,
>(rt: &R, alloc: Global, words: &[String]) -> Status {
    let mut shelf = FileShelf::make(rt, alloc);
    let mut input = StdinSource::make(rt);
    let Ok(mut out) = Gathered::make(alloc, StdoutSink::make(rt), GATHERED_BYTES) else {
        return Status::NoMemory;
    };
    let mut door = TcpDoor::make(*rt, alloc);
    be_main::<_, _, _, _, Gathered<TcpLink<R>>, _, _>(
        rt, alloc, words, &mut shelf, &mut input, &mut out, &mut door, &NoGate,
    )
}

fn main(rt: HostRuntime) -> ExitCode {
    let status = match read_words(&rt) {
        Ok(words) => serve(&rt, rt.alloc(), words.as_slice()),
        Err(fault) if fault.kind() == io::ErrorKind::OutOfMemory => Status::NoMemory,
        Err(_) => Status::Words,
    };
    if status.code() != 0 {
        let _ = rt.eprintln(&status);
    }
    ExitCode::from(status.code())
}
