//! Runs the program's one call over objects in memory.

ghost use Rattle.std.specs.Prelude.{◌<◌};

use be_door::{Metered, NoDoor};
use be_io::{MemShelf, MemSink, MemSource, NoGate, Pair, Shelf, Sink, Source};
use be_server::{Status, be_main};
use std::alloc::Global;
use std::sync::Wait;
use std::thread::Threads;
use std::time::Clock;

pub const SCHEMA: &[u8] = b"int price 0 1000\nint qty -5 5\nsym side buy sell hold\nint one 7 7\n";

pub const RUN: &[&str] = &["run", "S"];

pub const RUN_LOADED: &[&str] = &["run", "S", "--load", "L"];

type Peer = Pair<MemSource, MemSink>;

/// What the call is given. The calls of the three numbers fail, where the first call has the number 1.
#[derive(Clone, Copy)]
pub struct Setting<'a> {
    pub words: &'a [&'a str],
    /// The bytes of the file `S`.
    pub schema: &'a [u8],
    /// The bytes of the file `L`.
    pub load: &'a [u8],
    pub script: &'a [u8],
    pub piece: usize,
    pub failing_read: u64,
    pub failing_write: u64,
    pub failing_ask: u64,
    ghost some: { 0 < piece },
}

/// A run over this script, in which nothing fails. A second ask for a file would.
pub fn plain(script: &[u8], piece: usize) -> Setting<'_>
    requires { 0 < piece }
{
    Setting {
        words: RUN,
        schema: SCHEMA,
        load: b"",
        script,
        piece,
        failing_read: 0,
        failing_write: 0,
        failing_ask: 2,
    }
}

/// A run over this script and the load file `L`, in which nothing fails. A third ask for a file would.
pub fn loading<'a>(load: &'a [u8], script: &'a [u8]) -> Setting<'a> {
    Setting {
        words: RUN_LOADED,
        schema: SCHEMA,
        load,
        script,
        piece: 18,
        failing_read: 0,
        failing_write: 0,
        failing_ask: 3,
    }
}

/// What the call left.
#[derive(Drop)]
pub struct Ran {
    pub status: Status,
    pub out: Vec<u8>,
    /// How many bytes of the script weren't read.
    pub left: u64,
    /// Whether the next ask for the file `S` is refused.
    pub is_next_ask_refused: bool,
}

/// Whether both are the same, where none of them carries what a run can't have.
pub fn is(status: &Status, want: &Status) -> bool {
    match (status, want) {
        (
            Status::SchemaBad { line, kind },
            Status::SchemaBad {
                line: other,
                kind: second,
            },
        ) => line == other && kind == second,
        (
            Status::LoadBad { line, kind },
            Status::LoadBad {
                line: other,
                kind: second,
            },
        ) => line == other && kind == second,
        (Status::ReadFault, Status::ReadFault) | (Status::LongFile, Status::LongFile) => true,
        (Status::SchemaBad { .. } | Status::LoadBad { .. }, _) => false,
        (Status::ReadFault | Status::LongFile, _) => false,
        _ => status.code() == want.code(),
    }
}

fn strings(alloc: Global, words: &[&str]) -> Option<Vec<String>> {
    let mut strings = Vec::new(alloc);
    for word in words {
        strings.push(String::from_str(alloc, word).ok()?).ok()?;
    }
    Some(strings)
}

fn count_left(source: &mut MemSource) -> u64 {
    let mut left = 0u64;
    let mut room = [0; 4096];
    for _ in 0..1_000_000 {
        match source.read(&mut room) {
            Ok(0) => break,
            Ok(count) => left = left.saturating_add(count as u64),
            Err(_) => {}
        }
    }
    left
}

fn shelf_of(alloc: Global, setting: &Setting) -> Option<MemShelf> {
    let schema = Vec::from_slice(alloc, setting.schema).ok()?;
    let load = Vec::from_slice(alloc, setting.load).ok()?;
    let mut files = Vec::new(alloc);
    files
        .push((String::from_str(alloc, "S").ok()?, schema))
        .ok()?;
    files.push((String::from_str(alloc, "L").ok()?, load)).ok()?;
    let failing = vec![in alloc; setting.failing_ask].ok()?;
    Some(MemShelf::make(files, failing))
}

fn input_of(alloc: Global, setting: &Setting) -> Option<MemSource> {
    let script = Vec::from_slice(alloc, setting.script).ok()?;
    let failing = vec![in alloc; setting.failing_read].ok()?;
    Some(MemSource::make(script, setting.piece, failing))
}

// Runs the program's one call over these objects.
fn call_over<R: Threads + Wait + Clock + Sync, K: Sink>(
    rt: &R,
    alloc: Global,
    words: &[&str],
    shelf: &mut MemShelf,
    input: &mut MemSource,
    out: &mut K,
) -> Option<Status> {
    let words = strings(alloc, words)?;
    let mut door: NoDoor<Peer> = NoDoor::make(alloc);
    Some(be_main::<_, _, _, _, Metered<Peer>, _, _>(
        rt,
        alloc,
        words.as_slice(),
        shelf,
        input,
        out,
        &mut door,
        &NoGate,
    ))
}

/// Runs it over this output. `None` says that memory ran out here.
pub fn call<R: Threads + Wait + Clock + Sync, K: Sink>(
    rt: &R,
    alloc: Global,
    setting: &Setting,
    out: &mut K,
) -> Option<Status> {
    let mut shelf = shelf_of(alloc, setting)?;
    let mut input = input_of(alloc, setting)?;
    call_over(rt, alloc, setting.words, &mut shelf, &mut input, out)
}

/// Runs it over an output in memory.
pub fn run<R: Threads + Wait + Clock + Sync>(
    rt: &R,
    alloc: Global,
    setting: &Setting,
) -> Option<Ran> {
    let failing = vec![in alloc; setting.failing_write].ok()?;
    let mut shelf = shelf_of(alloc, setting)?;
    let mut input = input_of(alloc, setting)?;
    let mut out = MemSink::make(alloc, failing);
    let status = call_over(rt, alloc, setting.words, &mut shelf, &mut input, &mut out)?;
    Some(Ran {
        status,
        out: out.take(),
        left: count_left(&mut input),
        is_next_ask_refused: shelf.read_file(alloc, "S").is_err(),
    })
}

/// Whether a run ends well, has read all and has written this.
pub fn answers<R: Threads + Wait + Clock + Sync>(
    rt: &R,
    alloc: Global,
    setting: &Setting,
    wanted: &[u8],
) -> bool {
    match run(rt, alloc, setting) {
        Some(ran) => is(&ran.status, &Status::Done)
            && ran.left == 0
            && ran.out.as_slice() == wanted,
        None => false,
    }
}
