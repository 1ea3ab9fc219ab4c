//! What a row's call is given.

ghost use Rattle.std.specs.Prelude.{◌≡◌, IfSome};
ghost use Rattle.be_io.specs.Shelf.{file_of};

use crate::gate::HoldingGate;
use crate::input::Input;
use crate::lines::bytes_of;
use crate::links::{Peer, door_of};
use crate::row::Row;
use be_door::MemDoor;
use be_io::{MemShelf, MemSink};
use std::alloc::Global;
use std::sync::Arc;
use std::sync::atomic::AtomicU64;

/// The lines of the file `S`, where a row has none.
const SCHEMA: &str = "int price 0 1000; int qty -5 5; sym side buy sell hold; int one 7 7";

/// What the call is given: the words, and all objects in memory.
#[derive(Drop)]
pub struct Stage<R> {
    pub words: Vec<String>,
    pub shelf: MemShelf,
    pub input: Input,
    pub out: MemSink,
    pub door: MemDoor<Peer, R>,
    pub gate: HoldingGate,
}

/// All that a row's call is given.
pub fn stage_of<R: Copy>(rt: R, alloc: Global, row: &Row<'_>, turns_more: u64) -> Option<Stage<R>> {
    let words = words_of(alloc, row)?;
    let shelf = shelf_of(alloc, row)?;
    let reads = Arc::new(alloc, AtomicU64::new(0)).ok()?;
    let input = Input::of(alloc, row, Arc::try_clone(&reads).ok()?)?;
    let out = out_of(alloc, row)?;
    let gate = HoldingGate::make(alloc, row.holds.as_slice(), reads, turns_more)?;
    let door = door_of(rt, alloc, row)?;
    Some(Stage {
        words,
        shelf,
        input,
        out,
        door,
        gate,
    })
}

fn words_of(alloc: Global, row: &Row<'_>) -> Option<Vec<String>> {
    let mut words = Vec::new(alloc);
    for word in row.words.split(' ') {
        words.push(String::from_str(alloc, word).ok()?).ok()?;
    }
    Some(words)
}

// The files `S`, `L`, `f` and `g`, of which those that a row doesn't have are empty.
fn shelf_of(alloc: Global, row: &Row<'_>) -> Option<MemShelf> {
    let failing = vec![in alloc; row.failing_ask].ok()?;
    let mut files = Vec::new(alloc);
    files.push(file(alloc, row, "S", SCHEMA)?).ok()?;
    files.push(file(alloc, row, "L", "")?).ok()?;
    files.push(file(alloc, row, "f", "")?).ok()?;
    files.push(file(alloc, row, "g", "")?).ok()?;
    Some(MemShelf::make(files, failing))
}

// A file of the row, or one with these lines.
fn file(alloc: Global, row: &Row<'_>, name: &str, lines: &str) -> Option<(String, Vec<u8>)>
    ensures { IfSome result (λ file. (file_of file).name ≡ name.now) }
{
    let bytes = bytes_of(alloc, row.file(name).unwrap_or(lines))?;
    let name = String::from_str(alloc, name).ok()?;
    Some((name, bytes))
}

fn out_of(alloc: Global, row: &Row<'_>) -> Option<MemSink> {
    let failing = vec![in alloc; row.failing_out].ok()?;
    Some(MemSink::make(alloc, failing))
}
