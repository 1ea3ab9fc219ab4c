//! The real input, output and files. They tell no content.

ghost use Rattle.std.specs.Prelude.{◌≡◌, ◌≤◌, [], None, map, length, IfOk, string_bytes};

use crate::faults::{Failed, ShelfFault, SinkFault};
use crate::shelf::Shelf;
use crate::sink::Sink;
use crate::source::Source;
use be_base::{FILE_BYTES, READ_BYTES};
use std::alloc::Global;
use std::fs;
use std::io::Read;
use std::rt::Files;

/// The standard input. Each read is one read of the system, as large as the buffer.
#[derive(Drop)]
pub struct StdinSource<R: Input> {
    reader: R::Reader,
    taken: u64,
    faults: u64,
}

impl<R: Input> StdinSource<R> {
    pub fn make(rt: &R) -> StdinSource<R>
        ensures taken { result.taken ≡ 0 }
        ensures faults { result.faults ≡ 0 }
    {
        StdinSource {
            reader: rt.reader(),
            taken: 0,
            faults: 0,
        }
    }
}

impl<R: Input> Source for StdinSource<R> {
    ghost left = { λ _. None };

    ghost taken = { λ s. s.taken };

    ghost read_faults = { λ s. s.faults };

    fn read(&mut self, buf: &mut [u8]) -> Result<usize, Failed> {
        match self.reader.read(buf) {
            Ok(count) => {
                self.taken = self.taken.saturating_add(count as u64);
                Ok(count)
            }
            Err(_) => {
                self.faults = self.faults.saturating_add(1);
                Err(Failed)
            }
        }
    }
}

/// The standard output. Each write is one write of the system.
#[derive(Drop)]
pub struct StdoutSink<R: Print> {
    rt: R,
    faults: u64,
}

impl<R: Print> StdoutSink<R> {
    pub fn make(rt: R) -> StdoutSink<R>
        ensures { result ≡ record { rt = rt; faults = 0 } }
    {
        StdoutSink { rt, faults: 0 }
    }
}

impl<R: Print> Sink for StdoutSink<R> {
    ghost held = { λ _. None };

    ghost write_faults = { λ s. s.faults };

    // it asks for no memory, and so never answers that memory was wanting
    ghost refusals = { λ _. 0 };

    ghost kept_back = { λ _. 0 };

    fn write(&mut self, bytes: &[u8]) -> Result<usize, SinkFault> {
        match self.rt.write_some(bytes) {
            Ok(count) if count > 0 => Ok(count),
            _ => {
                self.faults = self.faults.saturating_add(1);
                Err(SinkFault::Failed)
            }
        }
    }

    fn flush(&mut self) -> Result<(), SinkFault> {
        Ok(())
    }
}

/// The files of the system, by their paths.
#[derive(Drop)]
pub struct FileShelf<R: Files> {
    rt: R,
    asked: Vec<String>,
    faults: u64,
}

impl<R: Files> FileShelf<R> {
    pub fn make(rt: R, alloc: Global) -> FileShelf<R>
        ensures asked { result.asked.items ≡ [] }
        ensures faults { result.faults ≡ 0 }
    {
        FileShelf {
            rt,
            asked: Vec::new(alloc),
            faults: 0,
        }
    }
}

impl<R: Files> Shelf for FileShelf<R> {
    ghost asked = { λ s. map string_bytes s.asked.items };

    ghost read_faults = { λ s. s.faults };

    ghost content = { λ _ _. None };

    fn read_file(&mut self, alloc: Global, name: &str) -> Result<Vec<u8>, ShelfFault> {
        self.asked.push(String::from_str(alloc, name)?)?;
        let file = read_path(&self.rt, alloc, name);
        if file == Err(ShelfFault::Failed) {
            self.faults = self.faults.saturating_add(1);
        }
        file
    }
}

fn read_path<R: Files>(rt: &R, alloc: Global, path: &str) -> Result<Vec<u8>, ShelfFault>
    ensures { IfOk result (λ file. length file.items ≤ FILE_BYTES) }
{
    let mut file = fs::open(rt, path).map_err(|_| ShelfFault::Failed)?;
    read_within_limit(alloc, &mut file)
}

/// Reads to the end, or one byte past the limit.
fn read_within_limit<F: Read>(alloc: Global, file: &mut F) -> Result<Vec<u8>, ShelfFault>
    ensures { IfOk result (λ file. length file.items ≤ FILE_BYTES) }
{
    let mut bytes = Vec::new(alloc);
    let mut chunk = [0; READ_BYTES];
    while bytes.len() <= FILE_BYTES {
        let room = READ_BYTES.min(FILE_BYTES + 1 - bytes.len());
        let count = file
            .read(&mut chunk[..room])
            .map_err(|_| ShelfFault::Failed)?;
        if count == 0 {
            return Ok(bytes);
        }
        bytes.extend_from_slice(&chunk[..count])?;
    }
    Err(ShelfFault::Long)
}
