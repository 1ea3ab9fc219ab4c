//! A file that is read, and a transcript that is kept, in memory. No call of either fails.

ghost use Rattle.std.specs.Prelude.{◌≡◌, ◌<◌, ◌≤◌, [], Some, None, length};
ghost use Rattle.be_io.specs.Kept.{alone_in_reading};
ghost use Rattle.be_hub.specs.Quiet.{new_file};

use be_base::FILE_BYTES;
use be_io::{Failed, MemSink, MemSource, Sink, SinkFault, Source};
use std::alloc::Global;
use std::marker::Model;

/// So many bytes are read at once.
const PIECE: usize = 8192;

/// The bytes of a file.
#[derive(Drop)]
pub struct FileSource {
    inner: MemSource,
}

impl Model for FileSource {
    ghost use Rattle.be_io.specs.Memory.{MemSourceState};
    ghost use Rattle.be_hub.specs.Quiet.{IsQuietSource};

    ghost Value = { MemSourceState };

    ghost view = { λ s. s.inner };

    ghost invariant = { λ s. IsQuietSource s.inner };
}

impl FileSource {
    pub fn make(alloc: Global, bytes: Vec<u8>) -> FileSource
        requires { length bytes.items ≤ FILE_BYTES }
        ensures { result ≡ new_file bytes.items }
    {
        FileSource {
            inner: MemSource::make(bytes, PIECE, Vec::new(alloc)),
        }
    }
}

impl Source for FileSource {
    ghost left = { λ s. Some s.left };

    ghost taken = { λ s. s.taken };

    ghost read_faults = { λ s. 0 };

    ghost kept_by_read = { λ s. record alone_in_reading { whole = Some s.whole } };

    fn read(&mut self, buf: &mut [u8]) -> Result<usize, Failed> {
        match self.inner.read(buf) {
            Ok(count) => Ok(count),
            Err(_) => unreachable!(),
        }
    }
}

/// What a session writes.
#[derive(Drop)]
pub struct Transcript {
    inner: MemSink,
}

impl Model for Transcript {
    ghost use Rattle.std.specs.Prelude.{◌≡◌, []};
    ghost use Rattle.be_io.specs.Memory.{MemSinkState};

    ghost Value = { MemSinkState };

    ghost view = { λ s. s.inner };

    ghost invariant = { λ s. s.inner.calls.fails ≡ [] };
}

impl Transcript {
    pub fn make(alloc: Global) -> Transcript
        ensures { (result.held ≡ []) × (result.refusals ≡ 0) }
    {
        Transcript {
            inner: MemSink::make(alloc, Vec::new(alloc)),
        }
    }

    pub fn take(self) -> Vec<u8>
        ensures { result.items ≡ self.held }
    {
        self.inner.take()
    }
}

impl Sink for Transcript {
    ghost held = { λ s. Some s.held };

    ghost write_faults = { λ s. 0 };

    ghost refusals = { λ s. s.refusals };

    ghost kept_back = { λ _. 0 };

    fn write(&mut self, bytes: &[u8]) -> Result<usize, SinkFault> {
        match self.inner.write(bytes) {
            Ok(count) => Ok(count),
            Err(SinkFault::NoMemory) => Err(SinkFault::NoMemory),
            Err(SinkFault::Failed) => unreachable!(),
        }
    }

    fn flush(&mut self) -> Result<(), SinkFault> {
        Ok(())
    }
}
