//! One peer: a source and a sink.

ghost use Rattle.std.specs.Prelude.{◌≡◌, ◌++◌, ◌∷◌, [], ℕ, refl};
ghost use Rattle.be_io.specs.Outside.{source_state, sink_state};

use crate::faults::{Failed, SinkFault};
use crate::sink::Sink;
use crate::source::Source;

/// Something that gives bytes and takes bytes. A read leaves what it holds and keeps back and the counts of its writes as
/// they were, and a write or a flush leaves what it has left and the counts of its reads.
pub trait Link: Source + Sink {
    ghost reads_leave_the_sink: { (link : Self) → (Self.kept_by_read link).sink ≡ sink_state Self.Sink link };

    ghost writes_leave_the_source: { (link : Self) → (Self.kept_by_write link).source ≡ source_state Self.Source link };

    ghost is_one: { (link : Self) → (Self.kept_by_write link).references ≡ (Self.kept_by_read link).references };
}

/// A source and a sink as one link.
#[derive(Drop)]
pub struct Pair<S, K> {
    pub source: S,
    pub sink: K,
}

impl<S: Source, K: Sink> Source for Pair<S, K> {
    ghost left = { λ pair. S.left pair.source };

    ghost taken = { λ pair. S.taken pair.source };

    ghost read_faults = { λ pair. S.read_faults pair.source };

    ghost kept_by_read = { λ pair. record {
      whole = (S.kept_by_read pair.source).whole;
      sink = sink_state K.Sink pair.sink;
      references = (S.kept_by_read pair.source).references ++ (K.kept_by_write pair.sink).references;
    } };

    fn read(&mut self, buf: &mut [u8]) -> Result<usize, Failed> {
        self.source.read(buf)
    }
}

impl<S: Source, K: Sink> Sink for Pair<S, K> {
    ghost held = { λ pair. K.held pair.sink };

    ghost write_faults = { λ pair. K.write_faults pair.sink };

    ghost refusals = { λ pair. K.refusals pair.sink };

    ghost kept_back = { λ pair. K.kept_back pair.sink };

    ghost kept_by_write = { λ pair. record {
      source = source_state S.Source pair.source;
      references = (S.kept_by_read pair.source).references ++ (K.kept_by_write pair.sink).references;
    } };

    fn write(&mut self, bytes: &[u8]) -> Result<usize, SinkFault> {
        self.sink.write(bytes)
    }

    fn flush(&mut self) -> Result<(), SinkFault> {
        self.sink.flush()
    }

    fn hears(&self) -> bool {
        self.sink.hears()
    }
}

impl<S: Source, K: Sink> Link for Pair<S, K> {
    ghost reads_leave_the_sink = { λ pair. refl };

    ghost writes_leave_the_source = { λ pair. refl };

    ghost is_one = { λ pair. refl };
}

/// A borrowed source is a source.
impl<S: Source> Source for &mut S {
    ghost left = { λ source. S.left source.now };

    ghost taken = { λ source. S.taken source.now };

    ghost read_faults = { λ source. S.read_faults source.now };

    ghost kept_by_read = { λ source. record (S.kept_by_read source.now) { references = source.ghost_name ∷ [] } };

    fn read(&mut self, buf: &mut [u8]) -> Result<usize, Failed> {
        Source::read(&mut **self, buf)
    }
}

/// A borrowed sink is a sink.
impl<K: Sink> Sink for &mut K {
    ghost held = { λ sink. K.held sink.now };

    ghost write_faults = { λ sink. K.write_faults sink.now };

    ghost refusals = { λ sink. K.refusals sink.now };

    ghost kept_back = { λ sink. K.kept_back sink.now };

    ghost kept_by_write = { λ sink. record (K.kept_by_write sink.now) { references = sink.ghost_name ∷ [] } };

    fn write(&mut self, bytes: &[u8]) -> Result<usize, SinkFault> {
        Sink::write(&mut **self, bytes)
    }

    fn flush(&mut self) -> Result<(), SinkFault> {
        Sink::flush(&mut **self)
    }

    fn hears(&self) -> bool {
        Sink::hears(&**self)
    }
}
