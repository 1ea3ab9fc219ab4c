//! Writing whole texts.

ghost use Rattle.std.specs.Prelude.{◌≡◌};
ghost use Rattle.be_io.specs.Sink.{Wrote, Flushed};
ghost use Rattle.be_io.specs.Outside.{sink_state};

use crate::faults::SinkFault;
use crate::sink::Sink;

/// Writes all of these bytes, or hands on the sink's refusal.
pub fn write_all<K: Sink>(sink: &mut K, bytes: &[u8]) -> Result<(), SinkFault>
    ensures wrote { Wrote (sink_state K.Sink sink.old) (sink_state K.Sink sink.new) bytes.now result }
    ensures beside { K.kept_by_write sink.new ≡ K.kept_by_write sink.old }
{
    let mut from = 0;
    while from < bytes.len() {
        from += sink.write(&bytes[from..])?;
    }
    Ok(())
}

/// Hands on all bytes that the sink took, or its refusal.
pub fn hand_on<K: Sink>(sink: &mut K) -> Result<(), SinkFault>
    ensures flushed { Flushed (sink_state K.Sink sink.old) (sink_state K.Sink sink.new) result }
    ensures beside { K.kept_by_write sink.new ≡ K.kept_by_write sink.old }
{
    sink.flush()
}
