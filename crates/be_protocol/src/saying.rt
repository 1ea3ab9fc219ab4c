//! Short replies, written.

ghost use Rattle.std.specs.Prelude.{◌≡◌};
ghost use Rattle.be_io.specs.Outside.{sink_state};
ghost use Rattle.be_io.specs.Sink.{Wrote};
ghost use Rattle.be_model.specs.Schemas.{Attributes};
ghost use Rattle.be_protocol.specs.Replies.{reply_text};
ghost use Rattle.be_protocol.specs.Short.{plain_reply};

use crate::short::Short;
use be_io::{Sink, SinkFault, write_all};

/// Writes a short reply.
pub fn say<K: Sink>(out: &mut K, reply: Short) -> Result<(), SinkFault>
    ensures wrote { (s : Attributes) → Wrote (sink_state K.Sink out.old) (sink_state K.Sink out.new) (reply_text s (plain_reply reply)) result }
    ensures beside { K.kept_by_write out.new ≡ K.kept_by_write out.old }
{
    write_all(out, reply.text().as_str().as_bytes())
}
