//! The reply to a FETCH, written one letter at a time.

ghost use Rattle.std.specs.Prelude.{◌≡◌, ◌++◌, true, codes};
ghost use Rattle.be_io.specs.Outside.{sink_state};
ghost use Rattle.be_io.specs.Sink.{Wrote};
ghost use Rattle.be_model.specs.Letters.{plain_letter};
ghost use Rattle.be_model.specs.Lies.{event_lies};
ghost use Rattle.be_change.specs.Requests.{note};
ghost use Rattle.be_protocol.specs.Replies.{note_line, number, with_lf};

use crate::short::{end_text, note_head};
use be_event::send_event;
use be_io::{Sink, SinkFault, write_all};
use be_model::{Letter, Schema};

/// Writes the line of a letter. It takes no memory but what the sink takes.
pub fn send_note<K: Sink>(out: &mut K, schema: &Schema, letter: &Letter) -> Result<(), SinkFault>
    requires { event_lies schema.now (plain_letter letter.now).event ≡ true }
    ensures wrote { let l = plain_letter letter.now in
        Wrote (sink_state K.Sink out.old) (sink_state K.Sink out.new) (with_lf (note_line schema.now (note l.n l.row.name l.event))) result }
    ensures beside { K.kept_by_write out.new ≡ K.kept_by_write out.old }
{
    write_all(
        out,
        note_head(letter.n, &letter.row.name).as_str().as_bytes(),
    )?;
    send_event(schema, &letter.text.event, out)?;
    write_all(out, b"\n")
}

/// Writes the last line, behind so many letters.
pub fn say_end<K: Sink>(out: &mut K, count: u64) -> Result<(), SinkFault>
    ensures wrote { Wrote (sink_state K.Sink out.old) (sink_state K.Sink out.new) (with_lf (codes "END" ++ number count)) result }
    ensures beside { K.kept_by_write out.new ≡ K.kept_by_write out.old }
{
    write_all(out, end_text(count).as_str().as_bytes())
}
