//! Writing events into a sink, piece by piece.

ghost use Rattle.std.specs.Prelude.{◌≡◌, ◌≢◌, ◌+◌, ◌≤◌, ◌∷◌, ◌++◌, [], true, length, IfSome};
ghost use Rattle.std.specs.Option.{IfNone};
ghost use Rattle.be_base.specs.Sets.{set_text};
ghost use Rattle.be_base.specs.declared.limits.TheConstants.{NAME_BYTES};
ghost use Rattle.be_event.specs.declared.sending.TheConstants.{PIECE_BYTES};
ghost use Rattle.be_io.specs.Outside.{sink_state};
ghost use Rattle.be_io.specs.Sink.{Wrote};
ghost use Rattle.be_model.specs.Domains.{bounds_of, is_within};
ghost use Rattle.be_model.specs.Lies.{lies_within, item_lies, event_lies};
ghost use Rattle.be_model.specs.Schemas.{is_domain};
ghost use Rattle.be_model.specs.Texts.{value_text};
ghost use Rattle.be_event.specs.Writing.{item_text, event_text};

use arrayvec::ArrayString;
use be_base::{AttrNo, NAME_BYTES};
use be_io::{Sink, SinkFault, write_all};
use be_model::{Domain, Event, Schema, Values};
use itoa::Buffer;

// A mark, a name, `=` and a value, which takes no more than a name.
const PIECE_BYTES: usize = 2 * NAME_BYTES + 2;

type Piece = ArrayString<PIECE_BYTES>;

/// Writes the canonical text of an event, an item at a time. It takes no memory but what the sink takes.
pub fn send_event<K: Sink>(schema: &Schema, e: &Event, sink: &mut K) -> Result<(), SinkFault>
    requires { event_lies schema.now e.now ≡ true }
    ensures wrote { Wrote (sink_state K.Sink sink.old) (sink_state K.Sink sink.new) (event_text schema.now e.now) result }
    ensures beside { K.kept_by_write sink.new ≡ K.kept_by_write sink.old }
{
    let Some((first, rest)) = e.items().split_first() else {
        return write_all(sink, b"-");
    };
    send_item("", schema, first, sink)?;
    for item in rest {
        send_item(" ", schema, item, sink)?;
    }
    Ok(())
}

// Writes a mark and an item.
fn send_item<K: Sink>(
    mark: &str,
    schema: &Schema,
    item: &(AttrNo, Values),
    sink: &mut K,
) -> Result<(), SinkFault>
    requires short { length mark.now ≤ 1 }
    requires lies { item_lies schema.now item.now ≡ true }
    ensures wrote { Wrote (sink_state K.Sink sink.old) (sink_state K.Sink sink.new) (mark.now ++ item_text schema.now item.now) result }
    ensures beside { K.kept_by_write sink.new ≡ K.kept_by_write sink.old }
{
    let (attr, values) = item;
    let attribute = schema.attribute(*attr);
    // How long a name is comes to light at a call on it.
    let _form = attribute.name.bytes();
    let mut piece = Piece::new();
    push(&mut piece, mark);
    push(&mut piece, attribute.name.as_str());
    push(&mut piece, "=");
    let values = values.as_slice();
    match only_value(values) {
        Some(value) => {
            push_value(&mut piece, &attribute.domain, value);
            write_all(sink, piece.as_str().as_bytes())
        }
        None => {
            write_all(sink, piece.as_str().as_bytes())?;
            send_set(&attribute.domain, values, sink)
        }
    }
}

// The value, where there is one alone.
fn only_value(values: &[i64]) -> Option<&i64>
    ensures one { IfSome result (λ value. values.now ≡ value.now ∷ []) }
    ensures many { IfNone result (length values.now ≢ 1) }
{
    match values {
        [value] => Some(value),
        _ => None,
    }
}

// Writes a set of values.
fn send_set<K: Sink>(domain: &Domain, values: &[i64], sink: &mut K) -> Result<(), SinkFault>
    requires valid { is_domain domain.now ≡ true }
    requires within { lies_within (bounds_of domain.now) values.now ≡ true }
    ensures wrote { Wrote (sink_state K.Sink sink.old) (sink_state K.Sink sink.new) (set_text (value_text domain.now) values.now) result }
    ensures beside { K.kept_by_write sink.new ≡ K.kept_by_write sink.old }
{
    let Some((first, rest)) = values.split_first() else {
        return write_all(sink, b"{}");
    };
    send_value("{", domain, first, sink)?;
    for value in rest {
        send_value(",", domain, value, sink)?;
    }
    write_all(sink, b"}")
}

// Writes a mark and a value.
fn send_value<K: Sink>(
    mark: &str,
    domain: &Domain,
    value: &i64,
    sink: &mut K,
) -> Result<(), SinkFault>
    requires short { length mark.now ≤ 1 }
    requires valid { is_domain domain.now ≡ true }
    requires within { is_within (bounds_of domain.now) value.now ≡ true }
    ensures wrote { Wrote (sink_state K.Sink sink.old) (sink_state K.Sink sink.new) (mark.now ++ value_text domain.now value.now) result }
    ensures beside { K.kept_by_write sink.new ≡ K.kept_by_write sink.old }
{
    let mut piece = Piece::new();
    push(&mut piece, mark);
    push_value(&mut piece, domain, value);
    write_all(sink, piece.as_str().as_bytes())
}

// Puts the text of a value last.
fn push_value(piece: &mut Piece, domain: &Domain, value: &i64)
    requires room { length piece.old.bytes + NAME_BYTES ≤ PIECE_BYTES }
    requires valid { is_domain domain.now ≡ true }
    requires within { is_within (bounds_of domain.now) value.now ≡ true }
    ensures { piece.new.bytes ≡ piece.old.bytes ++ value_text domain.now value.now }
{
    match domain {
        Domain::Int { .. } => {
            let mut number = Buffer::new();
            push(piece, number.format(*value));
        }
        Domain::Sym { words } => {
            let word = &words.as_slice()[*value as usize];
            let _form = word.bytes();
            push(piece, word.as_str());
        }
    }
}

fn push(piece: &mut Piece, text: &str)
    requires { length piece.old.bytes + length text.now ≤ PIECE_BYTES }
    ensures { piece.new.bytes ≡ piece.old.bytes ++ text.now }
{
    match piece.try_push_str(text) {
        Ok(()) => {}
        Err(_) => unreachable!(),
    }
}
