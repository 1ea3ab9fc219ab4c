//! What a read of the published copy finds, as a reply. A reply that takes room is built whole before its first byte goes out.

ghost use Rattle.std.specs.Prelude.{◌≡◌, true, OnOk, IfErr};
ghost use Rattle.be_model.specs.Lies.{event_lies};
ghost use Rattle.be_change.specs.Requests as asked;
ghost use Rattle.be_protocol.specs.Short.{plain_reply, short_of};
ghost use Rattle.be_mirror.specs.Sessions.{SaysReply, ReadReplies};

use be_base::{NoMemory, NoRead};
use be_index::Hits;
use be_model::{Event, Schema};
use be_protocol::{Short, write_changes, write_hits, write_rows};
use be_published::{Glass, Naming, Sheet};
use be_session::Room;

/// The names of the live rows that the event satisfies.
pub fn hits<T: Sheet<J>, J: Naming>(
    glass: &mut Glass<T, J>,
    room: &mut Room,
    event: &Event,
) -> Result<(), NoRead>
    requires { event_lies J.schema event.now ≡ true }
    ensures told { OnOk result (SaysReply J.schema (asked.publish event.now) room.new.reply.items glass.old glass.new) }
    ensures refused { IfErr result (λ no. ReadReplies J.schema (asked.publish event.now, plain_reply (short_of no)) glass.old glass.new) }
{
    room.reply.clear();
    let n = glass.hits(event, &mut room.ids, &mut room.names)?;
    let names = room.names.as_slice();
    match write_hits(&mut room.reply, n, room.ids.count(), names) {
        Ok(()) => Ok(()),
        Err(NoMemory) => Err(NoRead::NoMemory),
    }
}

/// All live rows, as lines of a load file.
pub fn dumped<T: Sheet<J>, J: Naming>(
    schema: &Schema,
    glass: &mut Glass<T, J>,
    room: &mut Room,
) -> Result<(), NoRead>
    requires { schema.now ≡ J.schema }
    ensures told { OnOk result (SaysReply J.schema asked.dumping room.new.reply.items glass.old glass.new) }
    ensures refused { IfErr result (λ no. ReadReplies J.schema (asked.dumping, plain_reply (short_of no)) glass.old glass.new) }
{
    room.reply.clear();
    let n = glass.all(&mut room.found)?;
    // Called for its clause that what is known lies in the schema.
    let _ = glass.front();
    match write_rows(&mut room.reply, schema, n, room.found.rows()) {
        Ok(()) => Ok(()),
        Err(NoMemory) => Err(NoRead::NoMemory),
    }
}

/// The changes from a place on, at most `max`.
pub fn tail<T: Sheet<J>, J: Naming>(
    schema: &Schema,
    glass: &mut Glass<T, J>,
    room: &mut Room,
    place: u64,
    max: u64,
) -> Result<(), NoRead>
    requires { schema.now ≡ J.schema }
    ensures told { OnOk result (SaysReply J.schema (asked.tailing place max) room.new.reply.items glass.old glass.new) }
    ensures refused { IfErr result (λ no. ReadReplies J.schema (asked.tailing place max, plain_reply (short_of no)) glass.old glass.new) }
{
    room.reply.clear();
    room.changes.clear();
    let n = glass.tail(place, max, &mut room.changes)?;
    let _ = glass.front();
    let changes = room.changes.as_slice();
    match write_changes(&mut room.reply, schema, n, place, changes) {
        Ok(()) => Ok(()),
        Err(NoMemory) => Err(NoRead::NoMemory),
    }
}

/// The length of the published list, or of what is known where the reader is refused an entry.
pub fn length<T: Sheet<J>, J: Naming>(glass: &mut Glass<T, J>) -> u64
    ensures { ReadReplies J.schema (asked.quit, asked.bye result) glass.old glass.new }
{
    match glass.look() {
        Some(n) => n,
        None => glass.front(),
    }
}

/// What a search for the event costs.
pub fn cost<T: Sheet<J>, J: Naming>(glass: &mut Glass<T, J>, event: &Event) -> Short
    requires { event_lies J.schema event.now ≡ true }
    ensures { ReadReplies J.schema (asked.costing event.now, plain_reply result) glass.old glass.new }
{
    match glass.cost(event) {
        Ok((n, cost)) => Short::Costs { n, cost },
        Err(refused) => Short::from(refused),
    }
}
