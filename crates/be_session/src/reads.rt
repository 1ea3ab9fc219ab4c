//! PUB, LIST, COST, DUMP and TAIL: what a read of the board finds. A reply that takes room is built whole before its first byte
//! goes out.

ghost use Rattle.std.specs.Prelude.{◌≡◌, true, OnOk, IfErr};
ghost use Rattle.be_model.specs.Lies.{event_lies};
ghost use Rattle.be_change.specs.Requests as asked;
ghost use Rattle.be_session.specs.Reads.{IsTold};
ghost use Rattle.be_protocol.specs.Short.{plain_reply};
ghost use Rattle.be_session.specs.Steps.{Replies};

use crate::room::Room;
use be_board::Board;
use be_index::Hits;
use be_model::{Event, Schema};
use be_protocol::{Naming, Short, write_changes, write_hits, write_names, write_rows};

impl Room {
    /// The names of the live rows that the event satisfies.
    pub fn hits<B: Board>(&mut self, board: &mut B, event: &Event) -> Result<(), Short>
        requires lies { event_lies (B.state board.old).schema event.now ≡ true }
        ensures told { OnOk result (IsTold (B.state board.old).schema (asked.publish event.now) self.new.reply.items (B.state board.old) (B.state board.new)) }
        ensures refused { IfErr result (λ short. Replies (B.state board.old).schema
            (asked.publish event.now, plain_reply short) (B.state board.old) (B.state board.new)) }
    {
        self.reply.clear();
        let n = board.hits(event, &mut self.ids, &mut self.names)?;
        write_hits(&mut self.reply, n, self.ids.count(), self.names.as_slice())?;
        Ok(())
    }

    /// The names of the session's live rows.
    pub fn listed<B: Board>(&mut self, board: &mut B) -> Result<(), Short>
        ensures told { OnOk result (IsTold (B.state board.old).schema asked.listing self.new.reply.items (B.state board.old) (B.state board.new)) }
        ensures refused { IfErr result (λ short. Replies (B.state board.old).schema
            (asked.listing, plain_reply short) (B.state board.old) (B.state board.new)) }
    {
        self.reply.clear();
        let n = board.mine(&mut self.found)?;
        write_names(&mut self.reply, Naming::List, n, self.found.rows())?;
        Ok(())
    }

    /// All live rows, as lines of a load file.
    pub fn dumped<B: Board>(&mut self, schema: &Schema, board: &mut B) -> Result<(), Short>
        requires schema { (B.state board.old).schema ≡ schema.now }
        ensures told { OnOk result (IsTold (B.state board.old).schema asked.dumping self.new.reply.items (B.state board.old) (B.state board.new)) }
        ensures refused { IfErr result (λ short. Replies (B.state board.old).schema
            (asked.dumping, plain_reply short) (B.state board.old) (B.state board.new)) }
    {
        self.reply.clear();
        let n = board.all(&mut self.found)?;
        write_rows(&mut self.reply, schema, n, self.found.rows())?;
        Ok(())
    }

    /// The changes from a place on, at most `max`.
    pub fn tail<B: Board>(
        &mut self,
        schema: &Schema,
        board: &mut B,
        place: u64,
        max: u64,
    ) -> Result<(), Short>
        requires schema { (B.state board.old).schema ≡ schema.now }
        ensures told { OnOk result (IsTold (B.state board.old).schema (asked.tailing place max) self.new.reply.items (B.state board.old) (B.state board.new)) }
        ensures refused { IfErr result (λ short. Replies (B.state board.old).schema
            (asked.tailing place max, plain_reply short) (B.state board.old) (B.state board.new)) }
    {
        self.reply.clear();
        self.changes.clear();
        let n = board.tail(place, max, &mut self.changes)?;
        write_changes(&mut self.reply, schema, n, place, self.changes.as_slice())?;
        Ok(())
    }
}

/// What a search for the event costs.
pub fn cost<B: Board>(board: &mut B, event: &Event) -> Short
    requires lies { event_lies (B.state board.old).schema event.now ≡ true }
    ensures replies { Replies (B.state board.old).schema
        (asked.costing event.now, plain_reply result) (B.state board.old) (B.state board.new) }
{
    match board.cost(event) {
        Ok((n, cost)) => Short::Costs { n, cost },
        Err(refused) => Short::from(refused),
    }
}
