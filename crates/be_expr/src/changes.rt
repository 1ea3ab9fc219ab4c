//! Changes, read.

ghost use Rattle.std.specs.Prelude.{◌≡◌, true, Err, IfOk};
ghost use Rattle.std.specs.Option.{option_map_or};
ghost use Rattle.be_base.specs.Tokens.{tokens};
ghost use Rattle.be_model.specs.Entries.{entry_of, subscribed};
ghost use Rattle.be_model.specs.Lies.{entry_lies};
ghost use Rattle.be_expr.specs.Expressions.{Reads};
ghost use Rattle.be_expr.specs.Changes.{change, change_in, new_row, subscription, removal, leave, entry_read, is_row_free};
ghost use Rattle.be_expr.specs.Parts.{plain_front};

use crate::faults::ExprFault;
use crate::named::read_named;
use crate::parts::{Front, read_front};
use be_base::{Id, Name, NoMemory, SessionNo, is_end, read_word};
use be_model::{Change, Conj, Row, Schema};
use std::alloc::Global;
use std::sync::Arc;

// What a Sub says besides its name and its condition.
#[derive(Clone, Copy)]
struct Stamp {
    id: Id,
    session: SessionNo,
    serial: u64,
}

/// Reads a whole text as a change. A Sub's row gets the id. A text with a fault is told so even where memory ran out.
pub fn read_change(alloc: Global, schema: &Schema, text: &[u8], id: Id) -> Result<Change, ExprFault>
    ensures exact { Reads (entry_read result) (change schema.now id.0 text.now) }
    ensures lies { IfOk result (λ change. entry_lies schema.now (entry_of change) ≡ true) }
{
    match read_front(text) {
        Some((front, rest)) => read_kind(alloc, schema, rest, id, front),
        None => Err(ExprFault::Bad),
    }
}

fn read_kind(
    alloc: Global,
    schema: &Schema,
    text: &[u8],
    id: Id,
    front: Front<'_>,
) -> Result<Change, ExprFault>
    ensures exact { Reads (entry_read result) (change_in schema.now id.0 (plain_front front.entry) (tokens text.now)) }
    ensures lies { IfOk result (λ change. entry_lies schema.now (entry_of change) ≡ true) }
{
    let session = SessionNo(front.session);
    if front.kind == b"SUB".as_slice() {
        read_sub(alloc, schema, text, id, session, front.serial)
    } else if front.kind == b"UNSUB".as_slice() {
        read_unsub(alloc, text, session, front.serial)
    } else if front.kind == b"BYE".as_slice() {
        read_bye(text, session, front.serial)
    } else {
        Err(ExprFault::Bad)
    }
}

fn read_sub(
    alloc: Global,
    schema: &Schema,
    text: &[u8],
    id: Id,
    session: SessionNo,
    serial: u64,
) -> Result<Change, ExprFault>
    ensures exact { Reads (entry_read result) (option_map_or (subscription schema.now id.0 session.0 serial) (tokens text.now) (Err ExprFault.Bad)) }
    ensures lies { IfOk result (λ change. entry_lies schema.now (entry_of change) ≡ true) }
{
    let stamp = Stamp {
        id,
        session,
        serial,
    };
    match read_named(alloc, schema, text) {
        Ok((name, conj)) => Ok(sub(alloc, stamp, name, conj)?),
        Err(fault) => Err(fault),
    }
}

fn sub(alloc: Global, stamp: Stamp, name: Name, conj: Conj) -> Result<Change, NoMemory>
    ensures { IfOk result (λ change. entry_of change ≡ subscribed stamp.session.0 stamp.serial (new_row stamp.id.0 stamp.session.0 name conj)) }
{
    let Stamp {
        id,
        session,
        serial,
    } = stamp;
    let row = Row {
        id,
        session,
        name,
        conj,
    };
    match Arc::new(alloc, row) {
        Ok(row) => Ok(Change::Sub {
            session,
            serial,
            row,
        }),
        Err(_) => Err(NoMemory),
    }
}

fn read_unsub(
    alloc: Global,
    text: &[u8],
    session: SessionNo,
    serial: u64,
) -> Result<Change, ExprFault>
    ensures exact { Reads (entry_read result) (option_map_or (removal session.0 serial) (tokens text.now) (Err ExprFault.Bad)) }
    ensures lies { IfOk result (λ change. is_row_free (entry_of change) ≡ true) }
{
    match read_word(text) {
        Some((word, rest)) if is_end(rest) => match Name::read(word) {
            Ok(name) => Ok(Change::removal(alloc, session, serial, name)?),
            Err(_) => Err(ExprFault::Bad),
        },
        _ => Err(ExprFault::Bad),
    }
}

fn read_bye(text: &[u8], session: SessionNo, serial: u64) -> Result<Change, ExprFault>
    ensures exact { Reads (entry_read result) (option_map_or (leave session.0 serial) (tokens text.now) (Err ExprFault.Bad)) }
    ensures lies { IfOk result (λ change. is_row_free (entry_of change) ≡ true) }
{
    if is_end(text) {
        Ok(Change::Bye { session, serial })
    } else {
        Err(ExprFault::Bad)
    }
}
