//! Writing conditions and changes in their one canonical form.

ghost use Rattle.std.specs.Prelude.{◌≡◌, ℕ, ◌∷◌, ◌++◌, [], true, All, Ok, IfOk, OnOk};
ghost use Rattle.std.specs.List.{join_by};
ghost use Rattle.be_base.specs.Text.{IsName, IsWord};
ghost use Rattle.be_model.specs.Entries.{entry_of, subscribed};
ghost use Rattle.be_model.specs.Schemas.{range_of};
ghost use Rattle.be_model.specs.Lies.{values_in, lies_in, item_lies, pred_lies, conj_lies, row_lies, entry_lies};
ghost use Rattle.be_model.specs.Texts.{value_text_at};
ghost use Rattle.be_expr.specs.Expressions.{expression};
ghost use Rattle.be_expr.specs.Writing.{op_text, pred_text, expr_text, IsSpelled};
ghost use Rattle.be_expr.specs.Changes.{head_text, change_text, IsReadBack};

use be_base::{AttrNo, NoMemory, SessionNo};
use be_model::{Change, Conj, Op, Pred, Row, Schema};
use itoa::Buffer;
use std::alloc::Global;

/// The canonical text of a condition.
pub fn write_expr(alloc: Global, schema: &Schema, c: &Conj) -> Result<Vec<u8>, NoMemory>
    requires { conj_lies schema.now c.now ≡ true }
    ensures written { IfOk result (λ text. text.items ≡ expr_text schema.now c.now) }
    // Reading the text gives the condition back.
    ensures read { IfOk result (λ text. expression schema.now text.items ≡ Ok c.now) }
{
    let mut text = Vec::new(alloc);
    append_expr(schema, c, &mut text)?;
    Ok(text)
}

/// Puts the canonical text of a condition last. After a refusal part of it may stand there.
pub fn append_expr(schema: &Schema, c: &Conj, text: &mut Vec<u8>) -> Result<(), NoMemory>
    requires { conj_lies schema.now c.now ≡ true }
    ensures written { OnOk result (text.new.items ≡ text.old.items ++ expr_text schema.now c.now) }
    ensures read { OnOk result (expression schema.now (expr_text schema.now c.now) ≡ Ok c.now) }
{
    // The count tells that the schema has the form of one.
    let _ = schema.count();
    put_preds(schema, c.preds(), text)
}

fn put_preds(schema: &Schema, preds: &[Pred], text: &mut Vec<u8>) -> Result<(), NoMemory>
    requires { conj_lies schema.now preds.now ≡ true }
    ensures written { OnOk result (text.new.items ≡ text.old.items ++ expr_text schema.now preds.now) }
    ensures spelled { OnOk result (All (IsSpelled schema.now) preds.now) }
{
    let Some((first, rest)) = preds.split_first() else {
        text.extend_from_slice(b"all")?;
        return Ok(());
    };
    put_pred(schema, first, text)?;
    for pred in rest {
        text.extend_from_slice(b" and ")?;
        put_pred(schema, pred, text)?;
    }
    Ok(())
}

fn put_pred(schema: &Schema, p: &Pred, text: &mut Vec<u8>) -> Result<(), NoMemory>
    requires { pred_lies schema.now p.now ≡ true }
    ensures written { OnOk result (text.new.items ≡ text.old.items ++ pred_text schema.now p.now) }
    ensures spelled { OnOk result (IsSpelled schema.now p.now) }
{
    schema.write_name(p.attr, text)?;
    text.extend_from_slice(b" ")?;
    put_op(schema, p.attr, &p.op, text)
}

fn put_op(schema: &Schema, a: AttrNo, op: &Op, text: &mut Vec<u8>) -> Result<(), NoMemory>
    requires { lies_in (range_of schema.now a) (values_in op.now) ≡ true }
    ensures written { OnOk result (text.new.items ≡ text.old.items ++ op_text (value_text_at schema.now a) op.now) }
    ensures words { OnOk result (All (λ v. IsWord (value_text_at schema.now a v)) (values_in op.now)) }
{
    match op {
        Op::Lt(v) => schema.write_behind(b"< ", a, v, text),
        Op::Le(v) => schema.write_behind(b"<= ", a, v, text),
        Op::Eq(v) => schema.write_behind(b"= ", a, v, text),
        Op::Ne(v) => schema.write_behind(b"!= ", a, v, text),
        Op::Ge(v) => schema.write_behind(b">= ", a, v, text),
        Op::Gt(v) => schema.write_behind(b"> ", a, v, text),
        Op::Between(low, high) => {
            schema.write_behind(b"between ", a, low, text)?;
            schema.write_behind(b" and ", a, high, text)
        }
        Op::OneOf(values) => {
            text.extend_from_slice(b"in ")?;
            schema.write_set(a, values.as_slice(), text)
        }
        Op::NoneOf(values) => {
            text.extend_from_slice(b"not in ")?;
            schema.write_set(a, values.as_slice(), text)
        }
    }
}

/// The text of a change.
pub fn write_change(alloc: Global, schema: &Schema, c: &Change) -> Result<Vec<u8>, NoMemory>
    requires { entry_lies schema.now (entry_of c.now) ≡ true }
    ensures written { IfOk result (λ text. text.items ≡ change_text schema.now (entry_of c.now)) }
    // Reading the text gives the change back, where its numbers and its row's id allow it.
    ensures read { IfOk result (λ text. IsReadBack schema.now text.items (entry_of c.now)) }
{
    let mut text = Vec::new(alloc);
    append_change(schema, c, &mut text)?;
    Ok(text)
}

/// Puts the text of a change last. After a refusal part of it may stand there.
pub fn append_change(schema: &Schema, c: &Change, text: &mut Vec<u8>) -> Result<(), NoMemory>
    requires { entry_lies schema.now (entry_of c.now) ≡ true }
    ensures written { OnOk result (text.new.items ≡ text.old.items ++ change_text schema.now (entry_of c.now)) }
    ensures read { OnOk result (IsReadBack schema.now (change_text schema.now (entry_of c.now)) (entry_of c.now)) }
{
    match c {
        Change::Sub {
            session,
            serial,
            row,
        } => put_sub(schema, *session, *serial, row, text),
        Change::Unsub {
            session,
            serial,
            name,
        } => {
            put_head(b"UNSUB", *session, *serial, text)?;
            put_part(name.bytes(), text)
        }
        Change::Bye { session, serial } => put_head(b"BYE", *session, *serial, text),
    }
}

fn put_sub(
    schema: &Schema,
    session: SessionNo,
    serial: u64,
    row: &Row,
    text: &mut Vec<u8>,
) -> Result<(), NoMemory>
    requires { row_lies schema.now row.now ≡ true }
    ensures written { OnOk result (text.new.items ≡ text.old.items ++ change_text schema.now (subscribed session.0 serial row.now)) }
    ensures read { OnOk result (IsReadBack schema.now (change_text schema.now (subscribed session.0 serial row.now)) (subscribed session.0 serial row.now)) }
{
    put_head(b"SUB", session, serial, text)?;
    put_part(row.name.bytes(), text)?;
    text.extend_from_slice(b" ")?;
    append_expr(schema, &row.conj, text)
}

// Puts the word of a change and its numbers last.
fn put_head(
    kind: &[u8],
    session: SessionNo,
    serial: u64,
    text: &mut Vec<u8>,
) -> Result<(), NoMemory>
    ensures { OnOk result (text.new.items ≡ text.old.items ++ head_text kind.now session.0 serial) }
{
    let mut number = Buffer::new();
    text.extend_from_slice(kind)?;
    put_part(number.format(session.0).as_bytes(), text)?;
    put_part(number.format(serial).as_bytes(), text)
}

// Puts a space and a part of a text last.
fn put_part(part: &[u8], text: &mut Vec<u8>) -> Result<(), NoMemory>
    ensures { OnOk result (text.new.items ≡ text.old.items ++ 32 ∷ part.now) }
{
    text.extend_from_slice(b" ")?;
    text.extend_from_slice(part)?;
    Ok(())
}
