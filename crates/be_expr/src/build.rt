//! Conditions, from texts without a fault. A text is read once, and no further than its first fault.

ghost use Rattle.std.specs.Prelude.{◌≡◌, ◌<◌, ◌≤◌, length, option_and_then, IfOk, IfSome};
ghost use Rattle.be_base.specs.Tokens.{tokens};
ghost use Rattle.be_base.specs.Scans.{lexeme};
ghost use Rattle.be_base.specs.Readers.{following};
ghost use Rattle.be_base.specs.Sets.{read_values};
ghost use Rattle.be_expr.specs.Readings.{read_pred};
ghost use Rattle.be_expr.specs.Expressions.{comparison};
ghost use Rattle.be_expr.specs.Parts.{plain_opening, with_values};
ghost use Rattle.be_expr.specs.Faults.{preds_in};
ghost use Rattle.be_expr.specs.Build.{built_values, built_op, built_pred, built_preds};

use crate::parts::{Opening, read_end, read_head};
use be_base::{AttrNo, NoMemory, SET_VALUES, Token, read_value};
use be_model::{Conj, Op, Pred, Schema, Values};
use std::alloc::Global;

/// The condition of predicates without a fault. There is none where one has a fault, or the text isn't predicates.
pub fn build(alloc: Global, schema: &Schema, text: &[u8]) -> Result<Option<Conj>, NoMemory>
    ensures { IfOk result (λ built. built ≡ option_and_then (built_preds schema.now) (option_and_then preds_in (tokens text.now))) }
{
    let mut conj = Conj::make(alloc);
    let mut left = Some(text);
    while let Some(text) = left {
        if conj.is_full() {
            return Ok(None);
        }
        let Some((pred, rest)) = build_pred(alloc, schema, text)? else {
            return Ok(None);
        };
        conj.push(pred)?;
        let Some(next) = read_end(rest) else {
            return Ok(None);
        };
        left = next;
    }
    conj.fit();
    Ok(Some(conj))
}

fn build_pred<'a>(
    alloc: Global,
    schema: &Schema,
    text: &'a [u8],
) -> Result<Option<(Pred, &'a [u8])>, NoMemory>
    ensures pred { IfOk result (λ built. following (λ pred. pred) built ≡ option_and_then (built_pred schema.now) (option_and_then read_pred (tokens text.now))) }
    ensures shorter { IfOk result (λ built. IfSome built (λ r. length r.1.now < length text.now)) }
{
    let Some((head, rest)) = read_head(text) else {
        return Ok(None);
    };
    let Some(attr) = schema.find(&head.attr) else {
        return Ok(None);
    };
    let Some((op, rest)) = build_op(alloc, schema, attr, head.opening, rest)? else {
        return Ok(None);
    };
    Ok(Some((Pred { attr, op }, rest)))
}

// An operator with its values, where those of a set follow it.
fn build_op<'a>(
    alloc: Global,
    schema: &Schema,
    attr: AttrNo,
    opening: Opening<'_>,
    text: &'a [u8],
) -> Result<Option<(Op, &'a [u8])>, NoMemory>
    requires { attr.0 < length schema.now }
    ensures op { IfOk result (λ built. following (λ op. op) built ≡ option_and_then (built_op schema.now attr) (with_values (plain_opening opening.entry) (tokens text.now))) }
    ensures within { IfOk result (λ built. IfSome built (λ r. length r.1.now ≤ length text.now)) }
{
    match opening {
        Opening::Compared(operator, word) => {
            let Some(value) = schema.value(attr, word) else {
                return Ok(None);
            };
            Ok(Some((compared(operator, value), text)))
        }
        Opening::Between(low, high) => {
            let Some(low) = schema.value(attr, low) else {
                return Ok(None);
            };
            let Some(high) = schema.value(attr, high) else {
                return Ok(None);
            };
            Ok(Some((Op::Between(low, high), text)))
        }
        Opening::Among => {
            let Some((values, rest)) = build_values(alloc, schema, attr, text)? else {
                return Ok(None);
            };
            Ok(Some((Op::OneOf(values), rest)))
        }
        Opening::NotAmong => {
            let Some((values, rest)) = build_values(alloc, schema, attr, text)? else {
                return Ok(None);
            };
            Ok(Some((Op::NoneOf(values), rest)))
        }
    }
}

// The comparison that an operator makes with a value.
fn compared(operator: Token<'_>, value: i64) -> Op
    ensures { result ≡ comparison (lexeme operator.entry) value }
{
    match operator {
        Token::Less => Op::Lt(value),
        Token::LessOrEqual => Op::Le(value),
        Token::NotEqual => Op::Ne(value),
        Token::GreaterOrEqual => Op::Ge(value),
        Token::Greater => Op::Gt(value),
        _ => Op::Eq(value),
    }
}

// The values of a set up to the closing brace.
fn build_values<'a>(
    alloc: Global,
    schema: &Schema,
    attr: AttrNo,
    text: &'a [u8],
) -> Result<Option<(Values, &'a [u8])>, NoMemory>
    requires { attr.0 < length schema.now }
    ensures values { IfOk result (λ built. following (λ values. values) built ≡ option_and_then (built_values schema.now attr) (option_and_then read_values (tokens text.now))) }
    ensures shorter { IfOk result (λ built. IfSome built (λ r. length r.1.now < length text.now)) }
{
    let Some((value, mut rest)) = read_value(text) else {
        return Ok(None);
    };
    let Some(number) = schema.value(attr, value.word) else {
        return Ok(None);
    };
    let mut values = Values::one(alloc, number)?;
    let mut count = 1;
    let mut is_last = value.is_last;
    while !is_last {
        if count == SET_VALUES {
            return Ok(None);
        }
        let Some((value, after)) = read_value(rest) else {
            return Ok(None);
        };
        let Some(number) = schema.value(attr, value.word) else {
            return Ok(None);
        };
        values.insert(number)?;
        count += 1;
        is_last = value.is_last;
        rest = after;
    }
    Ok(Some((values, rest)))
}
