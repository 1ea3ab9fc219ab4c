//! Conditions that are written. A predicate is given by numbers, as `1 in 2 0`: the attribute, the comparison, and two values.

ghost use Rattle.std.specs.Prelude.{◌≡◌, true, IfSome};
ghost use Rattle.be_model.specs.Lies.{conj_lies};

use be_base::{AttrNo, NoMemory};
use be_expr::write_expr;
use be_model::{Conj, Op, Pred, Schema, Values};
use std::alloc::Global;

pub fn set(alloc: Global, low: i64, high: i64) -> Result<Values, NoMemory> {
    let mut values = Values::one(alloc, low)?;
    values.insert(high)?;
    Ok(values)
}

pub fn op_of(alloc: Global, form: &str, low: i64, high: i64) -> Result<Op, NoMemory> {
    Ok(match form {
        "<" => Op::Lt(low),
        "<=" => Op::Le(low),
        "!=" => Op::Ne(low),
        ">=" => Op::Ge(low),
        ">" => Op::Gt(low),
        "between" => Op::Between(low, high),
        "in" => Op::OneOf(set(alloc, low, high)?),
        "not_in" => Op::NoneOf(set(alloc, low, high)?),
        _ => Op::Eq(low),
    })
}

pub fn number(word: Option<&str>) -> i64 {
    match word {
        Some(word) => word.parse().unwrap_or(0),
        None => 0,
    }
}

fn pred_of(alloc: Global, text: &str) -> Result<Pred, NoMemory> {
    let mut words = text.split(' ');
    let attr = AttrNo(u16::try_from(number(words.next())).unwrap_or(u16::MAX));
    let form = words.next().unwrap_or("");
    let low = number(words.next());
    let high = number(words.next());
    let op = op_of(alloc, form, low, high)?;
    Ok(Pred { attr, op })
}

pub fn conj_of(alloc: Global, text: &str) -> Result<Conj, NoMemory> {
    let mut conj = Conj::make(alloc);
    for part in text.split(';') {
        if !conj.is_full() && part != "-" {
            conj.push(pred_of(alloc, part)?)?;
        }
    }
    Ok(conj)
}

pub fn written(alloc: Global, schema: &Schema, text: &str) -> Result<String, NoMemory> {
    let conj = conj_of(alloc, text)?;
    if !conj.lies(schema) {
        return Ok(String::from_str(alloc, "outside")?);
    }
    let text = write_expr(alloc, schema, &conj)?;
    Ok(String::from_utf8_lossy(alloc, text.as_slice())?)
}
