//! A name and a condition, read.

ghost use Rattle.std.specs.Prelude.{◌≡◌, true, IfOk, IfErr};
ghost use Rattle.be_base.specs.Tokens.{tokens};
ghost use Rattle.be_model.specs.Lies.{conj_lies};
ghost use Rattle.be_expr.specs.Expressions.{Reads, IsKnown};
ghost use Rattle.be_expr.specs.Named.{named};

use crate::faults::ExprFault;
use crate::read::read_expr;
use be_base::{Name, read_word};
use be_model::{Conj, Schema};
use std::alloc::Global;

/// Reads a whole text as a name and a condition. A text with a fault is told so even where memory ran out.
pub fn read_named(alloc: Global, schema: &Schema, text: &[u8]) -> Result<(Name, Conj), ExprFault>
    ensures exact { Reads result (named schema.now (tokens text.now)) }
    ensures lies { IfOk result (λ read. conj_lies schema.now read.1 ≡ true) }
    ensures known { IfErr result (IsKnown schema.now) }
{
    let Some((word, rest)) = read_word(text) else {
        return Err(ExprFault::Bad);
    };
    let Ok(name) = Name::read(word) else {
        return Err(ExprFault::Bad);
    };
    match read_expr(alloc, schema, rest) {
        Ok(conj) => Ok((name, conj)),
        Err(fault) => Err(fault),
    }
}
