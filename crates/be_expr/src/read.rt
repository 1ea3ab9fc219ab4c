//! Conditions, read.

ghost use Rattle.std.specs.Prelude.{◌≡◌, true, Err, IfOk, IfErr, IfSome, MatchOption};
ghost use Rattle.be_model.specs.Lies.{conj_lies};
ghost use Rattle.be_expr.specs.Expressions.{expression, Reads, IsKnown};

use crate::build::build;
use crate::faults::ExprFault;
use crate::parts::is_all;
use crate::scan::scan;
use be_base::NoMemory;
use be_model::{Conj, Schema};
use std::alloc::Global;

/// Reads a whole text as a condition, once where it has no fault. Where it has one or memory runs out, its first fault is
/// looked for without memory, so a text with a fault is told so even where memory ran out.
pub fn read_expr(alloc: Global, schema: &Schema, text: &[u8]) -> Result<Conj, ExprFault>
    ensures exact { Reads result (expression schema.now text.now) }
    ensures lies { IfOk result (λ conj. conj_lies schema.now conj ≡ true) }
    ensures known { IfErr result (IsKnown schema.now) }
{
    match build(alloc, schema, text) {
        Ok(Some(conj)) => Ok(conj),
        Ok(None) if is_all(text) => Ok(Conj::make(alloc)),
        Ok(None) => Err(first_fault(schema, text).unwrap()),
        Err(NoMemory) => Err(first_fault(schema, text).unwrap_or(ExprFault::NoMemory)),
    }
}

// The first fault of a text. Where there is none, the text is a condition.
fn first_fault(schema: &Schema, text: &[u8]) -> Option<ExprFault>
    ensures fault { MatchOption result (Reads (Err ExprFault.NoMemory) (expression schema.now text.now)) (λ fault. Reads (Err fault) (expression schema.now text.now)) }
    ensures known { IfSome result (IsKnown schema.now) }
{
    match scan(schema, text) {
        Some(faults) => faults.first(),
        None => Some(ExprFault::Bad),
    }
}
