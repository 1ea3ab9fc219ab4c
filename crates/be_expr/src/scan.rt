//! What is wrong with a condition's text, found without memory.

ghost use Rattle.std.specs.Prelude.{◌≡◌, ◌<◌, ◌≤◌, length, Some, None, option_map, option_and_then, IfSome, nat_lt, if◌then◌else◌};
ghost use Rattle.std.specs.Option.{is_none};
ghost use Rattle.be_base.specs.Tokens.{tokens};
ghost use Rattle.be_base.specs.Readers.{following};
ghost use Rattle.be_expr.specs.Readings.{written, read_pred};
ghost use Rattle.be_expr.specs.Parts.{plain_opening, with_values};
ghost use Rattle.be_expr.specs.Faults.{faults_of, met_of_op, judged_pred, faults_with, preds_in};

use crate::faults::{ExprFault, Faults};
use crate::parts::{Opening, is_all, read_end, read_head};
use be_base::{AttrNo, Name, SET_VALUES};
use be_model::{Met, Schema};

/// What is wrong with a condition's text. There is nothing where the text has no reading.
pub fn scan(schema: &Schema, text: &[u8]) -> Option<Faults>
    ensures { result ≡ option_map (faults_of schema.now) (option_and_then written (tokens text.now)) }
{
    let faults = scan_preds(schema, text);
    if faults.is_none() && is_all(text) {
        return Some(Faults::NONE);
    }
    faults
}

fn scan_preds(schema: &Schema, text: &[u8]) -> Option<Faults>
    ensures { result ≡ option_map (faults_of schema.now) (option_and_then preds_in (tokens text.now)) }
{
    let mut faults = Faults::NONE;
    let mut left = Some(text);
    while let Some(text) = left {
        let Some((next, rest)) = scan_pred(schema, text) else {
            return None;
        };
        faults = faults.then(next);
        left = read_end(rest)?;
    }
    Some(faults)
}

// The values behind an attribute, some of which may be read already.
fn scan_op<'a>(
    schema: &Schema,
    attr: Option<AttrNo>,
    opening: Opening<'_>,
    text: &'a [u8],
) -> Option<(Met, &'a [u8])>
    requires { IfSome attr (λ a. a.0 < length schema.now) }
    ensures met { following (λ met. met) result ≡ option_map (met_of_op schema.now attr) (with_values (plain_opening opening.entry) (tokens text.now)) }
    ensures within { IfSome result (λ r. length r.1.now ≤ length text.now) }
{
    match opening {
        Opening::Compared(_, value) => {
            let met = Met {
                count: 1,
                is_outside: schema.is_outside(attr, value),
            };
            Some((met, text))
        }
        Opening::Between(low, high) => {
            let met = Met {
                count: 2,
                is_outside: schema.is_outside(attr, low) || schema.is_outside(attr, high),
            };
            Some((met, text))
        }
        Opening::Among | Opening::NotAmong => schema.scan_values(attr, text),
    }
}

// What is wrong with a predicate.
fn judged(name: Name, attr: Option<AttrNo>, met: Met) -> Faults
    ensures { result ≡ judged_pred name attr met }
{
    Faults {
        preds: 1,
        unknown: unknown_fault(name, attr),
        outside: outside_fault(attr, met),
        large_set: large_fault(met),
    }
}

fn unknown_fault(name: Name, attr: Option<AttrNo>) -> Option<ExprFault>
    ensures { result ≡ (if is_none attr then Some (ExprFault.Attr name) else None) }
{
    match attr {
        Some(_) => None,
        None => Some(ExprFault::Attr { name }),
    }
}

fn outside_fault(attr: Option<AttrNo>, met: Met) -> Option<ExprFault>
    ensures { result ≡ option_and_then (λ a. if met.is_outside then Some (ExprFault.Dom a) else None) attr }
{
    match attr {
        Some(attr) if met.is_outside => Some(ExprFault::Dom { attr }),
        _ => None,
    }
}

fn large_fault(met: Met) -> Option<ExprFault>
    ensures { result ≡ (if nat_lt SET_VALUES met.count then Some (ExprFault.Many met.count) else None) }
{
    if met.count > SET_VALUES as u64 {
        Some(ExprFault::Many { count: met.count })
    } else {
        None
    }
}

fn scan_pred<'a>(schema: &Schema, text: &'a [u8]) -> Option<(Faults, &'a [u8])>
    ensures faults { following (λ faults. faults) result ≡ option_map (faults_with schema.now) (option_and_then read_pred (tokens text.now)) }
    ensures shorter { IfSome result (λ r. length r.1.now < length text.now) }
    ensures one { IfSome result (λ r. r.0.preds ≡ 1) }
{
    let Some((head, rest)) = read_head(text) else {
        return None;
    };
    let attr = schema.find(&head.attr);
    let (met, rest) = scan_op(schema, attr, head.opening, rest)?;
    Some((judged(head.attr, attr, met), rest))
}
