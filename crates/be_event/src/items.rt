//! The items of an event's text.

ghost use Rattle.std.specs.Prelude.{◌≡◌, ◌<◌, length, Some, None, option_and_then, IfOk, IfSome, MatchOption};
ghost use Rattle.be_base.specs.Tokens.{tokens};
ghost use Rattle.be_event.specs.Grammar.{single, read_given};
ghost use Rattle.be_event.specs.Scan.{Begins, IsGiven, GivenBefore, IsFine, meant};

use be_base::{AttrNo, Name, NoMemory, Scan, Token, next_token};
use be_model::{Met, Schema, Values, is_reserved};
use std::alloc::Global;

/// What the rest of an event's text begins with.
pub enum NextItem<'a> {
    /// An attribute and its `=`, and the text after it.
    Item { name: Name, rest: &'a [u8] },
    /// Nothing is left.
    End,
    /// It has no reading.
    Bad,
}

/// Reads what an event's text begins with.
pub fn next_item(text: &[u8]) -> NextItem<'_>
    ensures { Begins text.now result }
{
    let (attr, rest) = match next_token(text) {
        Scan::Found(Token::Word(attr), rest) => (attr, rest),
        Scan::End => return NextItem::End,
        _ => return NextItem::Bad,
    };
    let Scan::Found(Token::Equal, rest) = next_token(rest) else {
        return NextItem::Bad;
    };
    match Name::read(attr) {
        Ok(name) if !is_reserved(&name) => NextItem::Item { name, rest },
        _ => NextItem::Bad,
    }
}

/// Where the values of an attribute are.
#[derive(Clone, Copy)]
pub enum Source<'a> {
    /// One value.
    Value(i64),
    /// The text of a set, behind its opening brace.
    Set(&'a [u8]),
}

/// What stands behind an item's `=`. The source is of use only where no value is outside the domain.
#[derive(Clone, Copy)]
pub struct Given<'a> {
    pub met: Met,
    pub source: Source<'a>,
}

/// Scans a value or a set.
pub fn scan_given<'a>(
    schema: &Schema,
    attr: Option<AttrNo>,
    text: &'a [u8],
) -> Option<(Given<'a>, &'a [u8])>
    requires { IfSome attr (λ a. a.0 < length schema.now) }
    ensures given { MatchOption result (option_and_then read_given (tokens text.now) ≡ None) (λ r. GivenBefore schema.now attr (tokens text.now) r.0 (tokens r.1.now)) }
    ensures shorter { IfSome result (λ r. length r.1.now < length text.now) }
{
    match next_token(text) {
        Scan::Found(Token::Word(word), rest) => Some((scan_value(schema, attr, word), rest)),
        Scan::Found(Token::OpenBrace, set) => {
            let (met, rest) = schema.scan_values(attr, set)?;
            let source = Source::Set(set);
            Some((Given { met, source }, rest))
        }
        _ => None,
    }
}

fn scan_value<'a>(schema: &Schema, attr: Option<AttrNo>, word: &[u8]) -> Given<'a>
    requires { IfSome attr (λ a. a.0 < length schema.now) }
    ensures { IsGiven schema.now attr result (single word.now) }
{
    let value = match attr {
        Some(attr) => schema.value(attr, word),
        None => Some(0),
    };
    let met = Met {
        count: 1,
        is_outside: value.is_none(),
    };
    let source = Source::Value(value.unwrap_or(0));
    Given { met, source }
}

/// The values that are read from there.
pub fn read_source(
    alloc: Global,
    schema: &Schema,
    attr: AttrNo,
    source: Source<'_>,
) -> Result<Values, NoMemory>
    requires there { attr.0 < length schema.now }
    requires fine { IsFine schema.now attr (Some source) }
    ensures { IfOk result (λ values. meant schema.now attr (Some source.entry) ≡ Some values) }
{
    match source {
        Source::Value(value) => Values::one(alloc, value),
        Source::Set(text) => {
            let (values, _) = schema.read_values(alloc, attr, text)?;
            Ok(values)
        }
    }
}
