//! The parts of a condition's text: each function reads one from the front of a text.

ghost use Rattle.std.specs.Prelude.{◌≡◌, ◌<◌, length, false, Some, None, option_and_then, IfSome, if◌then◌else◌};
ghost use Rattle.std.specs.Option.{option_map_or};
ghost use Rattle.be_base.specs.Tokens.{tokens};
ghost use Rattle.be_base.specs.Scans.{lexeme};
ghost use Rattle.be_base.specs.Readers.{following, now_of};
ghost use Rattle.be_expr.specs.Grammar.{is_attr, is_operator};
ghost use Rattle.be_expr.specs.Parts.{is_all, read_high, read_ends, read_opening, read_worded_opening, read_head, read_end, read_number, read_numbers, read_front, plain_opening, plain_head, plain_front, end_of};

use be_base::{
    Name, Scan, Token, after_brace, after_word, is_end, next_token, read_count, read_word,
};
use be_model::is_reserved;

/// What stands after an attribute: an operator with its values, but that those of a set follow.
#[derive(Clone, Copy)]
pub enum Opening<'a> {
    Compared(Token<'a>, &'a [u8]),
    Between(&'a [u8], &'a [u8]),
    Among,
    NotAmong,
}

/// A predicate, but that the values of a set follow.
#[derive(Clone, Copy)]
pub struct Head<'a> {
    pub attr: Name,
    pub opening: Opening<'a>,
}

/// The front of a change: its kind, its session and its serial.
#[derive(Clone, Copy)]
pub struct Front<'a> {
    pub kind: &'a [u8],
    pub session: u64,
    pub serial: u64,
}

/// Whether the text is `all` alone.
pub fn is_all(text: &[u8]) -> bool
    ensures { result ≡ option_map_or is_all (tokens text.now) false }
{
    match read_word(text) {
        Some((word, rest)) => word == b"all".as_slice() && is_end(rest),
        None => false,
    }
}

/// Reads a predicate, and in a set only what stands before its first value.
pub fn read_head(text: &[u8]) -> Option<(Head<'_>, &[u8])>
    ensures head { following plain_head result ≡ option_and_then read_head (tokens text.now) }
    ensures shorter { IfSome result (λ r. length r.1.now < length text.now) }
{
    let (word, rest) = read_word(text)?;
    let attr = attr_name(word)?;
    let (opening, rest) = read_opening(rest)?;
    Some((Head { attr, opening }, rest))
}

/// The text behind an `and`, or nothing at the end of the text.
pub fn read_end(text: &[u8]) -> Option<Option<&[u8]>>
    ensures end { end_of result ≡ option_and_then read_end (tokens text.now) }
    ensures shorter { IfSome result (λ next. IfSome next (λ rest. length rest.now < length text.now)) }
{
    match next_token(text) {
        Scan::End => Some(None),
        Scan::Found(Token::Word(word), rest) if word == b"and".as_slice() => Some(Some(rest)),
        _ => None,
    }
}

// The word as the name of an attribute.
fn attr_name(word: &[u8]) -> Option<Name>
    ensures { result ≡ (if is_attr word.now then Some word.now else None) }
{
    match Name::read(word) {
        Ok(name) if !is_reserved(&name) => Some(name),
        _ => None,
    }
}

fn read_opening(text: &[u8]) -> Option<(Opening<'_>, &[u8])>
    ensures opening { following plain_opening result ≡ option_and_then read_opening (tokens text.now) }
    ensures shorter { IfSome result (λ r. length r.1.now < length text.now) }
{
    match next_token(text) {
        Scan::Found(Token::Word(word), rest) => read_worded(word, rest),
        Scan::Found(operator, rest) if is_operator(operator) => {
            let (value, rest) = read_word(rest)?;
            Some((Opening::Compared(operator, value), rest))
        }
        _ => None,
    }
}

fn is_operator(token: Token<'_>) -> bool
    ensures { result ≡ is_operator (lexeme token.entry) }
{
    match token {
        Token::Less
        | Token::LessOrEqual
        | Token::Equal
        | Token::NotEqual
        | Token::GreaterOrEqual
        | Token::Greater => true,
        _ => false,
    }
}

fn read_between(text: &[u8]) -> Option<(Opening<'_>, &[u8])>
    ensures opening { following plain_opening result ≡ option_and_then read_ends (tokens text.now) }
    ensures shorter { IfSome result (λ r. length r.1.now < length text.now) }
{
    let (low, rest) = read_word(text)?;
    let (high, rest) = read_high(rest)?;
    Some((Opening::Between(low, high), rest))
}

// The word behind an `and`.
fn read_high(text: &[u8]) -> Option<(&[u8], &[u8])>
    ensures word { following now_of result ≡ option_and_then read_high (tokens text.now) }
    ensures shorter { IfSome result (λ r. length r.1.now < length text.now) }
{
    let rest = after_word(text, b"and")?;
    read_word(rest)
}

// What stands behind the word of an operator.
fn read_worded<'a>(word: &[u8], text: &'a [u8]) -> Option<(Opening<'a>, &'a [u8])>
    ensures opening { following plain_opening result ≡ option_and_then (read_worded_opening word.now) (tokens text.now) }
    ensures shorter { IfSome result (λ r. length r.1.now < length text.now) }
{
    if word == b"between".as_slice() {
        read_between(text)
    } else if word == b"in".as_slice() {
        Some((Opening::Among, after_brace(text)?))
    } else if word == b"not".as_slice() {
        let rest = after_word(text, b"in")?;
        Some((Opening::NotAmong, after_brace(rest)?))
    } else {
        None
    }
}

/// Reads the front of a change.
pub fn read_front(text: &[u8]) -> Option<(Front<'_>, &[u8])>
    ensures { following plain_front result ≡ option_and_then read_front (tokens text.now) }
{
    let (kind, rest) = read_word(text)?;
    let ((session, serial), rest) = read_numbers(rest)?;
    let front = Front {
        kind,
        session,
        serial,
    };
    Some((front, rest))
}

fn read_numbers(text: &[u8]) -> Option<((u64, u64), &[u8])>
    ensures { following (λ numbers. numbers) result ≡ option_and_then read_numbers (tokens text.now) }
{
    let (first, rest) = read_number(text)?;
    let (second, rest) = read_number(rest)?;
    Some(((first, second), rest))
}

fn read_number(text: &[u8]) -> Option<(u64, &[u8])>
    ensures { following (λ number. number) result ≡ option_and_then read_number (tokens text.now) }
{
    let (word, rest) = read_word(text)?;
    Some((read_count(word)?, rest))
}
