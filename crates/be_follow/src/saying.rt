//! What a line of a feed says.

ghost use Rattle.std.specs.Prelude.{◌≡◌, true, IfOk};
ghost use Rattle.be_base.specs.Numbers.{count_of};
ghost use Rattle.be_base.specs.Tokens.{tokens};
ghost use Rattle.be_model.specs.Schemas.{Attributes};
ghost use Rattle.be_follow.specs.Feeds.{said, said_of, said_by, change_at, ending, counted};
ghost use Rattle.be_follow.specs.Placing.{plain_said, Reads, SaidLies};

use be_base::{FEED_LINE_BYTES, Id, NoMemory, Scan, Token, next_token, read_count};
use be_expr::{ExprFault, read_change};
use be_model::{Change, Schema};
use std::alloc::Global;

/// What a line says by itself.
#[derive(Drop)]
pub enum Said {
    /// How long the leader's list was, and how many changes were told of.
    Nothing,
    /// The change stands at this place.
    At { place: u64, change: Change },
    /// It has no reading.
    Faulty,
}

/// Reads a line, which has no LF. Want of memory is answered only to a change without a fault.
pub fn read_said(alloc: Global, schema: &Schema, line: &[u8]) -> Result<Said, NoMemory>
    ensures read { Reads result (said schema.now line.now) }
    ensures lies { IfOk result (SaidLies schema.now) }
{
    if line.len() > FEED_LINE_BYTES {
        return Ok(Said::Faulty);
    }
    read_words(alloc, schema, line)
}

// Reads a line within the limit.
fn read_words(alloc: Global, schema: &Schema, line: &[u8]) -> Result<Said, NoMemory>
    ensures read { Reads result (said_of schema.now (tokens line.now)) }
    ensures lies { IfOk result (SaidLies schema.now) }
{
    let Scan::Found(Token::Word(head), rest) = next_token(line) else {
        return Ok(Said::Faulty);
    };
    let Scan::Found(Token::Word(number), rest) = next_token(rest) else {
        return Ok(Said::Faulty);
    };
    read_behind(alloc, schema, head, number, rest)
}

// Reads what stands behind the first two words.
fn read_behind(
    alloc: Global,
    schema: &Schema,
    head: &[u8],
    number: &[u8],
    text: &[u8],
) -> Result<Said, NoMemory>
    ensures read { Reads result (said_by schema.now head.now number.now (tokens text.now)) }
    ensures lies { IfOk result (SaidLies schema.now) }
{
    if head == b"AT".as_slice() {
        read_at(alloc, schema, read_count(number), text)
    } else if head == b"TAILED".as_slice() {
        Ok(read_ending(read_count(number), text))
    } else {
        Ok(Said::Faulty)
    }
}

// A change at a place.
fn read_at(
    alloc: Global,
    schema: &Schema,
    place: Option<u64>,
    text: &[u8],
) -> Result<Said, NoMemory>
    ensures read { Reads result (change_at schema.now place (tokens text.now)) }
    ensures lies { IfOk result (SaidLies schema.now) }
{
    let Some(place) = place else {
        return Ok(Said::Faulty);
    };
    match read_change(alloc, schema, text, Id(place)) {
        Ok(change) => Ok(Said::At { place, change }),
        Err(ExprFault::NoMemory) => Err(NoMemory),
        Err(_) => Ok(Said::Faulty),
    }
}

// A count, and no token after it.
fn read_ending(length: Option<u64>, text: &[u8]) -> Said
    ensures read { plain_said result ≡ ending length (tokens text.now) }
    ensures lies { (s : Attributes) → SaidLies s result }
{
    let Scan::Found(Token::Word(count), rest) = next_token(text) else {
        return Said::Faulty;
    };
    match (next_token(rest), length, read_count(count)) {
        (Scan::End, Some(_), Some(_)) => Said::Nothing,
        _ => Said::Faulty,
    }
}
