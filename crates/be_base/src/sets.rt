//! Sets of values, read value by value.

ghost use Rattle.std.specs.Prelude.{◌≡◌, ◌<◌, length, option_and_then, IfSome};
ghost use Rattle.be_base.specs.Tokens.{tokens};
ghost use Rattle.be_base.specs.Readers.{following};
ghost use Rattle.be_base.specs.Sets.{plain_value, read_value};

use crate::readers::read_word;
use crate::tokens::{Scan, Token, next_token};

/// A value of a set.
#[derive(Clone, Copy)]
pub struct SetValue<'a> {
    pub word: &'a [u8],
    pub is_last: bool,
}

/// Reads a value of a set, and the comma or the brace behind it.
pub fn read_value(text: &[u8]) -> Option<(SetValue<'_>, &[u8])>
    ensures value { following plain_value result ≡ option_and_then read_value (tokens text.now) }
    ensures shorter { IfSome result (λ r. length r.1.now < length text.now) }
{
    let (word, rest) = read_word(text)?;
    let (is_last, rest) = match next_token(rest) {
        Scan::Found(Token::Comma, rest) => (false, rest),
        Scan::Found(Token::CloseBrace, rest) => (true, rest),
        _ => return None,
    };
    Some((SetValue { word, is_last }, rest))
}
