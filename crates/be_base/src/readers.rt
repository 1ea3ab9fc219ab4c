//! Readers of words and marks: each reads from the front of a text, and answers the text after it.

ghost use Rattle.std.specs.Prelude.{◌≡◌, ◌<◌, length, false, option_and_then, IfSome};
ghost use Rattle.std.specs.Option.{option_map_or};
ghost use Rattle.be_base.specs.Tokens.{tokens};
ghost use Rattle.be_base.specs.Readers.{is_empty, read_word, after_word, after_brace, following, now_of};

use crate::tokens::{Scan, Token, next_token};

/// Whether the text has no token.
pub fn is_end(text: &[u8]) -> bool
    ensures { result ≡ option_map_or is_empty (tokens text.now) false }
{
    matches!(next_token(text), Scan::End)
}

/// Reads a word.
pub fn read_word(text: &[u8]) -> Option<(&[u8], &[u8])>
    ensures word { following now_of result ≡ option_and_then read_word (tokens text.now) }
    ensures shorter { IfSome result (λ r. length r.1.now < length text.now) }
{
    match next_token(text) {
        Scan::Found(Token::Word(word), rest) => Some((word, rest)),
        _ => None,
    }
}

/// The text behind the wanted word.
pub fn after_word<'a>(text: &'a [u8], wanted: &[u8]) -> Option<&'a [u8]>
    ensures word { option_and_then (λ rest. tokens rest.now) result ≡ option_and_then (after_word wanted.now) (tokens text.now) }
    ensures shorter { IfSome result (λ rest. length rest.now < length text.now) }
{
    match read_word(text) {
        Some((word, rest)) if word == wanted => Some(rest),
        _ => None,
    }
}

/// The text behind an opening brace.
pub fn after_brace(text: &[u8]) -> Option<&[u8]>
    ensures brace { option_and_then (λ rest. tokens rest.now) result ≡ option_and_then after_brace (tokens text.now) }
    ensures shorter { IfSome result (λ rest. length rest.now < length text.now) }
{
    match next_token(text) {
        Scan::Found(Token::OpenBrace, rest) => Some(rest),
        _ => None,
    }
}
