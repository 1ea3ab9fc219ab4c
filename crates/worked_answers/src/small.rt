//! Names and tokens.

use be_base::{Name, NoMemory, Scan, Token, next_token};
use std::alloc::Global;

pub fn name(alloc: Global, text: &[u8]) -> Result<String, NoMemory> {
    match Name::read(text) {
        Ok(name) => Ok(format!(in alloc; "{name}")?),
        Err(fault) => Ok(format!(in alloc; "{fault}")?),
    }
}

// A letter for each token, and the first byte of a word.
fn letter(token: Token) -> u8 {
    match token {
        Token::Word(text) => match text.first() {
            Some(b) => *b,
            None => b'?',
        },
        Token::Less => b'<',
        Token::LessOrEqual => b'L',
        Token::Equal => b'=',
        Token::NotEqual => b'N',
        Token::GreaterOrEqual => b'G',
        Token::Greater => b'>',
        Token::OpenBrace => b'{',
        Token::CloseBrace => b'}',
        Token::Comma => b',',
    }
}

/// The letters of the tokens, and at the end a full stop or, at a stray byte, an exclamation mark.
pub fn tokens(alloc: Global, text: &[u8]) -> Result<String, NoMemory> {
    let mut letters = String::new(alloc);
    let mut rest = text;
    for _ in 0..=text.len() {
        match next_token(rest) {
            Scan::Found(token, after) => {
                letters.push(char::from(letter(token)))?;
                rest = after;
            }
            Scan::End => return ended(letters, '.'),
            Scan::Stray => return ended(letters, '!'),
        }
    }
    ended(letters, '?')
}

fn ended(text: String, end: char) -> Result<String, NoMemory> {
    let mut text = text;
    text.push(end)?;
    Ok(text)
}
