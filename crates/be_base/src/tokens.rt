//! Texts as tokens.

ghost use Rattle.std.specs.Prelude.{◌≡◌, ◌≤◌, ◌∷◌, true, false, length, take, drop, MatchOption};
ghost use Rattle.std.specs.List.{list_all};
ghost use Rattle.be_base.specs.Text.{is_word_byte};
ghost use Rattle.be_base.specs.Tokens.{is_blank};
ghost use Rattle.be_base.specs.Fronts.{is_equal, starts_with, IsAfterBlanks};
ghost use Rattle.be_base.specs.Scans.{Scans};

// The bytes `A-Z a-z 0-9 _ . -`, a bit for each, 32 bytes a number.
const WORD_BYTES: [u32; 8] = [
    0,
    0b0000_0011_1111_1111_0110_0000_0000_0000,
    0b1000_0111_1111_1111_1111_1111_1111_1110,
    0b0000_0111_1111_1111_1111_1111_1111_1110,
    0,
    0,
    0,
    0,
];

/// Whether the byte is one of `A-Z a-z 0-9 _ . -`. Which kind of byte comes next can't be foreseen, so there is no jump by it.
pub fn is_word_byte(b: u8) -> bool
    ensures { result ≡ is_word_byte b }
{
    (WORD_BYTES[usize::from(b / 32)] >> (b % 32)) & 1 == 1
}

/// A part of a text that has a meaning.
#[derive(Clone, Copy, Debug)]
pub enum Token<'a> {
    Word(&'a [u8]),
    Less,
    LessOrEqual,
    Equal,
    NotEqual,
    GreaterOrEqual,
    Greater,
    OpenBrace,
    CloseBrace,
    Comma,
}

/// What a text begins with, after blanks.
#[derive(Clone, Copy, Debug)]
pub enum Scan<'a> {
    /// A token, and the text after it.
    Found(Token<'a>, &'a [u8]),
    /// Nothing is left.
    End,
    /// A byte that no token has.
    Stray,
}

/// Finds the first token of a text.
pub fn next_token(text: &[u8]) -> Scan<'_>
    ensures { Scans text.now result }
{
    let text = after_blanks(text);
    let Some((first, rest)) = text.split_first() else {
        return Scan::End;
    };
    if is_word_byte(*first) {
        return first_word(text);
    }
    first_mark(*first, rest)
}

/// Whether the byte is a space or a tab.
pub fn is_blank(b: u8) -> bool
    ensures { result ≡ is_blank b }
{
    b == b' ' || b == b'\t'
}

/// The text from its first byte that is no blank.
pub fn after_blanks(text: &[u8]) -> &[u8]
    ensures { IsAfterBlanks text.now result.now }
{
    for (i, b) in text.iter().enumerate() {
        if !is_blank(*b) {
            return &text[i..];
        }
    }
    &text[text.len()..]
}

fn first_word(text: &[u8]) -> Scan<'_>
    requires { starts_with is_word_byte text.now ≡ true }
    ensures { Scans text.now result }
{
    let (word, rest) = text.split_at(word_len(text));
    Scan::Found(Token::Word(word), rest)
}

// How many bytes at the text's front are of a word.
fn word_len(text: &[u8]) -> usize
    ensures within { result ≤ length text.now }
    ensures word { list_all is_word_byte (take result text.now) ≡ true }
    ensures rest { starts_with is_word_byte (drop result text.now) ≡ false }
{
    for (i, b) in text.iter().enumerate() {
        if !is_word_byte(*b) {
            return i;
        }
    }
    text.len()
}

fn first_mark(first: u8, rest: &[u8]) -> Scan<'_>
    requires not_word { is_word_byte first ≡ false }
    requires not_blank { is_blank first ≡ false }
    ensures { Scans (first ∷ rest.now) result }
{
    match (first, after_equal(rest)) {
        (b'<', Some(after)) => Scan::Found(Token::LessOrEqual, after),
        (b'>', Some(after)) => Scan::Found(Token::GreaterOrEqual, after),
        (b'!', Some(after)) => Scan::Found(Token::NotEqual, after),
        (b'<', None) => Scan::Found(Token::Less, rest),
        (b'>', None) => Scan::Found(Token::Greater, rest),
        (b'=', _) => Scan::Found(Token::Equal, rest),
        (b'{', _) => Scan::Found(Token::OpenBrace, rest),
        (b'}', _) => Scan::Found(Token::CloseBrace, rest),
        (b',', _) => Scan::Found(Token::Comma, rest),
        _ => Scan::Stray,
    }
}

// The text after the `=` that it begins with.
fn after_equal(text: &[u8]) -> Option<&[u8]>
    ensures { MatchOption result (starts_with is_equal text.now ≡ false) (λ after. text.now ≡ 61 ∷ after.now) }
{
    match text.split_first() {
        Some((b'=', after)) => Some(after),
        _ => None,
    }
}
