//! Replies, told apart in the text of many.

ghost use Rattle.std.specs.Prelude.{◌≡◌, ◌<◌, length};
ghost use Rattle.be_demand.specs.Texts.{goes_on, TellsFirst};

use crate::cutting::cut_line;

/// What is told of the reply that a text begins with.
#[derive(Clone, Copy)]
pub(crate) struct Told<'a> {
    pub is_hit: bool,
    /// The text after it.
    pub rest: &'a [u8],
}

/// Reads the reply that a text begins with.
pub(crate) fn tell_reply(text: &[u8]) -> Told
    ensures told { TellsFirst text.now result.is_hit result.rest.now }
    ensures shorter { 0 < length text.now → length result.rest.now < length text.now }
{
    let mut rest = text;
    while !rest.is_empty() {
        let cut = cut_line(rest);
        rest = cut.rest;
        if !goes_on(cut.line) {
            return Told {
                is_hit: cut.line.starts_with(b"HIT "),
                rest,
            };
        }
    }
    Told {
        is_hit: false,
        rest,
    }
}

// Whether a further line of the reply follows.
fn goes_on(line: &[u8]) -> bool
    ensures { result ≡ goes_on line.now }
{
    line.starts_with(b"NOTE ") || line.starts_with(b"ROW ") || line.starts_with(b"AT ")
}
