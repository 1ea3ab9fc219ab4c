//! Lines of a text that lies in memory.

ghost use Rattle.std.specs.Prelude.{◌<◌, length};
ghost use Rattle.be_io.specs.Reader.{NextLine};

use be_io::first_lf;

/// The first line of a text.
#[derive(Clone, Copy)]
pub(crate) struct Cut<'a> {
    /// Its bytes, without an LF. A CR at their end is among them.
    pub line: &'a [u8],
    /// The text after it.
    pub rest: &'a [u8],
    /// Whether the text ends where the line ends, with no LF.
    pub ended: bool,
}

/// Cuts the first line off.
pub(crate) fn cut_line(text: &[u8]) -> Cut
    requires { 0 < length text.now }
    ensures line { NextLine result.ended text.now result.line.now result.rest.now }
    ensures shorter { length result.rest.now < length text.now }
{
    match first_lf(text) {
        Some(place) => Cut {
            line: &text[..place],
            rest: &text[place + 1..],
            ended: false,
        },
        None => Cut {
            line: text,
            rest: &text[text.len()..],
            ended: true,
        },
    }
}
