//! The lines of a file that is read whole.

ghost use Rattle.std.specs.Prelude.{◌≡◌, ◌<◌, ◌∷◌, length};
ghost use Rattle.be_io.specs.Lines.{without_cr};
ghost use Rattle.be_io.specs.FileLines.{file_lines, means_nothing};

use crate::lines::first_lf;
use be_base::after_blanks;

/// The first line of a text, and the text after it. Whoever counts the calls knows the line's number.
pub fn first_line(text: &[u8]) -> (&[u8], &[u8])
    requires { 0 < length text.now }
    ensures lines { file_lines text.now ≡ result.0.now ∷ file_lines result.1.now }
    ensures shorter { length result.1.now < length text.now }
{
    match first_lf(text) {
        Some(place) => (without_cr(&text[..place]), &text[place + 1..]),
        None => (text, &text[text.len()..]),
    }
}

/// Whether the line is blank or a remark, which begins with `#` after blanks.
pub fn means_nothing(line: &[u8]) -> bool
    ensures { result ≡ means_nothing line.now }
{
    match after_blanks(line).split_first() {
        Some((first, _rest)) => *first == b'#',
        None => true,
    }
}

/// The line without a CR at its end. A line that no LF ended keeps its CR, so this isn't for such a line.
pub fn without_cr(line: &[u8]) -> &[u8]
    ensures { result.now ≡ without_cr line.now }
{
    match line {
        [before @ .., b'\r'] => before,
        _ => line,
    }
}
