//! Laws of the texts of conditions. Each function's contract is a law, which its proof shows; to call one does nothing.

ghost use Rattle.be_expr.specs.Readings.{ReadsAreWritten};
ghost use Rattle.be_expr.specs.Writing.{TextsAreRead};
ghost use Rattle.be_expr.specs.Changes.{ChangesAreRead};

/// Tokens are read as predicates exactly where the grammar writes these predicates as those tokens. So each
/// condition has one reading.
pub fn reads_are_written()
    ensures { ReadsAreWritten }
{}

/// Reading the canonical text of a condition gives it back.
pub fn texts_are_read()
    ensures { TextsAreRead }
{}

/// Reading the text of a change gives it back.
pub fn changes_are_read()
    ensures { ChangesAreRead }
{}
