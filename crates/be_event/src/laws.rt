//! Laws of the texts of events. Each function's contract is a law, which its proof shows; to call one does nothing.

ghost use Rattle.be_event.specs.Grammar.{ReadsAreWritten};
ghost use Rattle.be_event.specs.Writing.{TextsAreRead};

/// Tokens are read as items exactly where the grammar writes these items as those tokens. So each event has one
/// reading.
pub fn reads_are_written()
    ensures { ReadsAreWritten }
{}

/// Reading the canonical text of an event gives it back.
pub fn texts_are_read()
    ensures { TextsAreRead }
{}
