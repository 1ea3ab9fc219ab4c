//! Laws of replies. Each function's contract is a law, which its proof shows; to call one does nothing.

ghost use Rattle.be_demand.specs.Whole.{LegalIsFit};

/// Where no name has an LF, each reply of a legal session is the refusal of its line, or has no LF within a line.
pub fn legal_is_fit()
    ensures { LegalIsFit }
{}
