//! What texts and their tokens have in common. The functions do nothing; each contract is a law.

ghost use Rattle.be_base.specs.FirstTokens.{AreFromTheLeft};

/// Tokens are found from the left, the longest first. Blanks mean nothing, and a byte that begins no token gives the
/// text none.
pub fn tokens_are_from_the_left()
    ensures { AreFromTheLeft }
{}
