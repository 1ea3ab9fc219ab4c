//! Laws of feeds. Each function's contract is a law, which its proof shows; to call one does nothing.

ghost use Rattle.be_follow.specs.Laws.{CapturesAreFollowed, FeedsAreFollowed, FeedsMeanOne};

/// The first bytes of a leader's feed mean a beginning of the leader's list, of as many changes as there are whole lines.
pub fn feeds_are_followed()
    ensures { FeedsAreFollowed }
{}

/// Captured replies to TAIL, none of which begins past what those before it cover, mean the changes that they cover, however they
/// overlap, come again or break off behind a line.
pub fn captures_are_followed()
    ensures { CapturesAreFollowed }
{}

/// Bytes mean one list and one fault, or none.
pub fn feeds_mean_one()
    ensures { FeedsMeanOne }
{}
