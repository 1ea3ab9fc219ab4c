//! Laws of the core's definitions. Each function's contract is a law, which its proof shows; to call one does nothing.

ghost use Rattle.be_core.specs.Sessions.{RunsKeep, NoneIsSplit, RunsAreLegal, ShapeIsUnseen};

/// A run keeps the list well formed, the published length right, and what sessions have seen within it.
pub fn runs_keep()
    ensures { RunsKeep }
{}

/// No session is told that it has seen more than is published.
pub fn none_is_split()
    ensures { NoneIsSplit }
{}

/// What each session without an entry is answered is legal over the list that comes of the acts.
pub fn runs_are_legal()
    ensures { RunsAreLegal }
{}

/// With every Reshape taken out, the other acts have the same replies.
pub fn shape_is_unseen()
    ensures { ShapeIsUnseen }
{}
