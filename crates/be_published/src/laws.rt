//! The law of what a read is. Its function's contract is the law, which its proof shows; to call it does nothing.

ghost use Rattle.be_published.specs.Core.{ReadsAreTheCores};

/// A read of a glass is one act of the core: a read at the length that the glass answered.
pub fn reads_are_the_cores()
    ensures { ReadsAreTheCores }
{}
