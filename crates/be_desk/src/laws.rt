//! The law of how long a look is put off. Its function's contract is the law, which its proof shows; to call it does nothing.

ghost use Rattle.be_desk.specs.Tends.{TendsComeDue};

/// Tends that find nothing due are no more than the rows of a look divided by what a tend earns, until a change comes, where enough
/// rows are live for a look.
pub fn tends_come_due()
    ensures { TendsComeDue }
{}
