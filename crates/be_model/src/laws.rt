//! What hulls, spans, halves, numbers of halvings and texts are good for. The functions do nothing; each contract is a law.

ghost use Rattle.be_model.specs.Laws.{HullsHold, SpansHold, SpansAre, SpansLie, HalvingsCount, HalvesSplit};
ghost use Rattle.be_model.specs.Texts.{ValuesAreRead, ValuesAreWords, NamesAreFound};

/// A hull holds every value of the domain of which its predicate holds.
pub fn hulls_hold()
    ensures { HullsHold }
{}

/// A span holds at least one of the values of its attribute in each event that satisfies the condition.
pub fn spans_hold()
    ensures { SpansHold }
{}

/// A span isn't empty and is a part of the domain.
pub fn spans_lie()
    ensures { SpansLie }
{}

/// There is no span exactly where no predicate is on the attribute.
pub fn spans_are()
    ensures { SpansAre }
{}

/// A range of one value isn't halved. Another one is halved, and then its greater half.
pub fn halvings_count()
    ensures { HalvingsCount }
{}

/// The halves of a range aren't empty, cover it and have no value in common.
pub fn halves_split()
    ensures { HalvesSplit }
{}

/// A value of a domain is read back from its text.
pub fn values_are_read()
    ensures { ValuesAreRead }
{}

/// The text of a value of a domain is a word.
pub fn values_are_words()
    ensures { ValuesAreWords }
{}

/// An attribute is found by its name.
pub fn names_are_found()
    ensures { NamesAreFound }
{}
