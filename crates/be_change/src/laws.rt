//! Laws of the list of changes. Each function's contract is a law, which its proof shows; to call one does nothing.

ghost use Rattle.be_change.specs.Laws.{FormIsByPlace, FormIsKept, BeginningsAreFormed, SerialsCount, ByeIsLast, LiveIdsRise, LiveNamesDiffer, UnsubRemovesOne, BeginningsStay, LegalIsKept, LegalFromBelow, WalkIsKept, LiveGrows, ToldNumbersRise, OpeningIsFirst, EntriesArePlaced, PlacesAreKept, TablesOpen, HitsAreSatisfied, BoxIsWithin, LettersAreNotes};

/// A list is well formed exactly where each entry may follow those before it.
pub fn form_is_by_place()
    ensures { FormIsByPlace }
{}

/// One more entry that may follow keeps a list well formed.
pub fn form_is_kept()
    ensures { FormIsKept }
{}

/// A beginning of a well formed list is well formed.
pub fn beginnings_are_formed()
    ensures { BeginningsAreFormed }
{}

/// The serials of a session are 0, 1, 2, .. in their order.
pub fn serials_count()
    ensures { SerialsCount }
{}

/// After a session's Bye there is no entry of that session.
pub fn bye_is_last()
    ensures { ByeIsLast }
{}

/// Live ids are places in the list, and rise.
pub fn live_ids_rise()
    ensures { LiveIdsRise }
{}

/// Each live row says its id, and the names of live rows differ.
pub fn live_names_differ()
    ensures { LiveNamesDiffer }
{}

/// An Unsub removes exactly one row, of its session and of its name.
pub fn unsub_removes_one()
    ensures { UnsubRemovesOne }
{}

/// What is live after a beginning, and what is found there, doesn't depend on what follows.
pub fn beginnings_stay()
    ensures { BeginningsStay }
{}

/// A legal session stays legal, whatever other sessions add to the list.
pub fn legal_is_kept()
    ensures { LegalIsKept }
{}

/// What a session was told, and where its last change stands, never falls, and stays within the list.
pub fn told_numbers_rise()
    ensures { ToldNumbersRise }
{}

/// What is live after one more entry.
pub fn live_grows()
    ensures { LiveGrows }
{}

/// Replies that are legal over a list are legal over each longer one.
pub fn walk_is_kept()
    ensures { WalkIsKept }
{}

/// A session that is legal though it was told of some entries before it is legal where it was told of fewer.
pub fn legal_from_below()
    ensures { LegalFromBelow }
{}

/// An entry of session 0 is a Sub, and every entry before it is of session 0.
pub fn opening_is_first()
    ensures { OpeningIsFirst }
{}

/// A session's entries with their places are its places and its entries, and each stands at its place.
pub fn entries_are_placed()
    ensures { EntriesArePlaced }
{}

/// Other sessions' entries leave a session's where they are.
pub fn places_are_kept()
    ensures { PlacesAreKept }
{}

/// A table opens a well formed list of session 0 alone, in which each of its rows is live at its place.
pub fn tables_open()
    ensures { TablesOpen }
{}

/// The rows that an event hits are the live rows that it satisfies, in their order.
pub fn hits_are_satisfied()
    ensures { HitsAreSatisfied }
{}

/// A letter box never holds more letters than it may.
pub fn box_is_within()
    ensures { BoxIsWithin }
{}

/// The letters that a session's own event puts into its box are letters for it.
pub fn letters_are_notes()
    ensures { LettersAreNotes }
{}
