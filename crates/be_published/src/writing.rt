//! What the press does with left_right's writer.

ghost use Rattle.std.specs.Prelude.{◌≡◌, ◌++◌, ◌∷◌, [], true, None, drop, fold, MatchResult};
ghost use Rattle.std.specs.Option.{option_to_list};
ghost use Rattle.be_published.specs.Notes.{noted};

use crate::history::Naming;
use crate::notes::Note;
use crate::sheet::Sheet;
use crossbeam_utils::rule::Unruled;
use left_right::writer::Writer;
use std::alloc::AllocError;
use std::sync::Wait;

/// Hands the writer a note. It comes back where there is no memory.
pub fn handed<T: Sheet<J>, J: Naming>(
    writer: &mut Writer<T, Note<J>, (), Unruled>,
    note: Note<J>,
) -> Option<Note<J>>
    ensures desk { writer.new.desk ≡ writer.old.desk }
    ensures notes { drop writer.new.behind writer.new.log.items ++ option_to_list result ≡ drop writer.old.behind writer.old.log.items ++ note ∷ [] }
{
    match writer.append(note) {
        Ok(()) => None,
        Err(note) => Some(note),
    }
}

/// Hands the writer the note that is late, and says whether none is left.
pub fn is_settled<T: Sheet<J>, J: Naming>(
    writer: &mut Writer<T, Note<J>, (), Unruled>,
    late: &mut Option<Note<J>>,
) -> bool
    ensures desk { writer.new.desk ≡ writer.old.desk }
    ensures notes { drop writer.new.behind writer.new.log.items ++ option_to_list late.new ≡ drop writer.old.behind writer.old.log.items ++ option_to_list late.old }
    ensures none { result ≡ true → late.new ≡ None }
{
    match late.take() {
        None => true,
        Some(note) => {
            *late = handed(writer, note);
            late.is_none()
        }
    }
}

/// Shows readers a copy that has all notes, or leaves them what they see.
pub fn shown<T: Sheet<J>, J: Naming, R: Wait>(
    rt: &R,
    writer: Writer<T, Note<J>, (), Unruled>,
) -> (Writer<T, Note<J>, (), Unruled>, Result<(), AllocError>)
    ensures { MatchResult result.1
        (λ _. (T.list result.0.desk.shown.value ≡ fold noted (T.list writer.desk.shown.value) (drop writer.behind writer.log.items)) × (drop result.0.behind result.0.log.items ≡ []))
        (λ _. (result.0.desk.shown.value ≡ writer.desk.shown.value) × (drop result.0.behind result.0.log.items ≡ drop writer.behind writer.log.items)) }
{
    writer.publish_as::<Unruled, R>(rt)
}
