//! The letters that tell of an event.

ghost use Rattle.std.specs.Prelude.{◌≡◌, length, map, take, not, IfOk};
ghost use Rattle.std.specs.Arc.{arc_value};
ghost use Rattle.be_model.specs.Letters.{plain_letter};
ghost use Rattle.be_model.specs.Rows.{rows_in};
ghost use Rattle.be_change.specs.Opening.{is_of_nobody};
ghost use Rattle.be_board.specs.Local.{letter_for, letters_for, addressed};

use be_base::NoMemory;
use be_model::{Event, EventText, Letter, Row};
use std::alloc::Global;
use std::sync::Arc;

/// How many of the rows are somebody's.
pub fn count_addressed(rows: &[Arc<Row>]) -> usize
    ensures { result ≡ length (addressed (rows_in rows.now)) }
{
    rows.iter().filter(|row| is_addressed(row)).count()
}

fn is_addressed(row: &Row) -> bool
    ensures { result ≡ not (is_of_nobody row.now) }
{
    row.session.0 != 0
}

/// A letter for each row that is somebody's, at most so many.
pub fn make_letters(
    alloc: Global,
    n: u64,
    event: &Event,
    rows: &[Arc<Row>],
    room: usize,
) -> Result<Vec<Letter>, NoMemory>
    ensures { IfOk result (λ letters. map plain_letter letters.items ≡ take room (letters_for n event.now (rows_in rows.now))) }
{
    let text = EventText {
        event: event.copy()?,
    };
    let text = Arc::new(alloc, text).map_err(|_| NoMemory)?;
    let mut letters = Vec::new(alloc);
    for row in rows {
        if is_addressed(row) && letters.len() < room {
            letters.push(letter(n, row, &text)?)?;
        }
    }
    Ok(letters)
}

fn letter(n: u64, row: &Arc<Row>, text: &Arc<EventText>) -> Result<Letter, NoMemory>
    ensures { IfOk result (λ letter. plain_letter letter ≡ letter_for n (arc_value text.now).event (arc_value row.now)) }
{
    Ok(Letter {
        session: row.session,
        n,
        row: Arc::try_clone(row)?,
        text: Arc::try_clone(text)?,
    })
}
