//! What is seen of sessions over boards.

ghost use Rattle.std.specs.Prelude.{◌≡◌, [], true};

use crate::balky::BalkyBoard;
use crate::gate::CountingGate;
use crate::serving::{Setting, WORKER, serve};
use be_base::NoMemory;
use be_board::LocalBoard;
use be_change::ChangeLog;
use be_index::{Index, ListIndex};
use be_model::{Change, Schema};
use be_session::SessionEnd;
use std::alloc::Global;
use std::sync::Arc;
use std::sync::atomic::{AtomicU64, Ordering};
use worked_help::Watched;

// How a session ended, how often the board was asked to leave, and tended, and how often the gate was called before and after a
// line, each time in its turn.
#[derive(Clone, Copy, Debug)]
struct Seen {
    end: SessionEnd,
    leaves: u64,
    tends: u64,
    gate: (u64, u64),
    in_turn: bool,
}

/// The replies to a session's lines, what was seen of it, and the list that it left. What is refused to it is a word and a number.
pub fn refused(
    alloc: Global,
    schema: &Arc<Schema>,
    refused: &str,
    lines: &str,
) -> Result<String, NoMemory> {
    let (word, number) = refused.split_once(' ').unwrap_or((refused, ""));
    let number: u64 = number.parse().unwrap_or(0);
    let mut setting = Setting {
        lines,
        failing_read: 0,
        failing_write: 0,
        refused_leaves: 0,
        gathers: 0,
    };
    match word {
        "read" => setting.failing_read = number,
        "write" => setting.failing_write = number,
        "leave" => setting.refused_leaves = number,
        _ => {}
    }
    let index = ListIndex::make(alloc, Arc::try_clone(schema)?);
    over(alloc, schema, index, &setting)
}

/// The same where so many bytes of the replies are gathered before a write, and the write of this number fails.
pub fn gathered(
    alloc: Global,
    schema: &Arc<Schema>,
    numbers: &str,
    lines: &str,
) -> Result<String, NoMemory> {
    let (gathers, failing_write) = numbers.split_once(' ').unwrap_or((numbers, ""));
    let setting = Setting {
        lines,
        failing_read: 0,
        failing_write: failing_write.parse().unwrap_or(0),
        refused_leaves: 0,
        gathers: gathers.parse().unwrap_or(0),
    };
    let index = ListIndex::make(alloc, Arc::try_clone(schema)?);
    over(alloc, schema, index, &setting)
}

/// The same where nothing is refused, and then how many searches the index was asked for.
pub fn counted(alloc: Global, schema: &Arc<Schema>, lines: &str) -> Result<String, NoMemory> {
    let setting = Setting {
        lines,
        failing_read: 0,
        failing_write: 0,
        refused_leaves: 0,
        gathers: 0,
    };
    let finds = Arc::new(alloc, AtomicU64::new(0)).map_err(|_| NoMemory)?;
    let index = ListIndex::make(alloc, Arc::try_clone(schema)?);
    let index = Watched::make(index, Arc::try_clone(&finds)?, Vec::new(alloc));
    let text = over(alloc, schema, index, &setting)?;
    let count = finds.load(Ordering::SeqCst);
    Ok(format!(in alloc; "{text}; {count}")?)
}

fn over<I: Index>(
    alloc: Global,
    schema: &Schema,
    index: I,
    setting: &Setting<'_>,
) -> Result<String, NoMemory>
    requires empty { I.rows index ≡ [] }
    requires bounded { I.is_bounded index ≡ true }
    requires schema { I.schema index ≡ schema.now }
{
    let board = LocalBoard::make(alloc, index)?;
    let refused = first_numbers(alloc, setting.refused_leaves)?;
    let mut board = BalkyBoard::make(board, refused);
    let gate = CountingGate::make(WORKER);
    let (replies, end) = serve(alloc, schema, &mut board, &gate, setting)?;
    let seen = Seen {
        end,
        leaves: board.leaves(),
        tends: board.tends(),
        gate: gate.calls(),
        in_turn: gate.is_in_turn(),
    };
    let list = list(alloc, board.board().log())?;
    Ok(format!(in alloc; "{replies}{seen:?}{list}")?)
}

fn first_numbers(alloc: Global, count: u64) -> Result<Vec<u64>, NoMemory> {
    let mut numbers = Vec::new(alloc);
    for number in 1..=count {
        numbers.push(number)?;
    }
    Ok(numbers)
}

// The changes, with `; ` before each.
fn list(alloc: Global, log: &ChangeLog) -> Result<String, NoMemory> {
    let mut text = String::new(alloc);
    for place in 0..log.len() {
        let change = change_text(alloc, log.at(place))?;
        text.push_str(change.as_str())?;
    }
    Ok(text)
}

// Whose it is, its serial, and the name of its row.
fn change_text(alloc: Global, change: &Change) -> Result<String, NoMemory> {
    match change {
        Change::Sub {
            session,
            serial,
            row,
        } => Ok(format!(in alloc; "; SUB {} {serial} {}", session.0, row.name)?),
        Change::Unsub {
            session,
            serial,
            name,
        } => Ok(format!(in alloc; "; UNSUB {} {serial} {name}", session.0)?),
        Change::Bye { session, serial } => Ok(format!(in alloc; "; BYE {} {serial}", session.0)?),
    }
}
