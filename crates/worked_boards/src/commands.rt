//! Which call answers a command.

ghost use Rattle.std.specs.Prelude.{◌≡◌};

use crate::{changes, letters, reads};
use be_base::NoMemory;
use be_board::Board;
use be_model::Schema;
use std::alloc::Global;
use std::fmt::Debug;

/// The answers to commands, parted as they are.
pub fn answers<B: Board>(
    alloc: Global,
    schema: &Schema,
    board: &mut B,
    script: &str,
) -> Result<String, NoMemory>
    requires { (B.state board.old).schema ≡ schema.now }
{
    let mut answers = String::new(alloc);
    for command in script.split("; ") {
        if !answers.is_empty() {
            answers.push_str("; ")?;
        }
        let answer = answer(alloc, schema, board, command)?;
        answers.push_str(answer.as_str())?;
    }
    Ok(answers)
}

fn answer<B: Board>(
    alloc: Global,
    schema: &Schema,
    board: &mut B,
    command: &str,
) -> Result<String, NoMemory>
    requires { (B.state board.old).schema ≡ schema.now }
    ensures { (B.state board.new).schema ≡ (B.state board.old).schema }
{
    let (word, rest) = command.split_once(' ').unwrap_or((command, ""));
    match word {
        "SUB" => told(alloc, changes::subscribe(alloc, schema, board, rest)),
        "UNSUB" => told(alloc, changes::unsubscribe(alloc, board, rest)),
        "QUIT" => told(alloc, changes::leave(alloc, board)),
        "SEND" => told(alloc, letters::send(alloc, schema, board, rest)),
        "SENDS" => told(alloc, letters::send_often(alloc, schema, board, rest)),
        "COUNT" => told(alloc, letters::count(board, rest)),
        "COST" => told(alloc, reads::cost(alloc, schema, board, rest)),
        _ => shown(alloc, text(alloc, schema, board, word, rest)),
    }
}

// The text of what names rows or changes.
fn text<B: Board>(
    alloc: Global,
    schema: &Schema,
    board: &mut B,
    word: &str,
    rest: &str,
) -> Option<String>
    requires { (B.state board.old).schema ≡ schema.now }
    ensures { (B.state board.new).schema ≡ (B.state board.old).schema }
{
    match word {
        "PUB" => reads::find(alloc, schema, board, rest),
        "LIST" => reads::mine(alloc, board),
        "DUMP" => reads::all(alloc, board),
        "TAIL" => reads::tail(alloc, board, rest),
        "FETCH" => letters::fetch(alloc, board, rest),
        _ => None,
    }
}

fn told<T: Debug + Drop>(alloc: Global, answer: Option<T>) -> Result<String, NoMemory> {
    match answer {
        Some(answer) => Ok(format!(in alloc; "{answer:?}")?),
        None => shown(alloc, None),
    }
}

fn shown(alloc: Global, text: Option<String>) -> Result<String, NoMemory> {
    match text {
        Some(text) => Ok(text),
        None => Ok(String::from_str(alloc, "none")?),
    }
}
