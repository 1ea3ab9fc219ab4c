//! The kinds of boards.

use crate::commands;
use be_base::NoMemory;
use be_board::LocalBoard;
use be_index::ListIndex;
use be_load_files::read_table;
use be_model::Schema;
use be_tree::BeTree;
use std::alloc::Global;
use std::sync::Arc;

const TABLE: &[u8] = b"ROW x all\nROW y price < 5\nROW z price < 9\n";

pub fn answers(
    alloc: Global,
    schema: &Arc<Schema>,
    kind: &str,
    script: &str,
) -> Result<String, NoMemory> {
    match kind {
        "list" => over_list(alloc, schema, script),
        "tree" => over_tree(alloc, schema, script),
        "opened" => opened(alloc, schema, script),
        _ => Ok(String::from_str(alloc, "no board")?),
    }
}

fn over_list(alloc: Global, schema: &Arc<Schema>, script: &str) -> Result<String, NoMemory> {
    let index = ListIndex::make(alloc, Arc::try_clone(schema)?);
    let mut board = LocalBoard::make(alloc, index)?;
    commands::answers(alloc, schema, &mut board, script)
}

fn over_tree(alloc: Global, schema: &Arc<Schema>, script: &str) -> Result<String, NoMemory> {
    let index = BeTree::make(alloc, Arc::try_clone(schema)?);
    let mut board = LocalBoard::make(alloc, index)?;
    commands::answers(alloc, schema, &mut board, script)
}

// A board whose list begins with these rows.
fn opened(alloc: Global, schema: &Arc<Schema>, script: &str) -> Result<String, NoMemory> {
    let index = BeTree::make(alloc, Arc::try_clone(schema)?);
    let rows = read_table(alloc, schema, TABLE).map_err(|_| NoMemory)?;
    let mut board = LocalBoard::open(alloc, index, rows)?;
    commands::answers(alloc, schema, &mut board, script)
}
