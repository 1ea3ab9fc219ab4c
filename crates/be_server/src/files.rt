//! The files of a run, read.

ghost use Rattle.std.specs.Prelude.{◌≡◌, ℕ, ◌++◌, ◌∷◌, [], List, true, Some, IfOk, OnOk, option_map};
ghost use Rattle.std.specs.List.{list_all};
ghost use Rattle.be_base.specs.Readers.{now_of};
ghost use Rattle.be_change.specs.Opening.{IsTable};
ghost use Rattle.be_demand.specs.Whole.{names_are_whole};
ghost use Rattle.be_model.specs.Lies.{row_lies};
ghost use Rattle.be_server.specs.Files.{LoadsSchema, LoadsTable, LoadsRun, run_files, run_names};
ghost use Rattle.be_server.specs.Asked.{MayAsk, AsksInTurn};

use crate::status::Status;
use be_event::{SchemaFault, read_schema};
use be_io::{Shelf, ShelfFault};
use be_load_files::{TableFault, read_table};
use be_model::{Row, Schema};
use std::alloc::Global;

/// What the files of a run are: its schema, and the rows with which its list begins.
#[derive(Drop)]
pub struct Loaded {
    pub schema: Schema,
    pub rows: Vec<Row>,
}

/// Reads the files of a run, each of which is judged before the next one is asked for.
pub fn load_files<F: Shelf>(
    alloc: Global,
    shelf: &mut F,
    schema: &str,
    load: Option<&str>,
) -> Result<Loaded, Status>
    ensures loads { LoadsRun (run_files (F.content shelf.old) schema.now (option_map now_of load.entry)) (F.read_faults shelf.old) (F.read_faults shelf.new) result }
    ensures lies { IfOk result (λ l. list_all (row_lies l.schema) l.rows.items ≡ true) }
    ensures names { IfOk result (λ l. names_are_whole l.schema ≡ true) }
    ensures asked { AsksInTurn (F.content shelf.old) schema.now (option_map now_of load.entry) [] (F.asked shelf.old) (F.asked shelf.new) }
    ensures read { OnOk result (F.asked shelf.new ≡ F.asked shelf.old ++ run_names schema.now (option_map now_of load.entry)) }
    ensures content { (file : List ℕ) → F.content shelf.new file ≡ F.content shelf.old file }
{
    let schema = load_schema(alloc, shelf, schema)?;
    let rows = match load {
        Some(name) => load_table(alloc, shelf, &schema, name)?,
        None => Vec::new(alloc),
    };
    Ok(Loaded { schema, rows })
}

// Reads the schema in the file of this name.
pub(crate) fn load_schema<F: Shelf>(
    alloc: Global,
    shelf: &mut F,
    name: &str,
) -> Result<Schema, Status>
    ensures loads { LoadsSchema (F.content shelf.old name.now) (F.read_faults shelf.old) (F.read_faults shelf.new) result }
    ensures names { IfOk result (λ schema. names_are_whole schema ≡ true) }
    ensures asked { MayAsk name.now (F.asked shelf.old) (F.asked shelf.new) }
    ensures read { OnOk result (F.asked shelf.new ≡ F.asked shelf.old ++ name.now ∷ []) }
    ensures content { (file : List ℕ) → F.content shelf.new file ≡ F.content shelf.old file }
{
    let text = shelf.read_file(alloc, name)?;
    let schema = read_schema(alloc, text.as_slice())?;
    // Called for its clause that a schema has its form.
    let _form = schema.count();
    Ok(schema)
}

// Reads the rows in the file of this name.
fn load_table<F: Shelf>(
    alloc: Global,
    shelf: &mut F,
    schema: &Schema,
    name: &str,
) -> Result<Vec<Row>, Status>
    ensures loads { LoadsTable schema.now (F.content shelf.old name.now) (F.read_faults shelf.old) (F.read_faults shelf.new) result }
    ensures lies { IfOk result (λ rows. list_all (row_lies schema.now) rows.items ≡ true) }
    ensures asked { MayAsk name.now (F.asked shelf.old) (F.asked shelf.new) }
    ensures read { OnOk result (F.asked shelf.new ≡ F.asked shelf.old ++ name.now ∷ []) }
    ensures content { (file : List ℕ) → F.content shelf.new file ≡ F.content shelf.old file }
{
    let text = shelf.read_file(alloc, name)?;
    let rows = read_table(alloc, schema, text.as_slice())?;
    Ok(rows)
}
