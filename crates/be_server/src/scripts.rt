//! The files of a drill, read.

ghost use Rattle.std.specs.Prelude.{◌≡◌, ◌≤◌, ◌++◌, true, Some, length, map, option_map, All, IfOk};
ghost use Rattle.std.specs.List.{list_all};
ghost use Rattle.be_base.specs.Readers.{now_of};
ghost use Rattle.be_base.specs.declared.limits.TheConstants.{FILE_BYTES};
ghost use Rattle.be_demand.specs.Whole.{names_are_whole};
ghost use Rattle.be_model.specs.Lies.{row_lies};
ghost use Rattle.be_server.specs.Drill.{LoadsScripts, LoadsDrill, drill_files};
ghost use Rattle.be_server.specs.Asked.{AsksInOrder, AsksInTurn};

use crate::files::{Loaded, load_files};
use crate::status::Status;
use be_io::Shelf;
use be_model::{Row, Schema};
use std::alloc::Global;

/// What the files of a drill are: its schema, the rows with which its list begins, and the sessions' lines.
#[derive(Drop)]
pub struct DrillFiles {
    pub schema: Schema,
    pub rows: Vec<Row>,
    pub scripts: Vec<Vec<u8>>,
}

/// Reads the files of a drill, each of which is judged before the next one is asked for.
pub fn load_drill<F: Shelf>(
    alloc: Global,
    shelf: &mut F,
    schema: &str,
    load: Option<&str>,
    files: &[&str],
) -> Result<DrillFiles, Status>
    ensures loads { LoadsDrill (drill_files (F.content shelf.old) schema.now (option_map now_of load.entry) (map now_of files.now)) (F.read_faults shelf.old) (F.read_faults shelf.new) result }
    ensures lies { IfOk result (λ l. list_all (row_lies l.schema) l.rows.items ≡ true) }
    ensures names { IfOk result (λ l. names_are_whole l.schema ≡ true) }
    ensures count { IfOk result (λ l. length l.scripts.items ≡ length files.now) }
    ensures short { IfOk result (λ l. All (λ script. length script.items ≤ FILE_BYTES) l.scripts.items) }
    ensures asked { AsksInTurn (F.content shelf.old) schema.now (option_map now_of load.entry) (map now_of files.now) (F.asked shelf.old) (F.asked shelf.new) }
{
    let Loaded { schema, rows } = load_files(alloc, shelf, schema, load)?;
    let scripts = load_scripts(alloc, shelf, files)?;
    Ok(DrillFiles {
        schema,
        rows,
        scripts,
    })
}

// Reads the sessions' files, in order.
fn load_scripts<F: Shelf>(
    alloc: Global,
    shelf: &mut F,
    names: &[&str],
) -> Result<Vec<Vec<u8>>, Status>
    ensures loads { LoadsScripts (map (F.content shelf.old) (map now_of names.now)) (F.read_faults shelf.old) (F.read_faults shelf.new) result }
    ensures count { IfOk result (λ scripts. length scripts.items ≡ length names.now) }
    ensures short { IfOk result (λ scripts. All (λ script. length script.items ≤ FILE_BYTES) scripts.items) }
    ensures asked { AsksInOrder (F.content shelf.old) (map now_of names.now) (F.asked shelf.old) (F.asked shelf.new) }
{
    let mut scripts = Vec::new(alloc);
    for name in names {
        let script = shelf.read_file(alloc, name)?;
        if scripts.push(script).is_err() {
            return Err(Status::NoMemory);
        }
    }
    Ok(scripts)
}
