//! Load files that are read.

ghost use Rattle.std.specs.Prelude.{◌≡◌, true};
ghost use Rattle.std.specs.List.{list_all};
ghost use Rattle.be_model.specs.Lies.{row_lies};

use be_base::NoMemory;
use be_expr::append_expr;
use be_load_files::read_table;
use be_model::{Row, Schema};
use std::alloc::Global;

/// Each row with its id and its session.
pub fn table(alloc: Global, schema: &Schema, text: &[u8]) -> Result<String, NoMemory> {
    match read_table(alloc, schema, text) {
        Ok(rows) => told(alloc, schema, rows.as_slice()),
        Err(fault) => Ok(format!(in alloc; "{fault}")?),
    }
}

fn told(alloc: Global, schema: &Schema, rows: &[Row]) -> Result<String, NoMemory>
    requires { list_all (row_lies schema.now) rows.now ≡ true }
{
    let mut text = Vec::new(alloc);
    for row in rows {
        let numbers = format!(in alloc; "{} {} {} ", row.id.0, row.session.0, row.name)?;
        text.extend_from_slice(numbers.as_bytes())?;
        append_expr(schema, &row.conj, &mut text)?;
        text.extend_from_slice(b".")?;
    }
    Ok(String::from_utf8_lossy(alloc, text.as_slice())?)
}
