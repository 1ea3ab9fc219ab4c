//! Load files, read.

ghost use Rattle.std.specs.Prelude.{◌≡◌, ◌≤◌, [], ◌∷◌, ◌++◌, length, true, IfOk, OnOk};
ghost use Rattle.std.specs.List.{list_all};
ghost use Rattle.be_change.specs.Opening.{IsTable};
ghost use Rattle.be_model.specs.Lies.{row_lies};
ghost use Rattle.be_expr.specs.Expressions.{Reads};
ghost use Rattle.be_load_files.specs.Tables.{said_on, next_row, with_next, with_said};
ghost use Rattle.be_load_files.specs.Reading.{ReadsTable, rows_read, IsSaid, KeepsNames, PutsRow};

use crate::faults::{TableFault, TableKind};
use be_base::{Id, Name, NoMemory, SessionNo, after_word};
use be_expr::{ExprFault, read_named};
use be_io::{first_line, means_nothing};
use be_model::{Conj, Names, Row, Schema};
use std::alloc::Global;

/// Reads a whole text as a load file. The rows are of session 0, each with its place as its id.
pub fn read_table(alloc: Global, schema: &Schema, text: &[u8]) -> Result<Vec<Row>, TableFault>
    ensures exact { ReadsTable schema.now text.now (rows_read result) }
    ensures table { IfOk result (λ rows. IsTable rows.items) }
    ensures lies { IfOk result (λ rows. list_all (row_lies schema.now) rows.items ≡ true) }
    ensures few { IfOk result (λ rows. length rows.items ≤ length text.now) }
{
    let mut table = Table::make(alloc);
    let mut number = 0;
    let mut rest = text;
    while !rest.is_empty() {
        let (line, after) = first_line(rest);
        number += 1;
        if !means_nothing(line) {
            table.read_row(alloc, schema, number, line)?;
        }
        rest = after;
    }
    Ok(table.rows)
}

// The rows of the lines so far, and their names.
#[derive(Drop)]
struct Table {
    rows: Vec<Row>,
    names: Names,
}

impl Table {
    fn make(alloc: Global) -> Table
        ensures rows { result.rows.items ≡ [] }
        ensures names { KeepsNames result }
    {
        Table {
            rows: Vec::new(alloc),
            names: Names::make(alloc),
        }
    }

    // Puts the row last that the line of this number says.
    fn read_row(
        &mut self,
        alloc: Global,
        schema: &Schema,
        number: u64,
        line: &[u8],
    ) -> Result<(), TableFault>
        requires { KeepsNames self.old }
        ensures { PutsRow result self.new (with_said number self.old.rows.items (said_on schema.now line.now)) (IsSaid schema.now line.now) }
    {
        match read_said(alloc, schema, line) {
            Ok((name, conj)) => self.put_new(number, name, conj),
            Err(fault) => Err(TableFault::at(number, fault)),
        }
    }

    // Puts a row last, where none has its name.
    fn put_new(&mut self, number: u64, name: Name, conj: Conj) -> Result<(), TableFault>
        requires { KeepsNames self.old }
        ensures { PutsRow result self.new (with_next number self.old.rows.items (name, conj)) (Unit {0}) }
    {
        if self.names.find(&name).is_some() {
            return Err(TableFault::Line {
                line: number,
                kind: TableKind::Twice,
            });
        }
        Ok(self.put(name, conj)?)
    }

    fn put(&mut self, name: Name, conj: Conj) -> Result<(), NoMemory>
        requires { KeepsNames self.old }
        ensures row { OnOk result (self.new.rows.items ≡ self.old.rows.items ++ next_row self.old.rows.items name conj ∷ []) }
        ensures names { OnOk result (KeepsNames self.new) }
    {
        let row = Row {
            id: Id(self.rows.len() as u64),
            session: SessionNo(0),
            name,
            conj,
        };
        self.names.push(name)?;
        self.rows.push(row)?;
        Ok(())
    }
}

// Reads what a row's line says.
fn read_said(alloc: Global, schema: &Schema, line: &[u8]) -> Result<(Name, Conj), ExprFault>
    ensures { Reads result (said_on schema.now line.now) }
{
    match after_word(line, b"ROW") {
        Some(rest) => read_named(alloc, schema, rest),
        None => Err(ExprFault::Bad),
    }
}
