//! The plain index: rows in an ordered map, of which a search tests each.

ghost use Rattle.std.specs.Prelude.{◌≡◌, ◌↔◌, ◌<◌, [], ◌∷◌, false, length, Some, OnOk, OnErr, IfErr, IsTrue};
ghost use Rattle.std.specs.List.{count_by};
ghost use Rattle.std.specs.Bool.{OnTrue, OnFalse};
ghost use Rattle.std.specs.Arc.{arc_value};
ghost use Rattle.be_model.specs.Bounds.{is_covered};
ghost use Rattle.be_model.specs.ByIds.{map_in, put_by_id, without_id, has_id, rows_of, row_at, Rising};
ghost use Rattle.be_model.specs.Rows.{id_of};
ghost use Rattle.be_index.specs.Puts.{Adds, Grows, KeepsPlaces};
ghost use Rattle.be_index.specs.Rows.{wanted_of};

use crate::hits::Hits;
use crate::promise::Index;
use crate::wanted::Wanted;
use be_base::{NoMemory, SessionNo};
use be_model::{Cost, Event, Found, Path, Row, Schema, Step, StepDone};
use std::alloc::Global;
use std::collections::BTreeMap;
use std::marker::Model;
use std::sync::Arc;

/// Rows by their ids. A row is put and removed in the time of a look-up; a search, a cost, and a session's rows take a look
/// at every row.
#[derive(Drop)]
pub struct ListIndex {
    schema: Arc<Schema>,
    rows: BTreeMap<u64, Arc<Row>>,
}

impl Model for ListIndex {
    ghost use Rattle.std.specs.Arc.{arc_value};
    ghost use Rattle.be_model.specs.ByIds.{map_in};
    ghost use Rattle.be_index.specs.Promise.{IsMap};
    ghost use Rattle.be_index.specs.Rows.{PlainIndex};

    ghost Value = { PlainIndex };

    ghost view = { λ i. record { schema = arc_value i.schema; rows = map_in i.rows.entries } };

    ghost invariant = { λ i. IsMap (map_in i.rows.entries) };
}

impl ListIndex {
    ghost use Rattle.be_index.specs.Rows.{plain_index};

    /// No rows. It takes no memory.
    pub fn make(alloc: Global, schema: Arc<Schema>) -> ListIndex
        ensures { result ≡ plain_index (arc_value schema) [] }
    {
        ListIndex {
            schema,
            rows: BTreeMap::new(alloc),
        }
    }
}

impl Index for ListIndex {
    ghost use Rattle.std.specs.Prelude.{◌≡◌, true, false, None};
    ghost use Rattle.be_index.specs.Rows.{plain_cost};

    ghost schema = { λ i. i.schema };

    ghost rows = { λ i. i.rows };

    ghost is_bounded = { λ i. true };

    ghost cost_of = { λ i e. plain_cost e i.rows };

    ghost can_step = { λ i step. false };

    ghost is_made = { λ step i j. ⊥ };

    ghost is_unchanged = { λ i j. j.rows ≡ i.rows };

    ghost planned = { λ i. None };

    fn lies(&self, row: &Row) -> bool {
        row.lies(&self.schema)
    }

    fn insert(&mut self, row: Arc<Row>) -> Result<(), (Arc<Row>, NoMemory)> {
        put_row(&mut self.rows, row)
    }

    fn remove(&mut self, row: &Row) -> bool {
        drop_row(&mut self.rows, row)
    }

    fn clear(&mut self) {
        self.rows.clear();
    }

    fn find<C: Hits>(&self, event: &Event, found: &mut C) -> Result<Cost, NoMemory> {
        put_rows(&self.rows, Wanted::SatisfiedBy(event), found)?;
        Ok(self.cost(event))
    }

    fn cost(&self, event: &Event) -> Cost {
        Cost {
            visits: 1,
            tested: count_covered(&self.rows, event),
        }
    }

    fn len(&self) -> u64 {
        self.rows.len() as u64
    }

    fn rows_of(&self, session: SessionNo, found: &mut Found) -> Result<(), NoMemory> {
        put_rows(&self.rows, Wanted::Of(session), found)
    }

    fn all(&self, found: &mut Found) -> Result<(), NoMemory> {
        put_rows(&self.rows, Wanted::All, found)
    }

    fn step(&mut self, _step: &Step) -> StepDone {
        StepDone::NotHere
    }

    fn plan(&self) -> Result<Option<Step>, NoMemory> {
        Ok(None)
    }

    fn look_on(&self, _from: &mut Option<Path>, _most: u64) -> Result<Option<Step>, NoMemory> {
        Ok(None)
    }
}

fn put_row(rows: &mut BTreeMap<u64, Arc<Row>>, row: Arc<Row>) -> Result<(), (Arc<Row>, NoMemory)>
    requires { has_id (id_of (arc_value row)) (map_in rows.old.entries) ≡ false }
    ensures put { OnOk result (map_in rows.new.entries ≡ put_by_id (arc_value row) (map_in rows.old.entries)) }
    ensures refused { OnErr result (map_in rows.new.entries ≡ map_in rows.old.entries) }
    ensures back { IfErr result (λ e. arc_value e.0 ≡ arc_value row) }
{
    let id = row.id.0;
    match rows.insert(id, row) {
        Ok(_) => Ok(()),
        Err(failed) => Err((failed.value.1, NoMemory)),
    }
}

fn drop_row(rows: &mut BTreeMap<u64, Arc<Row>>, row: &Row) -> bool
    requires { Rising (map_in rows.old.entries) }
    ensures there { IsTrue result ↔ (row_at (id_of row.now) (map_in rows.old.entries) ≡ Some row.now) }
    ensures removed { OnTrue result (map_in rows.new.entries ≡ without_id (id_of row.now) (map_in rows.old.entries)) }
    ensures kept { OnFalse result (map_in rows.new.entries ≡ map_in rows.old.entries) }
{
    if !has_row(rows, row) {
        return false;
    }
    rows.remove(&row.id.0);
    true
}

// Whether this row stands at its id.
fn has_row(rows: &BTreeMap<u64, Arc<Row>>, row: &Row) -> bool
    ensures { IsTrue result ↔ (row_at (id_of row.now) (map_in rows.now.entries) ≡ Some row.now) }
{
    match rows.get(&row.id.0) {
        Some(held) => held.same_as(row),
        None => false,
    }
}

// Puts the wanted rows, or none.
fn put_rows<C: Hits>(
    rows: &BTreeMap<u64, Arc<Row>>,
    wanted: Wanted<'_>,
    found: &mut C,
) -> Result<(), NoMemory>
    ensures put { OnOk result (Adds (C.held found.old) (C.held found.new) (wanted_of C.item_of wanted.entry (rows_of (map_in rows.now.entries)))) }
    ensures some { OnErr result ((C.held found.old).sure < length (wanted_of C.item_of wanted.entry (rows_of (map_in rows.now.entries)))) }
    ensures refused { OnErr result ((C.held found.new).items ≡ (C.held found.old).items) }
    ensures room { KeepsPlaces (C.held found.old) (C.held found.new) }
{
    let before = found.count();
    match push_rows(rows, wanted, found) {
        Ok(()) => Ok(()),
        Err(NoMemory) => {
            found.keep(before);
            Err(NoMemory)
        }
    }
}

// Puts the wanted rows, or some of them.
fn push_rows<C: Hits>(
    rows: &BTreeMap<u64, Arc<Row>>,
    wanted: Wanted<'_>,
    found: &mut C,
) -> Result<(), NoMemory>
    ensures put { OnOk result (Adds (C.held found.old) (C.held found.new) (wanted_of C.item_of wanted.entry (rows_of (map_in rows.now.entries)))) }
    ensures some { OnErr result ((C.held found.old).sure < length (wanted_of C.item_of wanted.entry (rows_of (map_in rows.now.entries)))) }
    ensures grown { Grows (C.held found.old) (C.held found.new) }
{
    for (_, row) in rows {
        push_wanted(row, wanted, found)?;
    }
    Ok(())
}

// Puts the row where it is wanted.
fn push_wanted<C: Hits>(row: &Arc<Row>, wanted: Wanted<'_>, found: &mut C) -> Result<(), NoMemory>
    ensures put { OnOk result (Adds (C.held found.old) (C.held found.new) (wanted_of C.item_of wanted.entry (arc_value row.now ∷ []))) }
    ensures some { OnErr result ((C.held found.old).sure < length (wanted_of C.item_of wanted.entry (arc_value row.now ∷ []))) }
    ensures grown { Grows (C.held found.old) (C.held found.new) }
{
    if wanted.takes(row) {
        found.put(row.id, row)?;
    }
    Ok(())
}

// How many rows have no attribute but those that the event assigns.
fn count_covered(rows: &BTreeMap<u64, Arc<Row>>, event: &Event) -> u64
    ensures { result ≡ count_by (is_covered event.now) (rows_of (map_in rows.now.entries)) }
{
    // It is asked for its clause that the count fits.
    let _ = rows.len();
    let mut count = 0;
    for (_, row) in rows {
        if is_covered(row, event) {
            count += 1;
        }
    }
    count
}

// Whether the event assigns each attribute of the row.
fn is_covered(row: &Row, event: &Event) -> bool
    ensures { result ≡ is_covered event.now row.now }
{
    row.conj
        .preds()
        .iter()
        .all(|pred| event.values(pred.attr).is_some())
}
