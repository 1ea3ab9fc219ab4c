//! Schemas and rows for the tests, and what is done to a tree that has grown.

ghost use Rattle.std.specs.Prelude.{◌≡◌, true, nat_lt};
ghost use Rattle.std.specs.List.{list_all};
ghost use Rattle.be_shape.specs.Plain.{plain, contents};

use be_adjust::apply;
use be_base::{Id, Name, SessionNo};
use be_model::{Conj, Domain, Names, Row, Schema, Step, StepDone};
use be_remove::take;
use be_shape::Tree;
use std::alloc::Global;
use std::sync::Arc;
use std::test::Fail;
use worked_help::Grown;

/// Makes a step.
pub(crate) fn apply_step(grown: &mut Grown, step: &Step) -> StepDone {
    apply(&mut grown.tree, step)
}

/// Takes the row, where it is there.
pub(crate) fn take_row(grown: &mut Grown, row: &Row) -> Option<Arc<Row>> {
    take_below(&mut grown.tree, grown.next, row)
}

// Takes the row, where it is there; the ids are still below the next.
fn take_below(tree: &mut Tree, next: u64, row: &Row) -> Option<Arc<Row>>
    requires { list_all (λ r. nat_lt r.0 next) (contents (plain tree.old.root)) ≡ true }
    ensures { list_all (λ r. nat_lt r.0 next) (contents (plain tree.new.root)) ≡ true }
{
    take(tree, row)
}

fn push(schema: &mut Schema, name: &[u8], domain: Domain) -> Result<(), Fail> {
    let name = Name::read(name)?;
    if schema.accepts(&name, &domain) {
        schema.push((name, domain))?;
    }
    Ok(())
}

/// The schema `int price 0 1000`, `int qty -5 5`.
pub(crate) fn schema_of_two(alloc: Global) -> Result<Arc<Schema>, Fail> {
    let mut schema = Schema::make(alloc);
    push(&mut schema, b"price", Domain::Int { lo: 0, hi: 1000 })?;
    push(&mut schema, b"qty", Domain::Int { lo: -5, hi: 5 })?;
    Ok(Arc::new(alloc, schema)?)
}

/// The schema `int price 0 1000`, `int qty -5 5`, `sym side buy sell hold`, `int one 7 7`.
pub(crate) fn schema_of_four(alloc: Global) -> Result<Arc<Schema>, Fail> {
    let mut words = Names::make(alloc);
    for word in ["buy", "sell", "hold"] {
        words.push(Name::read(word.as_bytes())?)?;
    }
    let mut schema = Schema::make(alloc);
    push(&mut schema, b"price", Domain::Int { lo: 0, hi: 1000 })?;
    push(&mut schema, b"qty", Domain::Int { lo: -5, hi: 5 })?;
    push(&mut schema, b"side", Domain::Sym { words })?;
    push(&mut schema, b"one", Domain::Int { lo: 7, hi: 7 })?;
    Ok(Arc::new(alloc, schema)?)
}

pub(crate) fn row_of(alloc: Global, id: u64, conj: Conj) -> Result<Arc<Row>, Fail> {
    let row = Row {
        id: Id(id),
        session: SessionNo(1),
        name: Name::read(b"a")?,
        conj,
    };
    Ok(Arc::new(alloc, row)?)
}
