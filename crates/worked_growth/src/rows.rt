//! Rows of conditions, and a tree that grows by them.

ghost use Rattle.std.specs.Prelude.{◌≡◌, IfSome};
ghost use Rattle.std.specs.Arc.{arc_value};
ghost use Rattle.be_model.specs.Rows.{id_of};

use be_base::{Id, Name, SessionNo};
use be_expr::read_expr;
use be_model::{Row, Schema};
use std::alloc::Global;
use std::sync::Arc;
use worked_help::Grown;

/// Places a row of this condition that has the next id, and says whether it stands there then.
pub fn put(alloc: Global, grown: &mut Grown, condition: &[u8]) -> bool {
    match row_of(alloc, &grown.tree.schema, grown.next, condition) {
        Some(row) => grown.put(row),
        None => false,
    }
}

pub fn row_of(alloc: Global, schema: &Schema, id: u64, condition: &[u8]) -> Option<Arc<Row>>
    ensures { IfSome result (λ r. id_of (arc_value r) ≡ id) }
{
    let name = Name::read(b"a").ok()?;
    let conj = read_expr(alloc, schema, condition).ok()?;
    let row = Row {
        id: Id(id),
        session: SessionNo(1),
        name,
        conj,
    };
    Arc::new(alloc, row).ok()
}
