//! Rows, events and a schema to try things with.

ghost use Rattle.std.specs.Prelude.{◌≡◌, IfOk};
ghost use Rattle.std.specs.Arc.{arc_value};
ghost use Rattle.be_model.specs.Rows.{id_of};

use be_base::{AttrNo, Id, Name, SessionNo};
use be_model::{Conj, Domain, Event, Found, Op, Pred, Row, Schema, Values};
use std::alloc::Global;
use std::sync::Arc;
use std::test::Fail;

/// Prices from 0 to 1000.
pub fn prices(alloc: Global) -> Result<Arc<Schema>, Fail> {
    let mut schema = Schema::make(alloc);
    let name = Name::read(b"price")?;
    let domain = Domain::Int { lo: 0, hi: 1000 };
    if schema.accepts(&name, &domain) {
        schema.push((name, domain))?;
    }
    Ok(Arc::new(alloc, schema)?)
}

/// A row that asks for a price of at least `least`, or for nothing.
pub fn row(
    alloc: Global,
    id: u64,
    session: u64,
    name: &str,
    least: Option<i64>,
) -> Result<Arc<Row>, Fail>
    ensures { IfOk result (λ r. id_of (arc_value r) ≡ id) }
{
    let mut conj = Conj::make(alloc);
    if let Some(least) = least {
        conj.push(Pred {
            attr: AttrNo(0),
            op: Op::Ge(least),
        })?;
    }
    let row = Row {
        id: Id(id),
        session: SessionNo(session),
        name: Name::read(name.as_bytes())?,
        conj,
    };
    Ok(Arc::new(alloc, row)?)
}

/// An event of one price.
pub fn price(alloc: Global, price: i64) -> Result<Event, Fail> {
    let mut event = Event::make(alloc);
    if event.accepts(AttrNo(0)) {
        event.push((AttrNo(0), Values::one(alloc, price)?))?;
    }
    Ok(event)
}

/// The ids of the rows, by rising id.
pub fn ids(alloc: Global, mut found: Found) -> Result<Vec<u64>, Fail> {
    found.order();
    let mut ids = Vec::new(alloc);
    for row in found.rows() {
        ids.push(row.id.0)?;
    }
    Ok(ids)
}
