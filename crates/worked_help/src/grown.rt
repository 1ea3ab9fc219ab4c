//! A tree that grows by rows with the ids 0, 1, 2 and so on.

ghost use Rattle.std.specs.Prelude.{◌≡◌, ◌<◌, ◌+◌, true, nat_lt, OnOk, OnErr};
ghost use Rattle.std.specs.List.{list_all};
ghost use Rattle.std.specs.Arc.{arc_value};
ghost use Rattle.be_base.specs.declared.limits.TheConstants.{LOG_CHANGES};
ghost use Rattle.be_model.specs.Lies.{row_lies};
ghost use Rattle.be_model.specs.Rows.{id_of};
ghost use Rattle.be_shape.specs.Plain.{plain, contents};

use be_base::LOG_CHANGES;
use be_insert::place;
use be_model::{Row, Schema};
use be_shape::Tree;
use std::alloc::Global;
use std::sync::Arc;

/// A tree whose ids are below the next.
#[derive(Drop)]
pub struct Grown {
    pub tree: Tree,
    pub next: u64,
    ghost below: { list_all (λ r. nat_lt r.0 next) (contents (plain tree.root)) ≡ true },
}

impl Grown {
    pub fn make(alloc: Global, schema: Arc<Schema>) -> Grown {
        Grown {
            tree: Tree::make(alloc, schema, 50),
            next: 0,
        }
    }

    /// Takes out all rows. Ids go on from where they were.
    pub fn clear(&mut self) {
        self.tree.clear();
    }

    /// Places a row that has the next id and lies in the schema, and says whether it stands there then.
    pub fn put(&mut self, row: Arc<Row>) -> bool {
        self.try_put(row).is_ok()
    }

    /// The same, but the row comes back where memory was wanting, or it can't be placed.
    pub fn try_put(&mut self, row: Arc<Row>) -> Result<(), Arc<Row>> {
        if row.id.0 != self.next
            || LOG_CHANGES as u64 <= self.next
            || !row.lies(&self.tree.schema)
        {
            return Err(row);
        }
        place_or_back(&mut self.tree, self.next, row)?;
        self.next += 1;
        Ok(())
    }
}

// Places a row of the next id, or hands it back where memory was wanting.
fn place_or_back(tree: &mut Tree, next: u64, row: Arc<Row>) -> Result<(), Arc<Row>>
    requires below { list_all (λ r. nat_lt r.0 next) (contents (plain tree.old.root)) ≡ true }
    requires id { id_of (arc_value row) ≡ next }
    requires few { next < LOG_CHANGES }
    requires lies { row_lies (arc_value tree.old.schema) (arc_value row) ≡ true }
    ensures put { OnOk result (list_all (λ r. nat_lt r.0 (next + 1)) (contents (plain tree.new.root)) ≡ true) }
    ensures back { OnErr result (list_all (λ r. nat_lt r.0 next) (contents (plain tree.new.root)) ≡ true) }
{
    match place(tree, row) {
        Ok(()) => Ok(()),
        Err((row, _)) => Err(row),
    }
}
