//! What a search puts rows into.

ghost use Rattle.std.specs.Prelude.{◌≡◌, ◌<◌, ◌≤◌, ◌∷◌, [], true, false, length, take, IfOk, OnOk, OnErr};
ghost use Rattle.std.specs.Arc.{arc_value};
ghost use Rattle.be_model.specs.Rows.{id_of};
ghost use Rattle.be_index.specs.Puts.{Adds, PutsById, KeepsPlaces};

use be_base::{Id, NoMemory};
use be_model::{Found, Row};
use std::sync::Arc;

/// A list with an item for each row that was put, and room for more.
pub trait Hits {
    ghost use Rattle.be_model.specs.declared.changes.Row.{Row};
    ghost use Rattle.be_index.specs.Puts.{Held};

    type Item;

    /// What is kept of a row.
    ghost item_of: { Row → Self.Item };

    ghost held: { Self → Held Self.Item };

    /// Puts a row last. It is given with its id, so that where the id is all that is kept the row isn't looked at.
    fn put(&mut self, id: Id, row: &Arc<Row>) -> Result<(), NoMemory>
        requires { id.0 ≡ id_of (arc_value row.now) }
        ensures put { OnOk result (Adds (held self.old) (held self.new) (item_of (arc_value row.now) ∷ [])) }
        ensures refused { OnErr result ((held self.old).sure < 1) }
        ensures same { OnErr result ((held self.new).items ≡ (held self.old).items) }
        ensures room { KeepsPlaces (held self.old) (held self.new) };

    /// Puts a row last by its id alone, and says whether it did. Where more than the id is kept it doesn't, and nothing changes.
    fn put_id(&mut self, id: Id) -> Result<bool, NoMemory>
        ensures put { IfOk result (λ done. done ≡ true → PutsById item_of id.0 (held self.old) (held self.new)) }
        ensures left { IfOk result (λ done. done ≡ false → held self.new ≡ held self.old) }
        ensures refused { OnErr result ((held self.old).sure < 1) }
        ensures same { OnErr result ((held self.new).items ≡ (held self.old).items) }
        ensures room { KeepsPlaces (held self.old) (held self.new) };

    /// How many rows were put.
    fn count(&self) -> usize
        ensures { result ≡ length (held self.now).items };

    /// Keeps the first `n` rows.
    fn keep(&mut self, n: usize)
        requires { n ≤ length (held self.old).items }
        ensures items { (held self.new).items ≡ take n (held self.old).items }
        ensures room { KeepsPlaces (held self.old) (held self.new) };
}

/// Each row that is put takes a further reference, which may be refused whatever room there is.
impl Hits for Found {
    ghost use Rattle.std.specs.Prelude.{◌+◌, length};

    type Item = Row;

    ghost item_of = { λ row. row };

    ghost held = { λ f. record { items = f.rows; sure = 0; places = length f.rows + f.spare } };

    fn put(&mut self, _id: Id, row: &Arc<Row>) -> Result<(), NoMemory> {
        self.reserve(1)?;
        self.push_again(row)
    }

    fn put_id(&mut self, _id: Id) -> Result<bool, NoMemory> {
        Ok(false)
    }

    fn count(&self) -> usize {
        self.len()
    }

    fn keep(&mut self, n: usize) {
        self.cut(n);
    }
}
