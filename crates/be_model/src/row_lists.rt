//! Lists of shared rows, however they are kept.

ghost use Rattle.std.specs.Prelude.{◌≡◌, ◌<◌, Some, length, slice_get};
ghost use Rattle.std.specs.Arc.{arc_value};

use crate::changes::Row;
use std::sync::Arc;

/// A list of rows that are read by their places. It lends no slice, so that a leaf of a tree may be one.
pub trait RowList {
    ghost use Rattle.std.specs.Prelude.{List};
    ghost use Rattle.be_model.specs.declared.changes.Row.{Row};

    /// The rows in order.
    ghost rows: { Self → List Row };

    fn len(&self) -> usize
        ensures { result ≡ length (rows self.now) };

    /// The row at a place, from 0.
    fn row(&self, place: usize) -> &Arc<Row>
        requires { place < length (rows self.now) }
        ensures { slice_get (rows self.now) place ≡ Some (arc_value result.now) };
}

impl RowList for Vec<Arc<Row>> {
    ghost use Rattle.be_model.specs.Rows.{rows_in};

    ghost rows = { λ v. rows_in v.items };

    fn len(&self) -> usize {
        Vec::len(self)
    }

    fn row(&self, place: usize) -> &Arc<Row> {
        &self[place]
    }
}
