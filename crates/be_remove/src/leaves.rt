//! A row of a leaf, and children that are left without rows.

ghost use Rattle.std.specs.Prelude.{◌≡◌, ◌<◌, ◌∷◌, length, IsPermutation, IfSome, OnSome, IfNone};
ghost use Rattle.std.specs.List.{Contains};
ghost use Rattle.std.specs.Arc.{arc_value};
ghost use Rattle.be_shape.specs.Plain.{parts_as, half_as};
ghost use Rattle.be_remove.specs.Taken.{kept_half, kept_part};

use be_model::Row;
use be_shape::{Leaf, Node, Part};
use std::sync::Arc;

/// Takes the row out of the leaf.
pub(crate) fn take_row(leaf: &mut Leaf, row: &Row) -> Option<Arc<Row>>
    ensures same { IfSome result (λ r. arc_value r ≡ row.now) }
    ensures taken { OnSome result (IsPermutation leaf.old (row.now ∷ leaf.new)) }
    ensures none { IfNone result (leaf.new ≡ leaf.old) }
    ensures lacks { IfNone result (Contains leaf.old row.now → ⊥) }
{
    let place = leaf.place_of(row)?;
    Some(leaf.pull(place))
}

/// Drops the half where it is bare.
pub(crate) fn drop_half(half: &mut Option<Box<Node>>)
    ensures { half_as half.new ≡ kept_half (half_as half.old) }
{
    let bare = match half {
        Some(n) => n.is_bare(),
        None => false,
    };
    if bare {
        *half = None;
    }
}

/// Drops the part at a place where its root is bare.
pub(crate) fn drop_part(parts: &mut Vec<Part>, place: usize)
    requires { place < length parts.old.items }
    ensures { parts_as parts.new.items ≡ kept_part place (parts_as parts.old.items) }
{
    if parts[place].root.is_bare() {
        let _ = parts.remove(place);
    }
}
