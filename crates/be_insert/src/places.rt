//! Where a row goes.

ghost use Rattle.std.specs.Prelude.{◌≡◌, ◌++◌, ◌∷◌, [], ◌+◌, ◌<◌, true, false, Some, None, option_map, length, MatchOption, IfSome, IsPermutation, OnOk, OnErr, IfErr};
ghost use Rattle.std.specs.Arc.{arc_value};
ghost use Rattle.be_model.specs.Lies.{row_lies};
ghost use Rattle.be_model.specs.Rows.{has, id_of};
ghost use Rattle.be_model.specs.ByIds.{put_by_id, has_id};
ghost use Rattle.be_base.specs.declared.limits.TheConstants.{LOG_CHANGES};
ghost use Rattle.be_shape.specs.Plain.{plain, with_row, parts_as, part_as, leaf_of, rows_below, contents};
ghost use Rattle.be_shape.specs.Children.{with_leaf};
ghost use Rattle.be_shape.specs.Shape.{attrs_of, spans_inside, may_stand};
ghost use Rattle.be_shape.specs.Ranges.{is_bounded, is_rising};
ghost use Rattle.be_shape.specs.Spots.{known_of};
ghost use Rattle.be_insert.specs.Refusals.{back};
ghost use Rattle.be_shape.specs.Right.{IsRight};
ghost use Rattle.be_insert.specs.Ways.{heavier, better_part, best_from, IsWay, NoWay};

use crate::splits::settle;
use be_base::NoMemory;
use be_model::{Hop, Row, Schema};
use be_score::weight;
use be_shape::{Node, NodeRange, Part, Spot, Tree, has_attr, lower_range, takes, upper_range};
use std::sync::Arc;

fn heavier(best: Option<(usize, i64)>, next: (usize, i64)) -> Option<(usize, i64)>
    ensures { result ≡ heavier best next }
{
    match best {
        Some(first) if next.1 <= first.1 => Some(first),
        _ => Some(next),
    }
}

// The better of the best part so far and the next.
fn better_part(
    best: Option<(usize, i64)>,
    place: usize,
    part: &Part,
    s: &Schema,
    row: &Row,
) -> Option<(usize, i64)>
    requires { row_lies s.now row.now ≡ true }
    ensures { result ≡ better_part s.now row.now best place (part_as part.now).0 }
{
    if has_attr(row, part.attr) {
        heavier(best, (place, weight(s, row, part.attr)))
    } else {
        best
    }
}

/// The place of the part in which the row weighs most, the first on a tie, among those whose attribute it has. A row that no
/// half takes goes there.
pub fn best_part(parts: &[Part], s: &Schema, row: &Row) -> Option<usize>
    requires { row_lies s.now row.now ≡ true }
    ensures best { result ≡ option_map (λ b. b.0) (best_from s.now row.now 0 None (attrs_of (parts_as parts.now))) }
    ensures within { IfSome result (λ place. place < length parts.now) }
{
    let mut best = None;
    let mut place = 0;
    for part in parts {
        best = better_part(best, place, part, s, row);
        place += 1;
    }
    let (found, _) = best?;
    Some(found)
}

// The step that the row goes, and for a part its place: a half that encloses its span, or else the best part.
fn way(n: &Node, s: &Schema, range: NodeRange, row: &Row) -> Option<(Hop, usize)>
    requires lies { row_lies s.now row.now ≡ true }
    requires bounded { is_bounded range ≡ true }
    requires rising { is_rising range ≡ true }
    ensures { MatchOption result (NoWay s.now range (plain n.now) row.now) (λ w. IsWay s.now range (plain n.now) row.now w) }
{
    if takes(&n.low, s, lower_range(range), row) {
        return Some((Hop::Low, 0));
    }
    if takes(&n.high, s, upper_range(range), row) {
        return Some((Hop::High, 0));
    }
    match best_part(n.parts.as_slice(), s, row) {
        Some(place) => Some((Hop::Part(n.parts[place].attr), place)),
        None => None,
    }
}

// Puts the row last into the leaf, or hands it back where memory is wanting.
fn put_last(n: &mut Node, row: Arc<Row>) -> Result<(), Arc<Row>>
    ensures put { OnOk result (plain n.new ≡ with_row (arc_value row) (plain n.old)) }
    ensures refused { OnErr result (plain n.new ≡ plain n.old) }
    ensures same { IfErr result (λ r. arc_value r ≡ arc_value row) }
{
    n.leaf.push(row)
}

// Puts the rows of the leaf in another order now and then, as `Leaf::arrange` does.
fn arrange(n: &mut Node)
    ensures rows { IsPermutation (leaf_of (plain n.old)) (leaf_of (plain n.new)) }
    ensures rest { plain n.new ≡ with_leaf (leaf_of (plain n.new)) (plain n.old) }
{
    n.leaf.arrange();
}

// Puts the row into the leaf, splits it where it has a row too much, and then arranges it.
fn place_here(
    n: &mut Node,
    s: &Schema,
    alpha: u8,
    k: &mut Spot,
    row: Arc<Row>,
) -> Result<(), (Arc<Row>, NoMemory)>
    requires right { IsRight s.now (known_of k.old) (plain n.old) }
    requires may { may_stand s.now (arc_value row) ≡ true }
    requires inside { spans_inside s.now k.old.range (arc_value row) ≡ true }
    requires here { NoWay s.now k.old.range (plain n.old) (arc_value row) }
    ensures right { IsRight s.now (known_of k.old) (plain n.new) }
    ensures rows { IsPermutation (rows_below (plain n.old) ++ arc_value row ∷ []) (rows_below (plain n.new) ++ back result) }
    ensures same { IfErr result (λ e. arc_value e.0 ≡ arc_value row) }
{
    match put_last(n, row) {
        Ok(()) => {
            settle(n, s, alpha, k)?;
            arrange(n);
            Ok(())
        }
        Err(row) => Err((row, NoMemory)),
    }
}

/// Puts the row below the node, or hands it back where memory is wanting. Where the spot is left is open.
pub fn place_below(
    n: &mut Node,
    s: &Schema,
    alpha: u8,
    k: &mut Spot,
    row: Arc<Row>,
) -> Result<(), (Arc<Row>, NoMemory)>
    requires right { IsRight s.now (known_of k.old) (plain n.old) }
    requires may { may_stand s.now (arc_value row) ≡ true }
    requires inside { spans_inside s.now k.old.range (arc_value row) ≡ true }
    ensures right { IsRight s.now (known_of k.old) (plain n.new) }
    ensures rows { IsPermutation (rows_below (plain n.old) ++ arc_value row ∷ []) (rows_below (plain n.new) ++ back result) }
    ensures same { IfErr result (λ e. arc_value e.0 ≡ arc_value row) }
{
    let Some((hop, place)) = way(n, s, k.range, &row) else {
        return place_here(n, s, alpha, k, row);
    };
    // The count shows the form of the schema.
    let _ = s.count();
    if let Err(NoMemory) = k.enter(s, hop) {
        return Err((row, NoMemory));
    }
    match hop {
        Hop::Part(_) => place_below(&mut n.parts[place].root, s, alpha, k, row),
        Hop::Low => match &mut n.low {
            Some(low) => place_below(low, s, alpha, k, row),
            None => unreachable!(),
        },
        Hop::High => match &mut n.high {
            Some(high) => place_below(high, s, alpha, k, row),
            None => unreachable!(),
        },
    }
}

/// Puts a row into the tree, or hands it back where memory is wanting. A half that encloses the row's span goes before a
/// part; of the parts whose attribute the row has, it goes to the one on whose attribute it weighs most. A leaf that then has
/// too many rows is split.
/// After a refusal the contents are as before, and the tree may have another shape.
pub fn place(t: &mut Tree, row: Arc<Row>) -> Result<(), (Arc<Row>, NoMemory)>
    requires new { has_id (id_of (arc_value row)) (contents (plain t.old.root)) ≡ false }
    requires low { id_of (arc_value row) < LOG_CHANGES }
    requires lies { row_lies (arc_value t.old.schema) (arc_value row) ≡ true }
    ensures put { OnOk result (contents (plain t.new.root) ≡ put_by_id (arc_value row) (contents (plain t.old.root))) }
    ensures refused { OnErr result (contents (plain t.new.root) ≡ contents (plain t.old.root)) }
    ensures back { IfErr result (λ e. arc_value e.0 ≡ arc_value row) }
    ensures schema { t.new.schema ≡ t.old.schema }
    ensures alpha { t.new.alpha ≡ t.old.alpha }
{
    let mut spot = Spot::root(*t.root.parts.allocator());
    // The predicates show the form of the condition.
    let _ = row.conj.preds();
    place_below(&mut t.root, &t.schema, t.alpha, &mut spot, row)
}
