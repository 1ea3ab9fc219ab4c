//! A leaf that has a row too much.

ghost use Rattle.std.specs.Prelude.{◌≡◌, ◌<◌, ◌≤◌, ◌+◌, ◌-◌, ◌||◌, true, false, not, [], length, take, filter, nat_le, if◌then◌else◌};
ghost use Rattle.std.specs.List.{list_all, list_any};
ghost use Rattle.be_base.specs.declared.limits.TheConstants.{LEAF_ROWS};
ghost use Rattle.be_model.specs.Lies.{row_lies};
ghost use Rattle.be_shape.specs.Shape.{is_stuck};
ghost use Rattle.be_shape.specs.Ranges.{is_bounded, is_rising};
ghost use Rattle.be_shape.specs.Children.{may_pass, is_open};
ghost use Rattle.be_shape.specs.Spots.{known_of};
ghost use Rattle.be_insert.specs.Filled.{is_filled, settles, better_half, half_for};

use be_base::LEAF_ROWS;
use be_model::{Hop, Schema};
use be_score::pick_attr;
use be_shape::{Leaf, NodeRange, Spot, can_split, count_passing, is_stuck, may_pass};

/// The first place whose row may be not stuck: where a leaf had more than 16 rows, all but the last are stuck.
pub(crate) fn first_loose(leaf: &Leaf) -> usize
    ensures first { result ≡ (if nat_le (length leaf.now) (LEAF_ROWS + 1) then 0 else length leaf.now - 1) }
    ensures within { result ≤ length leaf.now }
{
    if leaf.len() <= LEAF_ROWS + 1 {
        0
    } else {
        leaf.len() - 1
    }
}

/// Whether the leaf has more than 16 rows, and not all are stuck. It looks at the last row alone where the others are
/// stuck.
pub(crate) fn is_overfull(leaf: &Leaf, s: &Schema, k: &Spot) -> bool
    requires lie { list_all (row_lies s.now) leaf.now ≡ true }
    requires filled { is_filled s.now (known_of k.now) leaf.now ≡ true }
    ensures { result ≡ not (settles s.now (known_of k.now) leaf.now) }
{
    if leaf.len() <= LEAF_ROWS {
        return false;
    }
    for place in first_loose(leaf)..leaf.len() {
        if !is_stuck(leaf.row(place), s, k) {
            return true;
        }
    }
    false
}

// The half with more rows, the low one on a tie. There is none where neither has rows.
fn better_half(low: usize, high: usize) -> Option<Hop>
    ensures { result ≡ better_half low high }
{
    if 0 < low && high <= low {
        Some(Hop::Low)
    } else if 0 < high {
        Some(Hop::High)
    } else {
        None
    }
}

/// The half of the range that encloses more rows of the leaf, the low one on a tie. There is none where neither encloses
/// one, or there are no halves.
pub(crate) fn half_for(leaf: &Leaf, s: &Schema, range: NodeRange) -> Option<Hop>
    requires lie { list_all (row_lies s.now) leaf.now ≡ true }
    requires bounded { is_bounded range ≡ true }
    requires rising { is_rising range ≡ true }
    ensures { result ≡ half_for s.now range leaf.now }
{
    if !can_split(range) {
        return None;
    }
    better_half(
        count_passing(leaf, s, Hop::Low, range),
        count_passing(leaf, s, Hop::High, range),
    )
}

/// Where rows of an overfull leaf go: to a half, or else to a part of the attribute that divides them best.
pub(crate) fn choose(leaf: &Leaf, s: &Schema, alpha: u8, k: &Spot) -> Hop
    requires lie { list_all (row_lies s.now) leaf.now ≡ true }
    requires loose { list_all (is_stuck s.now (known_of k.now)) leaf.now ≡ false }
    ensures open { is_open result (known_of k.now) ≡ true }
    ensures some { list_any (may_pass s.now result k.now.range) leaf.now ≡ true }
{
    match half_for(leaf, s, k.range) {
        Some(hop) => hop,
        None => match pick_attr(s, leaf, k.used.as_slice(), alpha) {
            Some(a) => Hop::Part(a),
            None => unreachable!(),
        },
    }
}

/// Moves the rows that may pass the step to another leaf, in their order. It takes no memory.
pub(crate) fn move_rows(
    from: &mut Leaf,
    to: &mut Leaf,
    s: &Schema,
    hop: Hop,
    range: NodeRange,
    first: usize,
)
    requires lie { list_all (row_lies s.now) from.old ≡ true }
    requires bounded { is_bounded range ≡ true }
    requires rising { is_rising range ≡ true }
    requires within { first ≤ length from.old }
    requires before { list_all (λ row. not (may_pass s.now hop range row)) (take first from.old) ≡ true }
    requires empty { to.old ≡ [] }
    requires few { length (filter (may_pass s.now hop range) from.old) ≤ LEAF_ROWS + 1 }
    ensures left { from.new ≡ filter (λ row. not (may_pass s.now hop range row)) from.old }
    ensures moved { to.new ≡ filter (may_pass s.now hop range) from.old }
{
    let mut place = first;
    while place < from.len() {
        if may_pass(from.row(place), s, hop, range) {
            to.put(from.take(place));
        } else {
            place += 1;
        }
    }
}
