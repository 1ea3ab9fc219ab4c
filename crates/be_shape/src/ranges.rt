//! The ranges of nodes.

ghost use Rattle.std.specs.Prelude.{◌≡◌, ◌≤ℤ◌, ◌<ℤ◌, pos, negsuc, true};
ghost use Rattle.be_model.specs.Domains.{middle};
ghost use Rattle.be_shape.specs.Shape.{whole, lower, upper, can_split};
ghost use Rattle.be_shape.specs.Ranges.{is_bounded, is_rising};
ghost use Rattle.be_shape.specs.Search.{holds_value};

use be_base::AttrNo;
use be_model::{Event, Schema};

/// The range of a node, and on which attribute; the root has none.
pub type NodeRange = Option<(AttrNo, (i64, i64))>;

/// The range of the root of a part. There is none where the schema doesn't have the attribute.
#[tactic(auto, using(crate::proofs::WholeRanges::whole_bounded, crate::proofs::WholeRanges::whole_rising))]
pub fn whole_range(s: &Schema, a: AttrNo) -> NodeRange
    ensures range { result ≡ whole s.now a }
    ensures bounded { is_bounded result ≡ true }
    ensures rising { is_rising result ≡ true }
{
    let _ = s.count();
    let range = s.range(a)?;
    Some((a, range))
}

/// The range of the low half.
pub fn lower_range(range: NodeRange) -> NodeRange
    requires bounded { is_bounded range ≡ true }
    requires rising { is_rising range ≡ true }
    ensures range { result ≡ lower range }
    ensures bounded { is_bounded result ≡ true }
    ensures rising { is_rising result ≡ true }
{
    let (a, (lo, hi)) = range?;
    Some((a, (lo, middle(lo, hi))))
}

/// The range of the high half. Of a range of one value it is empty.
pub fn upper_range(range: NodeRange) -> NodeRange
    requires bounded { is_bounded range ≡ true }
    requires rising { is_rising range ≡ true }
    ensures range { result ≡ upper range }
    ensures bounded { is_bounded result ≡ true }
    ensures rising { can_split range ≡ true → is_rising result ≡ true }
{
    let (a, (lo, hi)) = range?;
    Some((a, (middle(lo, hi) + 1, hi)))
}

// The greatest value of the low half.
fn middle(lo: i64, hi: i64) -> i64
    requires low { negsuc 2147483647 ≤ℤ lo }
    requires rising { lo ≤ℤ hi }
    requires high { hi ≤ℤ pos 2147483647 }
    ensures middle { result ≡ middle (lo, hi) }
    ensures low { lo ≤ℤ result }
    ensures high { result ≤ℤ hi }
    ensures below { lo <ℤ hi → result <ℤ hi }
{
    lo + (hi - lo) / 2
}

/// Whether the range holds at least one of the event's values of its attribute.
pub fn holds_value(range: NodeRange, e: &Event) -> bool
    ensures value { result ≡ holds_value e.now range }
    // An empty range holds none.
    ensures rising { result ≡ true → is_rising range ≡ true }
{
    match range {
        Some((a, ends)) => match e.values(a) {
            Some(values) => values.has_within(ends),
            None => false,
        },
        None => false,
    }
}
