//! All steps that reshape a tree.

ghost use Rattle.std.specs.Prelude.{◌≡◌, ◌≢◌, ◌↔◌, true, false};
ghost use Rattle.std.specs.Arc.{arc_value};
ghost use Rattle.be_model.specs.declared.paths.StepDone.TheVariants.{Done, NotHere, Skipped};
ghost use Rattle.be_shape.specs.Plain.{plain, contents};
ghost use Rattle.be_shape.specs.Steps.{stands, IsMade};
ghost use Rattle.be_model.specs.Kinds.{is_split, is_merge};

use crate::merges::merge;
use crate::shifts::shift;
use be_insert::{split_half, split_part};
use be_model::{Step, StepDone};
use be_shape::Tree;

/// Makes a step. `Skipped` comes only where memory is wanting; a shift may then have split the tree further.
pub fn apply(t: &mut Tree, step: &Step) -> StepDone
    ensures not_here { result ≡ NotHere ↔ stands (arc_value t.old.schema) step.now (plain t.old.root) ≡ false }
    ensures done { result ≡ Done → IsMade (arc_value t.old.schema) step.now (plain t.old.root) (plain t.new.root) }
    ensures nothing { result ≡ NotHere → plain t.new.root ≡ plain t.old.root }
    ensures split_skipped { is_split step.now ≡ true → result ≡ Skipped → plain t.new.root ≡ plain t.old.root }
    ensures merge_not_skipped { is_merge step.now ≡ true → result ≢ Skipped }
    ensures contents { contents (plain t.new.root) ≡ contents (plain t.old.root) }
    ensures schema { t.new.schema ≡ t.old.schema }
    ensures alpha { t.new.alpha ≡ t.old.alpha }
{
    match step {
        Step::SplitPart { path, attr } => split_part(t, path, *attr),
        Step::SplitHalf { path, half } => split_half(t, path, *half),
        Step::Merge { path } => merge(t, path),
        Step::Shift { path, from, to, id } => shift(t, path, *from, *to, *id),
    }
}
