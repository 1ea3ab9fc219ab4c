//! The law of the plan. The function's contract is the law, which its proof shows; to call it does nothing.

ghost use Rattle.std.specs.Prelude.{◌≡◌, ℕ, true, Some, None};
ghost use Rattle.std.specs.Arc.{arc_value};
ghost use Rattle.be_model.specs.declared.paths.Step.{Step};
ghost use Rattle.be_shape.specs.Plain.{plain};
ghost use Rattle.be_shape.specs.Steps.{stands};
ghost use Rattle.be_plan.specs.Plan.{plan};
ghost use Rattle.be_plan.specs.Law.{NothingStands};

use be_shape::Tree;

/// A step that the plan names stands in the tree. Where it names none, none of those that it looks for stands anywhere.
pub fn plan_is_whole(t: &Tree)
    ensures stands { (step : Step) → plan (arc_value t.now.schema) t.now.alpha (plain t.now.root) ≡ Some step → stands (arc_value t.now.schema) step (plain t.now.root) ≡ true }
    ensures nothing { plan (arc_value t.now.schema) t.now.alpha (plain t.now.root) ≡ None → NothingStands (arc_value t.now.schema) t.now.alpha (plain t.now.root) }
{}
