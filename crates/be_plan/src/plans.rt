//! The plan.

ghost use Rattle.std.specs.Prelude.{◌≡◌, IfOk};
ghost use Rattle.std.specs.Arc.{arc_value};
ghost use Rattle.be_shape.specs.Plain.{plain};
ghost use Rattle.be_plan.specs.Plan.{plan};

use crate::bests::Best;
use crate::seeks::seek;
use be_base::NoMemory;
use be_model::{Path, Step};
use be_shape::{Spot, Tree};

/// The step that comes next, or none. It takes memory for the path to a node, the attributes used on it, and the steps that it
/// finds.
pub fn plan(t: &Tree) -> Result<Option<Step>, NoMemory>
    ensures { IfOk result (λ p. p ≡ plan (arc_value t.now.schema) t.now.alpha (plain t.now.root)) }
{
    let alloc = *t.root.parts.allocator();
    let mut best = Best::none();
    seek(
        t,
        &t.root,
        &mut Spot::root(alloc),
        &mut Path::make(alloc),
        &mut best,
    )?;
    Ok(best.step)
}
