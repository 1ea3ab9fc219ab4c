//! The tree as an index.

ghost use Rattle.std.specs.Prelude.{◌≡◌, []};
ghost use Rattle.std.specs.Arc.{arc_value};
ghost use Rattle.be_shape.specs.Plain.{plain, contents};
ghost use Rattle.be_tree.specs.declared.tree.TheConstants.{ALPHA};

use crate::gathers::gather;
use be_adjust::apply;
use be_base::{NoMemory, SessionNo};
use be_index::{Hits, Index};
use be_insert::place;
use be_match::{cost_of, find_in};
use be_model::{Cost, Event, Found, Path, Row, Schema, Step, StepDone};
use be_plan::{look_on, plan, plan_is_whole};
use be_remove::take;
use be_shape::Tree;
use std::alloc::Global;
use std::sync::Arc;

/// How much a part's score counts the rows that would stay outside it, in hundredths.
pub const ALPHA: u8 = 50;

/// Rows in a tree, and nothing beside it.
#[derive(Drop)]
pub struct BeTree {
    pub tree: Tree,
    pub ghost alpha: { tree.alpha ≡ ALPHA },
}

impl BeTree {
    /// No rows. It takes no memory.
    pub fn make(alloc: Global, schema: Arc<Schema>) -> BeTree
        ensures schema { arc_value result.tree.schema ≡ arc_value schema }
        ensures rows { contents (plain result.tree.root) ≡ [] }
    {
        BeTree {
            tree: Tree::make(alloc, schema, ALPHA),
        }
    }
}

impl Index for BeTree {
    ghost use Rattle.std.specs.Prelude.{◌≡◌, true};
    ghost use Rattle.be_model.specs.Costs.{cost};
    ghost use Rattle.be_plan.specs.Plan.{plan};
    ghost use Rattle.be_shape.specs.Search.{visits, tested};
    ghost use Rattle.be_shape.specs.Steps.{stands, IsMade};

    ghost schema = { λ t. arc_value t.tree.schema };

    ghost rows = { λ t. contents (plain t.tree.root) };

    ghost is_bounded = { λ t. true };

    ghost cost_of = { λ t e. cost (visits (arc_value t.tree.schema) e (plain t.tree.root)) (tested (arc_value t.tree.schema) e (plain t.tree.root)) };

    ghost can_step = { λ t step. stands (arc_value t.tree.schema) step (plain t.tree.root) };

    ghost is_made = { λ step t u. IsMade (arc_value t.tree.schema) step (plain t.tree.root) (plain u.tree.root) };

    ghost is_unchanged = { λ t u. plain u.tree.root ≡ plain t.tree.root };

    ghost planned = { λ t. plan (arc_value t.tree.schema) ALPHA (plain t.tree.root) };

    fn lies(&self, row: &Row) -> bool {
        row.lies(&self.tree.schema)
    }

    fn insert(&mut self, row: Arc<Row>) -> Result<(), (Arc<Row>, NoMemory)> {
        place(&mut self.tree, row)
    }

    fn find<C: Hits>(&self, event: &Event, found: &mut C) -> Result<Cost, NoMemory> {
        find_in(&self.tree, event, found)
    }

    fn cost(&self, event: &Event) -> Cost {
        cost_of(&self.tree, event)
    }

    fn len(&self) -> u64 {
        self.tree.len()
    }

    fn rows_of(&self, session: SessionNo, found: &mut Found) -> Result<(), NoMemory> {
        gather(&self.tree, Some(session), found)
    }

    fn all(&self, found: &mut Found) -> Result<(), NoMemory> {
        gather(&self.tree, None, found)
    }

    fn remove(&mut self, row: &Row) -> bool {
        take(&mut self.tree, row).is_some()
    }

    fn clear(&mut self) {
        self.tree.clear();
    }

    fn step(&mut self, step: &Step) -> StepDone {
        apply(&mut self.tree, step)
    }

    fn plan(&self) -> Result<Option<Step>, NoMemory> {
        // What is planned stands.
        plan_is_whole(&self.tree);
        plan(&self.tree)
    }

    fn look_on(&self, from: &mut Option<Path>, most: u64) -> Result<Option<Step>, NoMemory> {
        let look = look_on(&self.tree, from.as_ref(), most)?;
        *from = look.next;
        Ok(look.step)
    }
}
