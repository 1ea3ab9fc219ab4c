//! The tree.

ghost use Rattle.std.specs.Prelude.{◌≡◌, ◌<◌, ◌≤◌, true, false, [], ◌∷◌, ◌++◌, length, option_map};
ghost use Rattle.std.specs.Arc.{arc_value};
ghost use Rattle.be_base.specs.declared.limits.TheConstants.{LEAF_ROWS, LOG_CHANGES};
ghost use Rattle.be_model.specs.Rows.{id_of};
ghost use Rattle.be_model.specs.ByIds.{put_by_id, has_id};
ghost use Rattle.be_model.specs.Lies.{row_lies};
ghost use Rattle.be_shape.specs.Plain.{plain, node, no_part, no_half, leaf_of, parts_under, with_row, contents};
ghost use Rattle.be_shape.specs.Paths.{walk, range_at};
ghost use Rattle.be_shape.specs.Shape.{is_placed, is_drawn, is_pruned, is_settled, rows_lie};

use crate::counts::rows_of_node;
use crate::nodes::Node;
use crate::walks::{walk, walk_range};
use be_base::AttrNo;
use be_model::{Path, Row, Schema};
use std::alloc::Global;
use std::sync::Arc;

/// Rows in a tree of nodes.
#[derive(Drop)]
pub struct Tree {
    pub schema: Arc<Schema>,
    /// How much a part's score counts the rows that would stay outside it, in hundredths.
    pub alpha: u8,
    pub root: Node,
    pub ghost alpha_is_share: { alpha ≤ 100 },
    pub ghost lie: { rows_lie (arc_value schema) (plain root) ≡ true },
    pub ghost placed: { is_placed (arc_value schema) (plain root) ≡ true },
    pub ghost drawn: { is_drawn (arc_value schema) (plain root) ≡ true },
    pub ghost pruned: { is_pruned (arc_value schema) (plain root) ≡ true },
    pub ghost settled: { is_settled (arc_value schema) (plain root) ≡ true },
}

impl Tree {
    /// A tree without rows. It takes no memory.
    pub fn make(alloc: Global, schema: Arc<Schema>, alpha: u8) -> Tree
        requires { alpha ≤ 100 }
        ensures schema { result.schema ≡ schema }
        ensures alpha { result.alpha ≡ alpha }
        ensures root { plain result.root ≡ node [] no_part no_half no_half }
        ensures contents { contents (plain result.root) ≡ [] }
        ensures no_part { parts_under (plain result.root) ≡ no_part }
        ensures leaf { leaf_of (plain result.root) ≡ [] }
    {
        Tree {
            schema,
            alpha,
            root: Node::make(alloc),
        }
    }

    /// Takes out all rows. It takes no memory.
    pub fn clear(&mut self)
        ensures root { plain self.new.root ≡ node [] no_part no_half no_half }
        ensures contents { contents (plain self.new.root) ≡ [] }
        ensures schema { self.new.schema ≡ self.old.schema }
        ensures alpha { self.new.alpha ≡ self.old.alpha }
    {
        self.root = self.root.bare();
    }

    pub fn root(&self) -> &Node
        ensures { result.now ≡ self.now.root }
    {
        &self.root
    }

    /// The node at the end of a path. There is none where the path isn't there.
    pub fn at(&self, path: &Path) -> Option<&Node>
        ensures { option_map (λ n. plain n.now) result ≡ walk path.now (plain self.now.root) }
    {
        walk(&self.root, path.hops())
    }

    /// The attribute and the ends of the range of the node at the end of a path.
    pub fn range_at(&self, path: &Path) -> Option<(AttrNo, i64, i64)>
        ensures { result ≡ range_at (arc_value self.now.schema) path.now (plain self.now.root) }
    {
        let (a, (lo, hi)) = walk_range(&self.root, &self.schema, path.hops())?;
        Some((a, lo, hi))
    }

    /// How many rows there are.
    #[tactic(auto, using(crate::proofs::RowCounts::few_rows, crate::proofs::RowCounts::count_of))]
    pub fn len(&self) -> u64
        ensures { result ≡ length (contents (plain self.now.root)) }
    {
        rows_of_node(&self.root)
    }

    /// Puts a row into the root's leaf. It takes no memory.
    pub fn put_root(&mut self, row: Arc<Row>)
        requires no_part { parts_under (plain self.old.root) ≡ no_part }
        requires few { length (leaf_of (plain self.old.root)) < LEAF_ROWS }
        requires new { has_id (id_of (arc_value row)) (contents (plain self.old.root)) ≡ false }
        requires low { id_of (arc_value row) < LOG_CHANGES }
        requires lies { row_lies (arc_value self.old.schema) (arc_value row) ≡ true }
        ensures contents { contents (plain self.new.root) ≡ put_by_id (arc_value row) (contents (plain self.old.root)) }
        ensures root { plain self.new.root ≡ with_row (arc_value row) (plain self.old.root) }
        ensures no_part { parts_under (plain self.new.root) ≡ no_part }
        ensures leaf { leaf_of (plain self.new.root) ≡ leaf_of (plain self.old.root) ++ arc_value row ∷ [] }
        ensures schema { self.new.schema ≡ self.old.schema }
        ensures alpha { self.new.alpha ≡ self.old.alpha }
    {
        let _ = row.conj.preds();
        self.root.put(row);
    }
}
