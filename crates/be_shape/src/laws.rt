//! Laws of what a tree contains, and of its paths. Each function's contract is a law, which its proof shows; to call one does nothing.

ghost use Rattle.std.specs.Prelude.{IsPermutation};
ghost use Rattle.be_model.specs.ByIds.{Rising, rows_of};
ghost use Rattle.be_shape.specs.Plain.{plain, rows_below, contents};
ghost use Rattle.std.specs.Arc.{arc_value};
ghost use Rattle.be_shape.specs.Depth.{StepsAreBounded, DepthIsBounded};
ghost use Rattle.be_shape.specs.Contents.{RowsAreFound, NewIdsAreNowhere};
ghost use Rattle.be_shape.specs.NodeList.{HoldsAtNodes, PathsLead, NodesAreListed};

use crate::trees::Tree;
use be_base::PREDICATES;

/// No path of a tree has more nodes: the root, and for each of 32 predicates the root of a part and a node for each of 32 halvings.
pub const MAX_TREE_DEPTH: usize = 1057;

const _: () = prove!(MAX_TREE_DEPTH == 1 + PREDICATES * 33);

/// Ids rise, so that each stands for one row.
pub fn ids_rise(t: &Tree)
    ensures { Rising (contents (plain t.now.root)) }
{}

/// The contents are the rows of all leaves.
pub fn rows_are_of_leaves(t: &Tree)
    ensures { IsPermutation (rows_below (plain t.now.root)) (rows_of (contents (plain t.now.root))) }
{}

/// The row of an id is the row of a leaf that has this id.
pub fn rows_are_found(t: &Tree)
    ensures { RowsAreFound (plain t.now.root) }
{}

/// An id is new exactly where no row has it.
pub fn new_ids_are_nowhere(t: &Tree)
    ensures { NewIdsAreNowhere (plain t.now.root) }
{}

/// What holds everywhere in the tree holds of each node in its list of nodes, and the other way round.
pub fn nodes_are_everywhere(t: &Tree)
    ensures { HoldsAtNodes (arc_value t.now.schema) (plain t.now.root) }
{}

/// The path of each node in the list leads to it, and what is known along the path is known of the node.
pub fn paths_lead(t: &Tree)
    ensures { PathsLead (arc_value t.now.schema) (plain t.now.root) }
{}

/// Each node that a path leads to is in the list, with its path and what is known along it.
pub fn nodes_are_listed(t: &Tree)
    ensures { NodesAreListed (arc_value t.now.schema) (plain t.now.root) }
{}

/// A path has no more steps than each row below its end allows. No path has more than `MAX_TREE_DEPTH` nodes, since a row has at
/// most 32 predicates, and a domain is halved at most 32 times.
pub fn depth_is_bounded(t: &Tree)
    ensures steps { StepsAreBounded (arc_value t.now.schema) (plain t.now.root) }
    ensures depth { DepthIsBounded (plain t.now.root) }
{
    // The count shows the form of the schema.
    let _ = t.schema.count();
}
