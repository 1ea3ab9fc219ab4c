//! The search of a tree.

ghost use Rattle.std.specs.Prelude.{◌≡◌, ◌<◌, true, length, OnOk, OnErr, IfOk};
ghost use Rattle.std.specs.Arc.{arc_value};
ghost use Rattle.be_model.specs.Lies.{event_lies};
ghost use Rattle.be_model.specs.ByIds.{rows_of};
ghost use Rattle.be_model.specs.Matching.{satisfied};
ghost use Rattle.be_model.specs.Bounds.{IsWithinBound};
ghost use Rattle.be_shape.specs.Plain.{plain, contents};
ghost use Rattle.be_shape.specs.Search.{visits, tested};
ghost use Rattle.be_index.specs.Puts.{KeepsPlaces, PutsHits};

use crate::counts::{leaf_cost, node_cost};
use crate::searches::search_node;
use be_base::NoMemory;
use be_index::Hits;
use be_model::{Cost, Event, Schema};
use be_shape::{NOTHING_SEEN, Sight, Tree, fill_seen};

/// Puts the rows that the event satisfies, each once. It takes memory for what is put alone.
pub fn find_in<C: Hits>(t: &Tree, e: &Event, found: &mut C) -> Result<Cost, NoMemory>
    requires { event_lies (arc_value t.now.schema) e.now ≡ true }
    ensures found { OnOk result (PutsHits C.item_of e.now (contents (plain t.now.root)) (C.held found.old) (C.held found.new)) }
    ensures visits { IfOk result (λ cost. cost.visits ≡ visits (arc_value t.now.schema) e.now (plain t.now.root)) }
    ensures tested { IfOk result (λ cost. cost.tested ≡ tested (arc_value t.now.schema) e.now (plain t.now.root)) }
    ensures bound { IfOk result (λ cost. IsWithinBound (arc_value t.now.schema) e.now (rows_of (contents (plain t.now.root))) cost) }
    // It is refused only where it finds more rows than can surely be put.
    ensures some { OnErr result ((C.held found.old).sure < length (satisfied e.now (rows_of (contents (plain t.now.root))))) }
    ensures refused { OnErr result ((C.held found.new).items ≡ (C.held found.old).items) }
    // Each found row takes up no more than its own place.
    ensures kept { KeepsPlaces (C.held found.old) (C.held found.new) }
{
    // Called so that the proof knows how many attributes there are, and the form of the event.
    let _ = t.schema.count();
    let _ = e.items();
    let before = found.count();
    let s: &Schema = &t.schema;
    let mut seen = NOTHING_SEEN;
    fill_seen(&mut seen, e);
    let sight = Sight::of(e, &seen);
    // The leaf of a node is counted before the node is searched.
    let mut cost = leaf_cost(&t.root.leaf);
    match search_node(&t.root, s, &sight, None, found, &mut cost) {
        Ok(()) => Ok(cost),
        Err(NoMemory) => {
            found.keep(before);
            Err(NoMemory)
        }
    }
}

/// What a search for the event costs. It takes no memory.
pub fn cost_of(t: &Tree, e: &Event) -> Cost
    requires { event_lies (arc_value t.now.schema) e.now ≡ true }
    ensures visits { result.visits ≡ visits (arc_value t.now.schema) e.now (plain t.now.root) }
    ensures tested { result.tested ≡ tested (arc_value t.now.schema) e.now (plain t.now.root) }
    ensures bound { IsWithinBound (arc_value t.now.schema) e.now (rows_of (contents (plain t.now.root))) result }
{
    // Called so that the proof knows how many attributes there are, and the form of the event.
    let _ = t.schema.count();
    let _ = e.items();
    node_cost(&t.root, &t.schema, e, None)
}
