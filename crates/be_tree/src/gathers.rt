//! The rows of a tree, all or those of one session.

ghost use Rattle.std.specs.Prelude.{◌≡◌, ◌++◌, ◌∷◌, ◌<◌, [], length, OnOk, OnErr};
ghost use Rattle.std.specs.Arc.{arc_value};
ghost use Rattle.be_base.specs.Lists.{BeginsWith};
ghost use Rattle.be_model.specs.Rows.{KeepsRoom};
ghost use Rattle.be_model.specs.ByIds.{PutsEach, rows_of};
ghost use Rattle.be_shape.specs.Plain.{plain, contents, parts_as, half_as, part_as, parts_of, rows_below, rows_in_parts, rows_in_half};
ghost use Rattle.be_tree.specs.Gathered.{is_wanted, wanted};

use be_base::{NoMemory, SessionNo};
use be_model::{Found, Row};
use be_shape::{Leaf, Node, Part, Tree};
use std::sync::Arc;

/// Appends the wanted rows, in any order, or none.
pub(crate) fn gather(
    t: &Tree,
    session: Option<SessionNo>,
    found: &mut Found,
) -> Result<(), NoMemory>
    ensures found { OnOk result (PutsEach (wanted session (rows_of (contents (plain t.now.root)))) found.old.rows found.new.rows) }
    ensures some { OnErr result (0 < length (wanted session (rows_of (contents (plain t.now.root))))) }
    ensures refused { OnErr result (found.new.rows ≡ found.old.rows) }
    ensures room { KeepsRoom found.old found.new }
{
    let before = found.len();
    match gather_node(&t.root, session, found) {
        Ok(()) => Ok(()),
        Err(NoMemory) => {
            found.cut(before);
            Err(NoMemory)
        }
    }
}

// Appends the wanted rows of a node and of all below it.
#[cycle(gathers)]
fn gather_node(n: &Node, session: Option<SessionNo>, found: &mut Found) -> Result<(), NoMemory>
    ensures put { OnOk result (found.new.rows ≡ found.old.rows ++ wanted session (rows_below (plain n.now))) }
    ensures refused { OnErr result (0 < length (wanted session (rows_below (plain n.now)))) }
    ensures front { BeginsWith found.new.rows found.old.rows }
    ensures room { KeepsRoom found.old found.new }
{
    gather_leaf(&n.leaf, session, found)?;
    gather_parts(n.parts.as_slice(), session, found)?;
    gather_half(&n.low, session, found)?;
    gather_half(&n.high, session, found)?;
    Ok(())
}

#[cycle(gathers)]
fn gather_parts(
    parts: &[Part],
    session: Option<SessionNo>,
    found: &mut Found,
) -> Result<(), NoMemory>
    ensures put { OnOk result (found.new.rows ≡ found.old.rows ++ wanted session (rows_in_parts (parts_as parts.now))) }
    ensures refused { OnErr result (0 < length (wanted session (rows_in_parts (parts_as parts.now)))) }
    ensures front { BeginsWith found.new.rows found.old.rows }
    ensures room { KeepsRoom found.old found.new }
{
    for part in parts {
        gather_part(part, session, found)?;
    }
    Ok(())
}

#[cycle(gathers)]
fn gather_part(part: &Part, session: Option<SessionNo>, found: &mut Found) -> Result<(), NoMemory>
    ensures put { OnOk result (found.new.rows ≡ found.old.rows ++ wanted session (rows_below (part_as part.now).1)) }
    ensures refused { OnErr result (0 < length (wanted session (rows_below (part_as part.now).1))) }
    ensures front { BeginsWith found.new.rows found.old.rows }
    ensures room { KeepsRoom found.old found.new }
{
    gather_node(&part.root, session, found)
}

#[cycle(gathers)]
fn gather_half(
    half: &Option<Box<Node>>,
    session: Option<SessionNo>,
    found: &mut Found,
) -> Result<(), NoMemory>
    ensures put { OnOk result (found.new.rows ≡ found.old.rows ++ wanted session (rows_in_half (half_as half.now))) }
    ensures refused { OnErr result (0 < length (wanted session (rows_in_half (half_as half.now)))) }
    ensures front { BeginsWith found.new.rows found.old.rows }
    ensures room { KeepsRoom found.old found.new }
{
    match half {
        Some(n) => gather_node(n, session, found),
        None => Ok(()),
    }
}

// Appends the wanted rows of a leaf.
fn gather_leaf(leaf: &Leaf, session: Option<SessionNo>, found: &mut Found) -> Result<(), NoMemory>
    ensures put { OnOk result (found.new.rows ≡ found.old.rows ++ wanted session leaf.now) }
    ensures refused { OnErr result (0 < length (wanted session leaf.now)) }
    ensures front { BeginsWith found.new.rows found.old.rows }
    ensures room { KeepsRoom found.old found.new }
{
    for place in 0..leaf.len() {
        gather_row(leaf.row(place), session, found)?;
    }
    Ok(())
}

// Appends the row where it is wanted.
fn gather_row(row: &Arc<Row>, session: Option<SessionNo>, found: &mut Found) -> Result<(), NoMemory>
    ensures put { OnOk result (found.new.rows ≡ found.old.rows ++ wanted session (arc_value row.now ∷ [])) }
    ensures refused { OnErr result (0 < length (wanted session (arc_value row.now ∷ []))) }
    ensures front { BeginsWith found.new.rows found.old.rows }
    ensures room { KeepsRoom found.old found.new }
{
    if is_wanted(row, session) {
        found.reserve(1)?;
        found.push_again(row)?;
    }
    Ok(())
}

fn is_wanted(row: &Row, session: Option<SessionNo>) -> bool
    ensures { result ≡ is_wanted session row.now }
{
    match session {
        Some(k) => row.session.0 == k.0,
        None => true,
    }
}
