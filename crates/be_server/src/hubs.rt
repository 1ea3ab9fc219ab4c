//! The hub of a command: over two trees, with a list that begins with the rows of a file.

ghost use Rattle.std.specs.Prelude.{◌≡◌, ◌<◌, ◌≤◌, true, length, map, IfOk};
ghost use Rattle.std.specs.Arc.{arc_value};
ghost use Rattle.std.specs.List.{list_all, range_with_len};
ghost use Rattle.be_base.specs.declared.limits.TheConstants.{SEATS};
ghost use Rattle.be_change.specs.Opening.{IsTable, opening_of};
ghost use Rattle.be_desk.specs.Seats.{first_seat};
ghost use Rattle.be_mail.specs.Passes.{new_passes};
ghost use Rattle.be_model.specs.Lies.{row_lies};

use be_base::NoMemory;
use be_desk::Seat;
use be_hub::{Hub, open_hub};
use be_mail::{BoxNames, Mail, MailPasses, Post};
use be_model::{Row, Schema};
use be_published::{Naming, Opened, Page};
use be_tree::BeTree;
use std::alloc::Global;
use std::sync::{Arc, Wait};

/// A hub over two trees, and its seats. It may wait, where it gives up what it has made.
pub fn hub_over_trees<S: Post, J: Naming + BoxNames, R: Wait>(
    rt: &R,
    alloc: Global,
    opened: Opened,
    schema: &Arc<Schema>,
    seats: u32,
    rows: Vec<Row>,
    mail: Mail<S>,
    passes: Vec<MailPasses>,
) -> Result<(Hub<Page<BeTree, J>, J, S>, Vec<Seat<Page<BeTree, J>, J>>), NoMemory>
    requires named { (opened.seen.book ≡ J.book) × (J.opening ≡ opening_of rows.items) }
    requires schema { (arc_value schema.now ≡ J.schema) × (S.schema ≡ J.schema) }
    requires seats { (0 < seats) × (seats ≤ SEATS) × (length J.boxes ≡ seats) }
    requires table { IsTable rows.items }
    requires lies { list_all (row_lies J.schema) rows.items ≡ true }
    requires mail { mail ≡ J.boxes }
    requires passes { passes.items ≡ map (new_passes J.boxes) (range_with_len 0 seats) }
    ensures seats { IfOk result (λ r. r.1.items ≡ map (first_seat (opening_of rows.items) J.boxes) (range_with_len 0 seats)) }
{
    let a = Arc::try_clone(schema)?;
    let b = Arc::try_clone(schema)?;
    let kept = Arc::try_clone(schema)?;
    open_hub(
        rt,
        alloc,
        kept,
        opened,
        BeTree::make(alloc, a),
        BeTree::make(alloc, b),
        seats,
        rows,
        mail,
        passes,
    )
}
