//! How a hub is made, with its seats.

ghost use Rattle.std.specs.Prelude.{◌≡◌, ◌<◌, ◌≤◌, [], true, length, map, IfOk};
ghost use Rattle.std.specs.Arc.{arc_value};
ghost use Rattle.std.specs.List.{list_all, range_with_len};
ghost use Rattle.be_base.specs.declared.limits.TheConstants.{SEATS};
ghost use Rattle.be_change.specs.Opening.{IsTable, opening_of};
ghost use Rattle.be_desk.specs.Seats.{first_seat};
ghost use Rattle.be_mail.specs.Passes.{new_passes};
ghost use Rattle.be_model.specs.Lies.{row_lies};

use crate::hub::Hub;
use be_base::NoMemory;
use be_desk::{Seat, open_desk};
use be_index::Index;
use be_mail::{BoxNames, Mail, MailPasses, Post};
use be_model::{Row, Schema};
use be_published::{Naming, Opened, Page};
use std::alloc::Global;
use std::sync::{Arc, Wait};

/// A hub over two empty copies and an empty mail, and its seats. It may wait, where it gives up what it has made.
pub fn make_hub<I: Index, J: Naming + BoxNames, S: Post, R: Wait>(
    rt: &R,
    alloc: Global,
    schema: Arc<Schema>,
    opened: Opened,
    index_a: I,
    index_b: I,
    seats: u32,
    mail: Mail<S>,
    passes: Vec<MailPasses>,
) -> Result<(Hub<Page<I, J>, J, S>, Vec<Seat<Page<I, J>, J>>), NoMemory>
    requires named { (opened.seen.book ≡ J.book) × (J.opening ≡ []) }
    requires schema { (arc_value schema ≡ J.schema) × (S.schema ≡ J.schema) }
    requires indexes { (I.schema index_a ≡ J.schema) × (I.schema index_b ≡ J.schema) }
    requires bounded { (I.is_bounded index_a ≡ true) × (I.is_bounded index_b ≡ true) }
    requires empty { (I.rows index_a ≡ []) × (I.rows index_b ≡ []) }
    requires seats { (0 < seats) × (seats ≤ SEATS) × (length J.boxes ≡ seats) }
    requires mail { mail ≡ J.boxes }
    requires passes { passes.items ≡ map (new_passes J.boxes) (range_with_len 0 seats) }
    ensures seats { IfOk result (λ r. r.1.items ≡ map (first_seat [] J.boxes) (range_with_len 0 seats)) }
{
    open_hub(
        rt,
        alloc,
        schema,
        opened,
        index_a,
        index_b,
        seats,
        Vec::new(alloc),
        mail,
        passes,
    )
}

/// A hub whose list begins with these rows, and is that, and its seats, which know it.
pub fn open_hub<I: Index, J: Naming + BoxNames, S: Post, R: Wait>(
    rt: &R,
    alloc: Global,
    schema: Arc<Schema>,
    opened: Opened,
    index_a: I,
    index_b: I,
    seats: u32,
    rows: Vec<Row>,
    mail: Mail<S>,
    passes: Vec<MailPasses>,
) -> Result<(Hub<Page<I, J>, J, S>, Vec<Seat<Page<I, J>, J>>), NoMemory>
    requires named { (opened.seen.book ≡ J.book) × (J.opening ≡ opening_of rows.items) }
    requires schema { (arc_value schema ≡ J.schema) × (S.schema ≡ J.schema) }
    requires indexes { (I.schema index_a ≡ J.schema) × (I.schema index_b ≡ J.schema) }
    requires bounded { (I.is_bounded index_a ≡ true) × (I.is_bounded index_b ≡ true) }
    requires empty { (I.rows index_a ≡ []) × (I.rows index_b ≡ []) }
    requires seats { (0 < seats) × (seats ≤ SEATS) × (length J.boxes ≡ seats) }
    requires table { IsTable rows.items }
    requires lie { list_all (row_lies J.schema) rows.items ≡ true }
    requires mail { mail ≡ J.boxes }
    requires passes { passes.items ≡ map (new_passes J.boxes) (range_with_len 0 seats) }
    ensures seats { IfOk result (λ r. r.1.items ≡ map (first_seat (opening_of rows.items) J.boxes) (range_with_len 0 seats)) }
{
    let (desk, all) = open_desk(rt, alloc, opened, index_a, index_b, seats, rows, passes)?;
    Ok((Hub::over(schema, desk, mail), all))
}
