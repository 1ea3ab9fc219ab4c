//! The kinds of desks. Which history a desk has, and which mailboxes its seats, is picked where these were made.

ghost use Rattle.std.specs.Prelude.{◌≡◌, ◌<◌, ◌≤◌, [], true, length, map, IfSome};
ghost use Rattle.std.specs.Arc.{arc_value};
ghost use Rattle.std.specs.List.{list_all, range_with_len};
ghost use Rattle.be_base.specs.declared.limits.TheConstants.{SEATS};
ghost use Rattle.be_model.specs.Lies.{row_lies};
ghost use Rattle.be_change.specs.Opening.{IsTable, opening_of};
ghost use Rattle.be_index.specs.Rows.{plain_index};
ghost use Rattle.be_mail.specs.Mailbox.{ForEachState};
ghost use Rattle.be_mail.specs.Passes.{new_passes};

use crate::{commands, texts};
use be_base::SEATS;
use be_desk::{make_desk, open_desk};
use be_index::{Index, ListIndex};
use be_load_files::read_table;
use be_mail::{BoxNames, Mail, MailPasses, Post, make_mail};
use be_model::{Row, Schema};
use be_published::{Naming, Opened, Page};
use be_tree::BeTree;
use std::alloc::Global;
use std::marker::Brand;
use std::sync::atomic::AtomicU64;
use std::sync::{Arc, Wait};
use worked_help::Watched;

// With which a desk may be opened.
const TABLE: &[u8] = b"ROW x all\nROW y price < 5\n";

// How many rows a table has that is one too small to be reshaped, and the number of the first insert behind it.
const MANY: u64 = 4095;

const BEHIND_MANY: u64 = 4096;

// How many seats a desk is to have, from where on its list is told, and what is asked there.
#[derive(Drop)]
struct Script {
    seats: u32,
    from: u64,
    commands: String,
    ghost few: { (0 < seats) × (seats ≤ SEATS) },
}

/// The answers at a desk of this kind, and the list that it left.
pub fn answers<R: Wait>(
    rt: &R,
    alloc: Global,
    schema: &Arc<Schema>,
    kind: &str,
    seats: u32,
    commands: &str,
) -> Option<String> {
    if seats == 0 || seats > SEATS {
        return None;
    }
    let commands = String::from_str(alloc, commands).ok()?;
    let from = match kind {
        "many" | "many_balky" => MANY,
        "far" => 3 * MANY,
        _ => 0,
    };
    let script = Script {
        seats,
        from,
        commands,
    };
    match kind {
        "list" => over_list(rt, alloc, schema, Vec::new(alloc), &script),
        "tree" => over_tree(rt, alloc, schema, Vec::new(alloc), &script),
        "balky" => over_balky(rt, alloc, schema, Vec::new(alloc), [1, 2], &script),
        "opened" => {
            let rows = read_table(alloc, schema, TABLE).ok()?;
            over_list(rt, alloc, schema, rows, &script)
        }
        "many" => over_tree(rt, alloc, schema, many(alloc, schema, &[7])?, &script),
        "far" => over_tree(
            rt,
            alloc,
            schema,
            many(alloc, schema, &[7, 250, 990])?,
            &script,
        ),
        "many_balky" => {
            let refuse = [BEHIND_MANY, BEHIND_MANY + 1];
            over_balky(
                rt,
                alloc,
                schema,
                many(alloc, schema, &[7])?,
                refuse,
                &script,
            )
        }
        _ => None,
    }
}

// Rows that stand in one leaf of a tree for each price.
fn many(alloc: Global, schema: &Schema, prices: &[u16]) -> Option<Vec<Row>>
    ensures table { IfSome result (λ rows. IsTable rows.items) }
    ensures lie { IfSome result (λ rows. list_all (row_lies schema.now) rows.items ≡ true) }
{
    let mut text = String::new(alloc);
    for price in prices {
        for number in 0..MANY {
            let line = format!(in alloc; "ROW m{price}_{number} price = {price}\n").ok()?;
            text.push_str(line.as_str()).ok()?;
        }
    }
    read_table(alloc, schema, text.as_bytes()).ok()
}

fn over_list<R: Wait>(
    rt: &R,
    alloc: Global,
    schema: &Arc<Schema>,
    rows: Vec<Row>,
    script: &Script,
) -> Option<String>
    requires table { IsTable rows.items }
    requires lie { list_all (row_lies (arc_value schema.now)) rows.items ≡ true }
{
    let (a, b) = (plain(alloc, schema)?, plain(alloc, schema)?);
    mailed::<ListIndex, Brand, R>(rt, alloc, schema, a, b, rows, script)
}

fn over_tree<R: Wait>(
    rt: &R,
    alloc: Global,
    schema: &Arc<Schema>,
    rows: Vec<Row>,
    script: &Script,
) -> Option<String>
    requires table { IsTable rows.items }
    requires lie { list_all (row_lies (arc_value schema.now)) rows.items ≡ true }
{
    let a = BeTree::make(alloc, Arc::try_clone(schema).ok()?);
    let b = BeTree::make(alloc, Arc::try_clone(schema).ok()?);
    mailed::<BeTree, Brand, R>(rt, alloc, schema, a, b, rows, script)
}

fn over_balky<R: Wait>(
    rt: &R,
    alloc: Global,
    schema: &Arc<Schema>,
    rows: Vec<Row>,
    refuse: [u64; 2],
    script: &Script,
) -> Option<String>
    requires table { IsTable rows.items }
    requires lie { list_all (row_lies (arc_value schema.now)) rows.items ≡ true }
{
    let (a, b) = (balky(alloc, schema, refuse)?, balky(alloc, schema, refuse)?);
    mailed::<Watched<ListIndex>, Brand, R>(rt, alloc, schema, a, b, rows, script)
}

fn plain(alloc: Global, schema: &Arc<Schema>) -> Option<ListIndex>
    ensures { IfSome result (λ index. index ≡ plain_index (arc_value schema.now) []) }
{
    Some(ListIndex::make(alloc, Arc::try_clone(schema).ok()?))
}

// It refuses these of its inserts.
fn balky(alloc: Global, schema: &Arc<Schema>, refuse: [u64; 2]) -> Option<Watched<ListIndex>>
    ensures { IfSome result (λ balky. balky.index ≡ plain_index (arc_value schema.now) []) }
{
    let finds = Arc::new(alloc, AtomicU64::new(0)).ok()?;
    let refuse = Vec::from_array(alloc, refuse).ok()?;
    Some(Watched::make(plain(alloc, schema)?, finds, refuse))
}

// Makes the mail of the seats. A call that picks has no `&str`.
fn mailed<I: Index, S: Post, R: Wait>(
    rt: &R,
    alloc: Global,
    schema: &Arc<Schema>,
    index_a: I,
    index_b: I,
    rows: Vec<Row>,
    script: &Script,
) -> Option<String>
    requires schema { (I.schema index_a ≡ arc_value schema.now) × (I.schema index_b ≡ arc_value schema.now) }
    requires bounded { (I.is_bounded index_a ≡ true) × (I.is_bounded index_b ≡ true) }
    requires empty { (I.rows index_a ≡ []) × (I.rows index_b ≡ []) }
    requires mail { (script.now.seats ≡ S.seats) × ForEachState S.found }
    requires table { IsTable rows.items }
    requires lie { list_all (row_lies (arc_value schema.now)) rows.items ≡ true }
{
    let (mail, passes) = make_mail::<S>(alloc, script.seats).ok()?;
    let opened = Opened::new();
    with_desk::<I, S, Brand, R>(
        rt, alloc, opened, &mail, schema, index_a, index_b, rows, passes, script,
    )
}

fn with_desk<I: Index, S: Post, J: Naming + BoxNames, R: Wait>(
    rt: &R,
    alloc: Global,
    opened: Opened,
    mail: &Mail<S>,
    schema: &Arc<Schema>,
    index_a: I,
    index_b: I,
    rows: Vec<Row>,
    passes: Vec<MailPasses>,
    script: &Script,
) -> Option<String>
    requires named { (opened.seen.book ≡ J.book) × (mail.now ≡ J.boxes) × (arc_value schema.now ≡ J.schema) × (J.opening ≡ opening_of rows.items) }
    requires schema { (I.schema index_a ≡ J.schema) × (I.schema index_b ≡ J.schema) }
    requires bounded { (I.is_bounded index_a ≡ true) × (I.is_bounded index_b ≡ true) }
    requires empty { (I.rows index_a ≡ []) × (I.rows index_b ≡ []) }
    requires seats { length mail.now ≡ script.now.seats }
    requires table { IsTable rows.items }
    requires lie { list_all (row_lies J.schema) rows.items ≡ true }
    requires passes { passes.items ≡ map (new_passes mail.now) (range_with_len 0 script.now.seats) }
{
    let seats = script.seats;
    let made = if rows.is_empty() {
        make_desk::<I, J, R>(rt, alloc, opened, index_a, index_b, seats, passes)
    } else {
        open_desk(rt, alloc, opened, index_a, index_b, seats, rows, passes)
    };
    let (mut desk, mut seats) = made.ok()?;
    let commands = script.commands.as_str();
    let answers = commands::answers(rt, alloc, schema, &mut desk, &mut seats, commands);
    let list = texts::log_text(alloc, &desk.into_log(rt), script.from);
    format!(in alloc; "{} |{}", answers?, list?).ok()
}
