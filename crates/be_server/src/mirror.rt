//! The command `mirror`: the links of a door, each as a session of reads, over the list that the input gives meanwhile.

ghost use Rattle.std.specs.Prelude.{◌≡◌, ◌≢◌, ◌≤◌, ◌<◌, ◌⊎◌, [], Some, length, All, IfOk, IfErr, Err};
ghost use Rattle.std.specs.Arc.{arc_value};
ghost use Rattle.std.specs.Option.{is_some};
ghost use Rattle.be_base.specs.declared.limits.TheConstants.{LINKS, SEATS};
ghost use Rattle.be_follow.specs.Followers.{Follows};
ghost use Rattle.be_hub.specs.Serving.{served_door};
ghost use Rattle.be_io.specs.Outside.{link_state, sink_state, source_state};
ghost use Rattle.be_mirror.specs.Feeders.{new_feeder};
ghost use Rattle.be_mirror.specs.Serving.{IsAhead, Mirrors};
ghost use Rattle.be_protocol.specs.Conversation.{TakesWithin};
ghost use Rattle.be_published.specs.States.{new_glass};
ghost use Rattle.be_published.specs.declared.beyond.Beyond.{Beyond};
ghost use Rattle.be_server.specs.Mirror.{Fails, Reflects, RunsMirror, mirror_text};
ghost use Rattle.be_server.specs.Outside.{link, objects, passage};
ghost use Rattle.be_server.specs.Output.{WroteOut};
ghost use Rattle.be_server.specs.Promise.{Promise};
ghost use Rattle.be_command_line.specs.Words.{mirror};

use crate::files::load_schema;
use crate::output::write_out;
use crate::status::Status;
use be_base::{NoMemory, SOURCE_BYTES};
use be_door::Door;
use be_index::ListIndex;
use be_io::{Gate, Link, Shelf, Sink, SinkFault, Source};
use be_mirror::{FeedEnd, Feeder, MirrorFault, Mirrored, run_mirror};
use be_model::Schema;
use be_published::{Glass, Naming, Opened, Page, Press, make_pair};
use be_tree::BeTree;
use itoa::Buffer;
use std::alloc::Global;
use std::marker::Brand;
use std::sync::{Arc, Wait};
use std::thread::Threads;
use std::time::Clock;

/// Serves so many links of a door by so many workers while it takes the input for a feed, and writes how many links there were and
/// the length of the list.
pub fn mirror<R, F, S, K, L, D, G>(
    rt: &R,
    alloc: Global,
    schema: &str,
    port: u16,
    seats: u32,
    links: u64,
    shelf: &mut F,
    input: &mut S,
    out: &mut K,
    door: &mut D,
    gate: &G,
) -> Status
where
    R: Threads + Wait + Clock + Sync,
    F: Shelf,
    S: Source,
    K: Sink,
    L: Link + Drop + Send,
    D: Door<L> + Sync,
    G: Gate + Sync,
    requires some { 0 < seats }
    requires few { seats ≤ SEATS }
    requires links { links ≤ LINKS }
    ensures { Promise (passage F.Shelf S.Source K.Sink D.state (link_state L.Source L.Sink)
        (objects shelf.old input.old out.old door.old) (objects shelf.new input.new out.new door.new))
        (Some (mirror schema.now port seats links)) result }
{
    match load_schema(alloc, shelf, schema) {
        Ok(schema) => run_links(
            rt, alloc, schema, port, seats, links, input, out, door, gate,
        ),
        Err(status) => status,
    }
}

// Serves the links in this schema, and writes what came of it.
fn run_links<
    R: Threads + Wait + Clock + Sync,
    S: Source,
    K: Sink,
    L: Link + Drop + Send,
    D: Door<L> + Sync,
    G: Gate + Sync,
>(
    rt: &R,
    alloc: Global,
    schema: Schema,
    port: u16,
    seats: u32,
    links: u64,
    input: &mut S,
    out: &mut K,
    door: &mut D,
    gate: &G,
) -> Status
    requires some { 0 < seats }
    requires few { seats ≤ SEATS }
    requires links { links ≤ LINKS }
    ensures runs { RunsMirror (link_state L.Source L.Sink) (input.new ≡ input.old) (out.new ≡ out.old) schema port seats links
        (link (source_state S.Source input.old) (sink_state K.Sink out.old)) (link (source_state S.Source input.new) (sink_state K.Sink out.new))
        (D.state door.old) (D.state door.new) result }
    ensures within { TakesWithin (S.taken input.old) (S.taken input.new) }
{
    let Ok(schema) = Arc::new(alloc, schema) else {
        return Status::NoMemory;
    };
    let opened = Opened::new();
    let run = run_pair::<Brand, R, S, L, D, G>(
        rt, alloc, opened, schema, port, seats, links, input, door, gate,
    );
    match run {
        Ok(mirrored) => write_mirrored(alloc, mirrored, out),
        Err(fault) => Status::from(fault),
    }
}

// Makes the two sides of the mirror, and serves. Which history it has is picked where this was opened.
fn run_pair<
    J: Naming + Send + Sync,
    R: Threads + Wait + Clock + Sync,
    S: Source,
    L: Link + Drop + Send,
    D: Door<L> + Sync,
    G: Gate + Sync,
>(
    rt: &R,
    alloc: Global,
    opened: Opened,
    schema: Arc<Schema>,
    port: u16,
    seats: u32,
    links: u64,
    input: &mut S,
    door: &mut D,
    gate: &G,
) -> Result<Mirrored, MirrorFault>
    requires named { (opened.seen.book ≡ J.book) × (arc_value schema ≡ J.schema) }
    requires some { 0 < seats }
    requires few { seats ≤ SEATS }
    requires links { links ≤ LINKS }
    ensures mirrored { IfOk result (λ m. Mirrors (link_state L.Source L.Sink) J.schema (source_state S.Source input.old) (source_state S.Source input.new)
        m.feed m.len links (is_some m.shade) m.sums (D.state door.new).keeps (D.state door.new).kept) }
    ensures door { IfOk result (λ m. D.state door.new ≡ served_door (D.state door.old) port links seats m.sums (D.state door.new).kept) }
    ensures fault { IfErr result (λ fault. Fails (input.new ≡ input.old) (D.state door.old) (D.state door.new) port links seats fault) }
    ensures ahead { (beyond : Beyond) → result ≡ Err (MirrorFault.Ahead beyond) → IsAhead J.schema (source_state S.Source input.old) (source_state S.Source input.new) beyond }
    ensures within { TakesWithin (S.taken input.old) (S.taken input.new) }
{
    let Ok((feeder, glasses)) = sides_of::<J, R>(rt, alloc, opened, &schema, seats) else {
        return Err(MirrorFault::NoMemory);
    };
    run_mirror(
        rt, alloc, schema, feeder, glasses, input, door, port, links, gate,
    )
}

// The side that is fed, over two trees, and as many readers as there are seats.
fn sides_of<J: Naming + Send + Sync, R: Wait>(
    rt: &R,
    alloc: Global,
    opened: Opened,
    schema: &Arc<Schema>,
    seats: u32,
) -> Result<
    (
        Feeder<Press<Page<BeTree, J>, J>>,
        Vec<Glass<Page<BeTree, J>, J>>,
    ),
    NoMemory,
>
    requires named { (opened.seen.book ≡ J.book) × (arc_value schema.now ≡ J.schema) }
    requires some { 0 < seats }
    ensures feeder { IfOk result (λ sides. (sides.0 ≡ new_feeder J.schema) × Follows [] sides.0.took) }
    ensures glasses { IfOk result (λ sides. All (λ glass. glass ≡ new_glass []) sides.1.items) }
    ensures count { IfOk result (λ sides. length sides.1.items ≡ seats) }
{
    let a = Arc::try_clone(schema)?;
    let b = Arc::try_clone(schema)?;
    let all = Arc::try_clone(schema)?;
    let kept = Arc::try_clone(schema)?;
    let (press, glasses) = make_pair(
        rt,
        alloc,
        opened,
        BeTree::make(alloc, a),
        BeTree::make(alloc, b),
        seats,
    )?;
    let index = ListIndex::make(alloc, all);
    Ok((Feeder::make(alloc, kept, index, press), glasses))
}

// Writes how many links were served, and the length of the list.
fn write_mirrored<K: Sink>(alloc: Global, mirrored: Mirrored, out: &mut K) -> Status
    requires { mirrored.feed ≢ FeedEnd.NoMemory }
    ensures { ((out.new ≡ out.old) × (result ≡ Status.NoMemory))
        ⊎ Reflects mirrored.feed mirrored.sums (is_some mirrored.shade) (mirror_text mirrored.sums.given mirrored.len) (sink_state K.Sink out.old) (sink_state K.Sink out.new) result }
{
    let Ok(text) = text_of_mirrored(alloc, &mirrored) else {
        return Status::NoMemory;
    };
    let written = write_out(out, text.as_slice());
    status_mirrored(mirrored, written)
}

// The first that applies of what can be wrong once the links were served.
fn status_mirrored(mirrored: Mirrored, written: Result<(), SinkFault>) -> Status
    requires { mirrored.feed ≢ FeedEnd.NoMemory }
    ensures { (text : _) (before : _) (after : _) → WroteOut before after text written
        → Reflects mirrored.feed mirrored.sums (is_some mirrored.shade) text before after result }
{
    let Mirrored {
        feed,
        len: _,
        sums,
        shade,
    } = mirrored;
    if written == Err(SinkFault::NoMemory) {
        return Status::NoMemory;
    }
    if let FeedEnd::Bad { line, kind } = feed {
        return Status::FeedBad { line, kind };
    }
    if feed == FeedEnd::ReadFault || sums.read_faults > 0 {
        return Status::ReadFault;
    }
    if sums.write_faults > 0 || written.is_err() {
        return Status::WriteFault;
    }
    if feed == FeedEnd::Spent || sums.most >= SOURCE_BYTES {
        return Status::Spent;
    }
    match shade {
        Some(shade) => Status::Shut(shade),
        None => Status::Done,
    }
}

// The line of the links.
fn text_of_mirrored(alloc: Global, mirrored: &Mirrored) -> Result<Vec<u8>, NoMemory>
    ensures { IfOk result (λ text. text.items ≡ mirror_text mirrored.now.sums.given mirrored.now.len) }
{
    let mut text = Vec::new(alloc);
    text.extend_from_slice(b"MIRRORED ")?;
    text.extend_from_slice(Buffer::new().format(mirrored.sums.given).as_bytes())?;
    text.extend_from_slice(b" ")?;
    text.extend_from_slice(Buffer::new().format(mirrored.len).as_bytes())?;
    text.extend_from_slice(b"\n")?;
    Ok(text)
}
