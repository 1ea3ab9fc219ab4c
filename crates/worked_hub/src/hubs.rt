//! A hub over two trees, whose searches are counted, and whose workers serve files. Which history and which mailboxes it has is picked where these were made.

ghost use Rattle.std.specs.Prelude.{◌≡◌, ◌<◌, ◌≤◌, ℕ, [], length, map, slice_get, Some, All, IfSome};
ghost use Rattle.std.specs.Arc.{arc_value};
ghost use Rattle.std.specs.List.{range_with_len};
ghost use Rattle.be_base.specs.declared.limits.TheConstants.{SEATS};
ghost use Rattle.be_board.specs.Word.{own_in};
ghost use Rattle.be_desk.specs.Seats.{word_of};
ghost use Rattle.be_hub.specs.Links.{MayStart};
ghost use Rattle.be_mail.specs.Mailbox.{ForEachState};
ghost use Rattle.be_mail.specs.Passes.{new_passes};

use crate::closing::changes_of;
use crate::door::tends;
use crate::files::Script;
use crate::shown::shown;
use be_desk::Seat;
use be_hub::{FileRun, Hub, make_hub};
use be_io::NoGate;
use be_mail::{BoxNames, Mail, MailPasses, Post, make_mail};
use be_model::Schema;
use be_published::{Naming, Opened, Page, Sheet};
use be_tree::BeTree;
use std::alloc::Global;
use std::marker::Brand;
use std::sync::atomic::{AtomicU64, Ordering};
use std::sync::{Arc, Wait};
use std::thread::Threads;
use std::time::Clock;
use worked_help::Watched;

/// The transcripts of the files, parted by ` || `, how often the maintainer was called, how many changes the list has at its end,
/// and how many searches the trees were asked for; or, of a link of a door, how often its worker tended the desk.
pub fn served<R: Threads + Wait + Clock + Sync>(
    rt: &R,
    alloc: Global,
    schema: &Arc<Schema>,
    script: Script,
) -> Option<String> {
    mailed::<Brand, R>(rt, alloc, schema, script)
}

// Makes the mail of the seats.
fn mailed<S: Post + Send + Sync, R: Threads + Wait + Clock + Sync>(
    rt: &R,
    alloc: Global,
    schema: &Arc<Schema>,
    script: Script,
) -> Option<String>
    requires mail { (length script.files.items ≡ S.seats) × ForEachState S.found × (S.schema ≡ arc_value schema.now) }
{
    let (mail, passes) = make_mail::<S>(alloc, script.files.len() as u32).ok()?;
    let opened = Opened::new();
    begun::<S, Brand, R>(rt, alloc, opened, mail, schema, passes, script)
}

fn begun<
    S: Post + Send + Sync,
    J: Naming + BoxNames + Send + Sync,
    R: Threads + Wait + Clock + Sync,
>(
    rt: &R,
    alloc: Global,
    opened: Opened,
    mail: Mail<S>,
    schema: &Arc<Schema>,
    passes: Vec<MailPasses>,
    script: Script,
) -> Option<String>
    requires named { (opened.seen.book ≡ J.book) × (mail ≡ J.boxes) × (arc_value schema.now ≡ J.schema) × (S.schema ≡ J.schema) × (J.opening ≡ []) }
    requires seats { length mail ≡ length script.files.items }
    requires passes { passes.items ≡ map (new_passes mail) (range_with_len 0 (length script.files.items)) }
{
    let finds = Arc::new(alloc, AtomicU64::new(0)).ok()?;
    let (a, b) = (
        BeTree::make(alloc, again(schema)?),
        BeTree::make(alloc, again(schema)?),
    );
    let a = Watched::make(a, Arc::try_clone(&finds).ok()?, Vec::new(alloc));
    let b = Watched::make(b, Arc::try_clone(&finds).ok()?, Vec::new(alloc));
    let kept = again(schema)?;
    let seats = script.files.len() as u32;
    let made = make_hub::<Watched<BeTree>, J, S, R>(
        rt, alloc, kept, opened, a, b, seats, mail, passes,
    );
    let Ok((hub, seats)) = made else {
        return None;
    };
    if script.is_door {
        return tended(rt, alloc, hub, seats, script);
    }
    let Some(run) = served_by(rt, alloc, &hub, seats, script) else {
        hub.end(rt);
        return None;
    };
    let text = run_text(alloc, &run);
    let changes = changes_of(rt, alloc, hub, run)?;
    let text = text?;
    let searches = finds.load(Ordering::SeqCst);
    format!(in alloc; "{text} | {changes} | {searches}").ok()
}

// One more owner of the schema.
fn again(schema: &Arc<Schema>) -> Option<Arc<Schema>>
    ensures { IfSome result (λ s. arc_value s ≡ arc_value schema.now) }
{
    Arc::try_clone(schema).ok()
}

// How often the desk was tended, where the last file is given by a link of a door.
fn tended<
    T: Sheet<J> + Send + Sync,
    J: Naming + BoxNames + Send + Sync,
    S: Post + Send + Sync,
    R: Threads + Wait + Clock + Sync,
>(
    rt: &R,
    alloc: Global,
    hub: Hub<T, J, S>,
    seats: Vec<Seat<T, J>>,
    script: Script,
) -> Option<String>
    requires few { (0 < length J.boxes) × (length J.boxes ≤ SEATS) }
    requires count { (0 < length seats.items) × (length seats.items ≤ SEATS) }
    requires start { All MayStart seats.items }
{
    let mut files = script.files;
    let tends = match files.pop() {
        Some(file) => tends(rt, alloc, &hub, seats, file),
        None => None,
    };
    hub.end(rt);
    let tends = tends?;
    format!(in alloc; "{tends}").ok()
}

fn served_by<
    T: Sheet<J> + Send + Sync,
    J: Naming + BoxNames + Send + Sync,
    S: Post + Send + Sync,
    R: Threads + Wait + Clock + Sync,
>(
    rt: &R,
    alloc: Global,
    hub: &Hub<T, J, S>,
    seats: Vec<Seat<T, J>>,
    script: Script,
) -> Option<FileRun<T, J>>
    requires count { length seats.items ≡ length script.files.items }
    requires first { All (λ seat. own_in (word_of seat) ≡ []) seats.items }
    requires places { (i : ℕ) (seat : _) → slice_get seats.items i ≡ Some seat → seat.passes.seat ≡ i }
    ensures count { IfSome result (λ run. length run.ends.items ≡ length script.files.items) }
    ensures places { IfSome result (λ run. (i : ℕ) (end : _) → slice_get run.ends.items i ≡ Some end → end.seat.passes.seat ≡ i) }
{
    let Script {
        is_door: _,
        rounds,
        files,
    } = script;
    match hub.run_files(rt, alloc, seats, files, rounds, &NoGate) {
        Ok(run) => Some(run),
        Err(_) => None,
    }
}

fn run_text<T: Sheet<J>, J: Naming + BoxNames>(
    alloc: Global,
    run: &FileRun<T, J>,
) -> Option<String> {
    let mut out = String::new(alloc);
    let masked = run.ends.len() > 1;
    for end in run.ends.iter() {
        if !out.is_empty() {
            out.push_str(" || ").ok()?;
        }
        out.push_str(shown(alloc, end.transcript.as_slice(), masked)?.as_str())
            .ok()?;
    }
    let calls = run.broom.calls();
    format!(in alloc; "{out} | {calls}").ok()
}
