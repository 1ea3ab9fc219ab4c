//! The links of a door served beside a feed, in one call.

ghost use Rattle.std.specs.Prelude.{◌≡◌, ◌≢◌, ℕ, ◌≤◌, ◌<◌, [], length, All, IfOk, IfErr, IfSome, OnOk, Err};
ghost use Rattle.std.specs.Arc.{arc_value};
ghost use Rattle.std.specs.Option.{is_some};
ghost use Rattle.be_base.specs.declared.limits.TheConstants.{LINKS, SEATS};
ghost use Rattle.be_base.specs.Lists.{BeginsWith};
ghost use Rattle.be_door.specs.Door.{DoorState, IsNew};
ghost use Rattle.be_follow.specs.Followers.{Follows};
ghost use Rattle.be_hub.specs.Serving.{served_door};
ghost use Rattle.be_io.specs.Outside.{link_state, source_state};
ghost use Rattle.be_protocol.specs.Conversation.{TakesWithin};
ghost use Rattle.be_published.specs.States.{new_glass};
ghost use Rattle.be_published.specs.declared.beyond.Beyond.{Beyond};
ghost use Rattle.be_mirror.specs.Feeders.{new_feeder, IsAllPublished};
ghost use Rattle.be_mirror.specs.Links.{Listened, ReadWorkerServed};
ghost use Rattle.be_mirror.specs.Serving.{Feeds, Mirrors, IsAhead, DoorAfterMirrorFault, IsSomeBeyond, mirror_fault_of_listen};

use crate::feeder::Feeder;
use crate::feeding::{FeedEnd, take_feed};
use crate::links::{Job, WorkEnd};
use crate::printing::Printer;
use crate::session::Session;
use crate::settling::{LinksLeft, settle_links};
use crate::workers::{jobs_for, serve_jobs};
use be_base::NoMemory;
use be_door::{Door, DoorCount, Sums};
use be_io::{Gate, Link, ListenFault, Source};
use be_model::Schema;
use be_published::{Beyond, Glass, Naming, Press, Shade, Sheet};
use std::alloc::Global;
use std::sync::atomic::{AtomicBool, Ordering};
use std::sync::{Arc, Wait};
use std::thread::{Threads, join_mut};
use std::time::Clock;

/// What is left once all links of a door were served.
#[derive(Drop)]
pub struct Mirrored {
    /// Why the feed was taken no further.
    pub feed: FeedEnd,
    /// How many changes the list has.
    pub len: u64,
    /// The numbers of all links.
    pub sums: Sums,
    /// What shows that a reader was refused an entry, where one was.
    pub shade: Option<Shade>,
}

/// Why nothing is given.
#[derive(Clone, Copy, Debug)]
pub enum MirrorFault {
    /// The door can't listen.
    Failed,
    /// A reader that is shown what is published knows more than that.
    Ahead(Beyond),
    NoMemory,
}

impl From<ListenFault> for MirrorFault {
    ghost from_gives = { λ fault given. given ≡ mirror_fault_of_listen fault };

    fn from(fault: ListenFault) -> MirrorFault {
        match fault {
            ListenFault::Failed => MirrorFault::Failed,
            ListenFault::NoMemory => MirrorFault::NoMemory,
        }
    }
}

impl From<Beyond> for MirrorFault {
    ghost use Rattle.be_mirror.specs.declared.serving.MirrorFault.TheVariants.{Ahead};

    ghost from_gives = { λ beyond given. given ≡ Ahead beyond };

    fn from(beyond: Beyond) -> MirrorFault {
        MirrorFault::Ahead(beyond)
    }
}

impl From<NoMemory> for MirrorFault {
    ghost use Rattle.be_mirror.specs.declared.serving.MirrorFault.TheVariants.{NoMemory};

    ghost from_gives = { λ _ given. given ≡ NoMemory };

    fn from(_: NoMemory) -> MirrorFault {
        MirrorFault::NoMemory
    }
}

/// Serves so many links of a door by reads, by one worker a glass, while it takes a feed from an input and publishes its changes;
/// then it settles the door. The feeder is given up. It may wait: the feed goes on until it ends, fails, or finds all links served
/// before a read. A fault that applies is given, in this order: the door can't listen; want of memory, to the feed, an accept and a
/// session too; a reader that knows more than what is published.
pub fn run_mirror<
    T: Sheet<J> + Send + Sync,
    J: Naming + Send + Sync,
    R: Threads + Wait + Clock + Sync,
    S: Source,
    L: Link + Drop + Send,
    D: Door<L> + Sync,
    G: Gate + Sync,
>(
    rt: &R,
    alloc: Global,
    schema: Arc<Schema>,
    feeder: Feeder<Press<T, J>>,
    glasses: Vec<Glass<T, J>>,
    source: &mut S,
    door: &mut D,
    port: u16,
    links: u64,
    gate: &G,
) -> Result<Mirrored, MirrorFault>
    requires schema { arc_value schema ≡ J.schema }
    requires feeder { (feeder ≡ new_feeder J.schema) × Follows [] feeder.took }
    requires glasses { All (λ glass. glass ≡ new_glass []) glasses.items }
    requires few { (0 < length glasses.items) × (length glasses.items ≤ SEATS) }
    requires links { links ≤ LINKS }
    ensures mirrored { IfOk result (λ m. Mirrors (link_state L.Source L.Sink) J.schema (source_state S.Source source.old) (source_state S.Source source.new) m.feed m.len links
        (is_some m.shade) m.sums (D.state door.new).keeps (D.state door.new).kept) }
    ensures door { IfOk result (λ m. D.state door.new ≡ served_door (D.state door.old) port links (length glasses.items) m.sums (D.state door.new).kept) }
    ensures fault { IfErr result (λ fault. DoorAfterMirrorFault (D.state door.old) (D.state door.new) port links (length glasses.items) fault) }
    ensures ahead { (beyond : Beyond) → result ≡ Err (MirrorFault.Ahead beyond) → IsAhead J.schema (source_state S.Source source.old) (source_state S.Source source.new) beyond }
    ensures failed { result ≡ Err MirrorFault.Failed → source.new ≡ source.old }
    ensures within { TakesWithin (S.taken source.old) (S.taken source.new) }
    ensures kept { S.kept_by_read source.new ≡ S.kept_by_read source.old }
{
    let counts = match door.listen(port, links, glasses.len() as u32) {
        Ok(counts) => counts,
        Err(fault) => {
            feeder.end(rt);
            return Err(MirrorFault::from(fault));
        }
    };
    let mut feeder = feeder;
    let mirrored = mirror(
        rt,
        alloc,
        schema,
        &mut feeder,
        glasses,
        source,
        door,
        counts,
        gate,
    );
    feeder.end(rt);
    mirrored
}

// The same once the door listens. The feeder is not given up yet.
fn mirror<
    T: Sheet<J> + Send + Sync,
    J: Naming + Send + Sync,
    R: Threads + Wait + Clock + Sync,
    S: Source,
    L: Link + Drop + Send,
    D: Door<L> + Sync,
    G: Gate + Sync,
>(
    rt: &R,
    alloc: Global,
    schema: Arc<Schema>,
    feeder: &mut Feeder<Press<T, J>>,
    glasses: Vec<Glass<T, J>>,
    source: &mut S,
    door: &mut D,
    counts: Vec<DoorCount<L>>,
    gate: &G,
) -> Result<Mirrored, MirrorFault>
    requires schema { arc_value schema ≡ J.schema }
    requires feeder { (feeder.old ≡ new_feeder J.schema) × Follows [] feeder.old.took }
    requires few { (0 < length glasses.items) × (length glasses.items ≤ SEATS) }
    requires count { length counts.items ≡ length glasses.items }
    requires new { All (IsNew (D.state door.old)) counts.items }
    requires workers { (D.state door.old).workers ≡ length glasses.items }
    ensures mirrored { (before : DoorState L) (port links : ℕ) → Listened before (D.state door.old) port links (length glasses.items)
        → IfOk result (λ m. Mirrors (link_state L.Source L.Sink) J.schema (source_state S.Source source.old) (source_state S.Source source.new) m.feed m.len links
        (is_some m.shade) m.sums (D.state door.new).keeps (D.state door.new).kept) }
    ensures door { (before : DoorState L) (port links : ℕ) → Listened before (D.state door.old) port links (length glasses.items)
        → IfOk result (λ m. D.state door.new ≡ served_door before port links (length glasses.items) m.sums (D.state door.new).kept) }
    ensures fault { (before : DoorState L) (port links : ℕ) → Listened before (D.state door.old) port links (length glasses.items)
        → IfErr result (λ fault. DoorAfterMirrorFault before (D.state door.new) port links (length glasses.items) fault) }
    ensures ahead { (beyond : Beyond) → result ≡ Err (MirrorFault.Ahead beyond) → IsAhead J.schema (source_state S.Source source.old) (source_state S.Source source.new) beyond }
    ensures listened { result ≢ Err MirrorFault.Failed }
    ensures within { TakesWithin (S.taken source.old) (S.taken source.new) }
    ensures kept { S.kept_by_read source.new ≡ S.kept_by_read source.old }
{
    let jobs = jobs_for(alloc, schema, glasses, &*door, counts)?;
    let (ends, feed) = run_beside(rt, alloc, feeder, jobs, source, &*door, gate);
    let LinksLeft {
        sessions,
        sums,
        shade,
    } = settle_links(alloc, door, ends?)?;
    if feed == FeedEnd::NoMemory {
        return Err(MirrorFault::NoMemory);
    }
    show_all(feeder, sessions)?;
    Ok(Mirrored {
        feed,
        len: feeder.len(),
        sums,
        shade,
    })
}

// Takes the feed beside the workers, each of which does a job.
fn run_beside<
    P: Printer + Send,
    T: Sheet<J> + Send + Sync,
    J: Naming + Send + Sync,
    R: Threads + Wait + Clock + Sync,
    S: Source,
    L: Link + Drop + Send,
    D: Door<L> + Sync,
    G: Gate + Sync,
>(
    rt: &R,
    alloc: Global,
    feeder: &mut Feeder<P>,
    jobs: Vec<Job<T, J, L>>,
    source: &mut S,
    door: &D,
    gate: &G,
) -> (Result<Vec<WorkEnd<T, J, L>>, NoMemory>, FeedEnd)
    requires feeder { (feeder.old ≡ new_feeder P.schema) × Follows [] feeder.old.took }
    requires few { length jobs.items ≤ SEATS }
    requires jobs { All (λ job. (job.worker ≤ SEATS) × IsNew (D.state door.now) job.count) jobs.items }
    ensures feeds { result.1 ≢ FeedEnd.NoMemory → Feeds P.schema (source_state S.Source source.old) (source_state S.Source source.new) result.1 feeder.new.took.fed }
    ensures shown { result.1 ≢ FeedEnd.NoMemory → IsAllPublished feeder.new }
    ensures within { TakesWithin (S.taken source.old) (S.taken source.new) }
    ensures beside { S.kept_by_read source.new ≡ S.kept_by_read source.old }
    ensures count { IfOk result.0 (λ ends. length ends.items ≡ length jobs.items) }
    ensures ends { IfOk result.0 (λ ends. All (λ end. ReadWorkerServed (link_state L.Source L.Sink) J.schema (D.state door.now) end.session end.count end.ends.items) ends.items) }
{
    let over = AtomicBool::new(false);
    let over = &over;
    let mut jobs = Some(jobs);
    take_beside(
        rt,
        &mut move || -> Result<Vec<WorkEnd<T, J, L>>, NoMemory>
            requires { IfSome jobs (λ jobs. (length jobs.items ≤ SEATS) × All (λ job. (job.worker ≤ SEATS) × IsNew (D.state door.now) job.count) jobs.items) }
            ensures { IfSome jobs.entry (λ jobs. IfOk result (λ ends. (length ends.items ≡ length jobs.items)
                × All (λ end. ReadWorkerServed (link_state L.Source L.Sink) J.schema (D.state door.entry.now) end.session end.count end.ends.items) ends.items)) }
        {
            let ends = match jobs.take() {
                Some(jobs) => serve_jobs(rt, alloc, door, jobs, gate),
                None => Err(NoMemory),
            };
            over.store(true, Ordering::SeqCst);
            ends
        },
        feeder,
        source,
        over,
    )
}

// Takes the feed beside the work.
fn take_beside<
    R: Threads + Wait + Clock + Sync,
    W: FnMut() -> A + Send,
    A: Send,
    P: Printer + Send,
    S: Source,
>(rt: &R, work: &mut W, feeder: &mut Feeder<P>, source: &mut S, over: &AtomicBool) -> (A, FeedEnd)
    requires work { W.pre work.old }
    requires feeder { (feeder.old ≡ new_feeder P.schema) × Follows [] feeder.old.took }
    ensures works { W.step work.old result.0 work.new }
    ensures feeds { result.1 ≢ FeedEnd.NoMemory → Feeds P.schema (source_state S.Source source.old) (source_state S.Source source.new) result.1 feeder.new.took.fed }
    ensures shown { result.1 ≢ FeedEnd.NoMemory → IsAllPublished feeder.new }
    ensures within { TakesWithin (S.taken source.old) (S.taken source.new) }
    ensures beside { S.kept_by_read source.new ≡ S.kept_by_read source.old }
{
    join_mut(
        rt,
        work,
        &mut || -> FeedEnd
            requires { (feeder.now ≡ new_feeder P.schema) × Follows [] feeder.now.took }
            ensures feeds { result ≢ FeedEnd.NoMemory → Feeds P.schema (source_state S.Source source.entry.now) (source_state S.Source source.exit.now) result feeder.exit.now.took.fed }
            ensures shown { result ≢ FeedEnd.NoMemory → IsAllPublished feeder.exit.now }
            ensures within { TakesWithin (S.taken source.entry.now) (S.taken source.exit.now) }
            ensures beside { S.kept_by_read source.exit.now ≡ S.kept_by_read source.entry.now }
        { take_feed(rt, feeder, source, over) },
    )
}

// Shows each session what is published. None knows more than that then.
fn show_all<T: Sheet<J> + Send + Sync, J: Naming + Send + Sync>(
    feeder: &Feeder<Press<T, J>>,
    sessions: Vec<Session<T, J>>,
) -> Result<(), Beyond>
    ensures shown { OnOk result (All (λ session. BeginsWith feeder.now.published session.known) sessions.items) }
    ensures beyond { IfErr result (IsSomeBeyond feeder.now.published) }
{
    for session in sessions {
        show(feeder, session)?;
    }
    Ok(())
}

fn show<T: Sheet<J> + Send + Sync, J: Naming + Send + Sync>(
    feeder: &Feeder<Press<T, J>>,
    session: Session<T, J>,
) -> Result<(), Beyond>
    ensures shown { OnOk result (BeginsWith feeder.now.published session.known) }
    ensures beyond { IfErr result (IsSomeBeyond feeder.now.published) }
{
    let press = feeder.press();
    let mut session = session;
    session.learn(press.tell());
    session.within(&press.tell())
}
