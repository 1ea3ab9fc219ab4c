//! A door settled, once its workers are done.

ghost use Rattle.std.specs.Prelude.{◌≡◌, ◌≤◌, ◌+◌, ◌++◌, ◌∷◌, ◌⊎◌, [], None, false, length, map, All, IfOk, OnOk, OnErr};
ghost use Rattle.std.specs.List.{list_any};
ghost use Rattle.be_base.specs.declared.limits.TheConstants.{SEATS};
ghost use Rattle.be_door.specs.Counts.{with_counts};
ghost use Rattle.be_door.specs.Door.{AreAllCounts, after_settle};
ghost use Rattle.be_door.specs.Sums.{no_sums};
ghost use Rattle.be_hub.specs.Files.{lacks_memory};

use crate::links::WorkEnd;
use crate::session::Session;
use be_base::NoMemory;
use be_door::{Door, DoorCount, Sums};
use be_io::Link;
use be_protocol::SessionEnd;
use be_published::{Naming, Shade, Sheet};
use std::alloc::Global;

// What the workers leave, once the door is settled.
#[derive(Drop)]
pub(crate) struct LinksLeft<T: Sheet<J>, J: Naming> {
    pub(crate) sessions: Vec<Session<T, J>>,
    // The numbers of all links.
    pub(crate) sums: Sums,
    pub(crate) shade: Option<Shade>,
}

// The same, with the counts that are to be settled.
#[derive(Drop)]
struct Parted<T: Sheet<J>, J: Naming, L> {
    sessions: Vec<Session<T, J>>,
    counts: Vec<DoorCount<L>>,
    sums: Sums,
    shade: Option<Shade>,
}

// Settles the door, and gives what the workers leave. Want of memory to a session or an accept is want of memory here.
pub(crate) fn settle_links<T: Sheet<J>, J: Naming, L: Link + Drop, D: Door<L>>(
    alloc: Global,
    door: &mut D,
    ends: Vec<WorkEnd<T, J, L>>,
) -> Result<LinksLeft<T, J>, NoMemory>
    requires few { length ends.items ≤ SEATS }
    requires all { AreAllCounts (D.state door.old) (map (λ end. end.count) ends.items) }
    ensures sessions { IfOk result (λ left. left.sessions.items ≡ map (λ end. end.session) ends.items) }
    ensures sums { IfOk result (λ left. left.sums ≡ with_counts no_sums (map (λ end. end.count) ends.items)) }
    ensures none_refused { IfOk result (λ left. left.sums.refused ≡ 0) }
    ensures none_lacked { OnOk result (list_any (λ end. list_any lacks_memory end.ends.items) ends.items ≡ false) }
    ensures shade { IfOk result (λ left. (left.shade ≡ None) → All (λ end. end.session.shuts ≡ 0) ends.items) }
    ensures settled { OnOk result (D.state door.new ≡ after_settle (D.state door.old) (map (λ end. end.count) ends.items)) }
    ensures links { OnOk result ((D.state door.new).given + (D.state door.new).failed + (D.state door.new).refused ≡ (D.state door.new).links) }
    ensures no_memory { OnErr result ((D.state door.new ≡ D.state door.old) ⊎ (D.state door.new ≡ after_settle (D.state door.old) (map (λ end. end.count) ends.items))) }
{
    let lacked = any_lacks_memory(ends.as_slice());
    let Parted {
        sessions,
        counts,
        sums,
        shade,
    } = part_links(alloc, ends)?;
    door.settle(counts)?;
    if lacked || sums.refused > 0 {
        return Err(NoMemory);
    }
    Ok(LinksLeft {
        sessions,
        sums,
        shade,
    })
}

// Parts what the workers leave, and adds up what they counted.
fn part_links<T: Sheet<J>, J: Naming, L: Link + Drop>(
    alloc: Global,
    ends: Vec<WorkEnd<T, J, L>>,
) -> Result<Parted<T, J, L>, NoMemory>
    requires { length ends.items ≤ SEATS }
    ensures sessions { IfOk result (λ parted. parted.sessions.items ≡ map (λ end. end.session) ends.items) }
    ensures counts { IfOk result (λ parted. parted.counts.items ≡ map (λ end. end.count) ends.items) }
    ensures sums { IfOk result (λ parted. parted.sums ≡ with_counts no_sums (map (λ end. end.count) ends.items)) }
    ensures shade { IfOk result (λ parted. (parted.shade ≡ None) → All (λ end. end.session.shuts ≡ 0) ends.items) }
{
    let mut sessions = Vec::new(alloc);
    let mut counts = Vec::new(alloc);
    let mut sums = Sums::none();
    let mut shade = None;
    for end in ends {
        let WorkEnd {
            session,
            count,
            ends: _,
        } = end;
        sums.add(&count.sums());
        shade = shade.or(session.shade());
        put(&mut sessions, &mut counts, session, count)?;
    }
    Ok(Parted {
        sessions,
        counts,
        sums,
        shade,
    })
}

// Puts each of them last.
fn put<X: Drop, Y: Drop>(
    sessions: &mut Vec<X>,
    counts: &mut Vec<Y>,
    session: X,
    count: Y,
) -> Result<(), NoMemory>
    ensures sessions { OnOk result (sessions.new.items ≡ sessions.old.items ++ session ∷ []) }
    ensures counts { OnOk result (counts.new.items ≡ counts.old.items ++ count ∷ []) }
{
    sessions.push(session)?;
    counts.push(count)?;
    Ok(())
}

fn any_lacks_memory<T: Sheet<J>, J: Naming, L>(ends: &[WorkEnd<T, J, L>]) -> bool
    ensures { result ≡ list_any (λ end. list_any lacks_memory end.ends.items) ends.now }
{
    ends.iter().any(|end| lack_memory(end.ends.as_slice()))
}

fn lack_memory(ends: &[SessionEnd]) -> bool
    ensures { result ≡ list_any lacks_memory ends.now }
{
    ends.iter().any(|end| matches!(*end, SessionEnd::NoMemory))
}
