//! The acts, one by one, on memory.

ghost use Rattle.std.specs.Prelude.{◌≡◌, ℕ, ◌+◌, option_map, OnOk, IfOk, length};
ghost use Rattle.std.specs.Arc.{arc_value};
ghost use Rattle.be_change.specs.History.{live};
ghost use Rattle.be_change.specs.Entries.{entry_of, HasIdAt};
ghost use Rattle.be_core.specs.World.{seen_by, is_pending, is_pending_of, is_ahead, is_deaf, is_next_of, named, after_seeing, after_change, split, subscribe, shown, taken, unsubscribe, change_next, ask, parted, leave, looked, read, tell, step};
ghost use Rattle.be_core.specs.Acts.{deed_of};
ghost use Rattle.be_core.specs.Memory.{id_and_session, state_of, IsSubOf};

use crate::acts::{Act, CoreReply};
use crate::live::{find_named, hits_among, live_rows};
use crate::seen::{note_seen, seen_by};
use be_base::{Id, Name, NoMemory, SessionNo};
use be_change::{ChangeLog, session_of};
use be_model::{Change, Event, Row};
use std::alloc::Global;
use std::sync::Arc;

/// The list, how much of it is published, and how much of it each session has seen.
#[derive(Drop)]
pub(crate) struct Core {
    pub(crate) log: ChangeLog,
    pub(crate) published: u64,
    pub(crate) seen: Vec<(SessionNo, u64)>,
}

impl Core {
    fn is_pending(&self) -> bool
        ensures { result ≡ is_pending (state_of self.now) }
    {
        self.published < self.log.len()
    }

    fn is_pending_of(&self, session: SessionNo) -> bool
        ensures { result ≡ is_pending_of session.0 (state_of self.now) }
    {
        if self.published < self.log.len() {
            session_of(self.log.at(self.published)).0 == session.0
        } else {
            false
        }
    }

    fn seen_by(&self, session: SessionNo) -> u64
        ensures { result ≡ seen_by session.0 (state_of self.now).seen }
    {
        seen_by(self.seen.as_slice(), session)
    }

    fn is_ahead(&self, session: SessionNo) -> bool
        ensures { result ≡ is_ahead session.0 (state_of self.now) }
    {
        self.published < self.seen_by(session)
    }

    fn is_deaf(&self, session: SessionNo) -> bool
        ensures { result ≡ is_deaf session.0 (state_of self.now) }
    {
        self.log.has_left(session) || self.is_pending()
    }

    fn is_next(&self, session: SessionNo, change: &Change) -> bool
        ensures { result ≡ is_next_of session.0 self.now.log.list (entry_of change.now) }
    {
        let count = self.log.count_of(session);
        match change {
            Change::Sub {
                session: who,
                serial,
                ..
            } => who.0 == session.0 && *serial == count,
            Change::Unsub {
                session: who,
                serial,
                ..
            } => who.0 == session.0 && *serial == count,
            Change::Bye { .. } => false,
        }
    }

    fn split(&self, session: SessionNo) -> CoreReply
        ensures { (state_of self.now, result) ≡ split session.0 (state_of self.now) }
    {
        CoreReply::Split {
            seen: self.seen_by(session),
            written: self.published,
        }
    }

    fn see(&mut self, session: SessionNo, n: u64) -> Result<(), NoMemory>
        ensures { OnOk result (state_of self.new ≡ after_seeing session.0 n (state_of self.old)) }
    {
        note_seen(&mut self.seen, session, n)
    }

    // Puts a change last, and answers the new length.
    fn put(&mut self, change: Arc<Change>) -> Result<u64, NoMemory>
        requires { HasIdAt (length self.old.log.list) (entry_of (arc_value change)) }
        ensures state { OnOk result (state_of self.new ≡ after_change (entry_of (arc_value change)) (state_of self.old)) }
        ensures length { IfOk result (λ n. n ≡ length self.old.log.list + 1) }
    {
        match self.log.push(change) {
            Ok(()) => Ok(self.log.len()),
            Err((_, no_memory)) => Err(no_memory),
        }
    }

    // The id and the session of the live row of this name.
    fn find(&self, alloc: Global, name: &Name) -> Result<Option<(Id, SessionNo)>, NoMemory>
        ensures { IfOk result (λ found. found ≡ option_map id_and_session (named name.now (live self.now.log.list))) }
    {
        let rows = live_rows(alloc, &self.log, self.log.len())?;
        Ok(find_named(rows.as_slice(), name))
    }

    // The session has seen what is published, and is given the reply.
    fn show(&mut self, session: SessionNo, reply: CoreReply) -> Result<CoreReply, NoMemory>
        ensures { IfOk result (λ r. (state_of self.new, r) ≡ shown session.0 reply (state_of self.old)) }
    {
        self.see(session, self.published)?;
        Ok(reply)
    }

    fn take(&mut self, change: &Arc<Change>) -> Result<CoreReply, NoMemory>
        requires { HasIdAt (length self.old.log.list) (entry_of (arc_value change.now)) }
        ensures { IfOk result (λ r. (state_of self.new, r) ≡ taken (entry_of (arc_value change.now)) (state_of self.old)) }
    {
        let n = self.put(Arc::try_clone(change)?)?;
        Ok(CoreReply::Taken { n })
    }

    // The change is a Sub of this row.
    fn subscribe(
        &mut self,
        alloc: Global,
        session: SessionNo,
        change: &Arc<Change>,
        row: &Row,
    ) -> Result<CoreReply, NoMemory>
        requires { IsSubOf row.now (entry_of (arc_value change.now)) }
        ensures { IfOk result (λ r. (state_of self.new, r) ≡ subscribe session.0 (entry_of (arc_value change.now)) row.now (state_of self.old) (named row.now.name (live self.old.log.list))) }
    {
        match self.find(alloc, &row.name)? {
            Some((id, _)) => {
                let published = self.published;
                self.show(session, CoreReply::Dup { m: published, id })
            }
            None => {
                if row.id.0 == self.log.len() && row.session.0 == session.0 {
                    self.take(change)
                } else {
                    Ok(CoreReply::Nothing)
                }
            }
        }
    }

    // The change is an Unsub of this name.
    fn unsubscribe(
        &mut self,
        alloc: Global,
        session: SessionNo,
        change: &Arc<Change>,
        name: &Name,
    ) -> Result<CoreReply, NoMemory>
        requires { (place : ℕ) → HasIdAt place (entry_of (arc_value change.now)) }
        ensures { IfOk result (λ r. (state_of self.new, r) ≡ unsubscribe session.0 (entry_of (arc_value change.now)) (state_of self.old) (named name.now (live self.old.log.list))) }
    {
        match self.find(alloc, name)? {
            None => self.show(session, CoreReply::NoName { m: self.published }),
            Some((id, owner)) => {
                if owner.0 == session.0 {
                    self.take(change)
                } else {
                    self.show(
                        session,
                        CoreReply::Other {
                            m: self.published,
                            id,
                        },
                    )
                }
            }
        }
    }

    fn change_next(
        &mut self,
        alloc: Global,
        session: SessionNo,
        change: &Arc<Change>,
    ) -> Result<CoreReply, NoMemory>
        ensures { IfOk result (λ r. (state_of self.new, r) ≡ change_next session.0 (entry_of (arc_value change.now)) (state_of self.old)) }
    {
        let what: &Change = change;
        match what {
            Change::Sub { row, .. } => self.subscribe(alloc, session, change, row),
            Change::Unsub { name, .. } => self.unsubscribe(alloc, session, change, name),
            Change::Bye { .. } => Ok(CoreReply::Nothing),
        }
    }

    fn ask(
        &mut self,
        alloc: Global,
        session: SessionNo,
        change: &Arc<Change>,
    ) -> Result<CoreReply, NoMemory>
        ensures { IfOk result (λ r. (state_of self.new, r) ≡ ask session.0 (entry_of (arc_value change.now)) (state_of self.old)) }
    {
        if self.is_deaf(session) || !self.is_next(session, change) {
            return Ok(CoreReply::Nothing);
        }
        if self.is_ahead(session) {
            return Ok(self.split(session));
        }
        self.change_next(alloc, session, change)
    }

    fn put_bye(&mut self, alloc: Global, session: SessionNo) -> Result<CoreReply, NoMemory>
        ensures { IfOk result (λ r. (state_of self.new, r) ≡ parted session.0 (state_of self.old)) }
    {
        let serial = self.log.count_of(session);
        let bye = Arc::new(alloc, Change::Bye { session, serial })?;
        let n = self.put(bye)?;
        Ok(CoreReply::Left { n })
    }

    fn leave(&mut self, alloc: Global, session: SessionNo) -> Result<CoreReply, NoMemory>
        ensures { IfOk result (λ r. (state_of self.new, r) ≡ leave session.0 (state_of self.old)) }
    {
        if self.is_deaf(session) {
            return Ok(CoreReply::Nothing);
        }
        if self.is_ahead(session) {
            return Ok(self.split(session));
        }
        self.put_bye(alloc, session)
    }

    fn look(
        &mut self,
        alloc: Global,
        session: SessionNo,
        n: u64,
        event: &Event,
    ) -> Result<CoreReply, NoMemory>
        ensures { IfOk result (λ r. (state_of self.new, r) ≡ looked session.0 n event.now (state_of self.old)) }
    {
        let rows = live_rows(alloc, &self.log, n)?;
        let names = hits_among(alloc, rows.as_slice(), event)?;
        self.see(session, n)?;
        Ok(CoreReply::Hits { n, names })
    }

    fn read(
        &mut self,
        alloc: Global,
        session: SessionNo,
        n: u64,
        event: &Event,
    ) -> Result<CoreReply, NoMemory>
        ensures { IfOk result (λ r. (state_of self.new, r) ≡ read session.0 n event.now (state_of self.old)) }
    {
        if !self.log.has_left(session) && self.seen_by(session) <= n && n <= self.published {
            self.look(alloc, session, n, event)
        } else {
            Ok(CoreReply::Nothing)
        }
    }

    fn tell(&mut self, session: SessionNo) -> Result<CoreReply, NoMemory>
        ensures { IfOk result (λ r. (state_of self.new, r) ≡ tell session.0 (state_of self.old)) }
    {
        if self.is_pending_of(session) {
            return Ok(CoreReply::Held { n: self.log.len() });
        }
        if self.is_ahead(session) {
            return Ok(self.split(session));
        }
        self.show(session, CoreReply::Nothing)
    }

    // After want of memory the act may be half done.
    pub(crate) fn step(&mut self, alloc: Global, act: &Act) -> Result<CoreReply, NoMemory>
        ensures { IfOk result (λ r. (state_of self.new, r) ≡ step (state_of self.old) (deed_of act.now)) }
    {
        match act {
            Act::Ask { session, change } => self.ask(alloc, *session, change),
            Act::Publish => {
                self.published = self.log.len();
                Ok(CoreReply::Nothing)
            }
            Act::Reshape => Ok(CoreReply::Nothing),
            Act::Read { session, n, event } => self.read(alloc, *session, *n, event),
            Act::Tell { session } => self.tell(*session),
            Act::Leave { session } => self.leave(alloc, *session),
        }
    }
}
