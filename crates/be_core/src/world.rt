//! The world: one list that sessions change and read by atomic acts.

ghost use Rattle.std.specs.Prelude.{◌≡◌, [], ◌∷◌, ◌++◌, false, length, OnOk, OnErr, IfOk};
ghost use Rattle.std.specs.List.{list_any};
ghost use Rattle.std.specs.Arc.{arc_value};
ghost use Rattle.be_change.specs.Entries.{entry_of, HasIdAt};
ghost use Rattle.be_core.specs.Acts.{deeds_of, AreOfSessions};
ghost use Rattle.be_core.specs.World.{beginning, run, is_split, IsWorld};
ghost use Rattle.be_core.specs.Sessions.{EachIsLegal, ReshapesChangeNothing};
ghost use Rattle.be_core.specs.Memory.{state_of};

use crate::acts::{Act, CoreReply};
use crate::steps::Core;
use be_base::NoMemory;
use be_change::ChangeLog;
use be_model::Change;
use std::alloc::Global;
use std::marker::Model;
use std::sync::Arc;

/// One list that sessions change and read by atomic acts.
#[derive(Drop)]
pub struct World {
    core: Core,
}

impl Model for World {
    ghost use Rattle.be_core.specs.World.{State};

    ghost Value = { State };

    ghost use Rattle.be_core.specs.World.{IsWorld};
    ghost use Rattle.be_core.specs.Memory.{state_of};

    ghost view = { λ w. state_of w.core };

    ghost invariant = { λ w. IsWorld (state_of w.core) };
}

impl World {
    /// An empty list, of which nobody has seen anything. It takes no memory.
    pub fn make(alloc: Global) -> World
        ensures { result ≡ beginning }
    {
        World {
            core: Core {
                log: ChangeLog::make(alloc),
                published: 0,
                seen: Vec::new(alloc),
            },
        }
    }

    /// Does the acts in their order, or none of them.
    pub fn run(&mut self, alloc: Global, acts: &[Act]) -> Result<Vec<CoreReply>, NoMemory>
        requires { AreOfSessions (deeds_of acts.now) }
        ensures exact { IfOk result (λ replies. (self.new, replies.items) ≡ run self.old (deeds_of acts.now)) }
        ensures refused { OnErr result (self.new ≡ self.old) }
        ensures legal { IfOk result (λ replies. EachIsLegal self.old (deeds_of acts.now) (self.new, replies.items)) }
        ensures whole { IfOk result (λ replies. list_any is_split replies.items ≡ false) }
        ensures kept { IsWorld self.new }
        ensures shape { IfOk result (λ replies. ReshapesChangeNothing self.old (deeds_of acts.now) (self.new, replies.items)) }
    {
        let mut core = copy(alloc, &self.core)?;
        let replies = run_all(alloc, &mut core, acts)?;
        self.core = core;
        Ok(replies)
    }
}

// After want of memory some acts may be done, and one of them half.
fn run_all(alloc: Global, core: &mut Core, acts: &[Act]) -> Result<Vec<CoreReply>, NoMemory>
    ensures { IfOk result (λ replies. (state_of core.new, replies.items) ≡ run (state_of core.old) (deeds_of acts.now)) }
{
    let mut replies = Vec::new(alloc);
    for act in acts {
        let reply = core.step(alloc, act)?;
        add_reply(&mut replies, reply)?;
    }
    Ok(replies)
}

fn add_reply(replies: &mut Vec<CoreReply>, reply: CoreReply) -> Result<(), NoMemory>
    ensures { OnOk result (replies.new.items ≡ replies.old.items ++ reply ∷ []) }
{
    replies.push(reply)?;
    Ok(())
}

fn copy(alloc: Global, core: &Core) -> Result<Core, NoMemory>
    ensures { IfOk result (λ copy. state_of copy ≡ state_of core.now) }
{
    let log = copy_log(alloc, &core.log)?;
    let seen = Vec::from_slice(alloc, core.seen.as_slice())?;
    Ok(Core {
        log,
        published: core.published,
        seen,
    })
}

fn copy_log(alloc: Global, log: &ChangeLog) -> Result<ChangeLog, NoMemory>
    ensures { IfOk result (λ copy. copy.list ≡ log.now.list) }
{
    let mut copy = ChangeLog::make(alloc);
    for place in 0..log.len() {
        add_change(&mut copy, log.at(place))?;
    }
    Ok(copy)
}

fn add_change(log: &mut ChangeLog, change: &Arc<Change>) -> Result<(), NoMemory>
    requires { HasIdAt (length log.old.list) (entry_of (arc_value change.now)) }
    ensures { OnOk result (log.new.list ≡ log.old.list ++ entry_of (arc_value change.now) ∷ []) }
{
    match log.push(Arc::try_clone(change)?) {
        Ok(()) => Ok(()),
        Err((_, no_memory)) => Err(no_memory),
    }
}
