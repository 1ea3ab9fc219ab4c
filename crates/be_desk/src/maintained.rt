//! What a maintainer does at the desk.

ghost use Rattle.std.specs.Prelude.{◌≡◌, ◌≤◌, ◌<◌, length, IfOk, IfSome, MatchBool};
ghost use Rattle.be_base.specs.Counts.{raised};
ghost use Rattle.be_change.specs.History.{live};
ghost use Rattle.be_desk.specs.Desks.{freed, HasHeld};
ghost use Rattle.be_desk.specs.Maintained.{IsByLook, IsByPlan, IsDue, IsLookedOn, IsMaintained, IsPutOff, IsTended, OnStep};

use crate::broom::Broom;
use crate::desk::Desk;
use crate::patience::{LOOK_ROWS, WORK_A_TEND};
use crate::tend_count::TendCount;
use be_base::{NoMemory, NoRead};
use be_copy::Edit;
use be_mail::BoxNames;
use be_model::Step;
use be_published::{Naming, Sheet};
use std::sync::Wait;

/// What came of a call of the maintainer.
#[derive(Drop)]
pub enum Maintained {
    /// A held change was published. The list has `n` changes.
    Freed { n: u64 },
    /// The published copies were reshaped by this step.
    Stepped { step: Step },
    /// No step was found.
    Idle,
    /// The desk's reader was refused an entry.
    Shut,
    NoMemory,
}

impl<T: Sheet<J>, J: Naming + BoxNames> Desk<T, J> {
    /// What a worker calls between two replies. It publishes what is pending. Where that was a step, or where nothing was, a look for a
    /// step was earned by the changes and tends since the last one, and enough rows are live for one, it makes the step that the
    /// desk's reader finds by looking on among some of the rows. Else it looks at nothing. It may wait for readers.
    pub fn tend<R: Wait>(&mut self, rt: &R, tended: &mut TendCount) -> Option<Maintained>
        ensures counted { tended.new ≡ raised 1 tended.old }
        ensures done { IsTended self.old self.new result }
        ensures look { IfSome result (IsByLook T.list T.can_step self.old self.new) }
    {
        tended.calls = tended.calls.saturating_add(1);
        self.patience.earn(WORK_A_TEND);
        if !self.is_due() {
            return None;
        }
        if self.press.has_changes() {
            return Some(self.publish_held(rt));
        }
        self.patience.spend();
        Some(self.look_on(rt))
    }

    fn is_due(&self) -> bool
        ensures { MatchBool result (IsDue self.now) ((self.now ≡ freed self.now) × IsPutOff self.now) }
    {
        !self.press.is_settled() || self.patience.has_earned(self.rows())
    }

    // How many rows are live, those of a held change too.
    fn rows(&self) -> u64
        ensures { result ≡ length (live self.now.list) }
    {
        // Called for its clause that the list is well formed.
        let _ = self.press.len();
        self.ledger.rows()
    }

    /// Publishes the change that is held, and does no more; or, where none is, makes the next step that the desk's reader
    /// plans. Steps that couldn't be published before are published first. It may wait for readers.
    pub fn maintain<R: Wait>(&mut self, rt: &R, broom: &mut Broom) -> Maintained
        ensures broom { broom.new ≡ raised 1 broom.old }
        ensures done { IsMaintained self.old self.new result }
        ensures plan { IsByPlan T.list T.planned T.mark_of self.old self.new result }
    {
        broom.calls = broom.calls.saturating_add(1);
        let held = self.press.has_changes();
        match self.free(rt) {
            Err(NoMemory) => return Maintained::NoMemory,
            Ok(()) => {}
        }
        if held {
            let n = self.press.len();
            return Maintained::Freed { n };
        }
        match self.glass.plan() {
            Ok(Some(step)) => self.reshape(rt, step),
            Ok(None) => Maintained::Idle,
            Err(NoRead::Shut) => Maintained::Shut,
            Err(NoRead::NoMemory) => Maintained::NoMemory,
        }
    }

    // Publishes the change that is held.
    fn publish_held<R: Wait>(&mut self, rt: &R) -> Maintained
        requires { HasHeld self.old }
        ensures done { IsMaintained self.old self.new result }
        ensures look { IsByLook T.list T.can_step self.old self.new result }
    {
        match self.free(rt) {
            Ok(()) => Maintained::Freed {
                n: self.press.len(),
            },
            Err(NoMemory) => Maintained::NoMemory,
        }
    }

    // Publishes the steps that are pending, and makes the one that a look of the desk's reader finds.
    fn look_on<R: Wait>(&mut self, rt: &R) -> Maintained
        requires { self.old.published ≡ self.old.list }
        ensures done { IsLookedOn self.old self.new result }
        ensures look { IsByLook T.list T.can_step self.old self.new result }
    {
        match self.free(rt) {
            Err(NoMemory) => return Maintained::NoMemory,
            Ok(()) => {}
        }
        match self.glass.look_on(LOOK_ROWS) {
            Ok(Some(step)) => self.reshape(rt, step),
            Ok(None) => Maintained::Idle,
            Err(NoRead::Shut) => Maintained::Shut,
            Err(NoRead::NoMemory) => Maintained::NoMemory,
        }
    }

    // Makes a step in both copies.
    fn reshape<R: Wait>(&mut self, rt: &R, step: Step) -> Maintained
        requires { self.old ≡ freed self.old }
        ensures done { OnStep self.old self.new step result }
    {
        let Ok(again) = copied(&step) else {
            return Maintained::NoMemory;
        };
        if self.press.append(Edit::Reshape(again)).is_err() {
            return Maintained::NoMemory;
        }
        match self.press.publish(rt) {
            Ok(_) => Maintained::Stepped { step },
            Err(_) => Maintained::NoMemory,
        }
    }
}

fn copied(step: &Step) -> Result<Step, NoMemory>
    ensures { IfOk result (λ again. again ≡ step.now) }
{
    Ok(match step {
        Step::SplitPart { path, attr } => Step::SplitPart {
            path: path.copy()?,
            attr: *attr,
        },
        Step::SplitHalf { path, half } => Step::SplitHalf {
            path: path.copy()?,
            half: *half,
        },
        Step::Merge { path } => Step::Merge { path: path.copy()? },
        Step::Shift { path, from, to, id } => Step::Shift {
            path: path.copy()?,
            from: *from,
            to: *to,
            id: *id,
        },
    })
}
