//! The one writer.

ghost use Rattle.std.specs.Prelude.{◌≡◌, ◌++◌, ◌<◌, [], true, false, List, length, drop, fold, IfOk, OnOk, OnErr, MatchBool, MatchResult};
ghost use Rattle.std.specs.Option.{option_to_list};
ghost use Rattle.be_base.specs.Lists.{BeginsWith};
ghost use Rattle.be_change.specs.Entries.{entries_in};
ghost use Rattle.be_change.specs.Sound.{Sound};
ghost use Rattle.be_published.specs.Notes.{MayEdit, edited, stepped, noted, IsLoose};
ghost use Rattle.be_published.specs.States.{settled, HasPending, new_glass};
ghost use Rattle.be_model.specs.declared.paths.Step.{Step};

use crate::front::Front;
use crate::glass::Glass;
use crate::history::{Book, Naming};
use crate::notes::{Note, led_on};
use crate::sheet::Sheet;
use crate::told::Told;
use crate::trail::Trail;
use crate::writing::{handed, is_settled, shown};
use be_base::NoMemory;
use be_copy::Edit;
use be_model::{Change, Step};
use core::mem::replace_with;
use crossbeam_utils::rule::Unruled;
use left_right::writer::Writer;
use std::alloc::{AllocError, Global};
use std::marker::Model;
use std::sync::{Arc, Wait};

/// The one writer. Contracts see what is published, and that with what is pending. It is not `Drop`: end it by `end`.
pub struct Press<T: Sheet<J>, J: Naming> {
    writer: Writer<T, Note<J>, (), Unruled>,
    book: Book<J>,
    // All of the history.
    front: Front<J>,
    // A note that the writer had no memory for. It is handed over before the next one.
    late: Option<Note<J>>,
    // Whether a step is pending.
    loose: bool,
    // The steps that were published, and these with the pending ones.
    reshaped: Trail<Step>,
    steps: Trail<Step>,
}

impl<T: Sheet<J>, J: Naming> Model for Press<T, J> {
    ghost use Rattle.std.specs.Prelude.{◌++◌, drop};
    ghost use Rattle.std.specs.Option.{option_to_list};
    ghost use Rattle.be_published.specs.Notes.{ArePending, IsLoose};
    ghost use Rattle.be_published.specs.States.{PressState};

    ghost Value = { PressState };

    ghost view = { λ p. record { published = T.list p.writer.desk.shown.value; list = p.front; reshaped = p.reshaped.items; steps = p.steps.items } };

    ghost invariant = { λ p. ArePending (T.list p.writer.desk.shown.value) p.reshaped.items (drop p.writer.behind p.writer.log.items ++ option_to_list p.late) p.front p.steps.items
        × IsLoose p.loose p.reshaped.items p.steps.items };
}

impl<T: Sheet<J>, J: Naming> Press<T, J> {
    /// The writer over two copies of one list, with room for so many readers.
    pub(crate) fn make(
        alloc: Global,
        book: Book<J>,
        front: Front<J>,
        first: T,
        second: T,
        readers: u32,
    ) -> Result<Press<T, J>, NoMemory>
        requires alike { T.state first ≡ T.state second }
        requires list { T.list first ≡ front }
        requires readers { 0 < readers }
        ensures { IfOk result (λ press. press ≡ settled front []) }
    {
        match Writer::new(alloc, first, second, readers as usize) {
            Ok(writer) => Ok(Press {
                writer,
                book,
                front,
                late: None,
                loose: false,
                reshaped: Trail::new(),
                steps: Trail::new(),
            }),
            Err(_) => Err(NoMemory),
        }
    }

    // A reader more, which knows what is published.
    pub(crate) fn glass(&self) -> Result<Glass<T, J>, NoMemory>
        ensures { IfOk result (λ glass. glass ≡ new_glass self.now.published) }
    {
        match self.writer.factory().reader() {
            Ok(reader) => Ok(Glass::over(reader, self.writer.published().front().again())),
            Err(_) => Err(NoMemory),
        }
    }

    /// The published length.
    pub fn len(&self) -> u64
        ensures len { result ≡ length self.now.published }
        ensures sound { Sound J.schema self.now.list }
        ensures begins { BeginsWith self.now.list self.now.published }
    {
        let _ = self.front.len();
        self.writer.published().front().len()
    }

    /// All of the history: what is published, and what is pending.
    pub fn whole(&self) -> &Front<J>
        ensures { result.now ≡ self.now.list }
    {
        &self.front
    }

    /// Whether nothing is pending, no change and no step.
    pub fn is_settled(&self) -> bool
        ensures { MatchBool result (self.now ≡ settled self.now.list self.now.steps) (HasPending self.now) }
    {
        !self.has_changes() && !self.loose
    }

    /// Whether a change is pending.
    pub fn has_changes(&self) -> bool
        ensures { MatchBool result (length self.now.published < length self.now.list) (self.now.published ≡ self.now.list) }
    {
        self.writer.published().front().len() < self.front.len()
    }

    /// What is published now, for a glass to learn.
    pub fn tell(&self) -> Told<J>
        ensures { result ≡ self.now.published }
    {
        Told {
            front: self.writer.published().front().again(),
        }
    }

    /// Appends the published changes, or none.
    pub fn changes(&self, changes: &mut Vec<Arc<Change>>) -> Result<(), NoMemory>
        ensures put { OnOk result (entries_in changes.new.items ≡ entries_in changes.old.items ++ self.now.published) }
        ensures refused { OnErr result (changes.new.items ≡ changes.old.items) }
    {
        let copy = self.writer.published();
        copy.tail(0, copy.front().len(), changes)
    }

    /// Puts an edit last among what is pending, or hands it back.
    pub fn append(&mut self, edit: Edit) -> Result<(), (Edit, NoMemory)>
        requires { MayEdit J.schema self.old.list edit }
        ensures published { (self.new.published ≡ self.old.published) × (self.new.reshaped ≡ self.old.reshaped) }
        ensures pending { MatchResult result
            (λ _. (self.new.list ≡ edited self.old.list edit) × (self.new.steps ≡ stepped self.old.steps edit))
            (λ back. (back.0 ≡ edit) × (self.new ≡ self.old)) }
    {
        if !is_settled(&mut self.writer, &mut self.late) {
            return Err((edit, NoMemory));
        }
        let Ok(front) = led_on(&self.front, &self.book, &edit) else {
            return Err((edit, NoMemory));
        };
        take_note(&edit, &mut self.steps, &mut self.loose);
        let note = Note::make(edit, front.again());
        self.late = handed(&mut self.writer, note);
        self.front = front;
        Ok(())
    }

    /// Shows readers all that is pending, in order, and gives the published length. It may wait for readers.
    pub fn publish<R: Wait>(&mut self, rt: &R) -> Result<u64, NoMemory>
        ensures published { MatchResult result (λ n. (self.new ≡ settled self.old.list self.old.steps) × (n ≡ length self.old.list)) (λ _. self.new ≡ self.old) }
    {
        if !is_settled(&mut self.writer, &mut self.late) {
            return Err(NoMemory);
        }
        let done = replace_with(
            &mut self.writer,
            rt,
            |writer: Writer<T, Note<J>, (), Unruled>, rt: &R| -> (
                Writer<T, Note<J>, (), Unruled>,
                Result<(), AllocError>,
            )
                ensures { MatchResult result.1
                    (λ _. (T.list result.0.desk.shown.value ≡ fold noted (T.list writer.desk.shown.value) (drop writer.behind writer.log.items)) × (drop result.0.behind result.0.log.items ≡ []))
                    (λ _. (T.list result.0.desk.shown.value ≡ T.list writer.desk.shown.value) × (drop result.0.behind result.0.log.items ≡ drop writer.behind writer.log.items)) }
            { shown(rt, writer) },
        );
        match done {
            Ok(()) => {
                self.reshaped = self.steps.again();
                self.loose = false;
                Ok(self.front.len())
            }
            Err(_) => Err(NoMemory),
        }
    }

    /// Gives it up, with what is pending. It may wait for readers.
    pub fn end<R: Wait>(self, rt: &R) {
        let Press {
            writer,
            book: _,
            front: _,
            late: _,
            loose: _,
            reshaped: _,
            steps: _,
        } = self;
        writer.take(rt);
    }
}

// Puts a step last among all steps. It is pending then.
fn take_note(edit: &Edit, steps: &mut Trail<Step>, loose: &mut bool)
    ensures steps { steps.new.items ≡ stepped steps.old.items edit.now }
    ensures loose { (made : List Step) → IsLoose loose.old made steps.old.items → IsLoose loose.new made steps.new.items }
{
    match edit {
        Edit::Reshape(step) => {
            *steps = steps.and(step);
            *loose = true;
        }
        Edit::Change(_) => {}
    }
}
