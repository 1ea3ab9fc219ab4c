//! The mailboxes of all seats, and what seats do with them.

ghost use Rattle.std.specs.Prelude.{◌≡◌, ℕ, length, OnOk, OnErr, IfErr, IfSome, IfNone};
ghost use Rattle.be_base.specs.declared.limits.TheConstants.{BOX_LETTERS};
ghost use Rattle.be_model.specs.Letters.{plain_letter};
ghost use Rattle.be_mail.specs.Letters.{IsFit, IsFor, posting, seat_of};
ghost use Rattle.be_mail.specs.Passes.{after_put, after_full, after_fetch, after_empty, Held};

use crate::naming::Post;
use crate::passes::MailPasses;
use crate::rule::{Fetches, Mailbox, Posted, Puts};
use be_model::Letter;
use be_waiting::Bell;
use std::marker::Model;
use std::sync::Wait;

/// The mailboxes, one for each seat, in order. Contracts see their names.
#[derive(Drop)]
pub struct Mail<S: Post> {
    pub(crate) boxes: Vec<Mailbox<S>>,
    // What is rung when a letter was put into the mailbox of the same place.
    pub(crate) bells: Vec<Bell>,
}

impl<S: Post> Model for Mail<S> {
    ghost use Rattle.std.specs.Prelude.{List, map};
    ghost use Rattle.atomic_table.specs.Seated.{TableId};
    ghost use Rattle.be_mail.specs.Boxes.{AreBoxes, name_of};

    ghost Value = { List TableId };

    ghost view = { λ m. map name_of m.boxes.items };

    ghost invariant = { λ m. AreBoxes S.seats m.boxes.items };
}

impl<S: Post> Mail<S> {
    /// How many seats have a mailbox.
    pub fn seats(&self) -> u32
        ensures seats { result ≡ S.seats }
        ensures boxes { length self.now ≡ S.seats }
    {
        self.boxes.len() as u32
    }

    /// Puts a letter into the mailbox of its session's seat, which is `to`. The letter comes back only where the mailbox
    /// was full at the step that looked. Whoever waits for a letter there is woken. It takes no memory.
    pub fn put<R: Wait>(
        &self,
        rt: &R,
        pass: &mut MailPasses,
        to: u32,
        letter: Letter,
    ) -> Result<(), Letter>
        requires passes { pass.old.boxes ≡ self.now }
        requires to { to ≡ seat_of S.seats letter.session.0 }
        requires fit { IsFit S.schema (plain_letter letter) }
        ensures same { (pass.new.boxes ≡ pass.old.boxes) × (pass.new.seat ≡ pass.old.seat) }
        ensures put { OnOk result (pass.new ≡ after_put pass.old to (plain_letter letter)) }
        ensures back { IfErr result (λ back. plain_letter back ≡ plain_letter letter) }
        ensures counted { OnErr result (pass.new ≡ after_full pass.old) }
        ensures full { OnErr result (Held S.schema S.seats S.found pass.old to BOX_LETTERS) }
    {
        let at = to as usize;
        let from = pass.seat;
        match self.boxes[at].push_as::<Puts<S>, R>(
            rt,
            &mut pass.passes[at],
            Posted { from, letter },
        ) {
            Ok(()) => {
                self.ring(at);
                Ok(())
            }
            Err(back) => {
                pass.fulls = pass.fulls.saturating_add(1);
                Err(back.letter)
            }
        }
    }

    /// Takes the oldest letter out of the seat's own mailbox. There is none only where the mailbox was empty at the step
    /// that looked. It takes no memory.
    pub fn fetch<R: Wait>(&self, rt: &R, pass: &mut MailPasses) -> Option<Letter>
        requires passes { pass.old.boxes ≡ self.now }
        ensures same { (pass.new.boxes ≡ pass.old.boxes) × (pass.new.seat ≡ pass.old.seat) }
        ensures fetched { IfSome result (λ l. (from : ℕ) × (pass.new ≡ after_fetch pass.old (posting from (plain_letter l))) × IsFor S.schema S.seats pass.old.seat (posting from (plain_letter l))) }
        ensures counted { IfNone result (pass.new ≡ after_empty pass.old) }
        ensures empty { IfNone result (Held S.schema S.seats S.found pass.old pass.old.seat 0) }
    {
        let at = pass.seat as usize;
        match self.boxes[at].pop_as::<Fetches<S>, R>(rt, &mut pass.passes[at]) {
            Some(posted) => Some(posted.letter),
            None => {
                pass.empties = pass.empties.saturating_add(1);
                None
            }
        }
    }

    // Wakes whoever waits for a letter in this mailbox.
    fn ring(&self, at: usize) {
        if let Some(bell) = self.bells.get(at) {
            bell.ring();
        }
    }
}
