//! The rule of one mailbox, and what each kind of step does to a pass.

use crate::naming::{Post, ThisBox};
use be_model::Letter;
use crossbeam_queue::protocol::{Join, Lesson, Outcome, Protocol, Split};
use crossbeam_queue::{Pass, RuledArrayQueue};
use std::marker::{Model, PhantomData};

/// A letter in a mailbox, with the seat that put it. Contracts see it as plain data.
#[derive(Drop)]
pub struct Posted {
    pub from: u32,
    pub letter: Letter,
}

impl Model for Posted {
    ghost use Rattle.be_mail.specs.Letters.{Posting, posting};
    ghost use Rattle.be_model.specs.Letters.{plain_letter};

    ghost Value = { Posting };

    ghost view = { λ p. posting p.from (plain_letter p.letter) };
}

/// What a pass shows of one mailbox. It stands in proofs alone: no value of it is made.
pub struct Hand {}

impl Model for Hand {
    ghost use Rattle.be_mail.specs.Rule.{HandState, idle};

    ghost Value = { HandState };

    ghost view = { λ h. idle };
}

/// A mailbox.
pub type Mailbox<S> = RuledArrayQueue<Posted, Hand, Rule<S>>;

/// A pass at one mailbox. It has no bytes.
pub type BoxPass = Pass<Posted, Hand>;

/// The rule of a mailbox.
pub struct Rule<S: Post> {
    of: PhantomData<S>,
}

impl<S: Post> Protocol<Posted, Hand> for Rule<S> {
    ghost use Rattle.be_mail.specs.Rule.{first_hand, Delivers};

    ghost holds = { Delivers S.schema S.seats S.found };

    ghost first = { first_hand S.seats };
}

/// A put, or a put that found the mailbox full.
pub struct Puts<S: Post> {
    of: PhantomData<S>,
}

impl<S: Post> Outcome<Posted, Hand> for Puts<S> {
    ghost use Rattle.std.specs.Prelude.{◌≡◌};
    ghost use Rattle.be_mail.specs.Rule.{with_put};

    ghost then = { λ v x w. w ≡ with_put v x };
}

impl<S: Post> Lesson<Posted, Hand> for Puts<S> {
    ghost use Rattle.be_mail.specs.Rule.{Sees};

    ghost fact = { Sees S.schema S.seats S.found };
}

/// A fetch, or a fetch that found the mailbox empty.
pub struct Fetches<S: Post> {
    of: PhantomData<S>,
}

impl<S: Post> Outcome<Posted, Hand> for Fetches<S> {
    ghost use Rattle.std.specs.Prelude.{◌≡◌};
    ghost use Rattle.be_mail.specs.Letters.{IsFor};
    ghost use Rattle.be_mail.specs.Rule.{with_taken};

    ghost then = { λ v x w. (w ≡ with_taken v x) × IsFor S.schema S.seats v.at.seat x };
}

impl<S: Post> Lesson<Posted, Hand> for Fetches<S> {
    ghost use Rattle.be_mail.specs.Rule.{Sees};

    ghost fact = { Sees S.schema S.seats S.found };
}

/// A look at what the mailbox holds.
pub struct Looks<S: Post> {
    of: PhantomData<S>,
}

impl<S: Post> Lesson<Posted, Hand> for Looks<S> {
    ghost use Rattle.be_mail.specs.Rule.{Sees};

    ghost fact = { Sees S.schema S.seats S.found };
}

/// The rule is told which mailbox it is, while nothing was put.
pub struct Names<N: ThisBox> {
    of: PhantomData<N>,
}

impl<N: ThisBox> Split<Hand> for Names<N> {
    ghost use Rattle.be_mail.specs.Rule.{named, idle};

    ghost left = { named N.mailbox };

    ghost right = { λ v. idle };
}

/// The first of the pass's seats gets a pass of its own.
pub struct HandOut;

impl Split<Hand> for HandOut {
    ghost use Rattle.be_mail.specs.Rule.{later_seats, one_seat};

    ghost left = { later_seats };

    ghost right = { one_seat };
}

/// Two passes become one.
pub struct Both;

impl Join<Hand> for Both {
    ghost use Rattle.be_mail.specs.Rule.{both, idle};

    ghost both = { both };

    ghost spent = { idle };
}
