//! What was published at a moment.

use crate::front::Front;
use crate::history::Naming;
use std::marker::Model;

/// The list that was published when this was made, for a glass to learn.
#[derive(Drop)]
pub struct Told<J: Naming> {
    pub(crate) front: Front<J>,
}

impl<J: Naming> Model for Told<J> {
    ghost use Rattle.std.specs.Prelude.{List};
    ghost use Rattle.be_change.specs.History.{Entry};

    ghost Value = { List Entry };

    ghost view = { λ t. t.front };
}
