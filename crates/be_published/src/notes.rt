//! What the writer hands to both copies.

ghost use Rattle.std.specs.Prelude.{◌≡◌, OnErr, IfOk, IfErr};
ghost use Rattle.be_published.specs.Notes.{MayEdit, edited, leads_to, EndsWith};

use crate::front::Front;
use crate::history::{Book, Naming};
use be_base::{LOG_CHANGES, NoMemory};
use be_copy::Edit;
use std::marker::Model;

/// An edit for both copies, with the beginning of the history that it leads to.
#[derive(Drop)]
pub struct Note<J: Naming> {
    pub(crate) edit: Edit,
    pub(crate) front: Front<J>,
}

impl<J: Naming> Model for Note<J> {
    ghost use Rattle.be_published.specs.Notes.{Noted, leads_to, EndsWith};

    ghost Value = { Noted };

    ghost view = { λ n. leads_to n.edit n.front };

    ghost invariant = { λ n. EndsWith n.edit n.front };
}

impl<J: Naming> Note<J> {
    pub(crate) fn make(edit: Edit, front: Front<J>) -> Note<J>
        requires { EndsWith edit front }
        ensures { result ≡ leads_to edit front }
    {
        Note { edit, front }
    }
}

/// The beginning that an edit leads to. A change is put into the history by it; there may be no room for more.
pub fn led_on<J: Naming>(
    front: &Front<J>,
    book: &Book<J>,
    edit: &Edit,
) -> Result<Front<J>, NoMemory>
    requires may { MayEdit J.schema front.now edit.now }
    ensures edited { IfOk result (λ next. next ≡ edited front.now edit.now) }
    ensures ends { IfOk result (λ next. EndsWith edit.now next) }
{
    let mut next = front.again();
    match edit {
        Edit::Reshape(_) => Ok(next),
        Edit::Change(change) => {
            if next.len() < LOG_CHANGES as u64 && next.push(book, change) {
                Ok(next)
            } else {
                Err(NoMemory)
            }
        }
    }
}
