//! A box of letters.

ghost use Rattle.std.specs.Prelude.{◌≡◌, ◌+◌, ◌≤◌, ◌++◌, [], ◌∷◌, length, map, IfOk, IfSome};
ghost use Rattle.std.specs.Option.{IfNone};
ghost use Rattle.be_base.specs.declared.limits.TheConstants.{BOX_LETTERS};
ghost use Rattle.be_model.specs.Letters.{plain_letter};

use be_base::{BOX_LETTERS, NoMemory};
use be_model::Letter;
use std::alloc::Global;
use std::collections::VecDeque;
use std::marker::Model;

/// Letters in order, at most 1024. Once it is made, it takes no memory.
#[derive(Drop)]
pub struct LetterBox {
    letters: VecDeque<Letter>,
}

impl Model for LetterBox {
    ghost use Rattle.std.specs.Prelude.{◌≤◌, List, map};
    ghost use Rattle.std.specs.VecDeque.{deque_len, deque_capacity};
    ghost use Rattle.be_base.specs.declared.limits.TheConstants.{BOX_LETTERS};
    ghost use Rattle.be_model.specs.Letters.{PlainLetter, plain_letter};

    ghost Value = { List PlainLetter };

    ghost view = { λ b. map plain_letter b.letters.items };

    ghost invariant = { λ b. (deque_len b.letters ≤ BOX_LETTERS) × (BOX_LETTERS ≤ deque_capacity b.letters) };
}

impl LetterBox {
    pub fn make(alloc: Global) -> Result<LetterBox, NoMemory>
        ensures { IfOk result (λ letters. letters ≡ []) }
    {
        let letters = VecDeque::with_capacity(alloc, BOX_LETTERS)?;
        Ok(LetterBox { letters })
    }

    /// How many more letters find a place.
    pub fn room(&self) -> usize
        ensures { result + length self.now ≡ BOX_LETTERS }
    {
        BOX_LETTERS - self.letters.len()
    }

    /// Puts letters last, in their order.
    pub fn put_all(&mut self, letters: Vec<Letter>)
        requires { length self.old + length letters.items ≤ BOX_LETTERS }
        ensures { self.new ≡ self.old ++ map plain_letter letters.items }
    {
        for letter in letters {
            self.put(letter);
        }
    }

    fn put(&mut self, letter: Letter)
        requires { length self.old + 1 ≤ BOX_LETTERS }
        ensures { self.new ≡ self.old ++ plain_letter letter ∷ [] }
    {
        self.letters.push_back_reserved(letter);
    }

    /// Takes the first letter out.
    pub fn take(&mut self) -> Option<Letter>
        ensures first { IfSome result (λ letter. self.old ≡ plain_letter letter ∷ self.new) }
        ensures none { IfNone result ((self.old ≡ []) × (self.new ≡ [])) }
    {
        self.letters.pop_front()
    }
}
