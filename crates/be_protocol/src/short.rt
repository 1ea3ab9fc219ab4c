//! Replies and lines of a word with numbers or a name, which take no memory.

ghost use Rattle.std.specs.Prelude.{◌≡◌, ◌+◌, ◌≤◌, ◌++◌, ◌∷◌, [], length, codes};
ghost use Rattle.be_model.specs.Schemas.{Attributes};
ghost use Rattle.be_protocol.specs.Replies.{part, number, refusal_line, closing_line, with_lf, reply_text};
ghost use Rattle.be_protocol.specs.Requests.{plain_refusal};
ghost use Rattle.be_protocol.specs.Short.{plain_reply};

use crate::requests::Refusal;
use arrayvec::ArrayString;
use be_base::{Name, NoMemory, NoRead};
use be_model::Cost;
use itoa::Buffer;

/// A line of a word and three numbers, or of a word and a name.
pub type ShortText = ArrayString<96>;

/// A reply of one line that names no list.
#[derive(Clone, Copy, Debug, PartialEq, Eq)]
pub enum Short {
    Ok { n: u64 },
    Held { n: u64 },
    Bye { n: u64 },
    Dup { m: u64, id: u64 },
    NoName { m: u64 },
    Other { m: u64, id: u64 },
    Costs { n: u64, cost: Cost },
    Sent { n: u64, put: u64, dropped: u64 },
    Split { seen: u64, written: u64 },
    Refused(Refusal),
    NoMemory,
    Shut,
}

impl Short {
    /// The bytes of the reply, its LF included.
    #[tactic(auto, using(crate::proofs::Shorts::one_line))]
    pub fn text(self) -> ShortText
        ensures { (s : Attributes) → result.bytes ≡ reply_text s (plain_reply self) }
    {
        let mut text = self.line();
        push(&mut text, "\n");
        text
    }

    // The reply without its LF.
    fn line(self) -> ShortText
        ensures exact { result.bytes ≡ closing_line (plain_reply self) }
        ensures short { length result.bytes ≤ 95 }
    {
        let mut text = ShortText::new();
        match self {
            Short::Ok { n } => push_one(&mut text, "OK", n),
            Short::Held { n } => push_one(&mut text, "HELD", n),
            Short::Bye { n } => push_one(&mut text, "BYE", n),
            Short::Dup { m, id } => push_two(&mut text, "DUP", m, id),
            Short::NoName { m } => push_one(&mut text, "NONE", m),
            Short::Other { m, id } => push_two(&mut text, "OTHER", m, id),
            Short::Costs { n, cost } => push_three(&mut text, "COST", n, cost.visits, cost.tested),
            Short::Sent { n, put, dropped } => push_three(&mut text, "SENT", n, put, dropped),
            Short::Split { seen, written } => push_two(&mut text, "SPLIT", seen, written),
            Short::Refused(refusal) => push_refusal(&mut text, refusal),
            Short::NoMemory => push(&mut text, "NOMEM"),
            Short::Shut => push(&mut text, "SHUT"),
        }
        text
    }
}

// Want of memory, and a read that was refused, as replies.
impl From<NoRead> for Short {
    ghost use Rattle.be_protocol.specs.Short.{short_of};

    ghost from_gives = { λ refused short. short ≡ short_of refused };

    fn from(refused: NoRead) -> Short {
        match refused {
            NoRead::Shut => Short::Shut,
            NoRead::NoMemory => Short::NoMemory,
        }
    }
}

impl From<NoMemory> for Short {
    ghost use Rattle.be_protocol.specs.declared.short.Short.TheVariants.{NoMemory};

    ghost from_gives = { λ _ short. short ≡ NoMemory };

    fn from(_: NoMemory) -> Short {
        Short::NoMemory
    }
}

/// The line behind so many letters.
pub fn end_text(count: u64) -> ShortText
    ensures { result.bytes ≡ with_lf (codes "END" ++ number count) }
{
    let mut text = ShortText::new();
    push_one(&mut text, "END", count);
    push(&mut text, "\n");
    text
}

/// What stands before the event in the line of a letter.
pub fn note_head(n: u64, name: &Name) -> ShortText
    ensures { result.bytes ≡ ((codes "NOTE" ++ number n) ++ part name.now) ++ 32 ∷ [] }
{
    // Called for its clause on how long a name is.
    let _form = name.bytes();
    let mut text = ShortText::new();
    push_one(&mut text, "NOTE", n);
    push(&mut text, " ");
    push(&mut text, name.as_str());
    push(&mut text, " ");
    text
}

fn push_refusal(text: &mut ShortText, refusal: Refusal)
    requires { text.old.bytes ≡ [] }
    ensures exact { text.new.bytes ≡ refusal_line (plain_refusal refusal) }
    ensures short { length text.new.bytes ≤ 72 }
{
    match refusal {
        Refusal::Bad => push(text, "BAD"),
        Refusal::Long => push(text, "LONG"),
        Refusal::Attr { name } => push_named(text, "ATTR", &name),
        Refusal::Dom { name } => push_named(text, "DOM", &name),
        Refusal::Twice { name } => push_named(text, "TWICE", &name),
        Refusal::Many { count } => push_one(text, "MANY", count),
    }
}

// A word and a number.
fn push_one(text: &mut ShortText, word: &str, n: u64)
    requires start { text.old.bytes ≡ [] }
    requires short { length word.now ≤ 5 }
    ensures exact { text.new.bytes ≡ word.now ++ number n }
    ensures short { length text.new.bytes ≤ 26 }
{
    push(text, word);
    push_number(text, n);
}

// A word and two numbers.
fn push_two(text: &mut ShortText, word: &str, n: u64, m: u64)
    requires start { text.old.bytes ≡ [] }
    requires short { length word.now ≤ 5 }
    ensures exact { text.new.bytes ≡ (word.now ++ number n) ++ number m }
    ensures short { length text.new.bytes ≤ 47 }
{
    push_one(text, word, n);
    push_number(text, m);
}

// A word and three numbers.
fn push_three(text: &mut ShortText, word: &str, n: u64, m: u64, k: u64)
    requires start { text.old.bytes ≡ [] }
    requires short { length word.now ≤ 5 }
    ensures exact { text.new.bytes ≡ ((word.now ++ number n) ++ number m) ++ number k }
    ensures short { length text.new.bytes ≤ 68 }
{
    push_two(text, word, n, m);
    push_number(text, k);
}

// A word and a name.
fn push_named(text: &mut ShortText, word: &str, name: &Name)
    requires start { text.old.bytes ≡ [] }
    requires short { length word.now ≤ 5 }
    ensures exact { text.new.bytes ≡ word.now ++ part name.now }
    ensures short { length text.new.bytes ≤ 70 }
{
    // Called for its clause on how long a name is.
    let _form = name.bytes();
    push(text, word);
    push(text, " ");
    push(text, name.as_str());
}

fn push_number(text: &mut ShortText, n: u64)
    requires { length text.old.bytes + 21 ≤ 96 }
    ensures exact { text.new.bytes ≡ text.old.bytes ++ number n }
    ensures short { length text.new.bytes ≤ length text.old.bytes + 21 }
{
    let mut digits = Buffer::new();
    push(text, " ");
    push(text, digits.format(n));
}

fn push(text: &mut ShortText, piece: &str)
    requires { length text.old.bytes + length piece.now ≤ 96 }
    ensures { text.new.bytes ≡ text.old.bytes ++ piece.now }
{
    match text.try_push_str(piece) {
        Ok(()) => {}
        Err(_) => unreachable!(),
    }
}
