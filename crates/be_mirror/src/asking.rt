//! What a line asks of a mirror.

ghost use Rattle.std.specs.Prelude.{◌≡◌, true, IfOk};
ghost use Rattle.be_io.specs.Lines as line;
ghost use Rattle.be_model.specs.Schemas.{Attributes};
ghost use Rattle.be_protocol.specs.Requests.{plain_request, request_lies};
ghost use Rattle.be_mirror.specs.Asked.{mirror_reading, mirror_answered, is_mirror_command, plain_mirror_ask, mirror_ask_lies, ReadsMirrorAsk};

use be_base::{NoMemory, Scan, Token, next_token};
use be_model::{Event, Schema};
use be_protocol::{Refusal, Request, read_line};
use std::alloc::Global;

/// What a line asks for.
#[derive(Drop)]
pub enum Ask {
    Publish(Event),
    Costing(Event),
    Dumping,
    /// At most so many changes, from this place on.
    Tailing { place: u64, max: u64 },
    Quit,
    Refused(Refusal),
}

impl Ask {
    // What a session would be asked, as far as a mirror answers it.
    fn of(request: Request) -> Ask
        ensures ask { plain_mirror_ask result ≡ mirror_answered (plain_request request) }
        ensures lies { (s : Attributes) → request_lies s request ≡ true → mirror_ask_lies s result ≡ true }
    {
        match request {
            Request::Publish(event) => Ask::Publish(event),
            Request::Costing(event) => Ask::Costing(event),
            Request::Dumping => Ask::Dumping,
            Request::Tailing { place, max, .. } => Ask::Tailing { place, max },
            Request::Quit => Ask::Quit,
            Request::Refused(refusal) => Ask::Refused(refusal),
            _ => Ask::Refused(Refusal::Bad),
        }
    }
}

/// Reads a line. Only an event takes memory.
pub fn read_ask(alloc: Global, schema: &Schema, text: &[u8]) -> Result<Ask, NoMemory>
    ensures read { ReadsMirrorAsk result (mirror_reading schema.now (line.text text.now)) }
    ensures lies { IfOk result (λ ask. mirror_ask_lies schema.now ask ≡ true) }
{
    let Scan::Found(Token::Word(word), _) = next_token(text) else {
        return Ok(Ask::Refused(Refusal::Bad));
    };
    if !is_command(word) {
        return Ok(Ask::Refused(Refusal::Bad));
    }
    let request = read_line(alloc, schema, text)?;
    Ok(Ask::of(request))
}

fn is_command(word: &[u8]) -> bool
    ensures { result ≡ is_mirror_command word.now }
{
    word == b"PUB".as_slice()
        || word == b"COST".as_slice()
        || word == b"DUMP".as_slice()
        || word == b"TAIL".as_slice()
        || word == b"QUIT".as_slice()
}
