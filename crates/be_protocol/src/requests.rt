//! What a session's line asks for.

ghost use Rattle.std.specs.Prelude.{◌≡◌, List, Option, true, Some, IfOk, option_and_then};
ghost use Rattle.be_model.specs.Lies.{event_lies};
ghost use Rattle.be_model.specs.Schemas.{Attributes};
ghost use Rattle.be_base.specs.Numbers.{count_of};
ghost use Rattle.be_base.specs.Tokens.{Lexeme, word, tokens, put_token};
ghost use Rattle.be_io.specs.Lines as line;
ghost use Rattle.be_change.specs.Requests as asked;
ghost use Rattle.be_protocol.specs.Readings.{reading, commanded, subscription_asked, removal_asked, of_event, fetch, tail, number_asked, wait_in, alone, expr_refusal, event_refusal};
ghost use Rattle.be_expr.specs.Expressions.{IsKnown as IsKnownExpr};
ghost use Rattle.be_event.specs.Events.{IsKnown as IsKnownEvent};
ghost use Rattle.be_protocol.specs.Requests.{Reads, asks, asked_by, asked_in, asks_nothing, plain_request, request_lies, Refuses};

use be_base::{ASKED, AttrNo, Name, NoMemory, Scan, Token, next_token, read_count};
use be_event::{EventFault, read_event};
use be_expr::{ExprFault, read_expr};
use be_model::{Conj, Event, Schema};
use std::alloc::Global;

// The limit of this name in be_base, which the definitions speak of.
const WAIT_MILLIS: u64 = 60000;

/// A condition under a name.
#[derive(Drop)]
pub struct Subscription {
    pub name: Name,
    pub conj: Conj,
}

/// Why a line asks nothing.
#[derive(Clone, Copy, Debug, PartialEq, Eq)]
pub enum Refusal {
    /// It has no reading.
    Bad,
    /// It is over the limit.
    Long,
    /// The first attribute that the schema doesn't have.
    Attr { name: Name },
    /// The attribute of the first value outside its domain.
    Dom { name: Name },
    /// The first attribute that an event has a second time.
    Twice { name: Name },
    /// How many predicates, or values of a set, there are, where there are too many.
    Many { count: u64 },
}

/// What a line asks for.
#[derive(Drop)]
pub enum Request {
    Subscribe(Subscription),
    Unsubscribe(Name),
    Publish(Event),
    Costing(Event),
    Listing,
    Sending(Event),
    /// At most so many letters. Where there are none it may wait so many milliseconds.
    Fetching { max: u64, millis: u64 },
    Dumping,
    /// At most so many changes, from this place on. Where there is none it may wait so many milliseconds.
    Tailing { place: u64, max: u64, millis: u64 },
    Quit,
    Refused(Refusal),
}

// What a line asks of its event.
#[derive(Clone, Copy)]
enum EventCommand {
    Publish,
    Cost,
    Send,
}

impl EventCommand {
    fn of(self, event: Event) -> Request
        ensures request { plain_request result ≡ asks self event }
        ensures lies { (s : Attributes) → request_lies s result ≡ event_lies s event }
    {
        match self {
            EventCommand::Publish => Request::Publish(event),
            EventCommand::Cost => Request::Costing(event),
            EventCommand::Send => Request::Sending(event),
        }
    }
}

// What a line's first word says how to read the words after it.
#[derive(Clone, Copy)]
enum Command {
    Sub,
    Unsub,
    OfEvent(EventCommand),
    List,
    Fetch,
    Dump,
    Tail,
    Quit,
}

impl Command {
    // The table of commands.
    fn of_word(word: &[u8]) -> Option<Command>
        ensures { (s : Attributes) (ts : Option (List Lexeme)) → commanded s word.now ts ≡ asked_in result s ts }
    {
        match word {
            _ if word == b"SUB".as_slice() => Some(Command::Sub),
            _ if word == b"UNSUB".as_slice() => Some(Command::Unsub),
            _ if word == b"PUB".as_slice() => Some(Command::OfEvent(EventCommand::Publish)),
            _ if word == b"COST".as_slice() => Some(Command::OfEvent(EventCommand::Cost)),
            _ if word == b"LIST".as_slice() => Some(Command::List),
            _ if word == b"SEND".as_slice() => Some(Command::OfEvent(EventCommand::Send)),
            _ if word == b"FETCH".as_slice() => Some(Command::Fetch),
            _ if word == b"DUMP".as_slice() => Some(Command::Dump),
            _ if word == b"TAIL".as_slice() => Some(Command::Tail),
            _ if word == b"QUIT".as_slice() => Some(Command::Quit),
            _ => None,
        }
    }
}

/// Reads a line. Want of memory is answered only to a line without a fault.
#[tactic(auto, using(crate::proofs::Commanded::request_word))]
pub fn read_line(alloc: Global, schema: &Schema, text: &[u8]) -> Result<Request, NoMemory>
    ensures read { Reads result (reading schema.now (line.text text.now)) }
    ensures lies { IfOk result (λ request. request_lies schema.now request ≡ true) }
{
    let Scan::Found(Token::Word(word), rest) = next_token(text) else {
        return Ok(Request::Refused(Refusal::Bad));
    };
    match Command::of_word(word) {
        Some(command) => read_command(alloc, schema, command, rest),
        None => Ok(Request::Refused(Refusal::Bad)),
    }
}

// Reads the words after a command.
fn read_command(
    alloc: Global,
    schema: &Schema,
    command: Command,
    rest: &[u8],
) -> Result<Request, NoMemory>
    ensures read { Reads result (asked_by command schema.now (tokens rest.now)) }
    ensures lies { IfOk result (λ request. request_lies schema.now request ≡ true) }
{
    match command {
        Command::Sub => read_subscription(alloc, schema, rest),
        Command::Unsub => Ok(read_removal(rest)),
        Command::OfEvent(asks) => read_event_line(alloc, schema, asks, rest),
        Command::List => Ok(read_end(Request::Listing, rest)),
        Command::Fetch => Ok(read_fetch(rest)),
        Command::Dump => Ok(read_end(Request::Dumping, rest)),
        Command::Tail => Ok(read_tail(rest)),
        Command::Quit => Ok(read_end(Request::Quit, rest)),
    }
}

// The request, where no token follows.
fn read_end(request: Request, rest: &[u8]) -> Request
    requires { asks_nothing request ≡ true }
    ensures read { plain_request result ≡ alone (plain_request request) (tokens rest.now) }
    ensures free { asks_nothing result ≡ true }
{
    match next_token(rest) {
        Scan::End => request,
        _ => Request::Refused(Refusal::Bad),
    }
}

// A name, and no token after it.
fn read_removal(text: &[u8]) -> Request
    ensures read { plain_request result ≡ removal_asked (tokens text.now) }
    ensures free { asks_nothing result ≡ true }
{
    let Scan::Found(Token::Word(name), rest) = next_token(text) else {
        return Request::Refused(Refusal::Bad);
    };
    match Name::read(name) {
        Ok(name) => read_end(Request::Unsubscribe(name), rest),
        Err(_) => Request::Refused(Refusal::Bad),
    }
}

// A number of letters, and how long the line may wait, where that is said.
fn read_fetch(text: &[u8]) -> Request
    ensures read { plain_request result ≡ fetch (tokens text.now) }
    ensures free { asks_nothing result ≡ true }
{
    let Scan::Found(Token::Word(max), rest) = next_token(text) else {
        return Request::Refused(Refusal::Bad);
    };
    match (read_asked(max), read_wait(rest)) {
        (Some(max), Some(millis)) => Request::Fetching { max, millis },
        _ => Request::Refused(Refusal::Bad),
    }
}

// A place and a number of changes, and how long the line may wait, where that is said.
fn read_tail(text: &[u8]) -> Request
    ensures read { plain_request result ≡ tail (tokens text.now) }
    ensures free { asks_nothing result ≡ true }
{
    let Scan::Found(Token::Word(place), rest) = next_token(text) else {
        return Request::Refused(Refusal::Bad);
    };
    let Scan::Found(Token::Word(max), rest) = next_token(rest) else {
        return Request::Refused(Refusal::Bad);
    };
    match (read_count(place), read_asked(max), read_wait(rest)) {
        (Some(place), Some(max), Some(millis)) => Request::Tailing { place, max, millis },
        _ => Request::Refused(Refusal::Bad),
    }
}

// How many milliseconds a line may wait: none where it ends here.
fn read_wait(text: &[u8]) -> Option<u64>
    ensures { result ≡ option_and_then wait_in (tokens text.now) }
{
    let (word, rest) = match next_token(text) {
        Scan::End => return Some(0),
        Scan::Found(Token::Word(word), rest) => (word, rest),
        _ => return None,
    };
    let millis = read_count(word)?;
    match next_token(rest) {
        Scan::End if millis <= WAIT_MILLIS => Some(millis),
        _ => None,
    }
}

// A number of letters or changes that a line may ask for.
fn read_asked(word: &[u8]) -> Option<u64>
    ensures { result ≡ number_asked (count_of word.now) }
{
    let count = read_count(word)?;
    if count <= ASKED { Some(count) } else { None }
}

fn read_subscription(alloc: Global, schema: &Schema, text: &[u8]) -> Result<Request, NoMemory>
    ensures read { Reads result (subscription_asked schema.now (tokens text.now)) }
    ensures lies { IfOk result (λ request. request_lies schema.now request ≡ true) }
{
    let Scan::Found(Token::Word(name), rest) = next_token(text) else {
        return Ok(Request::Refused(Refusal::Bad));
    };
    let Ok(name) = Name::read(name) else {
        return Ok(Request::Refused(Refusal::Bad));
    };
    match read_expr(alloc, schema, rest) {
        Ok(conj) => Ok(Request::Subscribe(Subscription { name, conj })),
        Err(fault) => Ok(Request::Refused(of_expr(schema, fault)?)),
    }
}

// An event, and no token after it.
fn read_event_line(
    alloc: Global,
    schema: &Schema,
    command: EventCommand,
    text: &[u8],
) -> Result<Request, NoMemory>
    ensures read { Reads result (of_event (asks command) schema.now (tokens text.now)) }
    ensures lies { IfOk result (λ request. request_lies schema.now request ≡ true) }
{
    match read_event(alloc, schema, text) {
        Ok(event) => Ok(command.of(event)),
        Err(fault) => Ok(Request::Refused(of_event(schema, fault)?)),
    }
}

// A fault of a condition as a refusal.
fn of_expr(schema: &Schema, fault: ExprFault) -> Result<Refusal, NoMemory>
    requires { IsKnownExpr schema.now fault }
    ensures { Refuses result (fault ≡ ExprFault.NoMemory) (expr_refusal schema.now fault) }
{
    match fault {
        ExprFault::Bad => Ok(Refusal::Bad),
        ExprFault::Attr { name } => Ok(Refusal::Attr { name }),
        ExprFault::Dom { attr } => Ok(Refusal::Dom {
            name: schema.name(attr),
        }),
        ExprFault::Many { count } => Ok(Refusal::Many { count }),
        ExprFault::NoMemory => Err(NoMemory),
    }
}

// A fault of an event as a refusal.
fn of_event(schema: &Schema, fault: EventFault) -> Result<Refusal, NoMemory>
    requires { IsKnownEvent schema.now fault }
    ensures { Refuses result (fault ≡ EventFault.NoMemory) (event_refusal schema.now fault) }
{
    match fault {
        EventFault::Bad => Ok(Refusal::Bad),
        EventFault::Attr { name } => Ok(Refusal::Attr { name }),
        EventFault::Dom { attr } => Ok(Refusal::Dom {
            name: schema.name(attr),
        }),
        EventFault::Twice { attr } => Ok(Refusal::Twice {
            name: schema.name(attr),
        }),
        EventFault::Many { count } => Ok(Refusal::Many { count }),
        EventFault::NoMemory => Err(NoMemory),
    }
}
