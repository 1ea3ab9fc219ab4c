//! What the words after the program's name ask for.

ghost use Rattle.std.specs.Prelude.{◌≡◌, map, option_map, ◌<◌, ◌≤◌, IfOk, IfSome, length};
ghost use Rattle.be_base.specs.Readers.{now_of};
ghost use Rattle.be_command_line.specs.Words.{IsAnswerTo, word_texts, plain_program_request, plain_service, plain_sessions, command_request, run_of, gen_of, cover_of, follow_of, drill_of, heat_of, serve_of, mirror_of, service_of, sessions_of, once_loaded, count_within, count_from_one, IsWithin};

use crate::arguments::{LOAD, WORD, read_arguments, values_of};
use be_base::{
    GENERATED_EVENTS, GENERATED_SUBSCRIPTIONS, LINKS, Name, NoMemory, ROUNDS, SEATS, read_count,
};
use std::alloc::Global;

/// Ports are numbered from 1.
const PORTS: u64 = 65535;

/// What the words ask for.
#[derive(Debug, Drop, PartialEq, Eq)]
pub enum Request<'a> {
    /// One session over the input and the output, with the files of the schema and of the opening table.
    Run {
        schema: &'a str,
        load: Option<&'a str>,
    },
    /// A generated workload.
    Gen {
        number: u64,
        subs: u64,
        events: u64,
    },
    /// Which rows of a load file are covered by the one of this name.
    Cover {
        schema: &'a str,
        file: &'a str,
        name: &'a str,
    },
    /// A session for each file, each on a worker of its own, beside a maintainer that calls so often.
    Drill {
        schema: &'a str,
        load: Option<&'a str>,
        rounds: u64,
        files: Vec<&'a str>,
    },
    /// As a drill, with counts of what the answered events ask for.
    Heat {
        schema: &'a str,
        rounds: u64,
        files: Vec<&'a str>,
    },
    /// So many links of this port, served by workers of so many seats.
    Serve {
        schema: &'a str,
        load: Option<&'a str>,
        port: u16,
        seats: u32,
        links: u64,
    },
    /// Events answered from the list of changes in this file, which another server wrote.
    Follow {
        schema: &'a str,
        file: &'a str,
    },
    /// So many links of this port, answered by workers of so many seats from the list that the input gives.
    Mirror {
        schema: &'a str,
        port: u16,
        seats: u32,
        links: u64,
    },
}

// What `drill` and `heat` take: the schema's file, the maintainer's calls, and the sessions' files.
#[derive(Drop)]
struct Sessions<'a> {
    schema: &'a str,
    rounds: u64,
    files: Vec<&'a str>,
}

// What `serve` and `mirror` take: the schema's file, the port, the seats, and the links.
#[derive(Drop)]
struct Service<'a> {
    schema: &'a str,
    port: u16,
    seats: u32,
    links: u64,
}

/// Why there is no request.
#[derive(Clone, Copy, Debug, PartialEq, Eq)]
pub enum WordsFault {
    /// The words have no reading.
    Refused,
    NoMemory,
}

impl From<NoMemory> for WordsFault {
    ghost use Rattle.be_command_line.specs.declared.words.WordsFault.TheVariants.{NoMemory};

    ghost from_gives = { λ fault words. words ≡ NoMemory };

    fn from(_: NoMemory) -> WordsFault {
        WordsFault::NoMemory
    }
}

// `run SCHEMA`, with one `--load FILE` or none.
fn run_of<'a>(words: &[&'a str], loads: &[&'a str]) -> Option<Request<'a>>
    ensures request { option_map plain_program_request result ≡ run_of (map now_of words.now) (map now_of loads.now) }
    ensures within { IfSome result IsWithin }
{
    match (words, loads) {
        ([schema], []) => Some(Request::Run { schema, load: None }),
        ([schema], [load]) => Some(Request::Run {
            schema,
            load: Some(load),
        }),
        _ => None,
    }
}

// `gen NUMBER SUBS EVENTS`.
fn gen_of<'a>(words: &[&'a str], loads: &[&'a str]) -> Option<Request<'a>>
    ensures request { option_map plain_program_request result ≡ gen_of (map now_of words.now) (map now_of loads.now) }
    ensures within { IfSome result IsWithin }
{
    let ([number, subs, events], []) = (words, loads) else {
        return None;
    };
    Some(Request::Gen {
        number: read_count(number.as_bytes())?,
        subs: count_within(GENERATED_SUBSCRIPTIONS, subs)?,
        events: count_within(GENERATED_EVENTS, events)?,
    })
}

// `cover SCHEMA FILE NAME`.
fn cover_of<'a>(words: &[&'a str], loads: &[&'a str]) -> Option<Request<'a>>
    ensures request { option_map plain_program_request result ≡ cover_of (map now_of words.now) (map now_of loads.now) }
    ensures within { IfSome result IsWithin }
{
    let ([schema, file, name], []) = (words, loads) else {
        return None;
    };
    match Name::read(name.as_bytes()) {
        Ok(_) => Some(Request::Cover { schema, file, name }),
        Err(_) => None,
    }
}

// `follow SCHEMA FILE`.
fn follow_of<'a>(words: &[&'a str], loads: &[&'a str]) -> Option<Request<'a>>
    ensures request { option_map plain_program_request result ≡ follow_of (map now_of words.now) (map now_of loads.now) }
    ensures within { IfSome result IsWithin }
{
    match (words, loads) {
        ([schema, file], []) => Some(Request::Follow { schema, file }),
        _ => None,
    }
}

// `SCHEMA ROUNDS FILE..`.
fn sessions_of<'a>(alloc: Global, words: &[&'a str]) -> Result<Option<Sessions<'a>>, NoMemory>
    ensures sessions { IfOk result (λ found. option_map plain_sessions found ≡ sessions_of (map now_of words.now)) }
    ensures within { IfOk result (λ found. IfSome found (λ s. (s.rounds ≤ ROUNDS) × (0 < length s.files.items) × (length s.files.items ≤ SEATS))) }
{
    let [schema, rounds, files @ ..] = words else {
        return Ok(None);
    };
    let Some(rounds) = count_within(ROUNDS, rounds) else {
        return Ok(None);
    };
    if files.is_empty() || files.len() > SEATS as usize {
        return Ok(None);
    }
    let mut own = Vec::new(alloc);
    own.extend_from_slice(files)?;
    Ok(Some(Sessions {
        schema,
        rounds,
        files: own,
    }))
}

// FILE of `--load`, which stands once or not at all.
fn once_loaded<'a>(loads: &[&'a str]) -> Option<Option<&'a str>>
    ensures { option_map (λ load. option_map now_of load) result ≡ once_loaded (map now_of loads.now) }
{
    match loads {
        [] => Some(None),
        [load] => Some(Some(*load)),
        _ => None,
    }
}

// `drill SCHEMA ROUNDS FILE..`, with one `--load FILE` or none.
fn drill_of<'a>(
    alloc: Global,
    words: &[&'a str],
    loads: &[&'a str],
) -> Result<Option<Request<'a>>, NoMemory>
    ensures request { IfOk result (λ request. option_map plain_program_request request ≡ drill_of (map now_of words.now) (map now_of loads.now)) }
    ensures within { IfOk result (λ request. IfSome request IsWithin) }
{
    let Some(load) = once_loaded(loads) else {
        return Ok(None);
    };
    match sessions_of(alloc, words)? {
        Some(
            Sessions {
                schema,
                rounds,
                files,
            },
        ) => Ok(Some(Request::Drill {
            schema,
            load,
            rounds,
            files,
        })),
        None => Ok(None),
    }
}

// `heat SCHEMA ROUNDS FILE..`.
fn heat_of<'a>(
    alloc: Global,
    words: &[&'a str],
    loads: &[&'a str],
) -> Result<Option<Request<'a>>, NoMemory>
    ensures request { IfOk result (λ request. option_map plain_program_request request ≡ heat_of (map now_of words.now) (map now_of loads.now)) }
    ensures within { IfOk result (λ request. IfSome request IsWithin) }
{
    if !loads.is_empty() {
        return Ok(None);
    }
    match sessions_of(alloc, words)? {
        Some(
            Sessions {
                schema,
                rounds,
                files,
            },
        ) => Ok(Some(Request::Heat {
            schema,
            rounds,
            files,
        })),
        None => Ok(None),
    }
}

// `SCHEMA PORT SEATS LINKS`.
fn service_of<'a>(words: &[&'a str]) -> Option<Service<'a>>
    ensures service { option_map plain_service result ≡ service_of (map now_of words.now) }
    ensures within { IfSome result (λ s. (0 < s.seats) × (s.seats ≤ SEATS) × (0 < s.links) × (s.links ≤ LINKS)) }
{
    let [schema, port, seats, links] = words else {
        return None;
    };
    Some(Service {
        schema,
        port: count_from_one(PORTS, port)? as u16,
        seats: count_from_one(SEATS as u64, seats)? as u32,
        links: count_from_one(LINKS, links)?,
    })
}

// `serve SCHEMA PORT SEATS LINKS`, with one `--load FILE` or none.
fn serve_of<'a>(words: &[&'a str], loads: &[&'a str]) -> Option<Request<'a>>
    ensures request { option_map plain_program_request result ≡ serve_of (map now_of words.now) (map now_of loads.now) }
    ensures within { IfSome result IsWithin }
{
    let load = once_loaded(loads)?;
    let Service {
        schema,
        port,
        seats,
        links,
    } = service_of(words)?;
    Some(Request::Serve {
        schema,
        load,
        port,
        seats,
        links,
    })
}

// `mirror SCHEMA PORT SEATS LINKS`.
fn mirror_of<'a>(words: &[&'a str], loads: &[&'a str]) -> Option<Request<'a>>
    ensures request { option_map plain_program_request result ≡ mirror_of (map now_of words.now) (map now_of loads.now) }
    ensures within { IfSome result IsWithin }
{
    if !loads.is_empty() {
        return None;
    }
    let Service {
        schema,
        port,
        seats,
        links,
    } = service_of(words)?;
    Some(Request::Mirror {
        schema,
        port,
        seats,
        links,
    })
}

// A count of this number at most.
fn count_within(most: u64, word: &str) -> Option<u64>
    ensures count { result ≡ count_within most word.now }
    ensures within { IfSome result (λ count. count ≤ most) }
{
    let count = read_count(word.as_bytes())?;
    if count <= most { Some(count) } else { None }
}

// A count from 1 to this number.
fn count_from_one(most: u64, word: &str) -> Option<u64>
    ensures count { result ≡ count_from_one most word.now }
    ensures within { IfSome result (λ count. (0 < count) × (count ≤ most)) }
{
    let count = count_within(most, word)?;
    if count >= 1 { Some(count) } else { None }
}

/// Reads the words after the program's name.
pub fn read_words(alloc: Global, words: &[String]) -> Result<Request<'_>, WordsFault>
    ensures answer { IsAnswerTo (word_texts words.now) result }
    ensures within { IfOk result IsWithin }
{
    let [command, words @ ..] = words else {
        return Err(WordsFault::Refused);
    };
    let matches = read_arguments(alloc, words)?;
    let words = values_of(&matches, WORD);
    let loads = values_of(&matches, LOAD);
    match request_of(alloc, command.as_str(), words, loads)? {
        Some(request) => Ok(request),
        None => Err(WordsFault::Refused),
    }
}

// What the command makes of the words behind it.
fn request_of<'a>(
    alloc: Global,
    command: &str,
    words: &[&'a str],
    loads: &[&'a str],
) -> Result<Option<Request<'a>>, NoMemory>
    ensures request { IfOk result (λ request. option_map plain_program_request request ≡ command_request command.now (record { words = map now_of words.now; loads = map now_of loads.now })) }
    ensures within { IfOk result (λ request. IfSome request IsWithin) }
{
    match command {
        "run" => Ok(run_of(words, loads)),
        "gen" => Ok(gen_of(words, loads)),
        "cover" => Ok(cover_of(words, loads)),
        "drill" => drill_of(alloc, words, loads),
        "serve" => Ok(serve_of(words, loads)),
        "heat" => heat_of(alloc, words, loads),
        "follow" => Ok(follow_of(words, loads)),
        "mirror" => Ok(mirror_of(words, loads)),
        _ => Ok(None),
    }
}
