//! The one call that the program makes.

ghost use Rattle.be_io.specs.Outside.{link_state};
ghost use Rattle.be_server.specs.Outside.{objects, passage};
ghost use Rattle.be_server.specs.Promise.{Promise};
ghost use Rattle.be_command_line.specs.Words.{words_reading, word_texts};

use crate::cover::cover;
use crate::drill::drill;
use crate::follow::follow;
use crate::generate::generate;
use crate::heat::heat;
use crate::mirror::mirror;
use crate::run::run;
use crate::serve::serve;
use crate::status::Status;
use be_command_line::{Request, WordsFault, read_words};
use be_door::Door;
use be_io::{Gate, Link, Shelf, Sink, Source};
use std::alloc::Global;
use std::sync::Wait;
use std::thread::Threads;
use std::time::Clock;

/// Reads the words after the program's name, and does what they ask.
///
/// `run SCHEMA` serves one session over the input and the output, with `--load FILE` over the rows of that file,
/// `gen NUMBER SUBS EVENTS` writes the sums over a generated script, `cover SCHEMA FILE NAME` writes which rows of a
/// load file are covered by the one of this name, and `drill SCHEMA ROUNDS FILE..`, with `--load FILE` too, serves each file as a
/// session, on workers of their own, and writes what each was answered and the list. `heat SCHEMA ROUNDS FILE..` writes behind
/// that what the answered events ask for. `serve SCHEMA PORT SEATS LINKS`, with `--load FILE` too, serves so many links of the
/// door, and writes the list. `follow SCHEMA FILE` answers the input's events from the list that the file tells.
/// `mirror SCHEMA PORT SEATS LINKS` takes the input for such a file, and serves links of the door from its list meanwhile. It may wait.
pub fn be_main<R, F, S, K, L, D, G>(
    rt: &R,
    alloc: Global,
    words: &[String],
    shelf: &mut F,
    input: &mut S,
    out: &mut K,
    door: &mut D,
    gate: &G,
) -> Status
where
    R: Threads + Wait + Clock + Sync,
    F: Shelf,
    S: Source,
    K: Sink,
    L: Link + Drop + Send,
    D: Door<L> + Sync,
    G: Gate + Sync,
    ensures { Promise (passage F.Shelf S.Source K.Sink D.state (link_state L.Source L.Sink)
        (objects shelf.old input.old out.old door.old) (objects shelf.new input.new out.new door.new))
        (words_reading (word_texts words.now)) result }
{
    match read_words(alloc, words) {
        Ok(Request::Run { schema, load }) => {
            run::<F, S, K, L, D>(alloc, schema, load, shelf, input, out)
        }
        Ok(
            Request::Gen {
                number,
                subs,
                events,
            },
        ) => generate::<F, S, K, L, D>(alloc, number, subs, events, out),
        Ok(Request::Cover { schema, file, name }) => {
            cover::<F, S, K, L, D>(alloc, schema, file, name, shelf, out)
        }
        Ok(
            Request::Drill {
                schema,
                load,
                rounds,
                files,
            },
        ) => drill::<R, F, S, K, L, D, G>(
            rt,
            alloc,
            schema,
            load,
            rounds,
            files.as_slice(),
            shelf,
            out,
            gate,
        ),
        Ok(
            Request::Serve {
                schema,
                load,
                port,
                seats,
                links,
            },
        ) => serve::<R, F, S, K, L, D, G>(
            rt, alloc, schema, load, port, seats, links, shelf, out, door, gate,
        ),
        Ok(
            Request::Heat {
                schema,
                rounds,
                files,
            },
        ) => heat::<R, F, S, K, L, D, G>(
            rt,
            alloc,
            schema,
            rounds,
            files.as_slice(),
            shelf,
            out,
            gate,
        ),
        Ok(Request::Follow { schema, file }) => {
            follow::<F, S, K, L, D>(alloc, schema, file, shelf, input, out)
        }
        Ok(
            Request::Mirror {
                schema,
                port,
                seats,
                links,
            },
        ) => mirror::<R, F, S, K, L, D, G>(
            rt, alloc, schema, port, seats, links, shelf, input, out, door, gate,
        ),
        Err(WordsFault::Refused) => Status::Words,
        Err(WordsFault::NoMemory) => Status::NoMemory,
    }
}
