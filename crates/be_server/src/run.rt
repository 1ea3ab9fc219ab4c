//! The command `run`: one session over the input and the output.

ghost use Rattle.std.specs.Prelude.{◌≡◌, [], Some, true, is_some, option_map};
ghost use Rattle.std.specs.List.{list_all};
ghost use Rattle.be_base.specs.Readers.{now_of};
ghost use Rattle.be_change.specs.Opening.{opening_of, IsTable};
ghost use Rattle.be_model.specs.Lies.{row_lies};
ghost use Rattle.be_io.specs.Outside.{source_state, sink_state, link_state};
ghost use Rattle.be_board.specs.Word.{own_in};
ghost use Rattle.be_protocol.specs.Conversation.{TakesWithin};
ghost use Rattle.be_session.specs.Served.{SessionEnds};
ghost use Rattle.be_command_line.specs.Words.{run};
ghost use Rattle.be_server.specs.Outside.{link, objects, passage};
ghost use Rattle.be_server.specs.Promise.{Promise};
ghost use Rattle.be_server.specs.Run.{SessionRuns};
ghost use Rattle.be_server.specs.Status.{status_of};

use crate::files::{Loaded, load_files};
use crate::status::Status;
use be_board::{Board, LocalBoard};
use be_door::Door;
use be_io::{Link, NoGate, Pair, Shelf, Sink, Source};
use be_model::Schema;
use be_session::{SessionEnd, serve_link};
use be_tree::BeTree;
use std::alloc::Global;
use std::mem;
use std::sync::Arc;

/// The worker of a run's session.
const WORKER: u32 = 1;

// Nobody else changes the list of a run, so its session never ends by a SPLIT.
pub(crate) fn status_of(end: SessionEnd) -> Status
    requires { is_some (status_of end) ≡ true }
    ensures { status_of end ≡ Some result }
{
    match end {
        SessionEnd::Eof | SessionEnd::Quit => Status::Done,
        SessionEnd::ReadFault => Status::ReadFault,
        SessionEnd::WriteFault => Status::WriteFault,
        SessionEnd::Spent => Status::Spent,
        SessionEnd::NoMemory => Status::NoMemory,
        SessionEnd::Split { .. } => unreachable!(),
    }
}

// Serves one session, number 1, over a tree that begins with the loaded rows.
fn serve<S: Source, K: Sink>(
    alloc: Global,
    loaded: Loaded,
    input: &mut S,
    out: &mut K,
) -> SessionEnd
    requires table { IsTable loaded.rows.items }
    requires lies { list_all (row_lies loaded.schema) loaded.rows.items ≡ true }
    ensures ends { SessionRuns ((input.new ≡ input.old) × (out.new ≡ out.old)) loaded.schema (opening_of loaded.rows.items)
        (link (source_state S.Source input.old) (sink_state K.Sink out.old))
        (link (source_state S.Source input.new) (sink_state K.Sink out.new))
        result }
    ensures within { TakesWithin (S.taken input.old) (S.taken input.new) }
{
    let Loaded { schema, rows } = loaded;
    let Ok(schema) = Arc::new(alloc, schema) else {
        return SessionEnd::NoMemory;
    };
    let Ok(shared) = Arc::try_clone(&schema) else {
        return SessionEnd::NoMemory;
    };
    let Ok(mut board) = LocalBoard::open(alloc, BeTree::make(alloc, shared), rows) else {
        return SessionEnd::NoMemory;
    };
    // Called for its clause that the list keeps the board's word.
    let _ = board.log();
    let end = serve_pair(alloc, &schema, &mut board, input, out);
    // The program ends behind this, and the system takes the board's memory back at once.
    mem::forget(board);
    end
}

// Serves the board's session over two objects.
#[tactic(auto, using(crate::proofs::RunSession::kept_so))]
fn serve_pair<B: Board, S: Source, K: Sink>(
    alloc: Global,
    schema: &Schema,
    board: &mut B,
    input: &mut S,
    out: &mut K,
) -> SessionEnd
    requires first { own_in (B.state board.old).word ≡ [] }
    requires schema { (B.state board.old).schema ≡ schema.now }
    ensures ends { SessionEnds ((input.new ≡ input.old) × (out.new ≡ out.old) × (board.new ≡ board.old)) schema.now
        (link (source_state S.Source input.old) (sink_state K.Sink out.old))
        (link (source_state S.Source input.new) (sink_state K.Sink out.new))
        (B.state board.old) (B.state board.new) result }
    ensures within { TakesWithin (S.taken input.old) (S.taken input.new) }
{
    let mut peer = Pair {
        source: input,
        sink: out,
    };
    serve_link(alloc, schema, board, &mut peer, false, &NoGate, WORKER)
}

/// Serves one session, number 1, over the input and the output, with the schema in the file of this name, and over the opening
/// table of the load file, where there is one.
pub fn run<F, S, K, L, D>(
    alloc: Global,
    schema: &str,
    load: Option<&str>,
    shelf: &mut F,
    input: &mut S,
    out: &mut K,
) -> Status
where
    F: Shelf,
    S: Source,
    K: Sink,
    L: Link,
    D: Door<L>,
    ensures { (door : _) → Promise (passage F.Shelf S.Source K.Sink D.state (link_state L.Source L.Sink)
        (objects shelf.old input.old out.old door) (objects shelf.new input.new out.new door))
        (Some (run schema.now (option_map now_of load.entry))) result }
{
    match load_files(alloc, shelf, schema, load) {
        Ok(loaded) => status_of(serve(alloc, loaded, input, out)),
        Err(status) => status,
    }
}
