//! The plain program: the same session over the index that tests each live row. Its transcripts are those of the tree.

ghost use Rattle.std.specs.Prelude.{◌≡◌, []};
ghost use Rattle.be_board.specs.Word.{own_in};

use crate::setting::SCHEMA;
use crate::{dumps, rows};
use be_base::NoMemory;
use be_board::{Board, LocalBoard};
use be_event::read_schema;
use be_index::ListIndex;
use be_io::{MemSink, MemSource, NoGate, Pair};
use be_model::Schema;
use be_session::{SessionEnd, serve_link};
use std::alloc::Global;
use std::sync::Arc;

// Whether a session over the board has this transcript.
fn is_served<B: Board>(
    alloc: Global,
    schema: &Schema,
    board: &mut B,
    script: &str,
    want: &str,
) -> Result<bool, NoMemory>
    requires first { own_in (B.state board.old).word ≡ [] }
    requires schema { (B.state board.old).schema ≡ schema.now }
{
    let script = Vec::from_slice(alloc, script.as_bytes())?;
    let source = MemSource::make(script, 18, Vec::new(alloc));
    let sink = MemSink::make(alloc, Vec::new(alloc));
    let mut peer = Pair { source, sink };
    let end = serve_link(alloc, schema, board, &mut peer, false, &NoGate, 1);
    Ok(end != SessionEnd::NoMemory && peer.sink.bytes() == want.as_bytes())
}

fn is_plainly_served(
    alloc: Global,
    schema: &Arc<Schema>,
    script: &str,
    want: &str,
) -> Result<bool, NoMemory> {
    let index = ListIndex::make(alloc, Arc::try_clone(schema)?);
    let mut board = LocalBoard::make(alloc, index)?;
    is_served(alloc, schema, &mut board, script, want)
}

// The first script whose transcript isn't that of the plain program.
fn differing(
    alloc: Global,
    schema: &Arc<Schema>,
    sessions: &'static [(&'static str, &'static str)],
) -> Result<Option<&'static str>, NoMemory> {
    for (script, want) in sessions {
        if !is_plainly_served(alloc, schema, script, want)? {
            return Ok(Some(*script));
        }
    }
    Ok(None)
}

// One visit, and each live row tested that has no other attributes.
const COSTS: &[(&str, &str)] = &[(
    "SUB a price = 5\nSUB b side = buy\nCOST price=6\n",
    "OK 1\nOK 2\nCOST 2 1 1\n",
)];

fn schema(alloc: Global) -> Option<Arc<Schema>> {
    Arc::new(alloc, read_schema(alloc, SCHEMA).ok()?).ok()
}

// The first script of all whose transcript differs.
fn first_differing(alloc: Global) -> Option<Option<&'static str>> {
    let schema = schema(alloc)?;
    for sessions in [rows::SESSIONS, dumps::SESSIONS, COSTS] {
        if let Some(script) = differing(alloc, &schema, sessions).ok()? {
            return Some(Some(script));
        }
    }
    Some(None)
}

#[test]
fn transcripts_of_the_plain_index(rt: HostRuntime) {
    let differing = first_differing(rt.alloc());
    assert!(rt; differing == Some(None), "{differing:?}");
}
