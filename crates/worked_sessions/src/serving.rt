//! A session over a board, with a link in memory.

ghost use Rattle.std.specs.Prelude.{◌≡◌, []};
ghost use Rattle.be_board.specs.Word.{own_in};

use be_base::NoMemory;
use be_board::Board;
use be_io::{Gate, Gathered, MemSink, MemSource, Pair};
use be_model::Schema;
use be_session::{SessionEnd, serve_link};
use std::alloc::Global;

/// The worker that serves.
pub const WORKER: u32 = 7;

// The source gives so many bytes at a time.
const PIECE: usize = 18;

/// A session's lines, parted by `; `, and what is refused to it: the read and the write of these numbers, where the first has the
/// number 1, and its first calls of `leave`, so many. So many bytes of its replies are gathered at most before a write.
#[derive(Clone, Copy)]
pub struct Setting<'a> {
    pub lines: &'a str,
    pub failing_read: u64,
    pub failing_write: u64,
    pub refused_leaves: u64,
    pub gathers: usize,
}

/// Serves the session. It gives what was handed on of the replies, with `; ` behind each, and how it ended.
pub fn serve<B: Board, G: Gate>(
    alloc: Global,
    schema: &Schema,
    board: &mut B,
    gate: &G,
    setting: &Setting<'_>,
) -> Result<(String, SessionEnd), NoMemory>
    requires first { own_in (B.state board.old).word ≡ [] }
    requires schema { (B.state board.old).schema ≡ schema.now }
{
    let source = source(alloc, setting)?;
    let sink = MemSink::make(alloc, vec![in alloc; setting.failing_write]?);
    if setting.gathers == 0 {
        let mut peer = Pair { source, sink };
        let end = serve_link(alloc, schema, board, &mut peer, false, gate, WORKER);
        return Ok((parted(alloc, peer.sink.bytes())?, end));
    }
    let sink = Gathered::make(alloc, sink, setting.gathers)?;
    let mut peer = Pair { source, sink };
    let end = serve_link(alloc, schema, board, &mut peer, false, gate, WORKER);
    Ok((parted(alloc, peer.sink.sink().bytes())?, end))
}

// Each line with an LF.
fn source(alloc: Global, setting: &Setting<'_>) -> Result<MemSource, NoMemory> {
    let mut bytes = Vec::new(alloc);
    if !setting.lines.is_empty() {
        for line in setting.lines.split("; ") {
            bytes.extend_from_slice(line.as_bytes())?;
            bytes.push(b'\n')?;
        }
    }
    let failing = vec![in alloc; setting.failing_read]?;
    Ok(MemSource::make(bytes, PIECE, failing))
}

// What was written, with `; ` in place of each LF.
fn parted(alloc: Global, written: &[u8]) -> Result<String, NoMemory> {
    let written = String::from_utf8_lossy(alloc, written)?;
    let mut text = String::new(alloc);
    for line in written.as_str().split("\n") {
        if !text.is_empty() {
            text.push_str("; ")?;
        }
        text.push_str(line)?;
    }
    Ok(text)
}
