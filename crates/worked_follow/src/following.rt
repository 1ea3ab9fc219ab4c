//! A follower that is fed in pieces, and then answers lines over a link in memory.

use be_base::NoMemory;
use be_follow::{FeedFault, Follower, serve_reads};
use be_index::{Index, ListIndex};
use be_io::{Gathered, MemSink, MemSource, Pair};
use be_model::Schema;
use be_protocol::SessionEnd;
use std::alloc::Global;
use std::sync::Arc;

// The source gives so many bytes at a time.
const PIECE: usize = 18;

/// How a follower is fed and answers: so many bytes of the feed are a piece, so many bytes of its replies are gathered before a
/// write, and the write of this number fails, where the first has the number 1.
#[derive(Clone, Copy)]
pub struct Setting {
    pub size: usize,
    pub gathers: usize,
    pub failing_write: u64,
}

/// Feeds a follower, and tells the first faulty line, or what it answers.
pub fn followed(
    alloc: Global,
    schema: &Arc<Schema>,
    setting: Setting,
    feed: &str,
    lines: &str,
) -> Result<String, NoMemory> {
    let index = ListIndex::make(alloc, Arc::try_clone(schema)?);
    let mut follower = Follower::make(alloc, Arc::try_clone(schema)?, index);
    let feed = bytes_of(alloc, feed)?;
    match feed_all(&mut follower, setting.size, feed.as_slice()) {
        Ok(()) => answers(alloc, &follower, setting, lines),
        Err(FeedFault::Bad { line, kind }) => {
            Ok(format!(in alloc; "line {line} {kind}, list {}", follower.len())?)
        }
        Err(FeedFault::NoMemory { .. }) => Err(NoMemory),
    }
}

// Feeds it in pieces, and once more behind a fault.
fn feed_all<I: Index>(
    follower: &mut Follower<I>,
    size: usize,
    feed: &[u8],
) -> Result<(), FeedFault> {
    let mut from = 0;
    while from < feed.len() {
        let end = from.saturating_add(size.max(1)).min(feed.len());
        if follower.feed(&feed[from..end]).is_err() {
            return follower.feed(b"AT 0 BYE 9 0\n");
        }
        from = end;
    }
    follower.feed(b"")
}

// What was handed on of its replies to these lines, with `; ` behind each, how it ended, and the length of its list.
fn answers<I: Index>(
    alloc: Global,
    follower: &Follower<I>,
    setting: Setting,
    lines: &str,
) -> Result<String, NoMemory> {
    let source = MemSource::make(bytes_of(alloc, lines)?, PIECE, Vec::new(alloc));
    let sink = MemSink::make(alloc, vec![in alloc; setting.failing_write]?);
    if setting.gathers == 0 {
        let mut peer = Pair { source, sink };
        let end = serve_reads(follower, &mut peer);
        return told(alloc, peer.sink.bytes(), end, follower.len());
    }
    let sink = Gathered::make(alloc, sink, setting.gathers)?;
    let mut peer = Pair { source, sink };
    let end = serve_reads(follower, &mut peer);
    told(alloc, peer.sink.sink().bytes(), end, follower.len())
}

fn told(alloc: Global, written: &[u8], end: SessionEnd, len: u64) -> Result<String, NoMemory> {
    let replies = parted(alloc, written)?;
    Ok(format!(in alloc; "{replies}{end:?}, list {len}")?)
}

// The text, with an LF in place of each `; `.
fn bytes_of(alloc: Global, text: &str) -> Result<Vec<u8>, NoMemory> {
    let mut bytes = Vec::new(alloc);
    for (place, line) in text.split("; ").enumerate() {
        if place > 0 {
            bytes.push(b'\n')?;
        }
        bytes.extend_from_slice(line.as_bytes())?;
    }
    Ok(bytes)
}

// What was written, with `; ` in place of each LF.
fn parted(alloc: Global, written: &[u8]) -> Result<String, NoMemory> {
    let written = String::from_utf8_lossy(alloc, written)?;
    let mut text = String::new(alloc);
    for (place, line) in written.as_str().split("\n").enumerate() {
        if place > 0 {
            text.push_str("; ")?;
        }
        text.push_str(line)?;
    }
    Ok(text)
}
