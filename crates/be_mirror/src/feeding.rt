//! How a feed is taken from an input.

ghost use Rattle.std.specs.Prelude.{◌≡◌, ◌≢◌, ◌<◌, None, [], length, IfSome};
ghost use Rattle.rtrb.specs.Ring.{sent, SameProducer};
ghost use Rattle.be_base.specs.Lists.{BeginsWith};
ghost use Rattle.be_change.specs.Entries.{entries_in};
ghost use Rattle.be_io.specs.Outside.{source_state};
ghost use Rattle.be_follow.specs.Followers.{Follows, new_follower};
ghost use Rattle.be_protocol.specs.Conversation.{TakesWithin};
ghost use Rattle.be_mirror.specs.Feeders.{new_feeder, IsAllPublished};
ghost use Rattle.be_mirror.specs.Feeding.{TakesNext};
ghost use Rattle.be_mirror.specs.Serving.{Feeds};

use crate::bell::Bell;
use crate::feeder::Feeder;
use crate::outlet::Outlet;
use crate::printing::Printer;
use crate::ring::Giver;
use be_base::{NoMemory, READ_BYTES, SOURCE_BYTES};
use be_follow::{FeedFault, FeedKind, Follower};
use be_index::ListIndex;
use be_io::{Failed, Source};
use std::alloc::Global;
use std::sync::Wait;
use std::sync::atomic::{AtomicBool, Ordering};
use std::thread::Threads;
use std::time::Clock;

/// Why a feed was taken no further.
#[derive(Clone, Copy, Debug, PartialEq, Eq)]
pub enum FeedEnd {
    /// The input came to its end.
    Ended,
    /// It was left, with nothing wrong. The code does so once all links were served; no contract says when.
    Left,
    /// The first faulty line, from 1.
    Bad { line: u64, kind: FeedKind },
    /// A read of the input failed.
    ReadFault,
    /// The input gave 1099511627776 bytes.
    Spent,
    /// Memory was wanting to it.
    NoMemory,
}

// Takes a feed from the input, and publishes all that it brings, until it ends or all links are served. It looks for the latter
// before each read.
pub(crate) fn take_feed<P: Printer + Send, S: Source, R: Threads + Wait + Clock + Sync>(
    rt: &R,
    feeder: &mut Feeder<P>,
    source: &mut S,
    over: &AtomicBool,
) -> FeedEnd
    requires new { (feeder.old ≡ new_feeder P.schema) × Follows [] feeder.old.took }
    ensures feeds { result ≢ FeedEnd.NoMemory → Feeds P.schema (source_state S.Source source.old) (source_state S.Source source.new) result feeder.new.took.fed }
    ensures shown { result ≢ FeedEnd.NoMemory → IsAllPublished feeder.new }
    ensures within { TakesWithin (S.taken source.old) (S.taken source.new) }
    ensures beside { S.kept_by_read source.new ≡ S.kept_by_read source.old }
{
    let end = feeder.take(rt, source, over);
    match feeder.publish(rt) {
        Ok(()) => end,
        Err(NoMemory) => FeedEnd::NoMemory,
    }
}

// The same, once the thread that takes changes out of the ring is there. It takes nothing where that one doesn't begin.
pub(crate) fn give_beside<P: Printer, S: Source, R: Wait + Clock>(
    rt: &R,
    alloc: Global,
    ledger: &mut Follower<ListIndex>,
    giver: &mut Giver<P>,
    source: &mut S,
    over: &AtomicBool,
    bell: &Bell,
) -> Option<FeedEnd>
    requires new { (ledger.old ≡ new_follower P.schema) × Follows [] ledger.old }
    requires empty { sent giver.old ≡ [] }
    ensures feeds { IfSome result (λ end. end ≢ FeedEnd.NoMemory → Feeds P.schema (source_state S.Source source.old) (source_state S.Source source.new) end ledger.new.fed) }
    ensures nothing { result ≡ None → (ledger.new ≡ ledger.old) × (source.new ≡ source.old) }
    ensures given { SameProducer giver.old giver.new × (ledger.new.schema ≡ P.schema) × BeginsWith ledger.new.fed.list (entries_in (sent giver.new)) }
    ensures within { TakesWithin (S.taken source.old) (S.taken source.new) }
    ensures beside { S.kept_by_read source.new ≡ S.kept_by_read source.old }
{
    if !bell.await_taker(rt) {
        return None;
    }
    let end = put_pieces(rt, alloc, ledger, giver, source, over, bell);
    Some(end)
}

// Takes a feed from the input, and puts its changes into the outlet, but those of the last piece.
pub(crate) fn put_pieces<O: Outlet, S: Source, R: Wait>(
    rt: &R,
    alloc: Global,
    ledger: &mut Follower<ListIndex>,
    outlet: &mut O,
    source: &mut S,
    over: &AtomicBool,
    bell: &Bell,
) -> FeedEnd
    requires new { (ledger.old ≡ new_follower O.schema) × Follows [] ledger.old }
    requires empty { O.list outlet.old ≡ [] }
    requires sound { O.is_sound outlet.old }
    ensures feeds { result ≢ FeedEnd.NoMemory → Feeds O.schema (source_state S.Source source.old) (source_state S.Source source.new) result ledger.new.fed }
    ensures put { (ledger.new.schema ≡ O.schema) × BeginsWith ledger.new.fed.list (O.list outlet.new) × O.is_sound outlet.new }
    ensures later { (first : O) → O.is_later first outlet.old → O.is_later first outlet.new }
    ensures within { TakesWithin (S.taken source.old) (S.taken source.new) }
    ensures beside { S.kept_by_read source.new ≡ S.kept_by_read source.old }
{
    let Ok(mut buffer) = vec![in alloc; 0; READ_BYTES] else {
        return FeedEnd::NoMemory;
    };
    let mut stood = 0;
    let mut left = SOURCE_BYTES;
    while left > 0 {
        if over.load(Ordering::SeqCst) {
            return FeedEnd::Left;
        }
        let most = READ_BYTES.min(left as usize);
        match read_piece(ledger, source, &mut buffer[..most]) {
            Ok(count) => left -= count as u64,
            Err(end) => return end,
        }
        match outlet.put_new(rt, alloc, &*ledger, stood, bell) {
            Ok(count) => stood = count,
            Err(NoMemory) => return FeedEnd::NoMemory,
        }
    }
    FeedEnd::Spent
}

// Reads the next piece of a feed into the buffer and takes it, and says how long it was, or why there is none or no more.
fn read_piece<S: Source>(
    ledger: &mut Follower<ListIndex>,
    source: &mut S,
    buffer: &mut [u8],
) -> Result<usize, FeedEnd>
    requires some { 0 < length buffer.old }
    requires fine { ledger.old.fed.fault ≡ None }
    ensures takes { TakesNext (length buffer.old) (source_state S.Source source.old) (source_state S.Source source.new) ledger.old ledger.new result }
    ensures beside { S.kept_by_read source.new ≡ S.kept_by_read source.old }
{
    let count = match source.read(buffer) {
        Ok(0) => return Err(FeedEnd::Ended),
        Ok(count) => count,
        Err(Failed) => return Err(FeedEnd::ReadFault),
    };
    match ledger.feed(&buffer[..count]) {
        Ok(()) => Ok(count),
        Err(FeedFault::Bad { line, kind }) => Err(FeedEnd::Bad { line, kind }),
        Err(FeedFault::NoMemory { .. }) => Err(FeedEnd::NoMemory),
    }
}
