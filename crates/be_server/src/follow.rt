//! The command `follow`: events answered from the list that a feed gives.

ghost use Rattle.std.specs.Prelude.{◌≡◌, ◌∷◌, [], None, Some, IfOk};
ghost use Rattle.be_io.specs.Outside.{source_state, sink_state, link_state};
ghost use Rattle.be_protocol.specs.Conversation.{TakesWithin};
ghost use Rattle.be_follow.specs.Followers.{new_follower, Follows};
ghost use Rattle.be_follow.specs.Reads.{ReadsEnd};
ghost use Rattle.be_server.specs.Asked.{MayAsk, AsksInTurn};
ghost use Rattle.be_server.specs.Follow.{follow_files, LoadsFeed, LoadsFollower, HasFed};
ghost use Rattle.be_server.specs.Outside.{link, objects, passage};
ghost use Rattle.be_server.specs.Promise.{Promise};
ghost use Rattle.be_command_line.specs.Words.{follow};

use crate::files::load_schema;
use crate::run::status_of;
use crate::status::Status;
use be_base::NoMemory;
use be_door::Door;
use be_follow::{Follower, serve_reads};
use be_io::{Link, Pair, Shelf, Sink, Source};
use be_model::Schema;
use be_session::SessionEnd;
use be_tree::BeTree;
use std::alloc::Global;
use std::sync::Arc;

/// Feeds the file to a follower, in the schema of the other file, and then answers the input from its list.
pub fn follow<F, S, K, L, D>(
    alloc: Global,
    schema: &str,
    file: &str,
    shelf: &mut F,
    input: &mut S,
    out: &mut K,
) -> Status
where
    F: Shelf,
    S: Source,
    K: Sink,
    L: Link,
    D: Door<L>,
    ensures { (door : _) → Promise (passage F.Shelf S.Source K.Sink D.state (link_state L.Source L.Sink)
        (objects shelf.old input.old out.old door) (objects shelf.new input.new out.new door))
        (Some (follow schema.now file.now)) result }
{
    match load_feed(alloc, shelf, schema, file) {
        Ok(follower) => status_of(serve_pair(&follower, input, out)),
        Err(status) => status,
    }
}

// Reads the schema, and what the feed gives in it.
#[tactic(auto, using(crate::proofs::FollowEnds::schema_refused, crate::proofs::FollowEnds::feed_loaded, crate::proofs::Asking::asks_schema))]
fn load_feed<F: Shelf>(
    alloc: Global,
    shelf: &mut F,
    schema: &str,
    file: &str,
) -> Result<Follower<BeTree>, Status>
    ensures loads { LoadsFeed (follow_files (F.content shelf.old) schema.now file.now) (F.read_faults shelf.old) (F.read_faults shelf.new) result }
    ensures asked { AsksInTurn (F.content shelf.old) schema.now None (file.now ∷ []) (F.asked shelf.old) (F.asked shelf.new) }
{
    match load_schema(alloc, shelf, schema) {
        Ok(schema) => load_follower(alloc, shelf, schema, file),
        Err(status) => Err(status),
    }
}

// Reads what the feed gives in this schema.
#[tactic(auto, using(crate::proofs::FollowEnds::feed_refused, crate::proofs::FollowEnds::feed_came, crate::proofs::Asking::asks_file))]
fn load_follower<F: Shelf>(
    alloc: Global,
    shelf: &mut F,
    schema: Schema,
    file: &str,
) -> Result<Follower<BeTree>, Status>
    ensures loads { LoadsFollower schema (F.content shelf.old file.now) (F.read_faults shelf.old) (F.read_faults shelf.new) result }
    ensures asked { MayAsk file.now (F.asked shelf.old) (F.asked shelf.new) }
{
    match shelf.read_file(alloc, file) {
        Ok(bytes) => fed(alloc, schema, bytes.as_slice()),
        Err(fault) => Err(Status::from(fault)),
    }
}

// A follower that was fed these bytes.
#[tactic(auto, using(crate::proofs::FollowEnds::fed_whole, crate::proofs::FollowEnds::fed_fault))]
fn fed(alloc: Global, schema: Schema, bytes: &[u8]) -> Result<Follower<BeTree>, Status>
    ensures { HasFed schema bytes.now result }
{
    let Ok(mut follower) = follower_in(alloc, schema) else {
        return Err(Status::NoMemory);
    };
    match follower.feed(bytes) {
        Ok(()) => Ok(follower),
        Err(fault) => Err(Status::from(fault)),
    }
}

// A follower over a tree.
fn follower_in(alloc: Global, schema: Schema) -> Result<Follower<BeTree>, NoMemory>
    ensures made { IfOk result (λ follower. follower ≡ new_follower schema) }
    ensures follows { IfOk result (λ follower. Follows [] follower) }
{
    let schema = Arc::new(alloc, schema).map_err(|_| NoMemory)?;
    let shared = Arc::try_clone(&schema)?;
    Ok(Follower::make(alloc, schema, BeTree::make(alloc, shared)))
}

// Answers over two objects.
fn serve_pair<S: Source, K: Sink>(
    follower: &Follower<BeTree>,
    input: &mut S,
    out: &mut K,
) -> SessionEnd
    ensures ends { ReadsEnd ((input.new ≡ input.old) × (out.new ≡ out.old)) follower.now.schema follower.now.fed.list
        (link (source_state S.Source input.old) (sink_state K.Sink out.old))
        (link (source_state S.Source input.new) (sink_state K.Sink out.new)) result }
    ensures within { TakesWithin (S.taken input.old) (S.taken input.new) }
{
    let mut peer = Pair {
        source: input,
        sink: out,
    };
    serve_reads(follower, &mut peer)
}
