//! Events answered from a follower's list: a reply for each line, until a QUIT, the end of the input or a fault.

ghost use Rattle.std.specs.Prelude.{◌≡◌, length, true, List, OnOk};
ghost use Rattle.be_io.specs.Outside.{link_state, sink_state};
ghost use Rattle.be_model.specs.Lies.{event_lies};
ghost use Rattle.be_model.specs.Matching.{Assignments};
ghost use Rattle.be_model.specs.Schemas.{Attributes};
ghost use Rattle.be_change.specs.History.{Entry, hits};
ghost use Rattle.be_change.specs.Requests as asked;
ghost use Rattle.be_protocol.specs.Conduct.{GivesReply};
ghost use Rattle.be_protocol.specs.Conversation.{TakesWithin, KeepsBeside};
ghost use Rattle.be_protocol.specs.Replies.{reply_text};
ghost use Rattle.be_protocol.specs.Requests.{plain_refusal};
ghost use Rattle.be_follow.specs.Asked.{plain_ask, ask_lies};
ghost use Rattle.be_follow.specs.Reads.{ReadsEnd, reads_conduct};

use crate::asking::{Ask, read_ask};
use crate::follower::Follower;
use be_base::NoMemory;
use be_index::Index;
use be_io::{Link, NoGate, Sink, write_all};
use be_model::{Event, Found};
use be_protocol::{Naming, Refusal, Replier, SessionEnd, Short, Turn, converse, say, write_names};
use std::alloc::Global;

// What was found for a reply, and its text.
#[derive(Drop)]
struct Room {
    found: Found,
    reply: Vec<u8>,
}

impl Room {
    fn make(alloc: Global) -> Room {
        Room {
            found: Found::make(alloc),
            reply: Vec::new(alloc),
        }
    }

    // Puts the names of the live rows that the event satisfies, as a reply.
    fn hits<I: Index>(&mut self, follower: &Follower<I>, event: &Event) -> Result<(), NoMemory>
        requires { event_lies follower.now.schema event.now ≡ true }
        ensures { (s : Attributes) → OnOk result (self.new.reply.items ≡ reply_text s (asked.hit (length follower.now.fed.list) (hits follower.now.fed.list event.now))) }
    {
        self.reply.clear();
        follower.find(event, &mut self.found)?;
        write_names(
            &mut self.reply,
            Naming::Hit,
            follower.len(),
            self.found.rows(),
        )
    }
}

/// Answers lines over a link from the follower's list: PUB with its hits, with what is wrong with its event, or with `NOMEM` where
/// memory is wanting; QUIT with the length of the list, after which it ends; every other line with `BAD`, or `LONG` where it is
/// over the limit.
pub fn serve_reads<I: Index, L: Link>(follower: &Follower<I>, link: &mut L) -> SessionEnd
    ensures ends { ReadsEnd (link.new ≡ link.old) follower.now.schema follower.now.fed.list
        (link_state L.Source L.Sink link.old) (link_state L.Source L.Sink link.new) result }
    ensures within { TakesWithin (L.taken link.old) (L.taken link.new) }
    // All bytes that the link gives from first to last, and the objects that it borrows, are the same ones.
    ensures beside { KeepsBeside (L.kept_by_read link.old) (L.kept_by_read link.new) }
{
    let alloc = follower.alloc();
    let mut asked = AskedFollower {
        follower,
        room: Room::make(alloc),
    };
    converse(alloc, &mut asked, link, &NoGate, 0)
}

// A follower that answers lines, over the room for its replies.
#[derive(Drop)]
struct AskedFollower<'a, I: Index> {
    follower: &'a Follower<I>,
    room: Room,
}

impl<'a, I: Index> Replier for AskedFollower<'a, I> {
    ghost use Rattle.std.specs.Prelude.{List, []};
    ghost use Rattle.be_change.specs.History.{Entry};
    ghost use Rattle.be_follow.specs.Reads.{reads_conduct};

    ghost State = { List Entry };

    ghost state = { λ a. a.follower.now.fed.list };

    ghost kept = { λ a. record { schema = a.follower.now.schema; references = [] } };

    ghost conduct = { reads_conduct };

    ghost IsReady = { λ a. Unit {0} };

    fn answer<K: Sink>(&mut self, text: &[u8], _ahead: bool, out: &mut K) -> Turn {
        match read_ask(self.follower.alloc(), self.follower.schema(), text) {
            Ok(ask) => answer(self.follower, &mut self.room, ask, out),
            Err(NoMemory) => want(out),
        }
    }

    fn refuse_long<K: Sink>(&mut self, out: &mut K) -> Turn {
        refuse(out, Refusal::Long)
    }

    fn tend(&mut self) {}

    fn leave(&mut self) {}
}

// Answers what was asked.
fn answer<I: Index, K: Sink>(follower: &Follower<I>, room: &mut Room, ask: Ask, out: &mut K) -> Turn
    requires { ask_lies follower.now.schema ask ≡ true }
    ensures gives { GivesReply (reads_conduct follower.now.schema) (plain_ask ask) follower.now.fed.list follower.now.fed.list
        (sink_state K.Sink out.old) (sink_state K.Sink out.new) result.by result.written }
    ensures beside { K.kept_by_write out.new ≡ K.kept_by_write out.old }
{
    match ask {
        Ask::Publish(event) => publish(follower, room, &event, out),
        Ask::Quit => quit(follower, out),
        Ask::Refused(refusal) => refuse(out, refusal),
    }
}

fn publish<I: Index, K: Sink>(
    follower: &Follower<I>,
    room: &mut Room,
    event: &Event,
    out: &mut K,
) -> Turn
    requires { event_lies follower.now.schema event.now ≡ true }
    ensures gives { GivesReply (reads_conduct follower.now.schema) (asked.publish event.now) follower.now.fed.list follower.now.fed.list
        (sink_state K.Sink out.old) (sink_state K.Sink out.new) result.by result.written }
    ensures beside { K.kept_by_write out.new ≡ K.kept_by_write out.old }
{
    match room.hits(follower, event) {
        Ok(()) => Turn {
            by: None,
            written: write_all(out, room.reply.as_slice()),
        },
        Err(NoMemory) => want(out),
    }
}

fn quit<I: Index, K: Sink>(follower: &Follower<I>, out: &mut K) -> Turn
    ensures gives { GivesReply (reads_conduct follower.now.schema) asked.quit follower.now.fed.list follower.now.fed.list
        (sink_state K.Sink out.old) (sink_state K.Sink out.new) result.by result.written }
    ensures beside { K.kept_by_write out.new ≡ K.kept_by_write out.old }
{
    Turn {
        by: Some(SessionEnd::Quit),
        written: say(out, Short::Bye { n: follower.len() }),
    }
}

// Answers a line that asks nothing.
fn refuse<K: Sink>(out: &mut K, refusal: Refusal) -> Turn
    ensures gives { (s : Attributes) (h : List Entry) → GivesReply (reads_conduct s) (asked.refused (plain_refusal refusal)) h h
        (sink_state K.Sink out.old) (sink_state K.Sink out.new) result.by result.written }
    ensures beside { K.kept_by_write out.new ≡ K.kept_by_write out.old }
{
    Turn {
        by: None,
        written: say(out, Short::Refused(refusal)),
    }
}

// Says that memory was wanting to a PUB.
fn want<K: Sink>(out: &mut K) -> Turn
    ensures gives { (s : Attributes) (h : List Entry) (e : Assignments) → GivesReply (reads_conduct s) (asked.publish e) h h
        (sink_state K.Sink out.old) (sink_state K.Sink out.new) result.by result.written }
    ensures beside { K.kept_by_write out.new ≡ K.kept_by_write out.old }
{
    Turn {
        by: None,
        written: say(out, Short::NoMemory),
    }
}
