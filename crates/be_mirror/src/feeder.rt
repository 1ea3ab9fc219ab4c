//! The side of a mirror that is fed.

ghost use Rattle.std.specs.Prelude.{◌≡◌, ◌≢◌, [], length, None, IfSome, OnOk};
ghost use Rattle.rtrb.specs.Ring.{sent, received, SameProducer, SameConsumer};
ghost use Rattle.std.specs.Arc.{arc_value};
ghost use Rattle.be_base.specs.Lists.{BeginsWith};
ghost use Rattle.be_change.specs.Entries.{entries_in};
ghost use Rattle.be_index.specs.Rows.{plain_index};
ghost use Rattle.be_io.specs.Outside.{source_state};
ghost use Rattle.be_follow.specs.Followers.{Follows, new_follower};
ghost use Rattle.be_protocol.specs.Conversation.{TakesWithin};
ghost use Rattle.be_mirror.specs.Feeders.{new_feeder, IsAllPublished};
ghost use Rattle.be_mirror.specs.Serving.{Feeds};

use crate::bell::Bell;
use crate::feeding::{FeedEnd, give_beside, put_pieces};
use crate::outlet::Direct;
use crate::printing::{Printer, changes_from};
use crate::ring::{Giver, InOrder, Taker, print_taken};
use be_base::NoMemory;
use be_follow::Follower;
use be_index::ListIndex;
use be_io::Source;
use be_model::Schema;
use rtrb::RingBuffer;
use std::alloc::Global;
use std::marker::Model;
use std::sync::atomic::AtomicBool;
use std::sync::{Arc, Wait};
use std::thread::{Threads, join_mut};
use std::time::Clock;

/// How many changes that were read may wait to be published. Those of a list that waits longer are read no faster than published.
const RING_CHANGES: usize = 16384;

/// It puts the changes of a feed behind a press and publishes them. Contracts see what a follower of these bytes has, and what is
/// published of its list. It is not `Drop`: end it by `end`.
pub struct Feeder<P: Printer> {
    alloc: Global,
    // The whole list, with a plain index: no event is looked for in it. It says what may come next.
    ledger: Follower<ListIndex>,
    // It has a beginning of the list, and readers see a beginning of that.
    direct: Direct<P>,
}

impl<P: Printer> Model for Feeder<P> {
    ghost use Rattle.std.specs.Prelude.{◌≡◌};
    ghost use Rattle.be_base.specs.Lists.{BeginsWith};
    ghost use Rattle.be_mirror.specs.Feeders.{FeederState};

    ghost Value = { FeederState };

    ghost view = { λ f. record { took = f.ledger; published = P.published f.direct.press } };

    ghost invariant = { λ f. (f.ledger.schema ≡ P.schema) × BeginsWith f.ledger.fed.list (P.list f.direct.press) × BeginsWith (P.list f.direct.press) (P.published f.direct.press) };
}

impl<P: Printer + Send> Feeder<P> {
    /// Over a press of an empty list, which has nothing pending, and an index for the list of all that is put into it. It takes no
    /// memory.
    pub fn make(alloc: Global, schema: Arc<Schema>, index: ListIndex, press: P) -> Feeder<P>
        requires schema { arc_value schema ≡ P.schema }
        requires index { index ≡ plain_index P.schema [] }
        requires empty { (P.list press ≡ []) × (P.published press ≡ []) }
        ensures made { result ≡ new_feeder P.schema }
        ensures follows { Follows [] result.took }
    {
        Feeder {
            alloc,
            ledger: Follower::make(alloc, schema, index),
            direct: Direct { press },
        }
    }

    /// Takes a feed from the input, until it ends, fails or `over` is set, while another thread publishes what it brings. What that one
    /// hasn't published by the end is left. It reads nothing before that one has begun. Where that doesn't come within two seconds, as
    /// where no thread can be made, this one publishes what it brings. It may wait for readers, and for the input.
    pub fn take<R: Threads + Wait + Clock + Sync, S: Source>(
        &mut self,
        rt: &R,
        source: &mut S,
        over: &AtomicBool,
    ) -> FeedEnd
        requires new { (self.old ≡ new_feeder P.schema) × Follows [] self.old.took }
        ensures feeds { result ≢ FeedEnd.NoMemory → Feeds P.schema (source_state S.Source source.old) (source_state S.Source source.new) result self.new.took.fed }
        ensures within { TakesWithin (S.taken source.old) (S.taken source.new) }
        ensures beside { S.kept_by_read source.new ≡ S.kept_by_read source.old }
    {
        let ring = RingBuffer::with_protocol::<Global, InOrder<P>>(self.alloc, RING_CHANGES);
        let Ok((mut giver, mut taker)) = ring else {
            return FeedEnd::NoMemory;
        };
        let bell = Bell::make();
        let (printed, end) = take_and_print(
            rt,
            self.alloc,
            &mut self.ledger,
            &mut giver,
            source,
            over,
            &mut self.direct.press,
            &mut taker,
            &bell,
        );
        // What came out of the ring is a beginning of what was put in.
        taker.slots_beside(&mut giver);
        match (printed, end) {
            (Err(NoMemory), _) => FeedEnd::NoMemory,
            (Ok(()), Some(end)) => end,
            (Ok(()), None) => put_pieces(
                rt,
                self.alloc,
                &mut self.ledger,
                &mut self.direct,
                source,
                over,
                &bell,
            ),
        }
    }

    /// Publishes all of the list. It may wait for readers.
    pub fn publish<R: Wait>(&mut self, rt: &R) -> Result<(), NoMemory>
        ensures took { self.new.took ≡ self.old.took }
        ensures kept { BeginsWith self.new.published self.old.published }
        ensures shown { OnOk result (IsAllPublished self.new) }
    {
        let changes = changes_from(self.alloc, &self.ledger, self.direct.press.handed())?;
        self.direct.press.print(rt, changes)
    }

    /// How many changes the list has.
    pub fn len(&self) -> u64
        ensures { result ≡ length self.now.took.fed.list }
    {
        self.ledger.len()
    }

    /// The press, as it stands.
    pub fn press(&self) -> &P
        ensures { P.published result.now ≡ self.now.published }
    {
        &self.direct.press
    }

    /// Gives it up. It may wait for readers.
    pub fn end<R: Wait>(self, rt: &R) {
        let Feeder {
            alloc: _,
            ledger: _,
            direct: Direct { press },
        } = self;
        press.end(rt);
    }
}

// Takes a feed in this thread, and publishes what comes out of the ring in another one. It takes none where that one doesn't begin.
fn take_and_print<R: Threads + Wait + Clock + Sync, S: Source, P: Printer + Send>(
    rt: &R,
    alloc: Global,
    ledger: &mut Follower<ListIndex>,
    giver: &mut Giver<P>,
    source: &mut S,
    over: &AtomicBool,
    press: &mut P,
    taker: &mut Taker<P>,
    bell: &Bell,
) -> (Result<(), NoMemory>, Option<FeedEnd>)
    requires new { (ledger.old ≡ new_follower P.schema) × Follows [] ledger.old }
    requires empty { (sent giver.old ≡ []) × (received taker.old ≡ []) × (P.list press.old ≡ []) × (P.published press.old ≡ []) }
    ensures feeds { IfSome result.1 (λ end. end ≢ FeedEnd.NoMemory → Feeds P.schema (source_state S.Source source.old) (source_state S.Source source.new) end ledger.new.fed) }
    ensures nothing { result.1 ≡ None → (ledger.new ≡ ledger.old) × (source.new ≡ source.old) }
    ensures given { SameProducer giver.old giver.new × (ledger.new.schema ≡ P.schema) × BeginsWith ledger.new.fed.list (entries_in (sent giver.new)) }
    ensures taken { SameConsumer taker.old taker.new × BeginsWith (entries_in (received taker.new)) (P.list press.new) }
    ensures seen { BeginsWith (P.list press.new) (P.published press.new) }
    ensures within { TakesWithin (S.taken source.old) (S.taken source.new) }
    ensures beside { S.kept_by_read source.new ≡ S.kept_by_read source.old }
{
    take_beside(
        rt,
        &mut || -> Result<(), NoMemory>
            requires { (received taker.now ≡ []) × (P.list press.now ≡ []) × (P.published press.now ≡ []) }
            ensures taken { SameConsumer taker.entry.now taker.exit.now × BeginsWith (entries_in (received taker.exit.now)) (P.list press.exit.now) }
            ensures seen { BeginsWith (P.list press.exit.now) (P.published press.exit.now) }
        {
            bell.begin(rt);
            let printed = print_taken(rt, alloc, press, taker, bell);
            bell.close(rt);
            printed
        },
        alloc,
        ledger,
        giver,
        source,
        over,
        bell,
    )
}

// Takes a feed beside the work.
fn take_beside<
    R: Threads + Wait + Clock + Sync,
    W: FnMut() -> A + Send,
    A: Send,
    P: Printer + Send,
    S: Source,
>(
    rt: &R,
    work: &mut W,
    alloc: Global,
    ledger: &mut Follower<ListIndex>,
    giver: &mut Giver<P>,
    source: &mut S,
    over: &AtomicBool,
    bell: &Bell,
) -> (A, Option<FeedEnd>)
    requires work { W.pre work.old }
    requires new { (ledger.old ≡ new_follower P.schema) × Follows [] ledger.old × (sent giver.old ≡ []) }
    ensures works { W.step work.old result.0 work.new }
    ensures feeds { IfSome result.1 (λ end. end ≢ FeedEnd.NoMemory → Feeds P.schema (source_state S.Source source.old) (source_state S.Source source.new) end ledger.new.fed) }
    ensures nothing { result.1 ≡ None → (ledger.new ≡ ledger.old) × (source.new ≡ source.old) }
    ensures given { SameProducer giver.old giver.new × (ledger.new.schema ≡ P.schema) × BeginsWith ledger.new.fed.list (entries_in (sent giver.new)) }
    ensures within { TakesWithin (S.taken source.old) (S.taken source.new) }
    ensures beside { S.kept_by_read source.new ≡ S.kept_by_read source.old }
{
    join_mut(
        rt,
        work,
        &mut || -> Option<FeedEnd>
            requires { (ledger.now ≡ new_follower P.schema) × Follows [] ledger.now × (sent giver.now ≡ []) }
            ensures feeds { IfSome result (λ end. end ≢ FeedEnd.NoMemory → Feeds P.schema (source_state S.Source source.entry.now) (source_state S.Source source.exit.now) end ledger.exit.now.fed) }
            ensures nothing { result ≡ None → (ledger.exit.now ≡ ledger.entry.now) × (source.exit.now ≡ source.entry.now) }
            ensures given { SameProducer giver.entry.now giver.exit.now × (ledger.exit.now.schema ≡ P.schema) × BeginsWith ledger.exit.now.fed.list (entries_in (sent giver.exit.now)) }
            ensures within { TakesWithin (S.taken source.entry.now) (S.taken source.exit.now) }
            ensures beside { S.kept_by_read source.exit.now ≡ S.kept_by_read source.entry.now }
        {
            let end = give_beside(rt, alloc, ledger, giver, source, over, bell);
            bell.close(rt);
            end
        },
    )
}
