//! Mailboxes: letters in order, a full mailbox, and passes that move into threads and back. `Seat` and `Hub` show how
//! what carries passes is named. `None` and `false` are answers that no test wants.

ghost use Rattle.std.specs.Prelude.{◌≡◌, [], ◌∷◌, length, map, All, IfSome, OnOk};
ghost use Rattle.std.specs.List.{range_with_len};
ghost use Rattle.std.specs.Thread.{IsSync, IsSend};
ghost use Rattle.be_model.specs.Letters.{plain_letter};
ghost use Rattle.be_mail.specs.Letters.{IsFit, Posting};
ghost use Rattle.be_mail.specs.Mailbox.{ForEachState};
ghost use Rattle.be_mail.specs.Passes.{AllPut, new_passes};
ghost use Rattle.be_mail.specs.Settled.{AreKept, TakenWerePut};
ghost use Rattle.worked_parts.specs.Early.{IsEarly};

use be_base::{Id, Name, NoMemory, SessionNo};
use be_event::{read_event, read_schema};
use be_expr::read_expr;
use be_mail::{BoxNames, Mail, MailPasses, Post, make_mail};
use be_model::{Conj, Event, EventText, Letter, Row, Schema};
use std::alloc::Global;
use std::marker::{Brand, PhantomData};
use std::sync::{Arc, Wait};
use std::thread;
use std::thread::Threads;

fn schema_of_price(alloc: Global) -> Option<Schema> {
    read_schema(alloc, b"int price 0 1000").ok()
}

// A condition, and an event that satisfies it.
fn condition_and_event(alloc: Global, schema: &Schema) -> Option<(Conj, Event)> {
    let conj = read_expr(alloc, schema, b"price < 10").ok()?;
    let event = read_event(alloc, schema, b"price=7").ok()?;
    Some((conj, event))
}

// The event, found by a row of session `to`.
fn letter(alloc: Global, schema: &Schema, to: u64, id: u64, n: u64) -> Option<Letter>
    ensures to { IfSome result (λ l. l.session.0 ≡ to) }
    ensures n { IfSome result (λ l. l.n ≡ n) }
    ensures fit { IfSome result (λ l. IsFit schema.now (plain_letter l)) }
{
    let session = SessionNo(to);
    let name = Name::read(b"low").ok()?;
    let (conj, event) = condition_and_event(alloc, schema)?;
    if to == 0 || !event.lies(schema) || !conj.satisfied_by(&event) {
        return None;
    }
    let row = Row {
        id: Id(id),
        session,
        name,
        conj,
    };
    let row = Arc::new(alloc, row).ok()?;
    let text = Arc::new(alloc, EventText { event }).ok()?;
    Some(Letter {
        session,
        n,
        row,
        text,
    })
}

/// A seat carries its passes, and its type says of which mail they are, and what holds of the letters that it put.
#[derive(Drop)]
struct Seat<N: BoxNames> {
    passes: MailPasses,
    of: PhantomData<N>,
    ghost named: { passes.boxes ≡ N.boxes },
    ghost early: { AllPut IsEarly passes },
}

impl<N: BoxNames> Seat<N> {
    fn new(passes: MailPasses) -> Seat<N>
        requires { passes ≡ new_passes N.boxes passes.seat }
        ensures { result.passes ≡ passes }
    {
        Seat {
            passes,
            of: PhantomData,
        }
    }
}

/// What all seats share.
#[derive(Drop)]
struct Hub<S: Post, N: BoxNames> {
    mail: Mail<S>,
    of: PhantomData<N>,
    ghost named: { mail ≡ N.boxes },
}

impl<S: Post, N: BoxNames> Hub<S, N> {
    fn new(mail: Mail<S>) -> Hub<S, N>
        requires { mail ≡ N.boxes }
        ensures { result.mail ≡ mail }
    {
        Hub {
            mail,
            of: PhantomData,
        }
    }
}

// Each sender puts so many letters.
const EACH: u64 = 400;

// Puts letters for session 3, which the last of three seats has.
fn put_all<S: Post, N: BoxNames, R: Wait>(
    rt: &R,
    alloc: Global,
    schema: &Schema,
    hub: &Hub<S, N>,
    mut seat: Seat<N>,
    sender: u64,
) -> Option<Seat<N>>
    requires named { (S.schema ≡ schema.now) × (S.seats ≡ 3) }
    ensures { IfSome result (λ s. s.passes.seat ≡ seat.passes.seat) }
{
    for n in 0..EACH {
        let next = letter(alloc, schema, 3, sender, n)?;
        if hub.mail.put(rt, &mut seat.passes, 2, next).is_err() {
            return None;
        }
    }
    Some(seat)
}

// Takes the letters of both senders, and says whether those of each came in order.
fn take_all<S: Post, N: BoxNames, R: Wait>(
    rt: &R,
    hub: &Hub<S, N>,
    mut seat: Seat<N>,
) -> (Seat<N>, bool)
    ensures { result.0.passes.seat ≡ seat.passes.seat }
{
    let mut next = [0u64; 2];
    let mut in_order = true;
    for _ in rt.forever() {
        if next[0] >= EACH && next[1] >= EACH {
            break;
        }
        match hub.mail.fetch(rt, &mut seat.passes) {
            Some(letter) => {
                let sender = if letter.row.id.0 == 0 { 0 } else { 1 };
                in_order = in_order && letter.n == next[sender];
                next[sender] = letter.n.saturating_add(1);
            }
            None => thread::yield_now(),
        }
    }
    (seat, in_order)
}

// One thread puts while another takes.
fn put_and_take<S: Post + Send + Sync, N: BoxNames + Send + Sync, R: Threads + Wait + Sync>(
    rt: &R,
    alloc: Global,
    schema: &Schema,
    hub: &Hub<S, N>,
    b: Seat<N>,
    c: Seat<N>,
) -> (Option<Seat<N>>, (Seat<N>, bool))
    requires { (S.schema ≡ schema.now) × (S.seats ≡ 3) }
    ensures b { IfSome result.0 (λ s. s.passes.seat ≡ b.passes.seat) }
    ensures c { result.1.0.passes.seat ≡ c.passes.seat }
{
    thread::join(
        rt,
        move ||
            requires { (S.schema ≡ schema.now) × (S.seats ≡ 3) }
            ensures { IfSome result (λ s. s.passes.seat ≡ b.passes.seat) }
        { put_all(rt, alloc, schema, hub, b, 1) },
        move ||
            ensures { result.0.passes.seat ≡ c.passes.seat }
        { take_all(rt, hub, c) },
    )
}

// Two threads put, and a third takes what both put; the passes come back and account for every letter.
fn exchanged<S: Post + Send + Sync, N: BoxNames + Send + Sync, R: Threads + Wait + Sync>(
    rt: &R,
    alloc: Global,
    schema: &Schema,
    mail: Mail<S>,
    passes: Vec<MailPasses>,
) -> Option<bool>
    requires rule { (S.schema ≡ schema.now) × (S.seats ≡ 3) }
    requires named { mail ≡ N.boxes }
    requires seats { (length mail ≡ 3) × (passes.items ≡ map (new_passes mail) (range_with_len 0 3)) }
{
    let hub = Hub::<S, N>::new(mail);
    let hub = &hub;
    let mut passes = passes.into_iter();
    let a = Seat::<N>::new(passes.next()?);
    let b = Seat::<N>::new(passes.next()?);
    let c = Seat::<N>::new(passes.next()?);
    let (a, (b, (c, in_order))) = thread::join(
        rt,
        move ||
            requires { (S.schema ≡ schema.now) × (S.seats ≡ 3) }
            ensures { IfSome result (λ s. s.passes.seat ≡ a.passes.seat) }
        { put_all(rt, alloc, schema, hub, a, 0) },
        move ||
            requires { IsSync R.row × IsSync S.row × IsSend S.row × IsSync N.row × IsSend N.row × (S.schema ≡ schema.now) × (S.seats ≡ 3) }
            ensures { IfSome result.0 (λ s. s.passes.seat ≡ b.passes.seat) × (result.1.0.passes.seat ≡ c.passes.seat) }
        { put_and_take(rt, alloc, schema, hub, b, c) },
    );
    close(alloc, hub, a?, b?, c).ok()?;
    Some(in_order)
}

// Joins the passes of three seats, the last first: what was taken and what is queued are the letters that were put, and
// each letter that was taken was put by the seat that it carries, so what seats say of theirs holds of it.
fn close<S: Post, N: BoxNames>(
    alloc: Global,
    hub: &Hub<S, N>,
    a: Seat<N>,
    b: Seat<N>,
    c: Seat<N>,
) -> Result<(), NoMemory>
    requires boxes { length hub.now.mail ≡ 3 }
    requires seats { (a.passes.seat ≡ 0) × (b.passes.seat ≡ 1) × (c.passes.seat ≡ 2) }
    ensures kept { OnOk result (AreKept S.schema S.seats S.found hub.now.mail (c.passes ∷ b.passes ∷ a.passes ∷ [])) }
    ensures taken { OnOk result (TakenWerePut (c.passes ∷ b.passes ∷ a.passes ∷ [])) }
    ensures early { OnOk result (All (λ (x : Posting). IsEarly x.letter) c.passes.taken) }
{
    let mut all = Vec::new(alloc);
    all.push(c.passes)?;
    all.push(b.passes)?;
    all.push(a.passes)?;
    hub.mail.settle(all);
    Ok(())
}

// Makes the mail of three seats.
fn with_three_seats<S: Post + Send + Sync, R: Threads + Wait + Sync>(
    rt: &R,
    alloc: Global,
    schema: &Schema,
) -> Option<bool>
    requires { (S.schema ≡ schema.now) × (S.seats ≡ 3) × ForEachState S.found }
{
    let (mail, passes) = make_mail::<S>(alloc, 3).ok()?;
    exchanged::<S, Brand, _>(rt, alloc, schema, mail, passes)
}

#[test]
fn letters_of_two_threads_come_to_one(rt: HostRuntime) {
    let alloc = rt.alloc();
    let schema = schema_of_price(alloc).expect(&rt, "a schema");
    let in_order = with_three_seats::<Brand, _>(&rt, alloc, &schema);
    assert!(rt; in_order == Some(true));
}

/// What came of so many puts, and then so many fetches, of one seat.
#[derive(Drop, PartialEq, Eq)]
struct Outcome {
    put: u64,
    // The number of the last letter that was given back.
    back: u64,
    // How many came in order.
    came: u64,
    fulls: u64,
    empties: u64,
}

// Puts letters with the numbers 0, 1 and so on, and then fetches.
fn passed<S: Post, R: Wait>(
    rt: &R,
    alloc: Global,
    schema: &Schema,
    puts: u64,
    fetches: u64,
) -> Option<Outcome>
    requires { (S.schema ≡ schema.now) × (S.seats ≡ 1) × ForEachState S.found }
{
    let (mail, mut passes) = make_mail::<S>(alloc, 1).ok()?;
    let mut mine = passes.pop()?;
    let (mut put, mut back, mut came) = (0u64, 0u64, 0u64);
    for n in 0..puts {
        match mail.put(rt, &mut mine, 0, letter(alloc, schema, 1, 0, n)?) {
            Ok(()) => put = put.saturating_add(1),
            Err(letter) => back = letter.n,
        }
    }
    for _ in 0..fetches {
        if let Some(letter) = mail.fetch(rt, &mut mine) {
            if letter.n == came {
                came = came.saturating_add(1);
            }
        }
    }
    Some(Outcome {
        put,
        back,
        came,
        fulls: mine.fulls(),
        empties: mine.empties(),
    })
}

#[test]
fn two_letters_come_in_order(rt: HostRuntime) {
    let alloc = rt.alloc();
    let schema = schema_of_price(alloc).expect(&rt, "a schema");
    let found = passed::<Brand, _>(&rt, alloc, &schema, 2, 3);
    let want = Outcome {
        put: 2,
        back: 0,
        came: 2,
        fulls: 0,
        empties: 1,
    };
    assert!(rt; found == Some(want));
}

// A mailbox takes 1024 letters.
#[test]
fn a_full_mailbox_gives_the_letter_back(rt: HostRuntime) {
    let alloc = rt.alloc();
    let schema = schema_of_price(alloc).expect(&rt, "a schema");
    let found = passed::<Brand, _>(&rt, alloc, &schema, 1025, 1025);
    let want = Outcome {
        put: 1024,
        back: 1024,
        came: 1024,
        fulls: 1,
        empties: 1,
    };
    assert!(rt; found == Some(want));
}
