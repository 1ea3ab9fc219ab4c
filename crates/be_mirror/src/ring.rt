//! The ring through which changes go from the thread that takes a feed to the one that publishes them.

ghost use Rattle.std.specs.Prelude.{◌≡◌, ◌++◌, ◌∷◌, [], length, IfOk, OnOk, OnErr};
ghost use Rattle.std.specs.Arc.{arc_value};
ghost use Rattle.rtrb.specs.Ring.{sent, received, SameProducer, SameConsumer};
ghost use Rattle.be_base.specs.Lists.{BeginsWith};
ghost use Rattle.be_change.specs.Entries.{entry_of, entries_in};
ghost use Rattle.be_change.specs.Sound.{MayAppend, Sound};

use crate::bell::Bell;
use crate::printing::Printer;
use be_base::NoMemory;
use be_model::Change;
use rtrb::{Consumer, Producer, Protocol, PushError};
use std::alloc::Global;
use std::marker::PhantomData;
use std::sync::{Arc, Wait};

/// How many changes are taken out of the ring at most before they are published.
const BATCH_CHANGES: u32 = 8192;

/// A change is put into the ring only where it may follow those before it.
pub(crate) struct InOrder<P: Printer> {
    of: PhantomData<P>,
}

impl<P: Printer> Protocol<Arc<Change>> for InOrder<P> {
    ghost use Rattle.std.specs.Arc.{arc_value};
    ghost use Rattle.be_change.specs.Entries.{entry_of, entries_in};
    ghost use Rattle.be_change.specs.Sound.{MayAppend};

    ghost allows = { λ before x. MayAppend P.schema (entries_in before) (entry_of (arc_value x)) };
}

// The ends of the ring.
pub(crate) type Giver<P> = Producer<Arc<Change>, Global, InOrder<P>>;

pub(crate) type Taker<P> = Consumer<Arc<Change>, Global, InOrder<P>>;

// Puts the changes into the ring, in order. Where it is full it waits for the other thread. It gives up where that one has ended.
pub(crate) fn give_all<P: Printer, R: Wait>(
    rt: &R,
    giver: &mut Giver<P>,
    changes: Vec<Arc<Change>>,
    bell: &Bell,
) -> Result<(), NoMemory>
    requires sound { Sound P.schema (entries_in (sent giver.old) ++ entries_in changes.items) }
    ensures ring { SameProducer giver.old giver.new }
    ensures begins { BeginsWith (entries_in (sent giver.old) ++ entries_in changes.items) (entries_in (sent giver.new)) }
    ensures all { OnOk result (entries_in (sent giver.new) ≡ entries_in (sent giver.old) ++ entries_in changes.items) }
{
    for change in changes {
        give(rt, giver, change, bell)?;
    }
    if bell.ring(rt) {
        return Err(NoMemory);
    }
    Ok(())
}

// Puts a change into the ring.
fn give<P: Printer, R: Wait>(
    rt: &R,
    giver: &mut Giver<P>,
    change: Arc<Change>,
    bell: &Bell,
) -> Result<(), NoMemory>
    requires { MayAppend P.schema (entries_in (sent giver.old)) (entry_of (arc_value change)) }
    ensures ring { SameProducer giver.old giver.new }
    ensures put { OnOk result (sent giver.new ≡ sent giver.old ++ change ∷ []) }
    ensures refused { OnErr result (sent giver.new ≡ sent giver.old) }
{
    match giver.push(change) {
        Ok(()) => Ok(()),
        Err(PushError::Full(change)) => {
            bell.ring(rt);
            give_later(rt, giver, change, bell)
        }
    }
}

// The same, once the ring was full.
fn give_later<P: Printer, R: Wait>(
    rt: &R,
    giver: &mut Giver<P>,
    change: Arc<Change>,
    bell: &Bell,
) -> Result<(), NoMemory>
    requires { MayAppend P.schema (entries_in (sent giver.old)) (entry_of (arc_value change)) }
    ensures ring { SameProducer giver.old giver.new }
    ensures put { OnOk result (sent giver.new ≡ sent giver.old ++ change ∷ []) }
    ensures refused { OnErr result (sent giver.new ≡ sent giver.old) }
{
    let mut change = change;
    for _ in rt.forever() {
        let heard = bell.heard(rt);
        match giver.push(change) {
            Ok(()) => return Ok(()),
            Err(PushError::Full(back)) => change = back,
        }
        if bell.wait(rt, heard) {
            return Err(NoMemory);
        }
    }
    unreachable!()
}

// Takes changes out of the ring until it looks empty, or until there are many of them.
fn take_batch<P: Printer>(alloc: Global, taker: &mut Taker<P>) -> Result<Vec<Arc<Change>>, NoMemory>
    requires sound { Sound P.schema (entries_in (received taker.old)) }
    ensures ring { SameConsumer taker.old taker.new }
    ensures taken { IfOk result (λ batch. entries_in (received taker.new) ≡ entries_in (received taker.old) ++ entries_in batch.items) }
    ensures begins { BeginsWith (entries_in (received taker.new)) (entries_in (received taker.old)) }
    ensures sound { Sound P.schema (entries_in (received taker.new)) }
{
    let mut batch = Vec::new(alloc);
    for _ in 0..BATCH_CHANGES {
        batch.reserve(1)?;
        match taker.pop() {
            Ok(change) => batch.push_reserved(change),
            Err(_) => break,
        }
    }
    Ok(batch)
}

// Publishes what comes out of the ring, until it is closed and empty, or memory is wanting.
pub(crate) fn print_taken<P: Printer, R: Wait>(
    rt: &R,
    alloc: Global,
    press: &mut P,
    taker: &mut Taker<P>,
    bell: &Bell,
) -> Result<(), NoMemory>
    requires sound { Sound P.schema (entries_in (received taker.old)) }
    requires list { P.list press.old ≡ entries_in (received taker.old) }
    requires seen { BeginsWith (P.list press.old) (P.published press.old) }
    ensures ring { SameConsumer taker.old taker.new }
    ensures begins { BeginsWith (entries_in (received taker.new)) (P.list press.new) }
    ensures seen { BeginsWith (P.list press.new) (P.published press.new) }
    ensures kept { BeginsWith (P.published press.new) (P.published press.old) }
    ensures shown { OnOk result (P.published press.new ≡ entries_in (received taker.new)) }
{
    let mut is_closed = false;
    for _ in rt.forever() {
        let heard = bell.heard(rt);
        let is_empty = print_next(rt, alloc, press, taker)?;
        if !is_empty {
            bell.ring(rt);
        } else if is_closed {
            return Ok(());
        } else {
            is_closed = bell.wait(rt, heard);
        }
    }
    unreachable!()
}

// Takes what stands in the ring and publishes it, before more is taken. Says whether there was nothing.
fn print_next<P: Printer, R: Wait>(
    rt: &R,
    alloc: Global,
    press: &mut P,
    taker: &mut Taker<P>,
) -> Result<bool, NoMemory>
    requires sound { Sound P.schema (entries_in (received taker.old)) }
    requires list { P.list press.old ≡ entries_in (received taker.old) }
    requires seen { BeginsWith (P.list press.old) (P.published press.old) }
    ensures ring { SameConsumer taker.old taker.new }
    ensures sound { Sound P.schema (entries_in (received taker.new)) }
    ensures begins { BeginsWith (entries_in (received taker.new)) (P.list press.new) }
    ensures seen { BeginsWith (P.list press.new) (P.published press.new) }
    ensures kept { BeginsWith (P.published press.new) (P.published press.old) }
    ensures shown { OnOk result ((P.list press.new ≡ entries_in (received taker.new)) × (P.published press.new ≡ entries_in (received taker.new))) }
{
    let batch = take_batch(alloc, taker)?;
    let is_empty = batch.is_empty();
    press.print(rt, batch)?;
    Ok(is_empty)
}
