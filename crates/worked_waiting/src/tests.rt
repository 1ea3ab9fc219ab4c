//! What waits come to, and how long they take.

use crate::fake::FakeBed;
use be_io::MemSink;
use be_waiting::{Bell, Level, SystemBed};
use std::alloc::Global;
use std::sync::Wait;
use std::thread::{Threads, join};
use std::time::Clock;

const NEVER: u64 = u64::MAX;

// What a wait above place 7 at height 7 comes to, how many sleeps it takes, and how many milliseconds.
fn waited(raised_at: u64, called_at: u64, millis: u64) -> (Option<u64>, u64, u64) {
    let level = Level::make(7);
    let bed = FakeBed::make(raised_at, called_at);
    let found = level.await_above(&bed, 7, millis);
    (found, bed.sleeps(), bed.time())
}

// The same of a bell: whether so many sleeps were made before the wait was over.
fn slept(called_at: u64, millis: u64) -> (u64, u64) {
    let bell = Bell::make();
    let bed = FakeBed::make(NEVER, called_at);
    for _ in 0..1000 {
        bell.announce();
        if !bell.sleep(&bed, millis) {
            return (bed.sleeps(), bed.time());
        }
    }
    (NEVER, bed.time())
}

#[test]
fn waits(rt: HostRuntime) {
    let above = Level::make(9).await_above(&FakeBed::make(NEVER, 0), 7, 50);
    let rows = above == Some(9)
        && waited(NEVER, NEVER, 0) == (None, 0, 0)
        && waited(NEVER, NEVER, 250) == (None, 3, 250)
        && waited(2, NEVER, 250) == (Some(8), 2, 100)
        && waited(NEVER, 1, 250) == (None, 1, 100)
        && slept(NEVER, 0) == (0, 0)
        && slept(NEVER, 250) == (3, 250)
        && slept(1, 250) == (1, 100);
    assert!(rt; rows);
}

const ROUNDS: u64 = 20_000;

fn follow<R: Wait + Clock>(rt: &R, out: &MemSink, heard: &Level, told: &Level) {
    let bed = SystemBed::make(rt, out);
    for round in 0..ROUNDS {
        heard.await_above(&bed, round, 60_000);
        told.set(round + 1);
        told.wake();
    }
}

fn lead<R: Wait + Clock>(rt: &R, out: &MemSink, heard: &Level, told: &Level) {
    let bed = SystemBed::make(rt, out);
    for round in 0..ROUNDS {
        told.set(round + 1);
        told.wake();
        heard.await_above(&bed, round, 60_000);
    }
}

// No wake is lost: each would take a tenth of a second.
fn in_turns<R: Wait + Clock + Threads + Sync>(rt: &R, alloc: Global) -> bool {
    let (one, two) = (Level::make(0), Level::make(0));
    let first = MemSink::make(alloc, Vec::new(alloc));
    let second = MemSink::make(alloc, Vec::new(alloc));
    join(
        rt,
        || follow(rt, &first, &one, &two),
        || lead(rt, &second, &two, &one),
    );
    one.above(ROUNDS - 1) == Some(ROUNDS) && two.above(ROUNDS - 1) == Some(ROUNDS)
}

#[test]
fn turns(rt: HostRuntime) {
    let alloc: Global = rt.alloc();
    let all = in_turns(&rt, alloc);
    assert!(rt; all);
}
