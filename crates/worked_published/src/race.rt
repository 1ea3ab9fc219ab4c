//! Four readers, each in a thread of its own, beside a writer.

ghost use Rattle.std.specs.Prelude.{◌≡◌, []};
ghost use Rattle.std.specs.Arc.{arc_value};
ghost use Rattle.std.specs.Thread.{IsSync};

use crate::changes::{add, next_change};
use crate::told::{copy, pair};
use be_copy::Copy2;
use be_index::ListIndex;
use be_model::{Event, Found, Schema};
use be_published::{Glass, Naming, Opened, Press, Sheet};
use std::alloc::Global;
use std::marker::Brand;
use std::sync::{Arc, Wait};
use std::thread::{self, Threads};

const CHANGES: u64 = 10_000;

const READERS: u32 = 4;
// A reader that has looked so often gives up.
const LOOKS: u64 = 1_000_000_000;

// After an odd number of changes the row of the last one is live, and after an even one none is.
fn says(found: &Found, n: u64) -> bool {
    match found.rows().first() {
        Some(row) => n % 2 == 1 && found.len() == 1 && row.id.0 == n - 1,
        None => n % 2 == 0,
    }
}

// Reads until it has seen all changes. No front may fall, and what is found is what the length says.
fn watch<T: Sheet<J>, J: Naming>(alloc: Global, mut glass: Glass<T, J>) -> bool {
    let mut found = Found::make(alloc);
    let event = Event::make(alloc);
    let mut front = 0;
    for _ in 0..LOOKS {
        let Ok((n, _)) = glass.find(&event, &mut found) else {
            return false;
        };
        if n < front || n != glass.front() || !says(&found, n) {
            return false;
        }
        if n == CHANGES {
            return true;
        }
        if n == front {
            thread::yield_now();
        }
        front = n;
    }
    false
}

fn watch_all<T: Sheet<J> + Send + Sync, J: Naming + Send + Sync, R: Threads + Sync>(
    rt: &R,
    alloc: Global,
    glasses: Vec<Glass<T, J>>,
) -> Option<bool> {
    let seen = thread::map_vec(
        rt,
        glasses,
        &|glass: Glass<T, J>| -> bool { watch(alloc, glass) },
    );
    Some(seen.ok()?.iter().all(|seen| *seen))
}

// Appends and publishes one change after another.
fn write_all<T: Sheet<J>, J: Naming, R: Wait>(
    rt: &R,
    alloc: Global,
    press: &mut Press<T, J>,
    copy: &mut Copy2<ListIndex>,
) -> Option<bool>
    requires same { press.old.list ≡ copy.old.list }
    requires schema { copy.old.index.schema ≡ J.schema }
{
    for place in 0..CHANGES {
        if !add(press, copy, next_change(alloc, place)?).ok()?
            || press.publish(rt).ok()? != place + 1
        {
            return Some(false);
        }
    }
    Some(true)
}

fn beside<T: Sheet<J> + Send + Sync, J: Naming + Send + Sync, R: Threads + Wait + Sync>(
    rt: &R,
    alloc: Global,
    press: &mut Press<T, J>,
    copy: &mut Copy2<ListIndex>,
    glasses: Vec<Glass<T, J>>,
) -> Option<bool>
    requires same { press.old.list ≡ copy.old.list }
    requires schema { copy.old.index.schema ≡ J.schema }
{
    let (written, read) = thread::join(
        rt,
        move || -> Option<bool>
            requires { (press.now.list ≡ copy.now.list) × (copy.now.index.schema ≡ J.schema) }
        { write_all(rt, alloc, press, copy) },
        move || -> Option<bool>
            requires { IsSync R.row }
        { watch_all(rt, alloc, glasses) },
    );
    Some(written? && read?)
}

fn raced<J: Naming + Send + Sync, R: Threads + Wait + Sync>(
    rt: &R,
    alloc: Global,
    opened: Opened,
    schema: &Arc<Schema>,
) -> Option<bool>
    requires named { opened.seen.book ≡ J.book }
    requires schema { arc_value schema.now ≡ J.schema }
{
    let mut copy = copy(alloc, schema)?;
    let (mut press, glasses) = pair::<J, R>(rt, alloc, opened, schema, READERS)?;
    let done = beside(rt, alloc, &mut press, &mut copy, glasses);
    press.end(rt);
    done
}

pub fn readers_see_what_they_say<R: Threads + Wait + Sync>(
    rt: &R,
    alloc: Global,
    schema: &Arc<Schema>,
) -> Option<bool> {
    raced::<Brand, R>(rt, alloc, Opened::new(), schema)
}
