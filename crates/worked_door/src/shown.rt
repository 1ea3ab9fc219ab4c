//! What came of a row, as it is printed.

use crate::memory::Peer;
use crate::row::Row;
use be_base::SessionNo;
use be_door::{Metered, Sums};
use std::alloc::Global;

/// The links that are shown one by one.
const SHOWN: usize = 8;

pub fn shown_sums(alloc: Global, sums: &Sums) -> Option<String> {
    let Sums {
        given,
        back,
        failed,
        refused,
        read_faults,
        write_faults,
        most,
    } = *sums;
    format!(in alloc;
        "given {given} back {back} failed {failed} refused {refused} faults {read_faults} {write_faults} most {most}"
    ).ok()
}

/// Few links of one worker one by one, with the session and what each holds. Of others, whether each was given once, and
/// whether they stand in their workers' order.
pub fn shown_kept(alloc: Global, kept: &[(SessionNo, Metered<Peer>)], row: &Row) -> Option<String> {
    let mut out = String::new(alloc);
    if row.workers == 1 && kept.len() <= SHOWN {
        for (session, link) in kept.iter() {
            let number = session.0;
            let held = str::from_utf8(link.link().sink.bytes()).ok()?;
            out.push_str(format!(in alloc; ", {number}: {held}").ok()?.as_str())
                .ok()?;
        }
        return Some(out);
    }
    let once = is_each_once(alloc, kept)?;
    let ordered = are_in_order(kept, row.workers as u64);
    format!(in alloc;
        ", kept {}, each once {once}, in workers' order {ordered}",
        kept.len()
    )
    .ok()
}

// Whether the links hold the numbers from 0, each once.
fn is_each_once(alloc: Global, kept: &[(SessionNo, Metered<Peer>)]) -> Option<bool> {
    let mut numbers = Vec::new(alloc);
    for (_, link) in kept.iter() {
        let held = str::from_utf8(link.link().sink.bytes()).ok()?;
        numbers.push(held.parse::<u64>().ok()?).ok()?;
    }
    numbers.sort_unstable();
    let mut wanted = 0;
    for number in numbers.iter() {
        if *number != wanted {
            return Some(false);
        }
        wanted = wanted.saturating_add(1);
    }
    Some(true)
}

// Whether the links of each worker stand together: a worker's sessions rise, so there are no more rises than workers.
fn are_in_order(kept: &[(SessionNo, Metered<Peer>)], workers: u64) -> bool {
    let mut rises: u64 = 1;
    let mut last = 0;
    for (session, _) in kept.iter() {
        if session.0 <= last {
            rises = rises.saturating_add(1);
        }
        last = session.0;
    }
    rises <= workers
}
