//! Threads that add to the words of one heat.

ghost use Rattle.std.specs.Prelude.{◌≡◌, ◌<◌, All, length};
ghost use Rattle.be_heat.specs.Seats.{IsOf};

use crate::scripts::Script;
use crate::shown::{push_counts, push_owns};
use be_heat::{Heat, HeatSeat, SEAT_ADDS};
use std::alloc::Global;
use std::thread::{self, Threads};

/// What each seat has added, and the totals.
pub fn counts<R: Threads + Sync>(rt: &R, alloc: Global, script: Script) -> Option<String> {
    let Script {
        words,
        times,
        seats: scripts,
    } = script;
    let Ok((heat, mut seats)) = Heat::make(alloc, words, scripts.len() as u32) else {
        return None;
    };
    count_all(
        rt,
        &heat,
        words,
        times,
        scripts.as_slice(),
        seats.as_mut_slice(),
    );
    let mut out = String::new(alloc);
    push_owns(alloc, &mut out, words, seats.as_slice())?;
    let Ok(totals) = heat.close(seats) else {
        return None;
    };
    push_counts(&mut out, totals.as_slice())?;
    Some(out)
}

// Each seat adds in a thread of its own.
fn count_all<R: Threads + Sync>(
    rt: &R,
    heat: &Heat,
    words: u32,
    times: u32,
    scripts: &[Vec<u32>],
    seats: &mut [HeatSeat],
)
    requires words { heat.now.words ≡ words }
    requires scripts { 0 < length scripts.now }
    requires seats { All (λ seat. IsOf heat.now seat × (length seat.own ≡ words)) seats.old }
    ensures count { length seats.new ≡ length seats.old }
    ensures seats { All (λ seat. IsOf heat.now seat × (length seat.own ≡ words)) seats.new }
{
    thread::for_each_mut(
        rt,
        seats,
        scripts.len(),
        &|place: usize, seat: &mut HeatSeat|
            requires { IsOf heat.now seat.old × (heat.now.words ≡ words) × (length seat.old.own ≡ words) }
            ensures { (seat.new.of ≡ seat.old.of) × (length seat.new.own ≡ length seat.old.own) }
        {
            if let Some(script) = scripts.get(place) {
                add_all(heat, words, times, script.as_slice(), seat);
            }
        },
    );
}

// Goes through the words as often as is said.
fn add_all(heat: &Heat, words: u32, times: u32, script: &[u32], seat: &mut HeatSeat)
    requires { IsOf heat.now seat.old × (heat.now.words ≡ words) × (length seat.old.own ≡ words) }
    ensures { IsOf heat.now seat.new × (length seat.new.own ≡ words) }
{
    for _ in 0..times {
        add_each(heat, words, script, seat);
    }
}

fn add_each(heat: &Heat, words: u32, script: &[u32], seat: &mut HeatSeat)
    requires { IsOf heat.now seat.old × (heat.now.words ≡ words) × (length seat.old.own ≡ words) }
    ensures { IsOf heat.now seat.new × (length seat.new.own ≡ words) }
{
    for word in script {
        if *word < words && seat.own(*word) < SEAT_ADDS {
            heat.add(seat, *word);
        }
    }
}
