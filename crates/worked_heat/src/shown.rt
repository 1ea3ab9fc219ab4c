//! Counts as they are printed.

ghost use Rattle.std.specs.Prelude.{◌≡◌, All, length};

use be_heat::HeatSeat;
use std::alloc::Global;

/// What each seat has added, each followed by ` | `.
pub fn push_owns(alloc: Global, out: &mut String, words: u32, seats: &[HeatSeat]) -> Option<()>
    requires { All (λ seat. length seat.own ≡ words) seats.now }
{
    for place in 0..seats.len() {
        let counts = owns(alloc, words, &seats[place])?;
        push_counts(out, counts.as_slice())?;
        out.push_str(" | ").ok()?;
    }
    Some(())
}

fn owns(alloc: Global, words: u32, seat: &HeatSeat) -> Option<Vec<u64>>
    requires { length seat.now.own ≡ words }
{
    let mut counts = Vec::new(alloc);
    for word in 0..words {
        counts.push(seat.own(word)).ok()?;
    }
    Some(counts)
}

/// The words that aren't at 0, or `-`.
pub fn push_counts(out: &mut String, counts: &[u64]) -> Option<()> {
    if counts.iter().all(|count| *count == 0) {
        return out.push_str("-").ok();
    }
    let mut gap = "";
    for (word, count) in counts.iter().enumerate() {
        if *count > 0 {
            write!(out, "{gap}{word}={count}").ok()?;
            gap = " ";
        }
    }
    Some(())
}
