//! What a line asks for.

ghost use Rattle.std.specs.Prelude.{◌<◌, ◌≤◌, length};
ghost use Rattle.be_base.specs.declared.limits.TheConstants.{SEATS};
ghost use Rattle.be_heat.specs.declared.limits.TheConstants.{HEAT_WORDS};

use be_base::SEATS;
use be_heat::HEAT_WORDS;
use std::alloc::Global;

/// How many words there are, how often each seat goes through its words, and these words.
#[derive(Drop)]
pub struct Script {
    pub words: u32,
    pub times: u32,
    pub seats: Vec<Vec<u32>>,
    ghost words_fit: { (0 < words) × (words ≤ HEAT_WORDS) },
    ghost seats_fit: { (0 < length seats.items) × (length seats.items ≤ SEATS) },
}

/// The script of a line, where a heat may have so many words and seats.
pub fn read_script(alloc: Global, line: &str) -> Option<Script> {
    let (size, texts) = line.split_once(": ")?;
    let (words, times) = size.split_once(' ')?;
    let words: u32 = words.parse().ok()?;
    let times: u32 = times.parse().ok()?;
    let mut seats = Vec::new(alloc);
    for text in texts.split(" | ") {
        seats.push(numbers(alloc, text)?).ok()?;
    }
    let is_some = words > 0 && !seats.is_empty();
    if is_some && words <= HEAT_WORDS && seats.len() <= SEATS as usize {
        Some(Script {
            words,
            times,
            seats,
        })
    } else {
        None
    }
}

fn numbers(alloc: Global, text: &str) -> Option<Vec<u32>> {
    let mut numbers = Vec::new(alloc);
    for number in text.split(' ') {
        numbers.push(number.parse().ok()?).ok()?;
    }
    Some(numbers)
}
