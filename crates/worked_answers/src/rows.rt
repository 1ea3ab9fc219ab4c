//! How a text is written in a row: `\n`, `\r`, `\t` and `\0` are the bytes of these names, and `\s` is a blank. Between two bars,
//! `31*and ` is that text as often, with a `%` in it the number from 0.

use std::alloc::{AllocError, Global};

fn repeated(alloc: Global, times: u32, part: &str) -> Result<String, AllocError> {
    let mut text = String::new(alloc);
    for number in 0..times {
        let number = format!(in alloc; "{number}")?;
        text.push_str(part.replace(alloc, "%", number.as_str())?.as_str())?;
    }
    Ok(text)
}

fn part_of(alloc: Global, part: &str) -> Result<String, AllocError> {
    match part.split_once('*') {
        Some((times, part)) => repeated(alloc, times.parse().unwrap_or(0), part),
        None => String::from_str(alloc, part),
    }
}

fn parts_of(alloc: Global, row: &str) -> Result<String, AllocError> {
    let mut text = String::new(alloc);
    for part in row.split('|') {
        text.push_str(part_of(alloc, part)?.as_str())?;
    }
    Ok(text)
}

pub fn text_of(alloc: Global, row: &str) -> Result<String, AllocError> {
    let text = parts_of(alloc, row)?;
    let text = text.replace(alloc, "\\n", "\n")?;
    let text = text.replace(alloc, "\\r", "\r")?;
    let text = text.replace(alloc, "\\t", "\t")?;
    let text = text.replace(alloc, "\\s", " ")?;
    text.replace(alloc, "\\0", "\0")
}
