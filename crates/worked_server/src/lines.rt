//! The bytes of scripts.

use std::alloc::Global;

/// The lines of a script, which `; ` parts, each with an LF behind it. A line `x*3` is three bytes `x`, `\r` at a line's end is a CR,
/// and `\c` says that no LF follows.
pub fn bytes_of(alloc: Global, text: &str) -> Option<Vec<u8>> {
    let mut bytes = Vec::new(alloc);
    if text.is_empty() {
        return Some(bytes);
    }
    for line in text.split("; ") {
        put_line(&mut bytes, line)?;
    }
    Some(bytes)
}

fn put_line(bytes: &mut Vec<u8>, line: &str) -> Option<()> {
    if let Some(line) = line.strip_suffix("\\c") {
        return put_text(bytes, line);
    }
    match line.strip_suffix("\\r") {
        Some(line) => {
            put_text(bytes, line)?;
            bytes.extend_from_slice(b"\r\n").ok()
        }
        None => {
            put_text(bytes, line)?;
            bytes.push(b'\n').ok()
        }
    }
}

fn put_text(bytes: &mut Vec<u8>, line: &str) -> Option<()> {
    match line.strip_prefix("x*") {
        Some(count) => put_many(bytes, count.parse().ok()?),
        None => bytes.extend_from_slice(line.as_bytes()).ok(),
    }
}

fn put_many(bytes: &mut Vec<u8>, count: u64) -> Option<()> {
    for _ in 0..count {
        bytes.push(b'x').ok()?;
    }
    Some(())
}
