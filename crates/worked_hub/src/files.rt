//! Files that are served, and how often the maintainer is called beside; or one that a link of a door gives.

ghost use Rattle.std.specs.Prelude.{◌≡◌, ◌<◌, ◌≤◌, length, All};
ghost use Rattle.be_base.specs.declared.limits.TheConstants.{FILE_BYTES, ROUNDS, SEATS};

use be_base::{FILE_BYTES, ROUNDS, SEATS};
use std::alloc::Global;

/// Files, each of a size that is served, and no more of them than there may be seats. Where `is_door` holds, a door gives out one
/// link, which gives the last file.
#[derive(Drop)]
pub struct Script {
    pub is_door: bool,
    pub rounds: u64,
    pub files: Vec<Vec<u8>>,
    ghost some: { (0 < length files.items) × (length files.items ≤ SEATS) },
    ghost size: { All (λ file. length file.items ≤ FILE_BYTES) files.items },
    ghost few: { rounds ≤ ROUNDS },
}

/// The files of a line, where they may be served. Its head is `door`, or how often the maintainer is called.
pub fn read_script(alloc: Global, line: &str) -> Option<Script> {
    let (head, texts) = line.split_once(": ")?;
    let is_door = head == "door";
    let rounds: u64 = if is_door { 0 } else { head.parse().ok()? };
    let mut files = Vec::new(alloc);
    for text in texts.split(" || ") {
        files.push(lines(alloc, text)?).ok()?;
    }
    if rounds > ROUNDS || files.is_empty() || files.len() > SEATS as usize {
        return None;
    }
    if !files.iter().all(|file| file.len() <= FILE_BYTES) {
        return None;
    }
    Some(Script {
        is_door,
        rounds,
        files,
    })
}

// The bytes of a file with these lines, where `3*LIST` is three lines `LIST`.
fn lines(alloc: Global, text: &str) -> Option<Vec<u8>> {
    let mut bytes = Vec::new(alloc);
    for line in text.split("; ") {
        match line.split_once('*') {
            Some((count, line)) => put_lines(&mut bytes, line, count.parse().ok()?)?,
            None => put_lines(&mut bytes, line, 1)?,
        }
    }
    Some(bytes)
}

fn put_lines(bytes: &mut Vec<u8>, line: &str, count: u64) -> Option<()> {
    for _ in 0..count {
        bytes.extend_from_slice(line.as_bytes()).ok()?;
        bytes.push(b'\n').ok()?;
    }
    Some(())
}
