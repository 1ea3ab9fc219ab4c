//! Transcripts as they are printed.

use std::alloc::Global;

/// The lines of a transcript, parted by `; `. Where the numbers of changes depend on the schedule, the first number of a line is `n`.
pub fn shown(alloc: Global, transcript: &[u8], masked: bool) -> Option<String> {
    let text = str::from_utf8(transcript).ok()?;
    let mut out = String::new(alloc);
    for line in text.lines() {
        if !out.is_empty() {
            out.push_str("; ").ok()?;
        }
        put_line(&mut out, line, masked)?;
    }
    Some(out)
}

fn put_line(out: &mut String, line: &str, masked: bool) -> Option<()> {
    match line.split_once(' ') {
        Some((word, rest)) if masked && word != "END" => {
            out.push_str(word).ok()?;
            out.push_str(" n").ok()?;
            if let Some((_, more)) = rest.split_once(' ') {
                out.push_str(" ").ok()?;
                out.push_str(more).ok()?;
            }
        }
        _ => out.push_str(line).ok()?,
    }
    Some(())
}
