//! Rows as they are read.

ghost use Rattle.std.specs.Prelude.{◌<◌};

use crate::gate::{Awaited, Hold, Place};
use std::alloc::Global;

/// A link of the door: the lines that it gives, in pieces of so many bytes, and which read and which write of it fail (0: none).
#[derive(Clone, Copy)]
pub struct LinkRow<'a> {
    pub lines: &'a str,
    pub piece: usize,
    pub failing_read: u64,
    pub failing_write: u64,
    ghost some: { 0 < piece },
}

/// The bytes of the input, in pieces of so many, and which read of it fails (0: none).
#[derive(Clone, Copy)]
pub struct InputRow<'a> {
    pub lines: &'a str,
    pub piece: usize,
    pub failing_read: u64,
    ghost some: { 0 < piece },
}

/// The words of the call, and what it finds: `accept N`, `listen N`, `ask N` and `out N` say that this accept, this listen of the
/// door, this ask for a file, this write of the output fails; `file NAME: LINES` is a file; `link PIECE: LINES`, `link PIECE read N:
/// LINES` and `link PIECE write N: LINES` are the door's links, in order; `input PIECE: LINES` and `input PIECE read N: LINES` are what
/// the input gives; `hold W.L until V.M come` holds worker W before line L until worker V has come to line M, with `answered` at the
/// end until it has answered that, and `hold W.L until read N` until the input was asked N times; `may: OUTCOME` is an outcome that
/// may be, and `due: OUTCOME` the one that it comes to when it is served again.
#[derive(Drop)]
pub struct Row<'a> {
    pub words: &'a str,
    pub failing_accept: u64,
    pub failing_listen: u64,
    pub failing_ask: u64,
    pub failing_out: u64,
    /// Each file's name and lines.
    pub files: Vec<(&'a str, &'a str)>,
    pub links: Vec<LinkRow<'a>>,
    /// An input whose first read fails, where there is none.
    pub input: Option<InputRow<'a>>,
    pub holds: Vec<Hold>,
    pub outcomes: Vec<&'a str>,
    pub due: Option<&'a str>,
}

impl<'a> Row<'a> {
    fn make(alloc: Global, words: &'a str) -> Row<'a> {
        Row {
            words,
            failing_accept: 0,
            failing_listen: 0,
            failing_ask: 0,
            failing_out: 0,
            files: Vec::new(alloc),
            links: Vec::new(alloc),
            input: None,
            holds: Vec::new(alloc),
            outcomes: Vec::new(alloc),
            due: None,
        }
    }

    /// The lines of this file.
    pub fn file(&self, name: &str) -> Option<&'a str> {
        for (file, lines) in &self.files {
            if *file == name {
                return Some(*lines);
            }
        }
        None
    }

    fn add(&mut self, part: &'a str) -> Option<()> {
        let (head, lines) = part.split_once(": ").unwrap_or((part, ""));
        let (word, rest) = head.split_once(' ').unwrap_or((head, ""));
        match word {
            "file" => self.files.push((rest, lines)).ok(),
            "link" => self.links.push(read_link(rest, lines)?).ok(),
            "input" => self.add_input(read_link(rest, lines)?),
            "hold" => self.holds.push(read_hold(rest)?).ok(),
            "may" => self.outcomes.push(lines).ok(),
            "due" => self.add_due(lines),
            _ => self.add_fault(word, rest.parse().ok()?),
        }
    }

    fn add_input(&mut self, link: LinkRow<'a>) -> Option<()> {
        self.input = Some(InputRow {
            lines: link.lines,
            piece: link.piece,
            failing_read: link.failing_read,
        });
        Some(())
    }

    fn add_due(&mut self, outcome: &'a str) -> Option<()> {
        self.due = Some(outcome);
        Some(())
    }

    fn add_fault(&mut self, word: &str, number: u64) -> Option<()> {
        match word {
            "accept" => self.failing_accept = number,
            "listen" => self.failing_listen = number,
            "ask" => self.failing_ask = number,
            "out" => self.failing_out = number,
            _ => return None,
        }
        Some(())
    }
}

fn read_link<'a>(numbers: &str, lines: &'a str) -> Option<LinkRow<'a>> {
    let (piece, fault) = numbers.split_once(' ').unwrap_or((numbers, ""));
    let (call, number) = fault.split_once(' ').unwrap_or(("", "0"));
    let piece: usize = piece.parse().ok()?;
    let number: u64 = number.parse().ok()?;
    if piece == 0 {
        return None;
    }
    Some(LinkRow {
        lines,
        piece,
        failing_read: if call == "read" { number } else { 0 },
        failing_write: if call == "write" { number } else { 0 },
    })
}

fn read_hold(text: &str) -> Option<Hold> {
    let (held, rest) = text.split_once(" until ")?;
    let (first, second) = rest.split_once(' ')?;
    Some(Hold {
        held: read_place(held)?,
        awaited: read_awaited(first, second)?,
    })
}

fn read_awaited(first: &str, second: &str) -> Option<Awaited> {
    match (first, second) {
        ("read", count) => Some(Awaited::Read(count.parse().ok()?)),
        (place, "come") => Some(Awaited::Come(read_place(place)?)),
        (place, "answered") => Some(Awaited::Answered(read_place(place)?)),
        _ => None,
    }
}

fn read_place(text: &str) -> Option<Place> {
    let (worker, line) = text.split_once('.')?;
    Some(Place {
        worker: worker.parse().ok()?,
        line: line.parse().ok()?,
    })
}

/// The row of a line, where it has one.
pub fn read_row(alloc: Global, line: &str) -> Option<Row<'_>> {
    let mut parts = line.split(" | ");
    let mut row = Row::make(alloc, parts.next()?);
    for part in parts {
        row.add(part)?;
    }
    Some(row)
}
