//! Lines whatever the pieces, objects in memory, links and files.

ghost use Rattle.std.specs.Prelude.{◌≡◌, ◌<◌, length};
ghost use Rattle.be_io.specs.Outside.{source_state, sink_state};

use be_io::{
    Failed, Gathered, Line, LineFault, LineReader, Link, MemShelf, MemSink, MemSource, Pair, Shelf,
    ShelfFault, SinkFault, first_line, hand_on, means_nothing, write_all,
};
use std::alloc::Global;
use std::str;

fn line_text(alloc: Global, line: &[u8]) -> Option<String> {
    let line = str::from_utf8(line).ok()?;
    format!(in alloc; "[{line}] ").ok()
}

fn answer(alloc: Global, reader: &mut LineReader, source: &mut MemSource) -> Option<String> {
    match reader.next(source) {
        Ok(Line::Text) => line_text(alloc, reader.text()),
        Ok(Line::Long { len }) => format!(in alloc; "long {len} ").ok(),
        Ok(Line::End) => None,
        Err(_) => String::from_str(alloc, "fault ").ok(),
    }
}

// The answers up to the end, twenty at most.
fn in_pieces(alloc: Global, text: &str, limit: u16, piece: usize) -> Option<String> {
    let bytes = Vec::from_slice(alloc, text.as_bytes()).ok()?;
    let mut source = MemSource::make(bytes, piece.max(1), Vec::new(alloc));
    let mut reader = LineReader::make(alloc, usize::from(limit)).ok()?;
    let mut answers = String::new(alloc);
    for _ in 0..20 {
        match answer(alloc, &mut reader, &mut source) {
            Some(answer) => answers.push_str(answer.as_str()).ok()?,
            None => return Some(answers),
        }
    }
    None
}

/// The lines of a text up to a limit, where they are the same in pieces of each length from the first number to the second. The
/// text stands behind the two and the limit.
pub fn lines(alloc: Global, text: &str) -> Option<String> {
    let (first, rest) = text.split_once(' ')?;
    let (last, rest) = rest.split_once(' ')?;
    let (limit, text) = rest.split_once(' ')?;
    let (first, last, limit) = (
        first.parse().ok()?,
        last.parse::<usize>().ok()?,
        limit.parse().ok()?,
    );
    let found = in_pieces(alloc, text, limit, first)?;
    for piece in first..last {
        if in_pieces(alloc, text, limit, piece)?.as_str() != found.as_str() {
            return None;
        }
    }
    Some(found)
}

/// The lines of a file; of those that mean nothing, how long they are.
pub fn file_lines(alloc: Global, text: &[u8]) -> Option<String> {
    let mut found = String::new(alloc);
    let mut rest = text;
    for _ in text {
        if rest.is_empty() {
            break;
        }
        let (line, after) = first_line(rest);
        let part = if means_nothing(line) {
            format!(in alloc; "{} ", line.len()).ok()?
        } else {
            line_text(alloc, line)?
        };
        found.push_str(part.as_str()).ok()?;
        rest = after;
    }
    Some(found)
}

type Read = Result<Line, LineFault>;

/// Three lines of two that are asked for over an input whose second read fails, and whether the first is right.
pub fn faults(alloc: Global) -> Option<(Read, bool, Read, Read)> {
    let bytes = Vec::from_slice(alloc, b"SUB a price >= 10\nPUB price=10\n").ok()?;
    let source = MemSource::make(bytes, 18, vec![in alloc; 2].ok()?);
    let sink = MemSink::make(alloc, Vec::new(alloc));
    let mut link = Pair { source, sink };
    let mut reader = LineReader::make(alloc, 65536).ok()?;
    let first = reader.next(&mut link);
    let is_right = reader.text() == b"SUB a price >= 10".as_slice();
    Some((
        first,
        is_right,
        reader.next(&mut link),
        reader.next(&mut link),
    ))
}

type Written = Result<(), SinkFault>;

/// Four writes, of which the second fails and the third is empty, and whether what came of them is right.
pub fn writes(alloc: Global) -> Option<([Written; 4], bool)> {
    let mut sink = MemSink::make(alloc, vec![in alloc; 2].ok()?);
    let one = write_all(&mut sink, b"one");
    let two = write_all(&mut sink, b"two");
    let none = write_all(&mut sink, b"");
    let six = write_all(&mut sink, b"six");
    Some(([one, two, none, six], sink.bytes() == b"onesix".as_slice()))
}

/// Three writes, a flush, a write and a flush over a sink that gathers four bytes, whose second hand-on fails: how many bytes were
/// handed on after each, and whether what was handed on is right.
pub fn gathered(alloc: Global) -> Option<([(Written, usize); 6], bool)> {
    let behind = MemSink::make(alloc, vec![in alloc; 2].ok()?);
    let mut sink = Gathered::make(alloc, behind, 4).ok()?;
    let came = [
        (write_all(&mut sink, b"abc"), handed_on(&sink)),
        (write_all(&mut sink, b"defgh"), handed_on(&sink)),
        (write_all(&mut sink, b"i"), handed_on(&sink)),
        (hand_on(&mut sink), handed_on(&sink)),
        (write_all(&mut sink, b"i"), handed_on(&sink)),
        (hand_on(&mut sink), handed_on(&sink)),
    ];
    Some((came, sink.sink().bytes() == b"abcdefghi".as_slice()))
}

fn handed_on(sink: &Gathered<MemSink>) -> usize {
    sink.sink().bytes().len()
}

/// Asks for a file, for one that isn't there, and again for the first, where the third ask fails.
pub fn files(alloc: Global) -> Option<(bool, Option<ShelfFault>, Option<ShelfFault>)> {
    let bytes = Vec::from_slice(alloc, b"int price 0 1000").ok()?;
    let name = String::from_str(alloc, "S").ok()?;
    let files = vec![in alloc; (name, bytes)].ok()?;
    let mut shelf = MemShelf::make(files, vec![in alloc; 3].ok()?);
    let file = shelf.read_file(alloc, "S").ok()?;
    let is_right = file.as_slice() == b"int price 0 1000".as_slice();
    let none = shelf.read_file(alloc, "T").err();
    Some((is_right, none, shelf.read_file(alloc, "S").err()))
}

// What it is as a sink stays, by the law of links.
fn read_from<L: Link>(link: &mut L, buf: &mut [u8]) -> Result<usize, Failed>
    requires { 0 < length buf.old }
    ensures { sink_state L.Sink link.new ≡ sink_state L.Sink link.old }
{
    link.read(buf)
}

// What it is as a source stays.
fn write_to<L: Link>(link: &mut L, bytes: &[u8]) -> Result<(), SinkFault>
    ensures { source_state L.Source link.new ≡ source_state L.Source link.old }
{
    write_all(link, bytes)
}

/// A write, a read, a write and two reads over a link: how many bytes were read, what was read first, and whether all was written.
pub fn link(alloc: Global) -> Option<([usize; 3], [u8; 3], bool)> {
    let bytes = Vec::from_slice(alloc, b"abc").ok()?;
    let source = MemSource::make(bytes, 2, Vec::new(alloc));
    let sink = MemSink::make(alloc, Vec::new(alloc));
    let mut link = Pair { source, sink };
    let mut buf = [b'-'; 3];
    write_to(&mut link, b"xy").ok()?;
    let first = read_from(&mut link, &mut buf).ok()?;
    let read = buf;
    write_to(&mut link, b"z").ok()?;
    let second = read_from(&mut link, &mut buf).ok()?;
    let third = read_from(&mut link, &mut buf).ok()?;
    Some((
        [first, second, third],
        read,
        link.sink.bytes() == b"xyz".as_slice(),
    ))
}
