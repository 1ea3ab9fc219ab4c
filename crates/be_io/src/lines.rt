//! Lines of bytes from a source.

ghost use Rattle.std.specs.Prelude.{◌≡◌, ℕ, ◌+◌, ◌-◌, ◌<◌, ◌≤◌, ◌++◌, List, [], length, take, drop, slice_index, vec_len, true, false, not, Some, None, Ok, Err, IfOk, IfErr, IfSome, OnOk, OnErr, MatchOption, nat_lt, ◌||◌, ◌==◌, if◌then◌else◌};
ghost use Rattle.be_io.specs.Counts.{raised, HasRisen, RisesBy};
ghost use Rattle.be_io.specs.Lines.{has_lf, without_cr};
ghost use Rattle.be_io.specs.Reader.{ReaderState, GivesNext, FitsLine, Stops, MovesOn};
ghost use Rattle.be_io.specs.Reading.{IsFirstLf, answer_of, shown};
ghost use Rattle.be_io.specs.Buffer.{Takes};

use crate::buffer::Buffer;
use crate::faults::{Failed, LineFault};
use crate::source::Source;
use be_base::{FILE_BYTES, NoMemory, READ_BYTES, SOURCE_BYTES};
use memchr::memchr;
use std::alloc::Global;
use std::marker::Model;

/// What a reader of lines answers.
#[derive(Clone, Copy, Debug, PartialEq, Eq)]
pub enum Line {
    /// A line within the limit, which the reader shows as its text.
    Text,
    /// A line of more bytes than the limit, which was passed over.
    Long { len: u64 },
    /// The input is at its end, and no line is left.
    End,
}

/// Reads a source's bytes line by line. An LF ends a line and isn't part of it, nor is one CR
/// directly before it. What follows the last LF is a line where it isn't empty.
#[derive(Drop)]
pub struct LineReader {
    buffer: Buffer,
    text_len: usize,
    limit: usize,
    taken: u64,
    ended: bool,
    stopped: Option<LineFault>,
}

impl Model for LineReader {
    ghost use Rattle.be_io.specs.Reader.{ReaderState};

    ghost Value = { ReaderState };

    ghost use Rattle.be_io.specs.LineReader.{reader_state, IsSound};

    ghost view = { reader_state };

    ghost invariant = { IsSound };
}

impl LineReader {
    /// A reader of lines of at most `limit` bytes, the LF aside. A CR before the LF counts. It takes
    /// all the memory that it ever uses.
    pub fn make(alloc: Global, limit: usize) -> Result<LineReader, NoMemory>
        requires { limit ≤ FILE_BYTES }
        ensures { IfOk result (λ reader. reader ≡ record {
          limit = limit;
          unread = [];
          text = [];
          taken = 0;
          ended = false;
          stopped = None;
        }) }
    {
        Ok(LineReader {
            buffer: Buffer::make(alloc, limit + READ_BYTES)?,
            text_len: 0,
            limit,
            taken: 0,
            ended: false,
            stopped: None,
        })
    }

    /// The text of the line that was answered last. It is empty where that wasn't a text.
    pub fn text(&self) -> &[u8]
        ensures { result.now ≡ self.now.text }
    {
        &self.buffer.used()[..self.text_len]
    }

    /// Whether a whole line, with its LF, was read ahead. Then the next line is given without a read.
    pub fn has_line(&self) -> bool
        ensures { result ≡ has_lf self.now.unread }
    {
        self.lf_from(0).is_some()
    }

    /// Whether bytes behind the last line were read ahead, or the input is known to be at its end.
    pub fn has_more(&self) -> bool
        ensures { result ≡ (nat_lt 0 (length self.now.unread) || self.now.ended) }
    {
        self.unread_len() > 0 || self.ended
    }

    /// Reads the next line.
    pub fn next<S: Source>(&mut self, src: &mut S) -> Result<Line, LineFault>
        ensures limit { self.new.limit ≡ self.old.limit }

        // A fault, and the end, are answered from then on without reading.
        ensures carried { IfSome self.old.stopped (λ fault. (result ≡ Err fault)
            × (self.new ≡ record self.old { text = [] }) × (src.new ≡ src.old)) }
        ensures at_end { self.old.stopped ≡ None → self.old.ended ≡ true → (result ≡ Ok Line.End)
            × (self.new ≡ record self.old { text = [] }) × (src.new ≡ src.old) }

        // The next line of all that is left, where the source tells that.
        ensures line { self.old.ended ≡ false → IfOk result (λ line.
            GivesNext self.old.unread self.new line (S.left src.old) (S.left src.new)) }
        ensures fits { IfOk result (FitsLine self.new) }
        ensures progress { IfOk result (MovesOn self.old self.new) }
        ensures done { self.new.ended ≡ true → self.new.unread ≡ [] }
        ensures sound { OnOk result ((self.new.stopped ≡ None) × (S.read_faults src.new ≡ S.read_faults src.old)) }

        // What was taken before a fault, and isn't in a line yet, has no LF.
        ensures broken { self.old.stopped ≡ None → IfErr result (λ fault.
            Stops self.old.unread self.new fault (S.left src.old) (S.left src.new)) }
        ensures read_fault { self.old.stopped ≡ None → result ≡ Err LineFault.ReadFault
            → HasRisen (S.read_faults src.old) (S.read_faults src.new) }
        ensures spent { self.old.stopped ≡ None → result ≡ Err LineFault.Spent
            → (self.new.taken ≡ SOURCE_BYTES) × (S.read_faults src.new ≡ S.read_faults src.old) }

        // Where it has taken all that it may, it answers no line that needs a further read.
        ensures spent_at { self.old.stopped ≡ None → self.old.ended ≡ false → self.old.taken ≡ SOURCE_BYTES
            → has_lf self.old.unread ≡ false → result ≡ Err LineFault.Spent }
        ensures unbroken { self.old.stopped ≡ None → OnErr result (has_lf self.old.unread ≡ false) }

        // A line that was read ahead is given without a read, and isn't the last one.
        ensures ahead { has_lf self.old.unread ≡ true → src.new ≡ src.old }
        ensures last { self.new.ended ≡ true → has_lf self.old.unread ≡ false }

        ensures taken { RisesBy (self.new.taken - self.old.taken) (S.taken src.old) (S.taken src.new) }
        ensures beside { S.kept_by_read src.new ≡ S.kept_by_read src.old }
        ensures grows { self.old.taken ≤ self.new.taken }
        ensures bound { self.new.taken ≤ SOURCE_BYTES }
        ensures buffered { length self.new.unread ≤ self.new.limit + READ_BYTES }
    {
        self.text_len = 0;
        if let Some(fault) = self.stopped {
            return Err(fault);
        }
        if self.ended {
            return Ok(Line::End);
        }
        self.read_line(src)
    }

    fn read_line<S: Source>(&mut self, src: &mut S) -> Result<Line, LineFault>
        requires open { self.old.ended ≡ false }
        requires sound { self.old.stopped ≡ None }
        requires shows_none { self.old.text ≡ [] }
        requires counted { length self.old.unread ≤ self.old.taken }
        requires bound { self.old.taken ≤ SOURCE_BYTES }
        ensures limit { self.new.limit ≡ self.old.limit }
        ensures line { IfOk result (λ line.
            GivesNext self.old.unread self.new line (S.left src.old) (S.left src.new)) }
        ensures fits { IfOk result (FitsLine self.new) }
        ensures progress { IfOk result (MovesOn self.old self.new) }
        ensures done { self.new.ended ≡ true → self.new.unread ≡ [] }
        ensures sound { OnOk result ((self.new.stopped ≡ None) × (S.read_faults src.new ≡ S.read_faults src.old)) }
        ensures broken { IfErr result (λ fault.
            Stops self.old.unread self.new fault (S.left src.old) (S.left src.new)) }
        ensures read_fault { result ≡ Err LineFault.ReadFault
            → HasRisen (S.read_faults src.old) (S.read_faults src.new) }
        ensures spent { result ≡ Err LineFault.Spent
            → (self.new.taken ≡ SOURCE_BYTES) × (S.read_faults src.new ≡ S.read_faults src.old) }
        ensures spent_at { self.old.taken ≡ SOURCE_BYTES → has_lf self.old.unread ≡ false → result ≡ Err LineFault.Spent }
        ensures unbroken { OnErr result (has_lf self.old.unread ≡ false) }
        ensures ahead { has_lf self.old.unread ≡ true → src.new ≡ src.old }
        ensures last { self.new.ended ≡ true → has_lf self.old.unread ≡ false }
        ensures taken { RisesBy (self.new.taken - self.old.taken) (S.taken src.old) (S.taken src.new) }
        ensures beside { S.kept_by_read src.new ≡ S.kept_by_read src.old }
        ensures grows { self.old.taken ≤ self.new.taken }
        ensures bound { self.new.taken ≤ SOURCE_BYTES }
        ensures buffered { length self.new.unread ≤ self.new.limit + READ_BYTES }
    {
        let mut skipped = 0;
        let mut scanned = 0;
        loop {
            if let Some(len) = self.lf_from(scanned) {
                return Ok(self.close(len, skipped));
            }
            skipped += self.skip(skipped);
            scanned = self.unread_len();
            if self.fill(src)? == 0 {
                return Ok(self.finish(skipped));
            }
        }
    }

    fn unread_len(&self) -> usize
        ensures { result ≡ length self.now.unread }
    {
        self.buffer.unread().len()
    }

    /// The place of the first LF among the unread bytes, of which so many were searched before.
    fn lf_from(&self, scanned: usize) -> Option<usize>
        requires within { scanned ≤ length self.now.unread }
        requires clean { has_lf (take scanned self.now.unread) ≡ false }
        ensures { MatchOption result (has_lf self.now.unread ≡ false) (IsFirstLf self.now.unread) }
    {
        let found = first_lf(&self.buffer.unread()[scanned..])?;
        Some(scanned + found)
    }

    /// Answers the line before the LF at this place, of which so many bytes were passed over.
    fn close(&mut self, len: usize, skipped: u64) -> Line
        requires lf { len < length self.old.unread }
        requires counted { skipped + length self.old.unread ≤ self.old.taken }
        ensures line { result ≡ answer_of self.old.limit (skipped + len) }
        ensures after { self.new ≡ record self.old {
          unread = drop (len + 1) self.old.unread;
          text = without_cr (shown self.old.limit (skipped + len) (take len self.old.unread));
        } }
        ensures buffered { length self.new.unread ≤ self.new.limit + READ_BYTES }
    {
        let line = self.cut(len, 1, skipped);
        if ends_with_cr(self.text()) {
            self.text_len -= 1;
        }
        line
    }

    /// Answers the last line, of which so many bytes were passed over.
    fn finish(&mut self, skipped: u64) -> Line
        requires counted { skipped + length self.old.unread ≤ self.old.taken }
        ensures line { result ≡ (if skipped + length self.old.unread == 0 then Line.End
            else answer_of self.old.limit (skipped + length self.old.unread)) }
        ensures after { self.new ≡ record self.old {
          unread = [];
          text = shown self.old.limit (skipped + length self.old.unread) self.old.unread;
          ended = true;
        } }
        ensures buffered { length self.new.unread ≤ self.new.limit + READ_BYTES }
    {
        let len = self.unread_len();
        let line = self.cut(len, 0, skipped);
        self.ended = true;
        if len == 0 && skipped == 0 {
            Line::End
        } else {
            line
        }
    }

    /// Uses so many unread bytes, which it shows as the text unless the line is over the limit, and so many behind them.
    fn cut(&mut self, len: usize, behind: usize, skipped: u64) -> Line
        requires within { len + behind ≤ length self.old.unread }
        requires counted { skipped + length self.old.unread ≤ self.old.taken }
        ensures line { result ≡ answer_of self.old.limit (skipped + len) }
        ensures after { self.new ≡ record self.old {
          unread = drop (len + behind) self.old.unread;
          text = shown self.old.limit (skipped + len) (take len self.old.unread);
        } }
        ensures buffered { length self.new.unread ≤ self.new.limit + READ_BYTES }
    {
        self.text_len = 0;
        self.buffer.use_up(len + behind);
        let total = skipped + len as u64;
        if total > self.limit as u64 {
            return Line::Long { len: total };
        }
        self.text_len = len;
        Line::Text
    }

    /// Passes over the unread bytes where they belong to a line over the limit, and says how many
    /// they were.
    fn skip(&mut self, skipped: u64) -> u64
        requires { self.old.text ≡ [] }
        ensures exact { result ≡ (if nat_lt 0 skipped || nat_lt self.old.limit (length self.old.unread)
            then length self.old.unread else 0) }
        ensures after { self.new ≡ (if nat_lt 0 skipped || nat_lt self.old.limit (length self.old.unread)
            then record self.old { unread = [] } else self.old) }
        ensures taken { self.new.taken ≡ self.old.taken }
    {
        let len = self.unread_len();
        if skipped > 0 || len > self.limit {
            self.text_len = 0;
            self.buffer.use_up(len);
            return len as u64;
        }
        0
    }

    /// Reads once, behind the unread bytes.
    fn fill<S: Source>(&mut self, src: &mut S) -> Result<usize, LineFault>
        requires open { self.old.ended ≡ false }
        requires room { length self.old.unread ≤ self.old.limit }
        requires shows_none { self.old.text ≡ [] }
        ensures after { IfOk result (λ k. self.new ≡ record self.old {
          unread = self.new.unread;
          text = [];
          taken = self.old.taken + k;
        }) }
        ensures takes { IfOk result (Takes self.old.unread self.new.unread (S.left src.old) (S.left src.new)) }
        ensures sound { OnOk result (S.read_faults src.new ≡ S.read_faults src.old) }
        ensures taken { IfOk result (λ k. S.taken src.new ≡ raised k (S.taken src.old)) }
        ensures beside { S.kept_by_read src.new ≡ S.kept_by_read src.old }
        ensures bound { IfOk result (λ k. self.old.taken + k ≤ SOURCE_BYTES) }
        ensures broken { IfErr result (λ fault. (self.new ≡ record self.old { text = []; stopped = Some fault })
            × (S.left src.new ≡ S.left src.old) × (S.taken src.new ≡ S.taken src.old)) }
        ensures read_fault { result ≡ Err LineFault.ReadFault → HasRisen (S.read_faults src.old) (S.read_faults src.new) }
        ensures spent { result ≡ Err LineFault.Spent
            → (self.old.taken ≡ SOURCE_BYTES) × (S.read_faults src.new ≡ S.read_faults src.old) }
        ensures spent_at { self.old.taken ≡ SOURCE_BYTES → result ≡ Err LineFault.Spent }
        ensures buffered { length self.new.unread ≤ self.new.limit + READ_BYTES }
    {
        let most = READ_BYTES.min((SOURCE_BYTES - self.taken) as usize);
        if most == 0 {
            self.stopped = Some(LineFault::Spent);
            return Err(LineFault::Spent);
        }
        self.text_len = 0;
        match self.buffer.fill(src, most) {
            Ok(count) => {
                self.taken += count as u64;
                Ok(count)
            }
            Err(Failed) => {
                self.stopped = Some(LineFault::ReadFault);
                Err(LineFault::ReadFault)
            }
        }
    }
}

/// The place of the first LF.
pub fn first_lf(bytes: &[u8]) -> Option<usize>
    ensures { MatchOption result (has_lf bytes.now ≡ false) (IsFirstLf bytes.now) }
{
    memchr(b'\n', bytes)
}

fn ends_with_cr(bytes: &[u8]) -> bool
    ensures { result ≡ (slice_index bytes.now (length bytes.now - 1) == 13) }
{
    bytes.last() == Some(&b'\r')
}
