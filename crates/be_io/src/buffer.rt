//! Bytes that wait to be used.

ghost use Rattle.std.specs.Prelude.{◌≡◌, ◌+◌, ◌-◌, ◌<◌, ◌≤◌, [], length, take, drop, vec_len, IfOk, OnOk, OnErr};
ghost use Rattle.be_io.specs.Counts.{raised, HasRisen};

use crate::faults::Failed;
use crate::source::Source;
use be_base::NoMemory;
use std::alloc::Global;
use std::marker::Model;

/// What stands between a source and its reader: the bytes that were read and aren't used yet, and those that were used
/// last. It takes memory only where it is made.
#[derive(Drop)]
pub struct Buffer {
    bytes: Vec<u8>,
    shown: usize,
    start: usize,
    end: usize,
}

impl Model for Buffer {
    ghost use Rattle.be_io.specs.Buffer.{BufferState, buffer_state, InOrder};

    ghost Value = { BufferState };

    ghost view = { buffer_state };

    ghost invariant = { InOrder };
}

impl Buffer {
    ghost use Rattle.be_io.specs.Buffer.{Takes};

    pub fn make(alloc: Global, room: usize) -> Result<Buffer, NoMemory>
        ensures { IfOk result (λ buffer. buffer ≡ record { room = room; used = []; unread = [] }) }
    {
        let bytes = vec![in alloc; 0; room]?;
        Ok(Buffer {
            bytes,
            shown: 0,
            start: 0,
            end: 0,
        })
    }

    /// The bytes that were read and aren't used yet.
    pub fn unread(&self) -> &[u8]
        ensures { result.now ≡ self.now.unread }
    {
        &self.bytes[self.start..self.end]
    }

    /// The bytes that were used last.
    pub fn used(&self) -> &[u8]
        ensures { result.now ≡ self.now.used }
    {
        &self.bytes[self.shown..self.start]
    }

    /// Uses so many of the unread bytes.
    pub fn use_up(&mut self, count: usize)
        requires { count ≤ length self.old.unread }
        ensures { self.new ≡ record self.old { used = take count self.old.unread; unread = drop count self.old.unread } }
    {
        self.shown = self.start;
        self.start += count;
    }

    /// Reads once, at most so many bytes, behind the unread ones.
    pub fn fill<S: Source>(&mut self, src: &mut S, most: usize) -> Result<usize, Failed>
        requires some { 0 < most }
        requires room { length self.old.unread + most ≤ self.old.room }
        ensures after { self.new ≡ record self.old { used = []; unread = self.new.unread } }
        ensures takes { IfOk result (Takes self.old.unread self.new.unread (S.left src.old) (S.left src.new)) }
        ensures most { IfOk result (λ k. k ≤ most) }
        ensures taken { IfOk result (λ k. S.taken src.new ≡ raised k (S.taken src.old)) }
        ensures sound { OnOk result (S.read_faults src.new ≡ S.read_faults src.old) }
        ensures beside { S.kept_by_read src.new ≡ S.kept_by_read src.old }

        // A failed read gave nothing.
        ensures unread { OnErr result (self.new.unread ≡ self.old.unread) }
        ensures left { OnErr result (S.left src.new ≡ S.left src.old) }
        ensures not_taken { OnErr result (S.taken src.new ≡ S.taken src.old) }
        ensures failed { OnErr result (HasRisen (S.read_faults src.old) (S.read_faults src.new)) }
    {
        let kept = self.end - self.start;
        move_to_front(&mut self.bytes, self.start, self.end);
        self.shown = 0;
        self.start = 0;
        self.end = kept;
        let count = src.read(&mut self.bytes[kept..kept + most])?;
        self.end += count;
        Ok(count)
    }
}

/// Moves the bytes of this range to the front, where they don't stand there already.
fn move_to_front(bytes: &mut Vec<u8>, start: usize, end: usize)
    requires in_order { start ≤ end }
    requires within { end ≤ vec_len bytes.old }
    ensures front { take (end - start) bytes.new.items ≡ take (end - start) (drop start bytes.old.items) }
    ensures len { vec_len bytes.new ≡ vec_len bytes.old }
{
    if start > 0 {
        bytes.copy_within(start..end, 0);
    }
}
