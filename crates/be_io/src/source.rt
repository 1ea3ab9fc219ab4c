//! Sources of bytes.

ghost use Rattle.std.specs.Prelude.{◌≡◌, ◌↔◌, ℕ, ◌<◌, ◌++◌, List, length, take, drop, Option, Some, IsTrue, IsErr, IfOk, OnOk, OnErr};
ghost use Rattle.std.specs.List.Sorted.{IsStrictlyIncreasing};
ghost use Rattle.be_io.specs.Counts.{raised, HasRisen};
ghost use Rattle.be_io.specs.Told.{GivesBytes};
ghost use Rattle.be_io.specs.Kept.{KeptByRead, alone_in_reading};
ghost use Rattle.be_io.specs.Calls.{no_calls, is_to_fail};
ghost use Rattle.be_io.specs.Memory.{MemSourceState, next_count, after_read, after_failed_read};

use crate::calls::Calls;
use crate::faults::Failed;
use std::marker::Model;

/// Something that gives bytes until its end.
pub trait Source {
    // the bytes that it has left, where it tells them
    ghost left: { Self → Option (List ℕ) };

    // how many bytes it has given
    ghost taken: { Self → ℕ };

    // how many of its calls failed
    ghost read_faults: { Self → ℕ };

    // what no read changes: all bytes that it gives, what stands behind it, and the sink that is one object with it
    ghost kept_by_read: { Self → KeptByRead } = { λ _. alone_in_reading };

    /// Gives its next bytes into the front of the buffer, and says how many. It gives none only at its end.
    fn read(&mut self, buf: &mut [u8]) -> Result<usize, Failed>
        requires { 0 < length buf.old }
        ensures bytes { IfOk result (λ k. GivesBytes (left self.old) (left self.new) buf.new k) }
        ensures taken { IfOk result (λ k. taken self.new ≡ raised k (taken self.old)) }
        ensures sound { OnOk result (read_faults self.new ≡ read_faults self.old) }
        ensures beside { kept_by_read self.new ≡ kept_by_read self.old }

        // A call that failed gave nothing.
        ensures failed { OnErr result (HasRisen (read_faults self.old) (read_faults self.new)) }
        ensures kept { OnErr result (left self.new ≡ left self.old) }
        ensures not_taken { OnErr result (taken self.new ≡ taken self.old) };
}

/// A source in memory, which gives its bytes in pieces.
#[derive(Drop)]
pub struct MemSource {
    bytes: Vec<u8>,
    from: usize,
    piece: usize,
    taken: u64,
    calls: Calls,
}

impl Model for MemSource {
    ghost use Rattle.std.specs.Prelude.{◌<◌, ◌≤◌, drop, vec_len};
    ghost use Rattle.be_io.specs.Memory.{MemSourceState};

    ghost Value = { MemSourceState };

    ghost view = { λ s. record { whole = s.bytes.items; left = drop s.from s.bytes.items; piece = s.piece; taken = s.taken; calls = s.calls } };

    ghost invariant = { λ s. (s.from ≤ vec_len s.bytes) × (0 < s.piece) };
}

impl MemSource {
    /// A source of these bytes. It gives at most `piece` of them in one call, and the calls of
    /// these numbers fail, where the first call has the number 1.
    pub fn make(bytes: Vec<u8>, piece: usize, fails: Vec<u64>) -> MemSource
        requires some { 0 < piece }
        requires rise { IsStrictlyIncreasing fails.items }
        ensures { result ≡ record { whole = bytes.items; left = bytes.items; piece = piece; taken = 0; calls = no_calls fails.items } }
    {
        MemSource {
            bytes,
            from: 0,
            piece,
            taken: 0,
            calls: Calls::make(fails),
        }
    }
}

impl Source for MemSource {
    ghost left = { λ s. Some s.left };

    ghost taken = { λ s. s.taken };

    ghost read_faults = { λ s. s.calls.faults };

    ghost kept_by_read = { λ s. record alone_in_reading { whole = Some s.whole } };

    fn read(&mut self, buf: &mut [u8]) -> Result<usize, Failed>
        requires { 0 < length buf.old }
        ensures fails { IsErr result ↔ IsTrue (is_to_fail self.old.calls) }

        // Its next bytes, as many as the piece, the buffer and what it has left allow.
        ensures count { IfOk result (λ k. k ≡ next_count self.old (length buf.old)) }
        ensures gives { IfOk result (λ k. buf.new ≡ take k self.old.left ++ drop k buf.old) }
        ensures after { IfOk result (λ k. self.new ≡ after_read self.old k) }

        ensures bytes { IfOk result (λ k. GivesBytes (Some self.old.left) (Some self.new.left) buf.new k) }

        ensures failed { OnErr result (self.new ≡ after_failed_read self.old) }
        ensures untouched { OnErr result (buf.new ≡ buf.old) }
    {
        if self.calls.is_next_to_fail() {
            self.calls.add_fault();
            return Err(Failed);
        }
        let left = &self.bytes[self.from..];
        let count = left.len().min(buf.len()).min(self.piece);
        buf[..count].copy_from_slice(&left[..count]);
        self.calls.add_call();
        self.from += count;
        self.taken = self.taken.saturating_add(count as u64);
        Ok(count)
    }
}
