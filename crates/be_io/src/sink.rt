//! Sinks of bytes.

ghost use Rattle.std.specs.Prelude.{◌≡◌, ◌↔◌, ℕ, ◌+◌, ◌<◌, ◌≤◌, ◌++◌, List, [], length, take, Option, Some, Ok, Err, IsTrue, IfOk, OnOk, OnErr};
ghost use Rattle.std.specs.List.Sorted.{IsStrictlyIncreasing};
ghost use Rattle.be_io.specs.Counts.{HasRisen};
ghost use Rattle.be_io.specs.Told.{HoldsMore};
ghost use Rattle.be_io.specs.Kept.{KeptByWrite, alone_in_writing};
ghost use Rattle.be_io.specs.Calls.{is_to_fail};
ghost use Rattle.be_io.specs.Memory.{MemSinkState, empty_sink, after_write, after_failed_write, after_refused_write};

use crate::calls::Calls;
use crate::faults::SinkFault;
use std::alloc::Global;
use std::marker::Model;

/// Something that takes bytes.
pub trait Sink {
    // the bytes that it holds, where it tells them
    ghost held: { Self → Option (List ℕ) };

    // how many of its calls failed
    ghost write_faults: { Self → ℕ };

    // how many of its calls were refused for want of memory
    ghost refusals: { Self → ℕ };

    // how many of the bytes that it took aren't handed on yet
    ghost kept_back: { Self → ℕ };

    // what no write and no flush changes: what stands behind it, and the source that is one object with it
    ghost kept_by_write: { Self → KeptByWrite } = { λ _. alone_in_writing };

    /// Takes the first of these bytes, one at least, and says how many.
    fn write(&mut self, bytes: &[u8]) -> Result<usize, SinkFault>
        requires { 0 < length bytes.now }
        ensures some { IfOk result (λ k. 0 < k) }
        ensures within { IfOk result (λ k. k ≤ length bytes.now) }
        ensures held { IfOk result (λ k. HoldsMore (held self.old) (held self.new) (take k bytes.now)) }

        // What it keeps back are bytes that it took.
        ensures back { IfOk result (λ k. kept_back self.new ≤ kept_back self.old + k) }
        ensures back_still { OnErr result (kept_back self.new ≤ kept_back self.old) }

        // A refused call took nothing. Each refusal raises its own count, and nothing else changes a count.
        ensures kept { OnErr result (held self.new ≡ held self.old) }
        ensures sound { OnOk result ((write_faults self.new ≡ write_faults self.old)
            × (refusals self.new ≡ refusals self.old)) }
        ensures failed { result ≡ Err SinkFault.Failed → HasRisen (write_faults self.old) (write_faults self.new)
            × (refusals self.new ≡ refusals self.old) }
        ensures no_memory { result ≡ Err SinkFault.NoMemory → HasRisen (refusals self.old) (refusals self.new)
            × (write_faults self.new ≡ write_faults self.old) }
        ensures beside { kept_by_write self.new ≡ kept_by_write self.old };

    /// Hands on all bytes that it took. It takes none, and what was handed on isn't taken back.
    fn flush(&mut self) -> Result<(), SinkFault>
        ensures held { held self.new ≡ held self.old }
        ensures handed_on { OnOk result (kept_back self.new ≡ 0) }

        // A flush that failed keeps some bytes back, so one of a sink that keeps none back doesn't fail.
        ensures left { OnErr result ((0 < kept_back self.new) × (kept_back self.new ≤ kept_back self.old)) }
        ensures sound { OnOk result ((write_faults self.new ≡ write_faults self.old)
            × (refusals self.new ≡ refusals self.old)) }
        ensures failed { result ≡ Err SinkFault.Failed → HasRisen (write_faults self.old) (write_faults self.new)
            × (refusals self.new ≡ refusals self.old) }
        ensures no_memory { result ≡ Err SinkFault.NoMemory → HasRisen (refusals self.old) (refusals self.new)
            × (write_faults self.new ≡ write_faults self.old) }
        ensures beside { kept_by_write self.new ≡ kept_by_write self.old };

    /// Whether the peer behind it has sent bytes that weren't read yet, or is gone. It doesn't wait. One that can't tell says that
    /// neither is so.
    fn hears(&self) -> bool {
        false
    }
}

/// A sink in memory, which takes each piece whole.
#[derive(Drop)]
pub struct MemSink {
    bytes: Vec<u8>,
    calls: Calls,
    refusals: u64,
}

impl Model for MemSink {
    ghost use Rattle.be_io.specs.Memory.{MemSinkState};

    ghost Value = { MemSinkState };

    ghost view = { λ s. record { held = s.bytes.items; calls = s.calls; refusals = s.refusals } };
}

impl MemSink {
    /// An empty sink. The calls of these numbers fail, where the first call has the number 1.
    pub fn make(alloc: Global, fails: Vec<u64>) -> MemSink
        requires { IsStrictlyIncreasing fails.items }
        ensures { result ≡ empty_sink fails.items }
    {
        MemSink {
            bytes: Vec::new(alloc),
            calls: Calls::make(fails),
            refusals: 0,
        }
    }

    pub fn bytes(&self) -> &[u8]
        ensures { result.now ≡ self.now.held }
    {
        &self.bytes
    }

    pub fn take(self) -> Vec<u8>
        ensures { result.items ≡ self.held }
    {
        let MemSink { bytes, .. } = self;
        bytes
    }
}

impl Sink for MemSink {
    ghost held = { λ s. Some s.held };

    ghost write_faults = { λ s. s.calls.faults };

    ghost refusals = { λ s. s.refusals };

    ghost kept_back = { λ _. 0 };

    fn write(&mut self, bytes: &[u8]) -> Result<usize, SinkFault>
        requires { 0 < length bytes.now }
        ensures whole { IfOk result (λ k. k ≡ length bytes.now) }
        ensures after { OnOk result (self.new ≡ after_write self.old bytes.now) }

        // It fails exactly at the calls that are to fail. A call for which memory was wanting isn't one of those.
        ensures fails { (result ≡ Err SinkFault.Failed) ↔ IsTrue (is_to_fail self.old.calls) }
        ensures failed { result ≡ Err SinkFault.Failed → self.new ≡ after_failed_write self.old }
        ensures no_memory { result ≡ Err SinkFault.NoMemory → self.new ≡ after_refused_write self.old }
    {
        if self.calls.is_next_to_fail() {
            self.calls.add_fault();
            return Err(SinkFault::Failed);
        }
        if self.bytes.extend_from_slice(bytes).is_err() {
            self.refusals = self.refusals.saturating_add(1);
            return Err(SinkFault::NoMemory);
        }
        self.calls.add_call();
        Ok(bytes.len())
    }

    fn flush(&mut self) -> Result<(), SinkFault>
        ensures { (result ≡ Ok tt) × (self.new ≡ self.old) }
    {
        Ok(())
    }
}
