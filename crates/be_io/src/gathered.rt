//! A sink that gathers what it takes.

ghost use Rattle.std.specs.Prelude.{◌≡◌, ℕ, ◌+◌, ◌-◌, ◌<◌, ◌≤◌, ◌++◌, [], length, take, min, Ok, Err, refl, IfOk, OnOk, OnErr};
ghost use Rattle.be_io.specs.Counts.{HasRisen};
ghost use Rattle.be_io.specs.Told.{HoldsMore};
ghost use Rattle.be_io.specs.Outside.{source_state};
ghost use Rattle.be_io.specs.Gathered.{new_gathered, after_gather, with_kept};

use crate::faults::{Failed, SinkFault};
use crate::link::Link;
use crate::sink::Sink;
use crate::source::Source;
use be_base::NoMemory;
use std::alloc::Global;
use std::marker::Model;

/// So many bytes are gathered before standard output or a connection.
pub const GATHERED_BYTES: usize = 65_536;

/// A sink, or a link, before which bytes are gathered. They are handed on when there is no room for more, and at a flush. It
/// takes memory only where it is made, but for what the sink behind it takes.
#[derive(Drop)]
pub struct Gathered<K> {
    sink: K,
    room: usize,
    bytes: Vec<u8>,
    handed: usize,
}

impl<K> Model for Gathered<K> {
    ghost use Rattle.std.specs.Prelude.{◌-◌, ◌<◌, ◌≤◌, drop, vec_len, vec_capacity};
    ghost use Rattle.be_io.specs.Gathered.{GatheredState};

    ghost Value = { GatheredState K };

    ghost view = { λ g. record {
      sink = g.sink;
      room = g.room;
      spare = g.room - vec_len g.bytes;
      kept = drop g.handed g.bytes.items;
    } };

    ghost invariant = { λ g. (0 < g.room) × (g.handed ≤ vec_len g.bytes) × (vec_len g.bytes ≤ g.room)
        × (g.room ≤ vec_capacity g.bytes) };
}

impl<K: Drop> Gathered<K> {
    /// It keeps at most `room` bytes back.
    pub fn make(alloc: Global, sink: K, room: usize) -> Result<Gathered<K>, NoMemory>
        requires { 0 < room }
        ensures { IfOk result (λ gathered. gathered ≡ new_gathered sink room) }
    {
        let bytes = Vec::with_capacity(alloc, room)?;
        Ok(Gathered {
            sink,
            room,
            bytes,
            handed: 0,
        })
    }

    /// The sink to which it hands on.
    pub fn sink(&self) -> &K
        ensures { result.now ≡ self.now.sink }
    {
        &self.sink
    }

    fn spare(&self) -> usize
        ensures { result ≡ self.now.spare }
    {
        self.room - self.bytes.len()
    }

    /// Takes the first of these bytes, as many as there is room for, and says how many.
    fn gather(&mut self, bytes: &[u8]) -> usize
        ensures count { result ≡ min (length bytes.now) self.old.spare }
        ensures after { self.new ≡ after_gather self.old bytes.now }
    {
        let count = bytes.len().min(self.spare());
        if self.bytes.extend_from_slice(&bytes[..count]).is_err() {
            unreachable!()
        }
        count
    }
}

impl<K: Sink + Drop> Gathered<K> {
    /// Hands on all bytes that are kept, and makes room.
    fn hand_on(&mut self) -> Result<(), SinkFault>
        ensures held { with_kept (K.held self.new.sink) self.new.kept ≡ with_kept (K.held self.old.sink) self.old.kept }
        ensures handed_on { OnOk result (self.new ≡ new_gathered self.new.sink self.old.room) }
        ensures some { 0 < self.old.room }
        ensures left { OnErr result (0 < length self.new.kept) }
        ensures back { length self.new.kept + K.kept_back self.new.sink
            ≤ length self.old.kept + K.kept_back self.old.sink }
        ensures sound { OnOk result ((K.write_faults self.new.sink ≡ K.write_faults self.old.sink)
            × (K.refusals self.new.sink ≡ K.refusals self.old.sink)) }
        ensures failed { result ≡ Err SinkFault.Failed
            → HasRisen (K.write_faults self.old.sink) (K.write_faults self.new.sink)
            × (K.refusals self.new.sink ≡ K.refusals self.old.sink) }
        ensures no_memory { result ≡ Err SinkFault.NoMemory
            → HasRisen (K.refusals self.old.sink) (K.refusals self.new.sink)
            × (K.write_faults self.new.sink ≡ K.write_faults self.old.sink) }
        ensures beside { K.kept_by_write self.new.sink ≡ K.kept_by_write self.old.sink }
    {
        while self.handed < self.bytes.len() {
            self.handed += self.sink.write(&self.bytes[self.handed..])?;
        }
        self.bytes.clear();
        self.handed = 0;
        Ok(())
    }
}

impl<K: Sink + Drop> Sink for Gathered<K> {
    ghost held = { λ g. with_kept (K.held g.sink) g.kept };

    ghost write_faults = { λ g. K.write_faults g.sink };

    ghost refusals = { λ g. K.refusals g.sink };

    ghost kept_back = { λ g. length g.kept + K.kept_back g.sink };

    ghost kept_by_write = { λ g. K.kept_by_write g.sink };

    fn write(&mut self, bytes: &[u8]) -> Result<usize, SinkFault>
        requires { 0 < length bytes.now }

        // Where there is room, nothing is handed on.
        ensures gathers { 0 < self.old.spare → (result ≡ Ok (min (length bytes.now) self.old.spare))
            × (self.new ≡ after_gather self.old bytes.now) }

        // The trait's clauses.
        ensures some { IfOk result (λ k. 0 < k) }
        ensures within { IfOk result (λ k. k ≤ length bytes.now) }
        ensures held { IfOk result (λ k. HoldsMore (with_kept (K.held self.old.sink) self.old.kept)
            (with_kept (K.held self.new.sink) self.new.kept) (take k bytes.now)) }
        ensures back { IfOk result (λ k. length self.new.kept + K.kept_back self.new.sink
            ≤ length self.old.kept + K.kept_back self.old.sink + k) }
        ensures back_still { OnErr result (length self.new.kept + K.kept_back self.new.sink
            ≤ length self.old.kept + K.kept_back self.old.sink) }
        ensures kept { OnErr result (with_kept (K.held self.new.sink) self.new.kept
            ≡ with_kept (K.held self.old.sink) self.old.kept) }
        ensures sound { OnOk result ((K.write_faults self.new.sink ≡ K.write_faults self.old.sink)
            × (K.refusals self.new.sink ≡ K.refusals self.old.sink)) }
        ensures failed { result ≡ Err SinkFault.Failed
            → HasRisen (K.write_faults self.old.sink) (K.write_faults self.new.sink)
            × (K.refusals self.new.sink ≡ K.refusals self.old.sink) }
        ensures no_memory { result ≡ Err SinkFault.NoMemory
            → HasRisen (K.refusals self.old.sink) (K.refusals self.new.sink)
            × (K.write_faults self.new.sink ≡ K.write_faults self.old.sink) }
        ensures beside { K.kept_by_write self.new.sink ≡ K.kept_by_write self.old.sink }
    {
        if self.spare() == 0 {
            self.hand_on()?;
        }
        Ok(self.gather(bytes))
    }

    fn flush(&mut self) -> Result<(), SinkFault> {
        self.hand_on()?;
        self.sink.flush()
    }

    fn hears(&self) -> bool {
        self.sink.hears()
    }
}

impl<L: Link + Drop> Source for Gathered<L> {
    ghost left = { λ g. L.left g.sink };

    ghost taken = { λ g. L.taken g.sink };

    ghost read_faults = { λ g. L.read_faults g.sink };

    ghost kept_by_read = { λ g. record (L.kept_by_read g.sink) {
      sink = record {
        held = with_kept (L.held g.sink) g.kept;
        faults = L.write_faults g.sink;
        refusals = L.refusals g.sink;
        kept_back = length g.kept + L.kept_back g.sink;
      };
    } };

    fn read(&mut self, buf: &mut [u8]) -> Result<usize, Failed> {
        self.sink.read(buf)
    }
}

impl<L: Link + Drop> Link for Gathered<L> {
    ghost reads_leave_the_sink = { λ g. refl };

    ghost writes_leave_the_source = { λ g. L.writes_leave_the_source g.sink };

    ghost is_one = { λ g. L.is_one g.sink };
}
