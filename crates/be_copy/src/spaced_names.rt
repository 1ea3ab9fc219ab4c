//! The names of a list's rows by their places, one behind another.

ghost use Rattle.std.specs.Prelude.{◌≡◌, ◌+◌, ◌-◌, ◌<◌, ◌≤◌, ◌++◌, ◌∷◌, [], length, take, drop, get_or, slice_get, Some, vec_len, vec_capacity, OnOk, OnErr, IfSome};
ghost use Rattle.std.specs.Option.{IfNone};
ghost use Rattle.be_change.specs.Entries.{entry_of};
ghost use Rattle.be_copy.specs.Hits.{spaced_of};
ghost use Rattle.be_copy.specs.Runs.{cut_at, AreEnds};

use be_base::NoMemory;
use be_model::Change;
use std::alloc::Global;
use std::marker::Model;

/// A text for each place of a list: the name of its row after a space, as replies have it, or none where no row is made there. The
/// texts stand in one run of bytes, so those of rising places lie near each other, and no row is looked at, which lies far away.
#[derive(Drop)]
pub struct SpacedNames {
    bytes: Vec<u8>,
    // Where the text of each place ends.
    ends: Vec<usize>,
}

impl Model for SpacedNames {
    ghost use Rattle.std.specs.Prelude.{List};
    ghost use Rattle.be_base.specs.Text.{Text};
    ghost use Rattle.be_copy.specs.Runs.{cut_at, AreEnds};

    ghost Value = { List Text };

    ghost view = { λ n. cut_at 0 n.ends.items n.bytes.items };

    ghost invariant = { λ n. AreEnds 0 n.ends.items n.bytes.items };
}

impl SpacedNames {
    /// No places. It takes no memory.
    pub fn make(alloc: Global) -> SpacedNames
        ensures { result ≡ [] }
    {
        SpacedNames {
            bytes: Vec::new(alloc),
            ends: Vec::new(alloc),
        }
    }

    /// Puts the text of a change last.
    pub fn push(&mut self, change: &Change) -> Result<(), NoMemory>
        ensures put { OnOk result (self.new ≡ self.old ++ spaced_of (entry_of change.now) ∷ []) }
        ensures refused { OnErr result (self.new ≡ self.old) }
    {
        self.ends.reserve(1)?;
        reserve_name(&mut self.bytes, change)?;
        put_text(&mut self.bytes, &mut self.ends, change);
        Ok(())
    }

    /// The text of a place, or none behind the last one.
    pub fn at(&self, place: u64) -> &[u8]
        ensures { result.now ≡ get_or self.now place [] }
    {
        match span_at(&self.ends, place as usize) {
            Some((start, end)) => &self.bytes[start..end],
            None => &[],
        }
    }
}

// Where the text of a place begins and ends.
fn span_at(ends: &[usize], place: usize) -> Option<(usize, usize)>
    ensures within { (bytes : _) → AreEnds 0 ends.now bytes → IfSome result (λ span. (span.0 ≤ span.1) × (span.1 ≤ length bytes)) }
    ensures text { (bytes : _) → AreEnds 0 ends.now bytes → IfSome result (λ span. slice_get (cut_at 0 ends.now bytes) place ≡ Some (take (span.1 - span.0) (drop span.0 bytes))) }
    ensures none { IfNone result (length ends.now ≤ place) }
{
    let end = *ends.get(place)?;
    let start = if place == 0 { 0 } else { ends[place - 1] };
    Some((start, end))
}

// Makes room for the name of the row that a change makes, and for a space.
fn reserve_name(bytes: &mut Vec<u8>, change: &Change) -> Result<(), NoMemory>
    ensures same { bytes.new.items ≡ bytes.old.items }
    ensures room { OnOk result (vec_len bytes.new + length (spaced_of (entry_of change.now)) ≤ vec_capacity bytes.new) }
{
    if let Change::Sub { row, .. } = change {
        bytes.reserve(1 + row.name.bytes().len())?;
    }
    Ok(())
}

// Puts the text of a change last, for which there is room.
fn put_text(bytes: &mut Vec<u8>, ends: &mut Vec<usize>, change: &Change)
    requires places { vec_len ends.old < vec_capacity ends.old }
    requires room { vec_len bytes.old + length (spaced_of (entry_of change.now)) ≤ vec_capacity bytes.old }
    requires ends { AreEnds 0 ends.old.items bytes.old.items }
    ensures ends { AreEnds 0 ends.new.items bytes.new.items }
    ensures texts { cut_at 0 ends.new.items bytes.new.items ≡ cut_at 0 ends.old.items bytes.old.items ++ spaced_of (entry_of change.now) ∷ [] }
{
    push_name(bytes, change);
    ends.push_reserved(bytes.len());
}

// Puts the name of the row that a change makes last, after a space, for which there is room.
fn push_name(bytes: &mut Vec<u8>, change: &Change)
    requires { vec_len bytes.old + length (spaced_of (entry_of change.now)) ≤ vec_capacity bytes.old }
    ensures { bytes.new.items ≡ bytes.old.items ++ spaced_of (entry_of change.now) }
{
    if let Change::Sub { row, .. } = change {
        push_bytes(bytes, b" ");
        push_bytes(bytes, row.name.bytes());
    }
}

// Puts bytes last, for which there is room.
fn push_bytes(bytes: &mut Vec<u8>, more: &[u8])
    requires { vec_len bytes.old + length more.now ≤ vec_capacity bytes.old }
    ensures items { bytes.new.items ≡ bytes.old.items ++ more.now }
    ensures len { vec_len bytes.new ≡ vec_len bytes.old + length more.now }
    ensures room { vec_capacity bytes.old ≤ vec_capacity bytes.new }
{
    match bytes.extend_from_slice(more) {
        Ok(()) => {}
        Err(_) => unreachable!(),
    }
}
