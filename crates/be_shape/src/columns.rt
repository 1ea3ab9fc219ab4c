//! What is told of the rows of a block, column by column.

ghost use Rattle.std.specs.Prelude.{◌≡◌, ◌<◌, ◌≤◌, ◌+◌, true, false, ℕ, List, length, take, get_or, slice_get, Some, IfSome, option_map};
ghost use Rattle.be_model.specs.declared.changes.Row.{Row};
ghost use Rattle.be_model.specs.Matching.{Assignments, satisfied};
ghost use Rattle.be_model.specs.Rows.{id_of};
ghost use Rattle.be_shape.specs.Chosen.{AreRowsAt};
ghost use Rattle.be_shape.specs.Columns.{AreColumnsOf, AreTold, TellsRow, TellPassing, lets_all, slot_at, slots_at};
ghost use Rattle.be_shape.specs.Lanes.{lets, are_single};
ghost use Rattle.be_shape.specs.Leaves.{are_rows, rows_of_places};

use crate::lanes::{FREE, LaneSlots, Slot, is_free, lets};
use crate::leaves::{BLOCK, kept_at};
use crate::places::Kept;
use crate::sights::Sight;
use be_base::Id;

/// Places of a block.
pub type Met = [u8; BLOCK];

/// No place yet. A search fills its own in place.
pub const NONE_MET: Met = [0; BLOCK];

/// The slots of a row whose lanes are of one attribute, and its id.
#[derive(Clone, Copy)]
pub(crate) struct Entry {
    pub(crate) slots: LaneSlots,
    pub(crate) id: u32,
}

// Of each place whether its row is satisfied.
type Passes = [bool; BLOCK];

/// The slots of a lane of each row.
#[derive(Drop)]
struct Column {
    lows: [u32; BLOCK],
    widths: [u32; BLOCK],
}

/// What is told, column by column, of the rows of a block whose lanes are on one attribute and are their whole meaning. So a search of
/// an event of single values needn't look at their places.
#[derive(Drop)]
pub struct Columns {
    /// The attribute that all lanes are on.
    attr: u8,
    /// What lies beyond it satisfies no row of the block.
    hull: Slot,
    /// No row has more than one lane that isn't free.
    single: bool,
    first: Column,
    second: Column,
    third: Column,
    ids: [u32; BLOCK],
}

// Notes at which places the rows are satisfied, in order, and says how many these are. Which these are can't be foreseen, so there is no
// jump by a single one.
fn collect(passes: &Passes, met: &mut Met) -> usize
    ensures few { result ≤ 32 }
    ensures places { (e : Assignments) (rows : List Row) → length rows ≡ 32 → TellPassing passes.now e rows → AreRowsAt rows (take result met.new) (satisfied e rows) }
{
    let mut count = 0;
    for at in 0..BLOCK {
        met[count] = at as u8;
        count += usize::from(passes[at]);
    }
    count
}

// A slot that has all that either of two has. Where one of these goes round it is the free one.
fn hull_of(x: Slot, y: Slot) -> Slot
    ensures first { (n : ℕ) → n < 4294967296 → lets n x ≡ true → lets n result ≡ true }
    ensures second { (n : ℕ) → n < 4294967296 → lets n y ≡ true → lets n result ≡ true }
{
    let low = x.0.min(y.0);
    match (x.0.checked_add(x.1), y.0.checked_add(y.1)) {
        (Some(x_last), Some(y_last)) => (low, x_last.max(y_last) - low),
        _ => FREE,
    }
}

// Puts another number at a place.
fn write(numbers: &mut [u32; BLOCK], at: usize, n: u32)
    requires { at < 32 }
    ensures there { get_or numbers.new at 0 ≡ n }
    ensures others { (i : ℕ) → (i ≡ at → ⊥) → get_or numbers.new i 0 ≡ get_or numbers.old i 0 }
{
    numbers[at] = n;
}

impl Column {
    // Free slots.
    fn blank() -> Column {
        Column {
            lows: [0; BLOCK],
            widths: [u32::MAX; BLOCK],
        }
    }

    // Puts another slot at a place.
    fn put(&mut self, at: usize, slot: Slot)
        requires { at < 32 }
        ensures there { slot_at self.new at ≡ slot }
        ensures others { (i : ℕ) → (i ≡ at → ⊥) → slot_at self.new i ≡ slot_at self.old i }
    {
        write(&mut self.lows, at, slot.0);
        write(&mut self.widths, at, slot.1);
    }

    // The slot at a place.
    fn slot(&self, at: usize) -> Slot
        requires { at < 32 }
        ensures { result ≡ slot_at self.now at }
    {
        (self.lows[at], self.widths[at])
    }

    // Notes of each slot whether it has the number. No slot makes a jump.
    fn note(&self, x: u32, passes: &mut Passes)
        ensures { (i : ℕ) → i < 32 → slice_get passes.new i ≡ Some (lets x (slot_at self.now i)) }
    {
        for at in 0..BLOCK {
            passes[at] = lets(x, self.slot(at));
        }
    }
}

impl Columns {
    // No row is told yet.
    fn blank(attr: u8, hull: Slot) -> Columns
        ensures { result.attr ≡ attr }
    {
        Columns {
            attr,
            hull,
            single: true,
            first: Column::blank(),
            second: Column::blank(),
            third: Column::blank(),
            ids: [0; BLOCK],
        }
    }

    // Tells one row more.
    fn put(&mut self, at: usize, entry: Entry)
        requires { at < 32 }
        ensures attr { self.new.attr ≡ self.old.attr }
        ensures told { (rows : List Row) (row : Row) → slice_get rows at ≡ Some row → TellsRow self.old.attr entry row → AreTold self.old rows at → AreTold self.new rows (at + 1) }
    {
        let slots = entry.slots;
        self.hull = hull_of(self.hull, slots.first);
        self.single = self.single & (is_free(slots.second) & is_free(slots.third));
        self.first.put(at, slots.first);
        self.second.put(at, slots.second);
        self.third.put(at, slots.third);
        write(&mut self.ids, at, entry.id);
    }

    // What is told of the rows, where each has all its lanes on this attribute.
    fn fill(attr: u8, hull: Slot, places: &[Kept]) -> Option<Columns>
        requires rows { are_rows places.now ≡ true }
        requires many { length places.now ≡ 32 }
        ensures { IfSome result (λ c. AreColumnsOf c (rows_of_places places.now)) }
    {
        let mut columns = Columns::blank(attr, hull);
        for at in 0..BLOCK {
            match kept_at(places, at).entry(attr) {
                Some(entry) => columns.put(at, entry),
                None => return None,
            }
        }
        Some(columns)
    }

    /// What is told of a block's rows, where each has an id of 32 bits and its lanes, all on one attribute, are its whole meaning.
    pub(crate) fn of(places: &[Kept]) -> Option<Columns>
        requires rows { are_rows places.now ≡ true }
        requires many { length places.now ≡ 32 }
        ensures { IfSome result (λ c. AreColumnsOf c (rows_of_places places.now)) }
    {
        let first = kept_at(places, 0);
        let attr = first.first_attr();
        match first.entry(attr) {
            Some(entry) => Columns::fill(attr, entry.slots.first, places),
            None => None,
        }
    }

    // Whether each slot at the place has the number.
    fn has(&self, x: u32, at: usize) -> bool
        requires { at < 32 }
        ensures { result ≡ lets_all x (slots_at self.now at) }
    {
        let first = lets(x, self.first.slot(at));
        let second = lets(x, self.second.slot(at));
        let third = lets(x, self.third.slot(at));
        first & (second & third)
    }

    // Notes of each place whether all its slots have the number. No place makes a jump.
    fn note(&self, x: u32, passes: &mut Passes)
        ensures { (i : ℕ) → i < 32 → slice_get passes.new i ≡ Some (lets_all x (slots_at self.now i)) }
    {
        for at in 0..BLOCK {
            passes[at] = self.has(x, at);
        }
    }

    // The same. Where no row has more than one lane the other slots have all numbers, and aren't looked at.
    fn note_any(&self, x: u32, passes: &mut Passes)
        ensures { (rows : List Row) (i : ℕ) → AreTold self.now rows 32 → i < 32 → slice_get passes.new i ≡ Some (lets_all x (slots_at self.now i)) }
    {
        if self.single {
            self.first.note(x, passes);
        } else {
            self.note(x, passes);
        }
    }

    /// Notes in `met` at which places of the block the rows stand that the event satisfies, in order, and says how many these are.
    pub fn met(&self, e: &Sight, met: &mut Met) -> usize
        requires { are_single e.now ≡ true }
        ensures few { result ≤ 32 }
        ensures places { (rows : List Row) → AreColumnsOf self.now rows → AreRowsAt rows (take result met.new) (satisfied e.now rows) }
    {
        let x = e.seen_of(self.attr);
        if !lets(x, self.hull) {
            return 0;
        }
        let mut passes = [false; BLOCK];
        self.note_any(x, &mut passes);
        collect(&passes, met)
    }

    /// The id of the row at a place of the block.
    pub fn id(&self, at: u8) -> Id
        requires { at < 32 }
        ensures { (rows : List Row) → AreColumnsOf self.now rows → option_map id_of (slice_get rows at) ≡ Some result.0 }
    {
        Id(u64::from(self.ids[usize::from(at)]))
    }
}
