//! A plain program beside the tree. It has no nodes: it keeps, for each row, the way to the row's leaf, and the nodes that
//! are there are the beginnings of these ways.

use be_base::NoMemory;

/// The hop to the low half; the hop to the part of an attribute is one more than its number, and none is 0.
pub(crate) const LOW: u8 = 101;

pub(crate) const HIGH: u8 = 102;

/// The least and the greatest value of each attribute.
pub(crate) const BOUNDS: [(i64, i64); 4] = [(0, 1000), (-5, 5), (0, 2), (7, 7)];

/// A way down from the root. In the order of ways a node is before those below it, its parts before its halves.
#[derive(Clone, Copy, Debug, PartialEq, Eq, PartialOrd, Ord)]
pub(crate) struct Way {
    pub(crate) hops: [u8; 32],
}

/// Values of an attribute.
#[derive(Clone, Copy, Debug, PartialEq, Eq)]
struct Range {
    attr: u8,
    lo: i64,
    hi: i64,
}

/// What is kept of a row.
#[derive(Clone, Copy, Debug, PartialEq, Eq)]
pub(crate) struct Kept {
    pub(crate) id: u64,
    pub(crate) spans: [Option<(i64, i64)>; 4],
    pub(crate) way: Way,
}

impl Way {
    pub(crate) fn root() -> Way {
        Way { hops: [0; 32] }
    }

    pub(crate) fn len(self) -> usize {
        let mut len = 0usize;
        for hop in self.hops {
            if hop == 0 {
                return len;
            }
            len = len.saturating_add(1);
        }
        len
    }

    pub(crate) fn below(self, hop: u8) -> Way {
        let mut way = self;
        for place in 0..32 {
            if way.hops[place] == 0 {
                way.hops[place] = hop;
                return way;
            }
        }
        way
    }

    /// Its first hops, so many.
    pub(crate) fn cut(self, len: usize) -> Way {
        let mut way = Way::root();
        for place in 0..32 {
            if place < len {
                way.hops[place] = self.hops[place];
            }
        }
        way
    }

    pub(crate) fn up(self) -> Way {
        self.cut(self.len().saturating_sub(1))
    }

    // Whether the other way is this one, or goes on from it.
    pub(crate) fn is_over(&self, other: &Way) -> bool {
        for place in 0..32 {
            if self.hops[place] == 0 {
                return true;
            }
            if self.hops[place] != other.hops[place] {
                return false;
            }
        }
        true
    }

    pub(crate) fn uses(self, attr: u8) -> bool {
        self.hops.iter().any(|hop| *hop == part(attr))
    }

    fn range(self) -> Option<Range> {
        let mut range = None;
        for hop in self.hops {
            if hop == 0 {
                return range;
            }
            range = range_after(range, hop);
        }
        range
    }

    pub(crate) fn is_visited(self, event: &[Option<i64>; 4]) -> bool {
        let mut range = None;
        for hop in self.hops {
            if hop == 0 {
                return true;
            }
            range = range_after(range, hop);
            if !holds(range, event) {
                return false;
            }
        }
        true
    }
}

pub(crate) fn part(attr: u8) -> u8 {
    attr.saturating_add(1)
}

fn range_after(range: Option<Range>, hop: u8) -> Option<Range> {
    if LOW <= hop {
        return half_of(range?, hop);
    }
    let attr = hop.saturating_sub(1);
    let (lo, hi) = *BOUNDS.get(attr as usize)?;
    Some(Range { attr, lo, hi })
}

fn half_of(range: Range, hop: u8) -> Option<Range> {
    let Range { attr, lo, hi } = range;
    let middle = lo.wrapping_add(hi.wrapping_sub(lo) / 2);
    if hi <= lo {
        None
    } else if hop == LOW {
        Some(Range {
            attr,
            lo,
            hi: middle,
        })
    } else {
        Some(Range {
            attr,
            lo: middle.wrapping_add(1),
            hi,
        })
    }
}

fn holds(range: Option<Range>, event: &[Option<i64>; 4]) -> bool {
    let Some(range) = range else {
        return false;
    };
    match event.get(range.attr as usize) {
        Some(Some(value)) => range.lo <= *value && *value <= range.hi,
        _ => false,
    }
}

impl Kept {
    fn span(&self, attr: u8) -> Option<(i64, i64)> {
        *self.spans.get(attr as usize)?
    }

    pub(crate) fn has(&self, attr: u8) -> bool {
        self.span(attr).is_some()
    }

    // Whether the row has the part's attribute, or has its span inside the half.
    pub(crate) fn passes(&self, way: Way, hop: u8) -> bool {
        let Some(range) = range_after(way.range(), hop) else {
            return false;
        };
        match self.span(range.attr) {
            Some((lo, hi)) => hop < LOW || (range.lo <= lo && hi <= range.hi),
            None => false,
        }
    }

    pub(crate) fn weight(&self, attr: u8) -> i64 {
        let Some((lo, hi)) = self.span(attr) else {
            return 0;
        };
        let (least, most) = match BOUNDS.get(attr as usize) {
            Some(bounds) => *bounds,
            None => (0, 0),
        };
        let size = most.wrapping_sub(least).wrapping_add(1).max(1);
        let width = hi.wrapping_sub(lo).wrapping_add(1);
        1000i64.wrapping_sub(width.wrapping_mul(1000) / size)
    }

    fn is_stuck(&self, way: Way) -> bool {
        for attr in 0..4 {
            if self.has(attr) && !way.uses(attr) {
                return false;
            }
        }
        !self.passes(way, LOW) && !self.passes(way, HIGH)
    }
}

pub(crate) fn is_there(rows: &[Kept], way: Way) -> bool {
    way == Way::root() || rows.iter().any(|row| way.is_over(&row.way))
}

pub(crate) fn count_below(rows: &[Kept], way: Way) -> usize {
    rows.iter().filter(|row| way.is_over(&row.way)).count()
}

pub(crate) fn count_in_leaf(rows: &[Kept], way: Way) -> usize {
    rows.iter().filter(|row| row.way == way).count()
}

// How many rows of the leaf would go by this hop.
pub(crate) fn count_passing(rows: &[Kept], way: Way, hop: u8) -> usize {
    rows.iter()
        .filter(|row| row.way == way && row.passes(way, hop))
        .count()
}

fn score(rows: &[Kept], way: Way, attr: u8) -> i64 {
    let mut gain = 0i64;
    let mut loss = 0i64;
    for row in rows {
        if row.way == way && row.has(attr) {
            gain = gain.wrapping_add(row.weight(attr));
        } else if row.way == way {
            loss = loss.wrapping_add(1000);
        }
    }
    gain.wrapping_sub(loss).wrapping_mul(50)
}

pub(crate) fn pick(rows: &[Kept], way: Way) -> Option<u8> {
    let mut best: Option<(u8, i64)> = None;
    for attr in 0..4 {
        if !way.uses(attr) && 0 < count_passing(rows, way, part(attr)) {
            let found = score(rows, way, attr);
            match best {
                Some((_, most)) if found <= most => {}
                _ => best = Some((attr, found)),
            }
        }
    }
    Some(best?.0)
}

// The hop by which a row goes on from a node, where it does.
fn next_hop(rows: &[Kept], row: &Kept, way: Way) -> Option<u8> {
    for half in [LOW, HIGH] {
        if is_there(rows, way.below(half)) && row.passes(way, half) {
            return Some(half);
        }
    }
    let mut best: Option<(u8, i64)> = None;
    for attr in 0..4 {
        if row.has(attr) && is_there(rows, way.below(part(attr))) {
            let found = row.weight(attr);
            match best {
                Some((_, most)) if found <= most => {}
                _ => best = Some((attr, found)),
            }
        }
    }
    Some(part(best?.0))
}

pub(crate) fn goes_to(rows: &[Kept], row: &Kept, start: Way) -> Way {
    let mut way = start;
    for _ in 0..32 {
        match next_hop(rows, row, way) {
            Some(hop) => way = way.below(hop),
            None => return way,
        }
    }
    way
}

// The hop by which an overflow splits, where there is one.
fn split_hop(rows: &[Kept], way: Way) -> Option<u8> {
    let is_stuck = rows.iter().all(|row| row.way != way || row.is_stuck(way));
    if count_in_leaf(rows, way) <= 16 || is_stuck {
        return None;
    }
    let low = count_passing(rows, way, LOW);
    let high = count_passing(rows, way, HIGH);
    if low == 0 && high == 0 {
        return Some(part(pick(rows, way)?));
    }
    Some(if low < high { HIGH } else { LOW })
}

pub(crate) fn move_down(rows: &mut [Kept], way: Way, hop: u8) {
    for row in rows {
        if row.way == way && row.passes(way, hop) {
            row.way = way.below(hop);
        }
    }
}

pub(crate) fn settle(rows: &mut [Kept], start: Way) {
    let mut way = start;
    for _ in 0..32 {
        let Some(hop) = split_hop(rows, way) else {
            return;
        };
        move_down(rows, way, hop);
        way = way.below(hop);
    }
}

/// Places a row, whose way is given anew.
pub(crate) fn put(rows: &mut Vec<Kept>, row: Kept) -> Result<(), NoMemory> {
    let mut row = row;
    let way = goes_to(rows.as_slice(), &row, Way::root());
    row.way = way;
    rows.push(row)?;
    settle(rows.as_mut_slice(), way);
    Ok(())
}
