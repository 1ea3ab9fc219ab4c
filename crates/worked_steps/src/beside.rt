//! Random changes and steps on one tree, beside a plain program that has no nodes.

use crate::as_steps::{move_of, path_of, step_of};
use crate::by_ways;
use crate::by_ways::{BOUNDS, HIGH, Kept, LOW, Way};
use crate::looks::{cost, has_ids};
use crate::moves::{self, Move};
use crate::rows::{apply_step, row_of, schema_of_four, take_row};
use be_base::{AttrNo, NoMemory};
use be_model::{Conj, Op, Path, Pred, Row, StepDone};
use be_plan::plan;
use be_shape::Tree;
use std::alloc::Global;
use std::process::Abort;
use std::sync::Arc;
use std::test::Fail;
use worked_help::Grown;

/// A small linear congruence.
#[derive(Drop)]
struct Draws {
    state: u64,
}

impl Draws {
    fn draw(&mut self, count: u64) -> u64 {
        self.state = self
            .state
            .wrapping_mul(6364136223846793005)
            .wrapping_add(1442695040888963407);
        (self.state >> 33) % count.max(1)
    }

    fn attr(&mut self, count: u8) -> u8 {
        (self.draw(count as u64) % 256) as u8
    }

    // A place below the count, where the count isn't 0.
    fn place(&mut self, count: usize) -> usize {
        (self.draw(1 << 20) as usize) % count.max(1)
    }

    // A value of the attribute: mostly one of the lowest.
    fn value(&mut self, lo: i64, hi: i64) -> i64 {
        let size = hi.wrapping_sub(lo).wrapping_add(1).max(1);
        let far = (self.draw(1 << 20) % (1 << 20)) as i64 % size;
        let near = (self.draw(3) % 3) as i64 % size;
        lo.wrapping_add(if self.draw(2) == 0 { near } else { far })
    }

    // A comparison with values of the attribute, and its hull.
    fn op(&mut self, lo: i64, hi: i64) -> (Op, (i64, i64)) {
        let v = self.value(lo, hi);
        let w = self.value(lo, hi);
        match self.draw(8) {
            0 => (Op::Le(v), (lo, v)),
            1 => (Op::Ge(v), (v, hi)),
            2 => (Op::Ne(v), (lo, hi)),
            3 => (Op::Between(v, w), (v, v.max(w))),
            4 => (Op::Lt(v), (lo, lo.max(v.wrapping_sub(1)))),
            _ => (Op::Eq(v), (v, v)),
        }
    }

    // A condition, and its spans: those of the first predicate on each attribute.
    fn conj(&mut self, alloc: Global) -> Result<(Conj, [Option<(i64, i64)>; 4]), NoMemory> {
        let mut conj = Conj::make(alloc);
        let mut spans = [None; 4];
        for _ in 0..self.draw(4) {
            let attr = self.place(4);
            if attr < 4 && !conj.is_full() {
                let (lo, hi) = BOUNDS[attr];
                let (op, hull) = self.op(lo, hi);
                if spans[attr].is_none() {
                    spans[attr] = Some(hull);
                }
                conj.push(Pred {
                    attr: AttrNo(attr as u16),
                    op,
                })?;
            }
        }
        Ok((conj, spans))
    }

    // A step at a node on the way to a row, or beside it.
    fn step(&mut self, row: &Kept) -> Move {
        let len = match self.draw(3) {
            0 => 0,
            _ => self.place(row.way.len().saturating_add(1)),
        };
        let mut way = row.way.cut(len);
        let next = match row.way.hops.get(len) {
            Some(hop) if 0 < *hop && *hop < LOW => hop.saturating_sub(1),
            _ => self.attr(5),
        };
        if self.draw(16) == 0 {
            way = way.below([LOW, HIGH, 1, 5][self.place(4) % 4]);
        }
        match self.draw(8) {
            0 => Move::Part(way, self.attr(5)),
            1 => Move::Half(way, [LOW, HIGH, LOW, HIGH, 1][self.place(5) % 5]),
            2 => Move::Merge(way),
            3 => Move::Merge(row.way),
            4 => Move::Part(row.way, self.attr(5)),
            5 => Move::Half(row.way, [LOW, HIGH][self.place(2) % 2]),
            _ => Move::Shift(way, next, self.attr(5), row.id),
        }
    }
}

/// The tree and the plain program, and how many changes of each kind there were: rows put, rows taken, rows that weren't
/// there; and of each kind of step those that stood, those that didn't, and those that were planned.
#[derive(Drop)]
struct Both {
    grown: Grown,
    rows: Vec<Arc<Row>>,
    kept: Vec<Kept>,
    draws: Draws,
    changes: [u32; 3],
    stood: [u32; 4],
    refused: [u32; 4],
    planned: [u32; 4],
}

fn count_up(counts: &mut [u32], place: usize) {
    if place < counts.len() {
        counts[place] = counts[place].saturating_add(1);
    }
}

fn kind_of(step: Move) -> usize {
    match step {
        Move::Part(_, _) => 0,
        Move::Half(_, _) => 1,
        Move::Merge(_) => 2,
        Move::Shift(_, _, _, _) => 3,
    }
}

impl Both {
    fn put(&mut self, rt: &impl Abort, alloc: Global) -> Result<(), Fail> {
        let id = self.grown.next;
        let (conj, spans) = self.draws.conj(alloc)?;
        let row = row_of(alloc, id, conj)?;
        assert!(rt; self.grown.put(Arc::try_clone(&row)?), "row {id}");
        self.rows.push(row)?;
        let way = Way::root();
        by_ways::put(&mut self.kept, Kept { id, spans, way })?;
        count_up(&mut self.changes, 0);
        Ok(())
    }

    // Takes a row out, twice.
    fn take(&mut self, rt: &impl Abort) {
        let place = self.draws.place(self.rows.len());
        if place < self.rows.len() && place < self.kept.len() {
            let row = self.rows.remove(place);
            let _ = self.kept.remove(place);
            match take_row(&mut self.grown, &row) {
                Some(taken) => assert_eq!(rt; taken.id.0, row.id.0),
                None => panic!(rt; "row {} isn't there", row.id.0),
            }
            assert!(rt;
                take_row(&mut self.grown, &row).is_none(),
                "row {}",
                row.id.0
            );
            count_up(&mut self.changes, 1);
            count_up(&mut self.changes, 2);
        }
    }

    fn make(&mut self, rt: &impl Abort, alloc: Global, step: Move) -> Result<(), Fail> {
        let stands = moves::stands(self.kept.as_slice(), step);
        let want = if stands {
            StepDone::Done
        } else {
            StepDone::NotHere
        };
        let done = apply_step(&mut self.grown, &step_of(alloc, step)?);
        assert!(rt; done == want, "a step of the kind {}", kind_of(step));
        if stands {
            moves::make(self.kept.as_mut_slice(), step);
            count_up(&mut self.stood, kind_of(step));
        } else {
            count_up(&mut self.refused, kind_of(step));
        }
        Ok(())
    }

    // What both plan, which is the same.
    fn plan(&mut self, rt: &impl Abort, alloc: Global) -> Result<Option<Move>, Fail> {
        let nodes = moves::nodes(alloc, self.kept.as_slice())?;
        let want = moves::plan(self.kept.as_slice(), nodes.as_slice());
        let grown = &self.grown;
        let step = match plan(&grown.tree)? {
            Some(step) => Some(move_of(&step)),
            None => None,
        };
        assert!(rt; step == want, "plans differ");
        Ok(want)
    }

    fn make_planned(&mut self, rt: &impl Abort, alloc: Global) -> Result<(), Fail> {
        if let Some(step) = self.plan(rt, alloc)? {
            self.make(rt, alloc, step)?;
            count_up(&mut self.planned, kind_of(step));
        }
        Ok(())
    }

    fn make_drawn(&mut self, rt: &impl Abort, alloc: Global) -> Result<(), Fail> {
        let place = self.draws.place(self.kept.len());
        if place < self.kept.len() {
            let row = self.kept[place];
            let step = self.draws.step(&row);
            self.make(rt, alloc, step)?;
        }
        Ok(())
    }

    // Two events cost both the same.
    fn cost(&mut self, rt: &impl Abort, alloc: Global) -> Result<(), Fail> {
        let nodes = moves::nodes(alloc, self.kept.as_slice())?;
        for _ in 0..2 {
            let mut event = [None; 4];
            let mut values = Vec::new(alloc);
            for attr in 0..4usize {
                if self.draws.draw(4) != 0 {
                    let (lo, hi) = BOUNDS[attr];
                    let value = self.draws.value(lo, hi);
                    event[attr] = Some(value);
                    values.push((attr as u16, value))?;
                }
            }
            let grown = &self.grown;
            let found = cost(alloc, &grown.tree, values.as_slice())?;
            let want = moves::cost(self.kept.as_slice(), nodes.as_slice(), &event);
            assert_eq!(rt; found, want);
        }
        Ok(())
    }

    // Whether the tree has these rows alone, each where the plain program has it.
    fn is_same(&self, alloc: Global) -> Result<bool, Fail> {
        let grown = &self.grown;
        let tree = &grown.tree;
        for row in self.kept.as_slice() {
            if !is_in_leaf(tree, &path_of(alloc, row.way)?, row.id) {
                return Ok(false);
            }
        }
        Ok(tree.len() == self.kept.len() as u64)
    }

    // Whether there were some of each kind of change.
    fn has_made_all(&self) -> bool {
        self.changes.iter().all(|count| 400 <= *count)
            && self.stood.iter().all(|count| 5 <= *count)
            && self.refused.iter().all(|count| 50 <= *count)
            && self.planned.iter().all(|count| 1 <= *count)
    }

    // Looks at all that takes longer: the invariants, the plan and the costs.
    fn look(&mut self, rt: &impl Abort, alloc: Global, number: u64) -> Result<(), Fail> {
        let grown = &self.grown;
        let is_right = has_ids(alloc, &grown.tree, self.rows.as_slice())?;
        assert!(rt; is_right, "at {number}");
        let _ = self.plan(rt, alloc)?;
        self.cost(rt, alloc)
    }

    fn change(&mut self, rt: &impl Abort, alloc: Global, number: u64) -> Result<(), Fail> {
        // The tree grows as planned; then it's changed by steps that are drawn; then it becomes smaller.
        let (puts, takes, plans) = match number / 100 % 3 {
            0 => (50, 62, 96),
            1 => (40, 50, 60),
            _ => (8, 80, 90),
        };
        let drawn = self.draws.draw(100);
        if drawn < puts {
            self.put(rt, alloc)
        } else if drawn < takes {
            self.take(rt);
            Ok(())
        } else if drawn < plans {
            self.make_planned(rt, alloc)
        } else {
            self.make_drawn(rt, alloc)
        }
    }
}

fn is_in_leaf(tree: &Tree, path: &Path, id: u64) -> bool {
    match tree.at(path) {
        Some(n) => {
            for place in 0..n.leaf.len() {
                if n.leaf.row(place).id.0 == id {
                    return true;
                }
            }
            false
        }
        None => false,
    }
}

#[test]
fn two_thousand_changes_are_as_a_plain_program_makes_them(rt: HostRuntime) -> Result<(), Fail> {
    let alloc = rt.alloc();
    let mut both = Both {
        grown: Grown::make(alloc, schema_of_four(alloc)?),
        rows: Vec::new(alloc),
        kept: Vec::new(alloc),
        draws: Draws { state: 19 },
        changes: [0; 3],
        stood: [0; 4],
        refused: [0; 4],
        planned: [0; 4],
    };
    for number in 0..2000 {
        both.change(&rt, alloc, number)?;
        assert!(rt; both.is_same(alloc)?, "at {number}");
        if number % 20 == 19 {
            both.look(&rt, alloc, number)?;
        }
    }
    assert!(rt; both.has_made_all());
    Ok(())
}
