//! What comparisons leave of ranges.

ghost use Rattle.std.specs.Prelude.{◌≡◌, ◌≤ℤ◌, ◌++◌, true, not, OnOk, IfOk};
ghost use Rattle.be_base.specs.declared.limits.TheConstants.{FIRST_INT, LAST_INT};
ghost use Rattle.be_model.specs.Domains.{is_within};
ghost use Rattle.be_model.specs.Lies.{values_in, lies_within};
ghost use Rattle.be_cover.specs.Pieces.{whole, gaps, before, run_after, run_ended, runs, pieces};

use be_base::NoMemory;
use be_model::Op;

/// Puts what the comparison leaves of a range last.
pub(crate) fn put_pieces(
    out: &mut Vec<(i64, i64)>,
    op: &Op,
    range: (i64, i64),
) -> Result<(), NoMemory>
    requires near { lies_within (FIRST_INT, LAST_INT) (values_in op.now) ≡ true }
    requires low { FIRST_INT ≤ℤ range.0 }
    requires high { range.1 ≤ℤ LAST_INT }
    ensures { OnOk result (out.new.items ≡ out.old.items ++ pieces op.now range) }
{
    let (lo, hi) = range;
    match op {
        Op::Lt(x) => put(out, (lo, hi.min(*x - 1))),
        Op::Le(x) => put(out, (lo, hi.min(*x))),
        Op::Eq(x) => put(out, (lo.max(*x), hi.min(*x))),
        Op::Ne(x) => put_gaps(out, &[*x], range),
        Op::Ge(x) => put(out, (lo.max(*x), hi)),
        Op::Gt(x) => put(out, (lo.max(*x + 1), hi)),
        Op::Between(x, y) => put(out, (lo.max(*x), hi.min(*y))),
        Op::OneOf(xs) => put_runs(out, xs.as_slice(), range),
        Op::NoneOf(xs) => put_gaps(out, xs.as_slice(), range),
    }
}

// Puts the range last, unless it is empty.
fn put(out: &mut Vec<(i64, i64)>, range: (i64, i64)) -> Result<(), NoMemory>
    ensures { OnOk result (out.new.items ≡ out.old.items ++ whole range) }
{
    if range.0 <= range.1 {
        out.push(range)?;
    }
    Ok(())
}

// Puts what is left of a range without the numbers last.
fn put_gaps(out: &mut Vec<(i64, i64)>, numbers: &[i64], range: (i64, i64)) -> Result<(), NoMemory>
    requires low { FIRST_INT ≤ℤ range.0 }
    requires high { range.1 ≤ℤ LAST_INT }
    ensures { OnOk result (out.new.items ≡ out.old.items ++ gaps numbers.now range) }
{
    let mut left = range;
    for x in numbers {
        if is_outside(left, *x) {
            continue;
        }
        put(out, (left.0, *x - 1))?;
        left = (*x + 1, left.1);
    }
    put(out, left)
}

// Puts the runs of numbers that stand in a range last.
fn put_runs(out: &mut Vec<(i64, i64)>, numbers: &[i64], range: (i64, i64)) -> Result<(), NoMemory>
    requires low { FIRST_INT ≤ℤ range.0 }
    requires high { range.1 ≤ℤ LAST_INT }
    ensures { OnOk result (out.new.items ≡ out.old.items ++ runs numbers.now range (before range)) }
{
    // The run so far, which is empty at first.
    let mut run = (range.0, range.0 - 1);
    for x in numbers {
        if is_outside(range, *x) {
            continue;
        }
        run = put_number(out, run, *x)?;
    }
    put(out, run)
}

// The run with a number more, or else a new one, where the run so far is put last.
fn put_number(out: &mut Vec<(i64, i64)>, run: (i64, i64), x: i64) -> Result<(i64, i64), NoMemory>
    requires { FIRST_INT ≤ℤ x }
    ensures run { IfOk result (λ next. next ≡ run_after run x) }
    ensures put { OnOk result (out.new.items ≡ out.old.items ++ run_ended run x) }
{
    if x - 1 == run.1 {
        return Ok((run.0, x));
    }
    put(out, run)?;
    Ok((x, x))
}

fn is_outside(range: (i64, i64), x: i64) -> bool
    ensures { result ≡ not (is_within range x) }
{
    x < range.0 || range.1 < x
}
