//! How much each session has seen.

ghost use Rattle.std.specs.Prelude.{◌≡◌, ◌==◌, ◌<◌, length, position, IfSome, OnOk};
ghost use Rattle.be_core.specs.World.{seen_by, having_seen};

use be_base::{NoMemory, SessionNo};

pub(crate) fn seen_by(rows: &[(SessionNo, u64)], session: SessionNo) -> u64
    ensures { result ≡ seen_by session.0 rows.now }
{
    for row in rows {
        if row.0.0 == session.0 {
            return row.1;
        }
    }
    0
}

// The session has seen `n` changes.
pub(crate) fn note_seen(
    rows: &mut Vec<(SessionNo, u64)>,
    session: SessionNo,
    n: u64,
) -> Result<(), NoMemory>
    ensures { OnOk result (rows.new.items ≡ having_seen session.0 n rows.old.items) }
{
    match place_of(rows.as_slice(), session) {
        Some(place) => rows[place].1 = n,
        None => rows.push((session, n))?,
    }
    Ok(())
}

fn place_of(rows: &[(SessionNo, u64)], session: SessionNo) -> Option<usize>
    ensures below { IfSome result (λ place. place < length rows.now) }
    ensures exact { result ≡ position (λ r. r.0.0 == session.0) rows.now }
{
    rows.iter().position(|row| row.0.0 == session.0)
}
