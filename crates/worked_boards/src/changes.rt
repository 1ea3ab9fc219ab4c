//! Changes that a board is asked for.

ghost use Rattle.std.specs.Prelude.{◌≡◌};

use be_base::Name;
use be_board::{Answer, Board};
use be_expr::read_expr;
use be_model::Schema;
use std::alloc::Global;

pub fn subscribe<B: Board>(
    alloc: Global,
    schema: &Schema,
    board: &mut B,
    rest: &str,
) -> Option<Answer>
    requires { (B.state board.old).schema ≡ schema.now }
    ensures { (B.state board.new).schema ≡ (B.state board.old).schema }
{
    let (name, conj) = rest.split_once(' ')?;
    let name = Name::read(name.as_bytes()).ok()?;
    let conj = read_expr(alloc, schema, conj.as_bytes()).ok()?;
    if board.left() {
        return None;
    }
    Some(board.subscribe(alloc, name, conj))
}

pub fn unsubscribe<B: Board>(alloc: Global, board: &mut B, rest: &str) -> Option<Answer>
    ensures { (B.state board.new).schema ≡ (B.state board.old).schema }
{
    let name = Name::read(rest.as_bytes()).ok()?;
    if board.left() {
        return None;
    }
    Some(board.unsubscribe(alloc, &name))
}

pub fn leave<B: Board>(alloc: Global, board: &mut B) -> Option<Answer>
    ensures { (B.state board.new).schema ≡ (B.state board.old).schema }
{
    if board.left() {
        return None;
    }
    Some(board.leave(alloc))
}
