//! The script of a workload, served line by line.

ghost use Rattle.std.specs.Prelude.{◌≡◌, [], length, false, OnOk, IfOk};
ghost use Rattle.be_io.specs.Lines as line;
ghost use Rattle.be_board.specs.Local.{local_state};
ghost use Rattle.be_board.specs.State.{is_gone};
ghost use Rattle.be_protocol.specs.Readings.{reading};
ghost use Rattle.be_workload.specs.Asked as made;
ghost use Rattle.be_server.specs.Sums.{published, MayCount, CountsRequest, AreScriptSums, IsCountableScript};

use crate::counted::CountedBoard;
use crate::sums::Sums;
use be_base::NoMemory;
use be_index::Index;
use be_io::first_line;
use be_model::Schema;
use be_protocol::{Request, read_line};
use std::alloc::Global;
use std::mem;

/// A run so far, and the sums of its replies.
#[derive(Drop)]
struct Counting<I: Index> {
    board: CountedBoard<I>,
    sums: Sums,
}

impl<I: Index> Counting<I> {
    // Answers a line, and counts its reply. Where memory is wanting the sums don't count.
    fn answer(&mut self, alloc: Global, schema: &Schema, text: &[u8]) -> Result<(), NoMemory>
        requires present { is_gone (local_state (I.schema self.old.board.board.index) self.old.board.board) ≡ false }
        requires schema { I.schema self.old.board.board.index ≡ schema.now }
        requires may { MayCount schema.now (reading schema.now (line.text text.now)) self.old.board.board.list self.old.sums }
        ensures counted { OnOk result (CountsRequest schema.now (reading schema.now (line.text text.now))
            self.old.board.board.list self.old.sums self.new.board.board.list self.new.sums) }
        ensures schema { I.schema self.new.board.board.index ≡ I.schema self.old.board.board.index }
    {
        match read_line(alloc, schema, text)? {
            Request::Subscribe(subscription) => {
                self.board
                    .subscribe(alloc, subscription.name, subscription.conj)
            }
            Request::Publish(event) => {
                self.sums.hits += self.board.count_hits(&event)?;
                Ok(())
            }
            Request::Costing(event) => {
                self.sums.cost = self.sums.cost.plus(self.board.cost(&event));
                Ok(())
            }
            // The script of a workload has no other line.
            _ => Ok(()),
        }
    }
}

/// Answers each line of a workload's script over an empty board, and sums up the replies.
pub fn count_script<I: Index>(
    alloc: Global,
    board: CountedBoard<I>,
    schema: &Schema,
    script: &[u8],
) -> Result<Sums, NoMemory>
    requires empty { board.board.list ≡ [] }
    requires index { I.schema board.board.index ≡ schema.now }
    requires schema { schema.now ≡ made.schema }
    requires countable { IsCountableScript (made.asked_by_lines script.now) }
    ensures { IfOk result (AreScriptSums made.schema (made.asked_by_lines script.now) (length (published (made.asked_by_lines script.now)))) }
{
    let mut counting = Counting {
        board,
        sums: Sums::none(),
    };
    let mut rest = script;
    while !rest.is_empty() {
        let (line, after) = first_line(rest);
        counting.answer(alloc, schema, line)?;
        rest = after;
    }
    let Counting { board, sums } = counting;
    // The line of the sums alone is written behind this. Then the system takes the board's memory back at once.
    mem::forget(board);
    Ok(sums)
}
