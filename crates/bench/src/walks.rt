// The step by value, over a list of numbers read as records.
ghost use Rattle.std.specs.Prelude.{◌≡◌};
ghost use Rattle.bench.specs.Records.{records_in};
ghost use Rattle.bench.specs.Counts.{walk_of};

use crate::records::record_of;
use rules::Board;
use steps::step;

// The board after a list, and how many of its steps were accepted.
#[derive(Clone, Copy)]
pub struct Walked {
    pub board: Board,
    pub count: u64,
}

// One step after the other, each on the board that the one before it gave.
pub(crate) fn stepped(mut board: Board, list: &[u16]) -> Walked
    ensures { result ≡ walk_of board (records_in list.now) }
{
    let mut count = 0;
    for four in list.chunks_exact(4) {
        let outcome = step(board, record_of(four));
        board = outcome.board;
        count += u64::from(outcome.answer.is_ok());
    }
    Walked { board, count }
}
