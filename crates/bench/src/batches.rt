// The run over a batch, over a list of numbers read as records: a batch at a time.
ghost use Rattle.std.specs.Prelude.{◌≡◌, ◌*◌, ◌/◌, ◌≤◌, length, take};
ghost use Rattle.rules.specs.Runs.{batch_most};
ghost use Rattle.bench.specs.Records.{records_in};
ghost use Rattle.bench.specs.Counts.{walk_of, zeros_of};

use crate::records::record_of;
use crate::walks::Walked;
use refusals::Refusal;
use rules::{BATCH, Board, NO_STEP, StepRecord};
use steps::run_batch;

// The numbers of a batch, four to a record.
const BATCH_NUMBERS: usize = 4 * BATCH;

pub(crate) fn zeros_of(ran: Result<usize, Refusal>) -> u64
    ensures { result ≡ zeros_of ran }
{
    match ran {
        Ok(n) => n as u64,
        Err(_) => 0,
    }
}

// The records of a batch, at the front of as many as a batch may have.
fn records_of(numbers: &[u16]) -> [StepRecord; BATCH]
    requires { length numbers.now ≤ 4 * batch_most }
    ensures { take (length numbers.now / 4) result ≡ records_in numbers.now }
{
    let mut records = [NO_STEP; BATCH];
    // By place: of what is written through `iter_mut` behind an adapter nothing is known behind the loop.
    for (i, four) in numbers.chunks_exact(4).enumerate() {
        records[i] = record_of(four);
    }
    records
}

// One batch after the other, each on the board that the one before it gave.
pub fn batched(mut board: Board, list: &[u16]) -> Walked
    ensures { result ≡ walk_of board (records_in list.now) }
{
    let mut count = 0;
    for numbers in list.chunks(BATCH_NUMBERS) {
        let done = run_batch(board, records_of(numbers), numbers.len() / 4);
        board = done.board;
        count += zeros_of(done.ran);
    }
    Walked { board, count }
}
