// What a script leaves at its end: the steps of its lines are taken batch by batch, and nothing is listed.
ghost use Rattle.std.specs.Prelude.{◌≡◌, true, ◌<◌, length, drop};
ghost use Rattle.rules.specs.Sound.{sound};
ghost use Rattle.rules.specs.Runs.{batch_most};
ghost use Rattle.numbers.specs.Lines.{lines_of};
ghost use Rattle.listing.specs.Batches.{lines_at, place_after};
ghost use Rattle.listing.specs.Endings.{board_after, end_outcome};

use crate::gathering::gather;
use crate::starting::{start_outcome, start_place};
use rules::{BATCH, Board, Outcome};
use steps::run_batch;

// Where the script's lines have come to: the place of the next one, and the board before it. `NextLine` has a line's number too, which
// nothing asks here.
#[derive(Clone, Copy)]
struct Reached {
    at: usize,
    board: Board,
}

// One batch of lines.
#[tactic(auto, using(crate::proofs::endings::EndingLaws::batch_reached_lem))]
fn take_batch(p: Reached, script: &[u8]) -> Reached
    requires { sound p.board ≡ true }
    ensures { result ≡ record { at = place_after batch_most p.at script.now; board = board_after p.board (lines_at batch_most p.at script.now) } }
{
    let g = gather(script, p.at, BATCH);
    Reached {
        at: g.at,
        board: run_batch(p.board, g.steps, g.count).board,
    }
}

// Batch by batch up to the script's end.
fn take_lines(mut p: Reached, script: &[u8]) -> Board
    requires { p.at < length script.now → sound p.board ≡ true }
    ensures { result ≡ board_after p.board (lines_of (drop p.at script.now)) }
{
    // The cursor moves by the lines of a batch, so this is no count.
    while p.at < script.len() {
        p = take_batch(p, script);
    }
    p.board
}

// What a script leaves: the number that refuses its first line, or 0 and the board after its last line. Behind a refused first line no line
// is left to take.
pub fn ending(script: &[u8]) -> Outcome
    ensures { result ≡ end_outcome script.now }
{
    let o = start_outcome(script);
    let start = Reached {
        at: start_place(o.answer, script),
        board: o.board,
    };
    Outcome {
        board: take_lines(start, script),
        ..o
    }
}
