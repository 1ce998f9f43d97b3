// Runs on a board that is lent: to the run over a list, and to the step, one call for each step.
ghost use Rattle.std.specs.Prelude.{◌≡◌};
ghost use Rattle.rules.specs.Runs.{run_answer, run_buffer};
ghost use Rattle.bench.specs.Trees.{tree_board};
ghost use Rattle.bench.specs.Counts.{accepted_of, zeros_of};

use crate::batches::zeros_of;
use crate::trees::tree_board;
use rules::StepRecord;
use steps::{run, step_lent};

// The run over the whole list, on one lent board.
pub fn bench_run(n: u16, m: u16, d: u16, steps: &[StepRecord], answers: &mut [u16]) -> u64
    ensures { (result ≡ zeros_of (run_answer (tree_board n m d) steps.now answers.old)) × (answers.new ≡ run_buffer (tree_board n m d) steps.now answers.old) }
{
    let mut board = tree_board(n, m, d);
    zeros_of(run(&mut board, steps, answers))
}

// The step by step loop, which finds its board advanced where it was.
pub fn bench_lent(n: u16, m: u16, d: u16, steps: &[StepRecord]) -> u64
    ensures { result ≡ accepted_of n m d steps.now }
{
    let mut board = tree_board(n, m, d);
    let mut count = 0;
    for record in steps {
        count += u64::from(step_lent(&mut board, *record).is_ok());
    }
    count
}
