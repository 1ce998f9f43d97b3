// Script lines gathered as step records, for a batch.
ghost use Rattle.std.specs.Prelude.{◌≤◌};
ghost use Rattle.rules.specs.Runs.{batch_most};
ghost use Rattle.listing.specs.Batches.{lines_at, place_after};
ghost use Rattle.listing.specs.Turns.{Gathers};

use numbers::line_at;
use refusals::Refusal;
use rules::{BATCH, NO_STEP, StepRecord};
use script::read_step;

// Lines as step records, what refuses those among them that are no step, and the place behind them. Two arrays, since the core takes a batch
// as an array of step records, and fixed ones with a count, since no call allocates.
// The refusals come first: with the steps before them two copies of the steps were slow for their distance (docs/PERFORMANCE.md, "Copies").
#[derive(Clone, Copy)]
pub(crate) struct Gathered {
    pub(crate) refusals: [Option<Refusal>; BATCH],
    pub(crate) steps: [StepRecord; BATCH],
    pub(crate) count: usize,
    pub(crate) at: usize,
}

// At most `most` lines from a place on. One that is no step gives a record that every board refuses, so it leaves the board as it was.
#[tactic(auto, using(numbers::proofs::LineLaws::line_inside, numbers::proofs::LineLaws::line_starts))]
pub(crate) fn gather(script: &[u8], from: usize, most: usize) -> Gathered
    requires { most ≤ batch_most }
    ensures { Gathers result (lines_at most from script.now) (place_after most from script.now) }
{
    let mut refusals = [None; BATCH];
    let mut steps = [NO_STEP; BATCH];
    let mut count = 0;
    let mut at = from;
    // A cursor: each line begins where the one before it ended.
    while count < most && at < script.len() {
        let here = line_at(script, at);
        // Both are stored in each arm: a pair that the `match` gave would be taken apart once more for each line.
        match read_step(&script[at..here.end]) {
            Ok(step) => {
                refusals[count] = None;
                steps[count] = step;
            }
            Err(refusal) => {
                refusals[count] = Some(refusal);
                steps[count] = NO_STEP;
            }
        }
        count += 1;
        at = here.next;
    }
    Gathered {
        refusals,
        steps,
        count,
        at,
    }
}
