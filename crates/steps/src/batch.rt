// A run over a batch by value: at most `BATCH` steps, with the answer to each and the debt after it.
ghost use Rattle.std.specs.Prelude.{◌≡◌, take};
ghost use Rattle.rules.specs.Lists.{taking};
ghost use Rattle.rules.specs.Guarantee.{Carries};
ghost use Rattle.rules.specs.Runs.{batch, batch_steps};

use crate::advancing::advance;
use board::is_sound;
use refusals::{Refusal, number_of};
use rules::{BATCH, Batch, Board, StepRecord};

// The first `count` steps, or all of them where `count` is larger; soundness is tested once for all of them. An array with a count, since no
// call allocates. The loop stands in `run` too: here each turn also has a debt, and one loop for both would need a buffer that `run` has not.
pub fn run_batch(mut b: Board, steps: [StepRecord; BATCH], count: usize) -> Batch
    ensures value { result ≡ batch b (take count steps) }
    ensures carries { Carries b (taking (batch_steps b (take count steps))) result.board }
{
    // One exit: with two, the whole result is cleared and copied once more.
    let sound = is_sound(b);
    let most = if sound { count.min(BATCH) } else { 0 };
    let mut answers = [0u16; BATCH];
    let mut debts = [0u64; BATCH];
    let mut zeros: usize = 0;
    // By place: of what is written through `iter_mut` behind an adapter nothing is known behind the loop.
    for (i, r) in steps[..most].iter().enumerate() {
        let answer = advance(&mut b, *r);
        answers[i] = number_of(answer);
        debts[i] = b.debt;
        zeros += usize::from(answer.is_ok());
    }
    Batch {
        ran: if sound {
            Ok(zeros)
        } else {
            Err(Refusal::NotSound)
        },
        board: b,
        answers,
        debts,
    }
}
