// What steps would answer on a board, none of them taken.
ghost use Rattle.std.specs.Prelude.{◌≡◌, take};
ghost use Rattle.rules.specs.Runs.{padded};
ghost use Rattle.steps.specs.AnswersOn.{answers_on};

use crate::advancing::answer_on;
use board::is_sound;
use refusals::{Refusal, number_of};
use rules::{BATCH, Board, StepRecord};

// What each of the first `count` steps answers on this board, none of them taken; soundness is tested once for all of them. All of them
// where `count` is larger. Entries behind those are 0. Arrays with a count and answers as numbers, since no call allocates and callers in C
// read them.
pub fn answers_on(b: Board, steps: [StepRecord; BATCH], count: usize) -> [u16; BATCH]
    ensures { result ≡ padded (answers_on b (take count steps)) }
{
    let sound = is_sound(b);
    let mut answers = [0u16; BATCH];
    // By place: of what is written through `iter_mut` behind an adapter nothing is known behind the loop.
    for (i, r) in steps[..count.min(BATCH)].iter().enumerate() {
        let answer = if sound {
            answer_on(&b, *r)
        } else {
            Err(Refusal::NotSound)
        };
        answers[i] = number_of(answer);
    }
    answers
}
