// A run on what is lent: the board by `&mut`, the list of steps by `&`, the answers by `&mut`.
ghost use Rattle.std.specs.Prelude.{take};
ghost use Rattle.steps.specs.RunMeets.{RunMeets};

use crate::advancing::advance;
use board::is_sound;
use refusals::{Refusal, number_of};
use rules::{Board, StepRecord};

// The run over a lent list: soundness is tested once, the answers are written as numbers, and the rest of their buffer is left.
pub fn run(b: &mut Board, steps: &[StepRecord], answers: &mut [u16]) -> Result<usize, Refusal>
    ensures { RunMeets b.old steps.now answers.old result b.new answers.new }
{
    if !is_sound(*b) {
        return Err(Refusal::NotSound);
    }
    if steps.len() > answers.len() {
        return Err(Refusal::ShortAnswers);
    }
    let mut zeros: usize = 0;
    // By place: of what is written through `iter_mut` behind an adapter nothing is known behind the loop.
    for (i, r) in steps.iter().enumerate() {
        let answer = advance(b, *r);
        answers[i] = number_of(answer);
        zeros += usize::from(answer.is_ok());
    }
    Ok(zeros)
}

// What a run gives, and the board after it.
#[derive(Clone, Copy)]
pub struct RanOn {
    pub ran: Result<usize, Refusal>,
    pub board: Board,
}

// The run by value, over the first `count` of the steps, or all of them where `count` is larger: an array with a count, since no call
// allocates.
pub fn run_list<const N: usize>(
    mut b: Board,
    steps: [StepRecord; N],
    count: usize,
    answers: &mut [u16],
) -> RanOn
    ensures { RunMeets b (take count steps.entry) answers.old result.ran result.board answers.new }
{
    let ran = run(&mut b, &steps[..count.min(N)], answers);
    RanOn { ran, board: b }
}
