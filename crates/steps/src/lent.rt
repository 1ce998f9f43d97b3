// A step on a lent board.
ghost use Rattle.steps.specs.StepMeets.{StepMeets};

use crate::step;
use refusals::Refusal;
use rules::{Board, StepRecord};

// The step on a lent board: the step by value, whose board is stored back.
pub fn step_lent(b: &mut Board, r: StepRecord) -> Result<(), Refusal>
    ensures { StepMeets b.old r result b.new }
{
    let o = step(*b, r);
    *b = o.board;
    o.answer
}
