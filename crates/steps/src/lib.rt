// A step by value; in `lent` a step on a lent board, in `running` a run on what is lent, in `batch` a run by value, in `answers` steps that are
// asked for and not taken.
#![tactic(auto)]

mod advancing;
mod answers;
mod batch;
mod changes;
mod counting;
mod delivering;
mod found;
mod lent;
mod made;
mod places;
mod records;
mod requesting;
mod resting;
mod running;
mod sending;

ghost use Rattle.steps.specs.StepMeets.{StepMeets};

use advancing::advance;
pub use answers::answers_on;
pub use batch::run_batch;
use board::is_sound;
pub use lent::step_lent;
use refusals::Refusal;
use rules::{Board, Outcome, StepRecord};
pub use running::{RanOn, run, run_list};

// A step on any board, by value. A board that is not sound is refused before all else.
pub fn step(mut b: Board, r: StepRecord) -> Outcome
    ensures { StepMeets b r result.answer result.board }
{
    let answer = if is_sound(b) {
        advance(&mut b, r)
    } else {
        Err(Refusal::NotSound)
    };
    Outcome { board: b, answer }
}
