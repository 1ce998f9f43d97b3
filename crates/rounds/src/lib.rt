// The two counting rounds beside the weights (M-105), by value: a beginning opens round one, visits go over the units.
#![tactic(auto)]

mod marks;
mod visiting;

ghost use Rattle.std.specs.Prelude.{◌≡◌, [], ◌∷◌};
ghost use Rattle.rules.specs.Visits.{begin};
ghost use Rattle.rules.specs.Lists.{begins};
ghost use Rattle.rules.specs.Guarantee.{Carries};

use board::is_sound;
use refusals::Refusal;
use rules::{Board, NO_ROUND, Outcome, Round, Rounds};
pub use visiting::visit;

// Opens round one, whatever round was running.
pub fn begin(mut b: Board) -> Outcome
    ensures value { result ≡ begin b }
    ensures carries { Carries b (begins ∷ []) result.board }
{
    if !is_sound(b) {
        return Outcome {
            board: b,
            answer: Err(Refusal::NotSound),
        };
    }
    b.rounds = Rounds {
        round: Some(Round::One),
        ..NO_ROUND
    };
    Outcome {
        board: b,
        answer: Ok(()),
    }
}
