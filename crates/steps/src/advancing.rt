// A step on a board that is known to be sound: what it would answer, and the board advanced where it is.
ghost use Rattle.std.specs.Prelude.{◌≡◌, ◌≤◌, true, ◌&&◌, is_ok};
ghost use Rattle.rules.specs.Actions.{action_of, is_action};
ghost use Rattle.rules.specs.Sound.{sound};
ghost use Rattle.rules.specs.Steps.{step};
ghost use Rattle.rules.specs.declared.Action.TheVariants.{Start};
ghost use Rattle.steps.specs.Changing.{stored_on};

use crate::found::Found;
use crate::places::Places;
use refusals::Refusal;
use rules::{Action, Board, Change, NO_ROUND, StepRecord};

// What a step would change, and where. That the board is sound stands in the contracts and not in a type: a type over a lent board would have
// to hold while `advance` stores into it.
fn change_on(b: &Board, r: StepRecord) -> (Places, Change)
    requires { sound b.now ≡ true }
    ensures places { (result.0.unit ≤ 63) × (result.0.slot ≤ 255) }
    ensures change { step b.now r ≡ stored_on b.now (action_of r.kind) result.0 result.1 }
{
    let a = Action::from(r.kind);
    let at = Places::of(b, r, a);
    (at, Found::at(b, at).change(b.n, b.m, r, a))
}

// Whether the step drops the counting rounds: an accepted start.
fn drops_rounds(answer: Result<(), Refusal>, a: Action) -> bool
    ensures { result ≡ (is_ok answer && is_action Start a) }
{
    answer.is_ok() && a == Action::Start
}

// What a step would answer.
pub(crate) fn answer_on(b: &Board, r: StepRecord) -> Result<(), Refusal>
    requires { sound b.now ≡ true }
    ensures { result ≡ (step b.now r).answer }
{
    change_on(b, r).1.answer
}

// The step. What it may change is read, changed and stored on each way alike.
pub(crate) fn advance(b: &mut Board, r: StepRecord) -> Result<(), Refusal>
    requires { sound b.old ≡ true }
    ensures { step b.old r ≡ record { answer = result; board = b.new } }
{
    let (at, c) = change_on(b, r);
    b.parents[at.unit] = c.parent;
    b.units[at.unit] = c.unit;
    b.slots[at.slot] = c.slot;
    b.created[at.unit] = c.counts.created;
    b.processed[at.unit] = c.counts.processed;
    b.debt = c.debt;
    if drops_rounds(c.answer, Action::from(r.kind)) {
        b.rounds = NO_ROUND;
    }
    c.answer
}
