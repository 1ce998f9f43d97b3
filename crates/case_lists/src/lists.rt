// Lists of steps for runs.
use casetext::Step;
use rules::StepRecord;

// A list of 16: the steps, and behind them starts that are not to be run.
pub(crate) fn list_of(steps: &[Step]) -> [StepRecord; 16] {
    let mut list = [StepRecord::from(Step::Start(0)); 16];
    for (record, step) in list.iter_mut().zip(steps) {
        *record = (*step).into();
    }
    list
}

pub(crate) const WHOLE_CASE: [Step; 9] = [
    Step::Start(0),
    Step::Send(0, 1, 0),
    Step::Rest(0),
    Step::Deliver(0),
    Step::Rest(1),
    Step::Release(1, 1), // 40
    Step::Tick(1),
    Step::Release(1, 1),
    Step::Deliver(1),
];

// The run goes on past each refusal.
pub(crate) const REFUSALS: [Step; 16] = [
    Step::Start(0),
    Step::Start(0), // 37
    Step::Send(0, 2, 0), // 13
    Step::Send(0, 1, 2), // 14
    Step::Unknown(9), // 16
    Step::Deliver(0), // 35
    Step::Tick(0), // 38
    Step::Send(0, 1, 0),
    Step::Send(0, 1, 0), // 34
    Step::Request(0, 1), // 41
    Step::Rest(1), // 31
    Step::Rest(0),
    Step::Deliver(0),
    Step::Rest(1),
    Step::Release(1, 0), // 40
    Step::Tick(1),
];

// What finishes what the refusals left.
pub(crate) const REST_OF_IT: [Step; 2] = [Step::Release(1, 0), Step::Deliver(0)];

// Moves among the steps (M-108), on three units in a chain: the return of unit 2 goes to unit 1, though unit 2 is under unit 0 by then.
pub(crate) const MOVES: [Step; 13] = [
    Step::Start(2),
    Step::Move(2, 0),
    Step::Move(2, 2), // 47
    Step::Move(3, 3), // 13
    Step::Rest(2),
    Step::Move(2, 1),
    Step::Release(2, 0),
    Step::Move(2, 0),
    Step::Deliver(0),
    Step::Release(1, 1),
    Step::Deliver(1),
    Step::Move(2, 1),
    Step::Move(0, 0), // 47
];
