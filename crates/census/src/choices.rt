// The steps to choose from: seven kinds, one behind the other, with every unit and slot in range.
ghost use Rattle.std.specs.Prelude.{◌≡◌, ◌++◌, ◌+◌, ◌*◌, ◌≤◌, ◌<◌, get_or, take};
ghost use Rattle.census.specs.Choices.{ranges, range_size, steps_in, choices, choice_number};
ghost use Rattle.steps.specs.NoStep.{no_step};

use rules::{Action, BATCH, NO_STEP, StepRecord};

const SEVEN_KINDS: [Action; 7] = [
    Action::Start,
    Action::Send,
    Action::Request,
    Action::Deliver,
    Action::Rest,
    Action::Tick,
    Action::Release,
];

// How many values each field has in a step of a kind: one where the kind does not use it. A step record holds them, as in the definition.
fn ranges(action: Action, n: u16, m: u16) -> StepRecord
    ensures { result ≡ ranges n m action }
{
    let (unit, other, slot) = match action {
        Action::Unknown => (1, 1, 1),
        Action::Start | Action::Rest | Action::Tick => (n, 1, 1),
        Action::Send => (n, n, m),
        Action::Request | Action::Release => (n, 1, m),
        Action::Deliver => (1, 1, m),
        Action::Move => (n, n, 1),
    };
    StepRecord {
        kind: action as u16,
        unit,
        other,
        slot,
    }
}

// Step number i of those in these ranges: the slot counts up first, then the other unit, then the unit.
fn step_in(ranges: StepRecord, i: u16) -> StepRecord
    requires { (ranges.other ≤ 3) × (ranges.slot ≤ 2) × (i < range_size ranges) }
    ensures { result ≡ get_or (steps_in ranges) i no_step }
{
    let pairs = ranges.other * ranges.slot;
    let pair = i % pairs;
    StepRecord {
        kind: ranges.kind,
        unit: i / pairs,
        other: pair / ranges.slot,
        slot: pair % ranges.slot,
    }
}

// Choices, and how many there are: behind them stands no choice. No call takes memory, so there is room for the most.
#[derive(Clone, Copy)]
pub(crate) struct Choices {
    pub(crate) steps: [StepRecord; BATCH],
    pub(crate) count: usize,
}

impl Choices {
    // All of them on a board with n units and m slots.
    pub(crate) fn of_sizes(n: u16, m: u16) -> Choices
        requires { (n ≤ 3) × (m ≤ 2) }
        ensures count { result.count ≡ choice_number n m }
        ensures steps { take result.count result.steps ≡ choices n m }
    {
        let mut choices = Choices {
            steps: [NO_STEP; BATCH],
            count: 0,
        };
        for kind in SEVEN_KINDS {
            choices.add(ranges(kind, n, m));
        }
        choices
    }

    // The steps in these ranges, behind the others.
    fn add(&mut self, ranges: StepRecord)
        requires small { (ranges.unit ≤ 3) × (ranges.other ≤ 3) × (ranges.slot ≤ 2) }
        requires room { self.old.count ≤ 494 }
        ensures count { self.new.count ≡ self.old.count + range_size ranges }
        ensures steps { take self.new.count self.new.steps ≡ take self.old.count self.old.steps ++ steps_in ranges }
    {
        // The count is the place, from kind to kind; of an `iter_mut().skip` nothing is known behind the loop.
        for i in 0..ranges.unit * ranges.other * ranges.slot {
            self.steps[self.count] = step_in(ranges, i);
            self.count += 1;
        }
    }
}
