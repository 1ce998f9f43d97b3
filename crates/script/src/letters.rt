// The letters of each step, in the order of its script line: how many it has, and a record of their values. By an arm for each, (d): a table of
// letters as data would have to be gone over in a loop for each use.
ghost use Rattle.std.specs.Prelude.{◌≡◌, length};
ghost use Rattle.rules.specs.Actions.{kind_of};
ghost use Rattle.rules.specs.Letters.{letters};
ghost use Rattle.script.specs.Lines.{record_by};

use rules::{Action, StepRecord};

pub(crate) fn letter_count(action: Action) -> usize
    ensures { result ≡ length (letters action) }
{
    match action {
        Action::Unknown => 0,
        Action::Start | Action::Deliver | Action::Rest | Action::Tick => 1,
        Action::Request | Action::Release | Action::Move => 2,
        Action::Send => 3,
    }
}

// The step by its letters' values, as many as it has; fields that it has no letter for are 0.
pub(crate) fn record_by(action: Action, values: [u16; 3]) -> StepRecord
    ensures { result ≡ record_by (kind_of action) values action }
{
    let [a, b, c] = values;
    let blank = StepRecord {
        kind: action as u16,
        unit: 0,
        other: 0,
        slot: 0,
    };
    match action {
        Action::Unknown => blank,
        Action::Start | Action::Rest | Action::Tick => StepRecord { unit: a, ..blank },
        Action::Send => StepRecord {
            unit: a,
            other: b,
            slot: c,
            ..blank
        },
        Action::Request | Action::Release => StepRecord {
            unit: a,
            slot: b,
            ..blank
        },
        Action::Deliver => StepRecord { slot: a, ..blank },
        Action::Move => StepRecord {
            unit: a,
            other: b,
            ..blank
        },
    }
}
