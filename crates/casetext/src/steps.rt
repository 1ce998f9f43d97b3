// Steps by name, as the tables of cases list them.
ghost use Rattle.std.specs.Prelude.{◌≡◌};
ghost use Rattle.casetext.specs.Steps.{record_of};

use rules::StepRecord;

// A step with the fields that its kind has a letter for: units first, then the slot.
#[derive(Clone, Copy)]
pub enum Step {
    Start(u16),
    Send(u16, u16, u16), // the second unit is the one that it is for
    Request(u16, u16),
    Deliver(u16),
    Rest(u16),
    Tick(u16),
    Release(u16, u16),
    Move(u16, u16), // the second unit is the new parent
    Unknown(u16), // a kind that no step has
}

// The fields that the kind has no letter for are 0.
impl From<Step> for StepRecord {
    ghost from_gives = { λ step r. r ≡ record_of step };

    fn from(step: Step) -> StepRecord {
        // By number, as the format has them: a kind written wrongly in `Action` would show here.
        let (kind, unit, other, slot) = match step {
            Step::Start(unit) => (1, unit, 0, 0),
            Step::Send(unit, other, slot) => (2, unit, other, slot),
            Step::Request(unit, slot) => (3, unit, 0, slot),
            Step::Deliver(slot) => (4, 0, 0, slot),
            Step::Rest(unit) => (5, unit, 0, 0),
            Step::Tick(unit) => (6, unit, 0, 0),
            Step::Release(unit, slot) => (7, unit, 0, slot),
            Step::Move(unit, parent) => (8, unit, parent, 0),
            Step::Unknown(kind) => (kind, 0, 0, 0),
        };
        StepRecord {
            kind,
            unit,
            other,
            slot,
        }
    }
}
