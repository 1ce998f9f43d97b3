// The places of a step: its unit and its slot, and the head of each bracket, which refuses those that are not in use.
ghost use Rattle.std.specs.Prelude.{◌≡◌, [], ◌∷◌, min};
ghost use Rattle.rules.specs.Facts.{check, below, judge};
ghost use Rattle.rules.specs.Letters.{slot_of, unit_by, place_checks};
ghost use Rattle.rules.specs.Boards.{view};
ghost use Rattle.rules.specs.Sheets.Sheet.{slot_at};

use refusals::Refusal;
use rules::{Action, Board, StepRecord};

// Indices of the unit and of the slot that a step may change.
#[derive(Clone, Copy)]
pub(crate) struct Places {
    pub unit: usize,
    pub slot: usize,
}

// The slot that a step may change.
fn slot_of(r: StepRecord, a: Action) -> u16
    ensures { result ≡ slot_of r a }
{
    match a {
        Action::Send | Action::Request | Action::Deliver | Action::Release => r.slot,
        Action::Unknown | Action::Start | Action::Rest | Action::Tick | Action::Move => 0,
    }
}

// The unit that a step may change: a delivery's is the receiver.
fn unit_of(r: StepRecord, to: u16, a: Action) -> u16
    ensures { result ≡ unit_by r to a }
{
    match a {
        Action::Unknown => 0,
        Action::Deliver => to,
        Action::Start
        | Action::Send
        | Action::Request
        | Action::Rest
        | Action::Tick
        | Action::Release
        | Action::Move => r.unit,
    }
}

impl Places {
    // A place past the end is clamped, so that its record can be read and left as it was: its step is refused.
    pub(crate) fn of(b: &Board, r: StepRecord, a: Action) -> Places
        ensures slot { result.slot ≡ min (slot_of r a) 255 }
        ensures unit { result.unit ≡ min (unit_by r (slot_at (view b.now) result.slot).to a) 63 }
    {
        let slot = usize::from(slot_of(r, a).min(255));
        let unit = usize::from(unit_of(r, b.slots[slot].to, a).min(63));
        Places { unit, slot }
    }
}

// What i names is to be below its limit, or the refusal is this one.
fn below(i: u16, limit: u16, by: Refusal) -> Result<(), Refusal>
    ensures { result ≡ judge Err (check (below i limit) by ∷ []) (Ok tt) }
{
    if i < limit {
        return Ok(());
    }
    Err(by)
}

// The step and its action go together from here on, since the number in a step is any number and is turned into an action once.
// The head of each bracket: it refuses the unit, the slot or a move's parent, which is to be below the unit (M-108).
pub(crate) fn in_use(n: u16, m: u16, r: StepRecord, a: Action) -> Result<(), Refusal>
    ensures { result ≡ judge Err (place_checks n m r a) (Ok tt) }
{
    match a {
        Action::Unknown => Ok(()),
        Action::Start | Action::Rest | Action::Tick => below(r.unit, n, Refusal::NoSuchUnit),
        Action::Send => {
            below(r.unit, n, Refusal::NoSuchUnit)?;
            below(r.other, n, Refusal::NoSuchUnit)?;
            below(r.slot, m, Refusal::NoSuchSlot)
        }
        Action::Request | Action::Release => {
            below(r.unit, n, Refusal::NoSuchUnit)?;
            below(r.slot, m, Refusal::NoSuchSlot)
        }
        Action::Deliver => below(r.slot, m, Refusal::NoSuchSlot),
        Action::Move => {
            below(r.unit, n, Refusal::NoSuchUnit)?;
            below(r.other, r.unit, Refusal::ParentNotLower)
        }
    }
}
