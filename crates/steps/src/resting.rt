// Weight goes back: a unit rests, waits for its countdown to end, and gives its weight to its parent.
ghost use Rattle.std.specs.Prelude.{◌≡◌};
ghost use Rattle.rules.specs.Facts.{judge};
ghost use Rattle.rules.specs.Effects.{rest_checks, rest_effect, tick_checks, tick_effect, release_checks, release_effect};

use crate::found::Found;
use crate::made::waiting_with;
use refusals::Refusal;
use rules::{BLANK_UNIT, Effect, Kind, Slot, StepRecord, UnitRecord};

impl Found {
    // A suspended unit does not rest: its supply could arrive after the end.
    pub(crate) fn rest(self, r: StepRecord) -> Result<Effect, Refusal>
        ensures { result ≡ judge Err (rest_checks self.unit) (Ok (rest_effect self.debt self.delay r.unit self.unit)) }
    {
        if !self.unit.state.is_active() {
            return Err(Refusal::NotActive);
        }
        if self.unit.suspended {
            return Err(Refusal::Suspended);
        }
        if r.unit == 0 {
            return Ok(Effect::OnUnit(BLANK_UNIT, self.debt - self.unit.weight));
        }
        Ok(Effect::OnUnit(waiting_with(self.unit.weight, self.delay), self.debt))
    }

    pub(crate) fn tick(self) -> Result<Effect, Refusal>
        ensures { result ≡ judge Err (tick_checks self.unit) (Ok (tick_effect self.debt self.unit)) }
    {
        if !self.unit.state.is_waiting() {
            return Err(Refusal::NotWaiting);
        }
        if self.unit.countdown < 1 {
            return Err(Refusal::CountdownOver);
        }
        let later = UnitRecord {
            countdown: self.unit.countdown - 1,
            ..self.unit
        };
        Ok(Effect::OnUnit(later, self.debt))
    }

    pub(crate) fn release(self, r: StepRecord) -> Result<Effect, Refusal>
        ensures { result ≡ judge Err (release_checks self.unit self.slot) (Ok (release_effect self.debt r.unit self.parent self.unit)) }
    {
        if !self.unit.state.is_waiting() {
            return Err(Refusal::NotWaiting);
        }
        if self.unit.countdown != 0 {
            return Err(Refusal::CountdownRuns);
        }
        if !self.slot.kind.is_empty() {
            return Err(Refusal::SlotFilled);
        }
        let back = Slot {
            weight: self.unit.weight,
            from: r.unit,
            to: self.parent,
            kind: Kind::Return,
        };
        Ok(Effect::OnBoth(BLANK_UNIT, back, self.debt))
    }
}
