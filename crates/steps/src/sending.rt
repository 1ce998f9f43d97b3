// Weight goes out: the start, and work sent with a share of a unit's weight.
ghost use Rattle.std.specs.Prelude.{◌≡◌};
ghost use Rattle.rules.specs.Facts.{judge};
ghost use Rattle.rules.specs.Effects.{start_checks, start_effect, send_checks, send_effect};

use crate::found::Found;
use refusals::Refusal;
use rules::{BLANK_UNIT, Effect, FULL, GRANT, Kind, Slot, State, StepRecord, UnitRecord};

impl Found {
    pub(crate) fn start(self) -> Result<Effect, Refusal>
        ensures { result ≡ judge Err (start_checks self.debt self.counts.created) (Ok start_effect) }
    {
        if self.debt != 0 {
            return Err(Refusal::DebtLeft);
        }
        if self.counts.created >= FULL {
            return Err(Refusal::CountFull);
        }
        let started = UnitRecord {
            weight: GRANT,
            state: State::Active,
            ..BLANK_UNIT
        };
        Ok(Effect::OnUnit(started, GRANT))
    }

    pub(crate) fn send(self, r: StepRecord) -> Result<Effect, Refusal>
        ensures { result ≡ judge Err (send_checks self.unit self.slot self.counts.created) (Ok (send_effect self.debt r.unit r.other self.unit)) }
    {
        if !self.unit.state.is_active() {
            return Err(Refusal::NotActive);
        }
        if self.unit.suspended {
            return Err(Refusal::Suspended);
        }
        if self.unit.weight < 2 {
            return Err(Refusal::TooLight);
        }
        if !self.slot.kind.is_empty() {
            return Err(Refusal::SlotFilled);
        }
        if self.counts.created >= FULL {
            return Err(Refusal::CountFull);
        }
        let shared = self.unit.share();
        let work = Slot {
            weight: shared.given,
            from: r.unit,
            to: r.other,
            kind: Kind::Work,
        };
        Ok(Effect::OnBoth(shared.unit, work, self.debt))
    }
}
