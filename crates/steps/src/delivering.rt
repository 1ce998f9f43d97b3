// A message arrives: work, a return, a request or a supply.
ghost use Rattle.std.specs.Prelude.{◌≡◌};
ghost use Rattle.rules.specs.Facts.{judge};
ghost use Rattle.rules.specs.Effects.{deliver_checks, worked, returned, return_effect, deliver_effect};

use crate::found::Found;
use crate::made::waiting_with;
use refusals::Refusal;
use rules::{BLANK_SLOT, Effect, Kind, State, UnitRecord};

impl Found {
    // The receiver of work, which becomes active; a suspended one stays so.
    fn worked(self) -> UnitRecord
        ensures { result ≡ worked self.unit self.slot.weight }
    {
        UnitRecord {
            weight: self.unit.weight + self.slot.weight,
            countdown: 0,
            state: State::Active,
            suspended: self.unit.suspended,
        }
    }

    // The receiver of a return, another unit than 0: active it stays active, idle it begins to wait, waiting its countdown goes on.
    fn returned(self) -> UnitRecord
        ensures { result ≡ returned self.delay self.unit self.slot.weight self.unit.state }
    {
        let sum = self.unit.weight + self.slot.weight;
        match self.unit.state {
            State::Idle => waiting_with(sum, self.delay),
            State::Active => UnitRecord {
                weight: sum,
                ..self.unit
            },
            State::Waiting => waiting_with(sum, self.unit.countdown),
        }
    }

    // A return delivered: unit 0 takes its weight off the debt, any other unit keeps it.
    fn take_return(self) -> Effect
        ensures { result ≡ return_effect self.debt self.delay self.unit self.slot }
    {
        if self.slot.to == 0 {
            return Effect::OnSlot(BLANK_SLOT, self.debt - self.slot.weight);
        }
        Effect::OnBoth(self.returned(), BLANK_SLOT, self.debt)
    }

    pub(crate) fn deliver(self) -> Result<Effect, Refusal>
        ensures { result ≡ judge Err (deliver_checks self.debt self.slot) (deliver_effect self.debt self.delay self.unit self.slot self.slot.kind) }
    {
        match self.slot.kind {
            Kind::Empty => Err(Refusal::SlotEmpty),
            Kind::Work => Ok(Effect::OnBoth(self.worked(), BLANK_SLOT, self.debt)),
            Kind::Return => Ok(self.take_return()),
            Kind::Request => self.granted(),
            Kind::Supply => Ok(Effect::OnBoth(self.supplied(), BLANK_SLOT, self.debt)),
        }
    }
}
