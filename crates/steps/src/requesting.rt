// A unit of weight 1 asks unit 0 for more: its request, the grant of it, the supply that comes back.
ghost use Rattle.std.specs.Prelude.{◌≡◌, ◌+◌};
ghost use Rattle.rules.specs.Facts.{judge};
ghost use Rattle.rules.specs.Records.{grant};
ghost use Rattle.rules.specs.declared.Kind.TheVariants.{Request, Supply};
ghost use Rattle.rules.specs.declared.Effect.TheVariants.{OnSlot};
ghost use Rattle.rules.specs.Effects.{message, request_checks, request_effect, grant_fits, supplied};

use crate::found::Found;
use refusals::Refusal;
use rules::{CEILING, Effect, GRANT, Kind, Slot, StepRecord, UnitRecord};

impl Found {
    pub(crate) fn request(self, r: StepRecord) -> Result<Effect, Refusal>
        ensures { result ≡ judge Err (request_checks self.unit self.slot) (Ok (request_effect self.debt r.unit self.unit)) }
    {
        if !self.unit.state.is_active() {
            return Err(Refusal::NotActive);
        }
        if self.unit.suspended {
            return Err(Refusal::Suspended);
        }
        if self.unit.weight > 1 {
            return Err(Refusal::CanShare);
        }
        if !self.slot.kind.is_empty() {
            return Err(Refusal::SlotFilled);
        }
        let asking = UnitRecord {
            suspended: true,
            ..self.unit
        };
        let request = Slot {
            weight: 0,
            from: r.unit,
            to: 0,
            kind: Kind::Request,
        };
        Ok(Effect::OnBoth(asking, request, self.debt))
    }

    // A request delivered: the slot becomes the supply to its sender, and the debt grows at once, not when the supply arrives.
    pub(crate) fn granted(self) -> Result<Effect, Refusal>
        ensures { result ≡ judge Err (grant_fits self.debt Request) (Ok (OnSlot (message Supply 0 self.slot.from grant) (self.debt + grant))) }
    {
        if self.debt + GRANT > CEILING {
            return Err(Refusal::PastCeiling);
        }
        let supply = Slot {
            weight: GRANT,
            from: 0,
            to: self.slot.from,
            kind: Kind::Supply,
        };
        Ok(Effect::OnSlot(supply, self.debt + GRANT))
    }

    // The receiver of a supply, whose suspension ends.
    pub(crate) fn supplied(self) -> UnitRecord
        ensures { result ≡ supplied self.unit self.slot.weight }
    {
        UnitRecord {
            weight: self.unit.weight + self.slot.weight,
            suspended: false,
            ..self.unit
        }
    }
}
