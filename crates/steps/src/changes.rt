// What a step changes, from what it finds alone.
ghost use Rattle.std.specs.Prelude.{◌≡◌};
ghost use Rattle.rules.specs.Effects.{change_of};
ghost use Rattle.steps.specs.Changing.{change_at};

use crate::found::Found;
use crate::places::in_use;
use refusals::Refusal;
use rules::{Action, Change, Counts, Effect, StepRecord};

impl Found {
    // What an effect leaves; the counts of an accepted step are given.
    fn change_of(self, e: Result<Effect, Refusal>, counts: Counts) -> Change
        ensures { result ≡ change_of e self.unit self.parent self.slot self.debt self.counts counts }
    {
        let kept = Change {
            answer: Ok(()),
            parent: self.parent,
            debt: self.debt,
            unit: self.unit,
            slot: self.slot,
            counts,
        };
        match e {
            Err(refusal) => Change {
                answer: Err(refusal),
                counts: self.counts,
                ..kept
            },
            Ok(Effect::OnUnit(unit, debt)) => Change { unit, debt, ..kept },
            Ok(Effect::OnSlot(slot, debt)) => Change { slot, debt, ..kept },
            Ok(Effect::OnBoth(unit, slot, debt)) => Change {
                unit,
                slot,
                debt,
                ..kept
            },
            Ok(Effect::OnParent(parent)) => Change { parent, ..kept },
        }
    }

    // The change that a step makes on a board with n units and m slots.
    pub(crate) fn change(self, n: u16, m: u16, r: StepRecord, a: Action) -> Change
        ensures { result ≡ change_at n m self.debt self.delay r self.unit self.parent self.slot self.counts a }
    {
        // Side by side, so that the compiler parts the actions once for all three.
        let effect = self.effect(r, a);
        let counts = self.counted_up(a);
        self.change_of(in_use(n, m, r, a).and(effect), counts)
    }
}
