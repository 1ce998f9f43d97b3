// A step on what it finds: a unit, its parent and a slot.
ghost use Rattle.std.specs.Prelude.{◌≡◌};
ghost use Rattle.rules.specs.Effects.{record_rule};

use crate::found::Found;
use refusals::Refusal;
use rules::{Action, Effect, StepRecord};

impl Found {
    // What a step does where its places are in use.
    #[tactic(auto, unfolding(rules::specs::Effects::record_rule))]
    pub(crate) fn effect(self, r: StepRecord, a: Action) -> Result<Effect, Refusal>
        ensures { result ≡ record_rule self.debt self.delay r self.unit self.parent self.slot self.counts.created a }
    {
        // A plain match: the kinds take different values of the step, so a table would hold closures and say no more.
        match a {
            Action::Unknown => Err(Refusal::NoSuchKind),
            Action::Start => self.start(),
            Action::Send => self.send(r),
            Action::Request => self.request(r),
            Action::Deliver => self.deliver(),
            Action::Rest => self.rest(r),
            Action::Tick => self.tick(),
            Action::Release => self.release(r),
            Action::Move => Ok(Effect::OnParent(r.other)),
        }
    }
}
