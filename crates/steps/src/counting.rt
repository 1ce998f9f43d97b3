// What an accepted step adds to the counts of its unit (M-105).
ghost use Rattle.std.specs.Prelude.{◌≡◌};
ghost use Rattle.steps.specs.Changing.{counted_up};

use crate::found::Found;
use rules::{Action, Counts};

impl Found {
    // Sends and starts create work, deliveries of work and starts process it, and no other step counts. A full created count stays: a step
    // that would raise it is refused.
    pub(crate) fn counted_up(self, a: Action) -> Counts
        ensures { result ≡ counted_up self.counts self.slot a }
    {
        let Counts { created, processed } = self.counts;
        match a {
            Action::Start => Counts {
                created: created.saturating_add(1),
                processed: processed + 1,
            },
            Action::Send => Counts {
                created: created.saturating_add(1),
                processed,
            },
            Action::Deliver => Counts {
                created,
                processed: processed + u64::from(self.slot.kind.is_work()),
            },
            Action::Unknown
            | Action::Request
            | Action::Rest
            | Action::Tick
            | Action::Release
            | Action::Move => self.counts,
        }
    }
}
