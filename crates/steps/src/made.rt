// A waiting unit, as a rest and a return make it.
ghost use Rattle.std.specs.Prelude.{◌≡◌};
ghost use Rattle.rules.specs.Effects.{waiting_with};

use rules::{State, UnitRecord};

pub(crate) fn waiting_with(weight: u64, countdown: u16) -> UnitRecord
    ensures { result ≡ waiting_with weight countdown }
{
    UnitRecord {
        weight,
        countdown,
        state: State::Waiting,
        suspended: false,
    }
}
