// Whether work is being done: in a unit, or under way.
ghost use Rattle.std.specs.Prelude.{◌≡◌};
ghost use Rattle.rules.specs.Records.{is_active, is_work};
ghost use Rattle.rules.specs.Busy.{some};

use rules::{Slot, UnitRecord};

// Whether some unit is active.
pub fn some_active(units: [UnitRecord; 64]) -> bool
    ensures { result ≡ some (λ u. is_active u.state) units }
{
    units.iter().any(|u| u.state.is_active())
}

// Whether work is under way in some slot. Two calls with a definition each: one for both would take a closure, and say no more.
pub fn some_work(slots: [Slot; 256]) -> bool
    ensures { result ≡ some (λ y. is_work y.kind) slots }
{
    slots.iter().any(|y| y.kind.is_work())
}
