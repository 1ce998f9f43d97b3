// The sort of a sound board: finished, busy, or neither.
ghost use Rattle.std.specs.Prelude.{◌≡◌};
ghost use Rattle.rules.specs.Sound.{Sound};
ghost use Rattle.census.specs.Counting.{ends_from};

use crate::Ends;
use board::{some_active, some_work};
use rules::Board;

pub(crate) const NO_ENDS: Ends = Ends {
    finished: 0,
    busy: 0,
    other: 0,
};

// The list of no steps ends on the board itself: 1 for the board's sort.
pub(crate) fn sort(b: &Board) -> Ends
    requires { Sound b.now }
    ensures { result ≡ ends_from b.now 0 }
{
    if b.debt == 0 {
        return Ends {
            finished: 1,
            ..NO_ENDS
        };
    }
    // As `is_busy` of drains asks, which this crate knows nothing of.
    if some_active(b.units) || some_work(b.slots) {
        return Ends { busy: 1, ..NO_ENDS };
    }
    Ends {
        other: 1,
        ..NO_ENDS
    }
}
