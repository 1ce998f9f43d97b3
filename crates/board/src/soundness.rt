// Whether a board is sound: one pass over the slots, one over the units and their parents, one over their counts. The passes are lent
// the board, since each function that takes it by value copies it.
ghost use Rattle.std.specs.Prelude.{◌≡◌};
ghost use Rattle.rules.specs.Facts.{tests};
ghost use Rattle.rules.specs.Boards.{view};
ghost use Rattle.rules.specs.Sound.{sound};
ghost use Rattle.board.specs.Passes.{ranges_row};

use crate::counts::counts_fit;
use crate::slots::slots_fit;
use crate::units::units_fit;
use rules::{Board, CEILING};

fn ranges_fit(b: &Board) -> bool
    ensures { result ≡ tests (ranges_row (view b.now)) }
{
    b.debt <= CEILING && (1..=64).contains(&b.n) && (1..=256).contains(&b.m) && b.delay <= 255
}

// What is left is counted down from the debt, so no sum can wrap.
pub fn is_sound(b: Board) -> bool
    ensures { result ≡ sound b }
{
    if !ranges_fit(&b) {
        return false;
    }
    let Some(totals) = slots_fit(&b) else {
        return false;
    };
    units_fit(&b, &totals) && counts_fit(&b, totals.work)
}
