// What is asked of the units, with their parent entries and what is pending for them: of each, and of all in one pass.
ghost use Rattle.std.specs.Prelude.{◌≡◌, eqb};
ghost use Rattle.rules.specs.Facts.{tests, one_if};
ghost use Rattle.rules.specs.Sheets.Sound.{state_row, unit_row, parent_row};
ghost use Rattle.rules.specs.Boards.{view};
ghost use Rattle.board.specs.Passes.{entry_row, units_row};

use crate::slots::Totals;
use rules::{Board, State, UnitRecord};

fn state_fits(u: UnitRecord, i: usize, delay: u16) -> bool
    ensures { result ≡ tests (state_row delay i u u.state) }
{
    match u.state {
        State::Idle => u.weight == 0 && u.countdown == 0 && !u.suspended,
        State::Active => u.weight >= 1 && u.countdown == 0,
        State::Waiting => u.weight >= 1 && u.countdown <= delay && !u.suspended && i >= 1,
    }
}

// Unit i, of which n are in use. An idle one is asked the same in use and past them.
fn unit_fits(u: UnitRecord, i: usize, n: u16, delay: u16) -> bool
    ensures { result ≡ tests (unit_row n delay i u) }
{
    (u.state.is_idle() || i < usize::from(n)) && state_fits(u, i, delay)
}

// Parent 0 fits everywhere.
fn parent_fits(p: u16, i: usize, n: u16) -> bool
    ensures { result ≡ tests (parent_row n i p) }
{
    p == 0 || (i < usize::from(n) && usize::from(p) < i)
}

fn pending_fits(count: u16, suspended: bool) -> bool
    ensures { result ≡ eqb count (one_if suspended) }
{
    count == u16::from(suspended)
}

// Unit i with its parent p, where so many slots are pending for it. Its own values, which nothing else takes together: a struct would name
// them twice.
fn entry_fits(u: UnitRecord, p: u16, count: u16, i: usize, n: u16, delay: u16) -> bool
    ensures { result ≡ tests (entry_row n delay i u p count) }
{
    unit_fits(u, i, n, delay) && parent_fits(p, i, n) && pending_fits(count, u.suspended)
}

// Whether each unit fits, and their weight is what the slots leave of the debt.
pub(crate) fn units_fit(b: &Board, slots: &Totals) -> bool
    ensures { result ≡ tests (units_row (view b.now) slots.now.left slots.now.pending) }
{
    let mut left = slots.left;
    // The unit's number is asked too, so a zip of three lists would be no plainer.
    for (i, &u) in b.units.iter().enumerate() {
        if !entry_fits(u, b.parents[i], slots.pending[i], i, b.n, b.delay) || u.weight > left {
            return false;
        }
        left -= u.weight;
    }
    left == 0
}
