// What is asked of the slots: of each, and of all in one pass.
ghost use Rattle.std.specs.Prelude.{◌≡◌, ◌≤◌, is_some, IfSome};
ghost use Rattle.rules.specs.Facts.{tests};
ghost use Rattle.rules.specs.Sheets.Sound.{kind_row, slot_row};
ghost use Rattle.rules.specs.Boards.{view};
ghost use Rattle.board.specs.Passes.{pends_for, slots_row, AreTotals};

use rules::{Board, GRANT, Kind, Slot};

// What the slots leave of the debt, how many of them are work, and for each unit how many pend for it.
#[derive(Clone, Copy)]
pub(crate) struct Totals {
    pub left: u64,
    pub work: u64,
    pub pending: [u16; 64],
}

fn kind_fits(y: Slot, n: u16) -> bool
    ensures { result ≡ tests (kind_row n y y.kind) }
{
    match y.kind {
        Kind::Empty => y.from == 0 && y.to == 0 && y.weight == 0,
        Kind::Work => y.from < n && y.to < n && y.weight >= 1,
        Kind::Return => y.from >= 1 && y.from < n && y.to < y.from && y.weight >= 1,
        Kind::Request => y.from < n && y.to == 0 && y.weight == 0,
        Kind::Supply => y.from == 0 && y.to < n && y.weight == GRANT,
    }
}

// Slot j, of which m are in use. An empty one is asked the same in use and past them.
pub(crate) fn slot_fits(y: Slot, j: usize, m: u16, n: u16) -> bool
    ensures { result ≡ tests (slot_row n m j y) }
{
    (y.kind.is_empty() || j < usize::from(m)) && kind_fits(y, n)
}

// The unit that a slot is a request from or a supply to.
pub(crate) fn pends_for(y: Slot) -> Option<u16>
    ensures { result ≡ pends_for y y.kind }
{
    match y.kind {
        Kind::Request => Some(y.from),
        Kind::Supply => Some(y.to),
        Kind::Empty | Kind::Work | Kind::Return => None,
    }
}

// The totals of the slots, where each fits and their weight is at most the debt.
pub(crate) fn slots_fit(b: &Board) -> Option<Totals>
    requires { b.now.n ≤ 64 }
    ensures fit { is_some result ≡ tests (slots_row (view b.now)) }
    ensures totals { IfSome result (λ t. AreTotals (view b.now) t.left t.work t.pending) }
{
    let mut left = b.debt;
    let mut work: u64 = 0;
    let mut pending = [0u16; 64];
    for (j, &y) in b.slots.iter().enumerate() {
        if !slot_fits(y, j, b.m, b.n) || y.weight > left {
            return None;
        }
        left -= y.weight;
        work += u64::from(y.kind.is_work());
        if let Some(u) = pends_for(y) {
            pending[usize::from(u)] += 1;
        }
    }
    Some(Totals {
        left,
        work,
        pending,
    })
}
