// Opening a board from the number of slots, the delay and the parents of units 1 on.
ghost use Rattle.std.specs.Prelude.{◌≡◌, ◌∷◌, ◌++◌, ◌≤◌, ◌-◌, length, replicate};
ghost use Rattle.rules.specs.Facts.{judge};
ghost use Rattle.rules.specs.Rounds.{no_round};
ghost use Rattle.rules.specs.Opening.{lower_parents, opening_checks, blank_board, opening};

use refusals::Refusal;
use rules::{BLANK_SLOT, BLANK_UNIT, Board, NO_ROUND, Outcome, Rounds};

// No counting round: none is visited, and both totals are 0. A call beside the constant, for callers outside.
pub fn no_round() -> Rounds
    ensures { result ≡ no_round }
{
    NO_ROUND
}

// The board that a refused opening hands back.
pub fn blank() -> Board
    ensures { result ≡ blank_board }
{
    Board {
        n: 0,
        m: 0,
        delay: 0,
        debt: 0,
        parents: [0; 64],
        units: [BLANK_UNIT; 64],
        slots: [BLANK_SLOT; 256],
        created: [0; 64],
        processed: [0; 64],
        rounds: NO_ROUND,
    }
}

// Whether each parent is below its unit; the first is unit 1's.
fn are_lower(parents: &[u16]) -> bool
    ensures { result ≡ lower_parents parents.now }
{
    parents
        .iter()
        .enumerate()
        .all(|(i, &p)| usize::from(p) <= i)
}

// Nothing is narrowed before it is tested.
fn may_open(m: u16, d: u16, parents: &[u16]) -> Result<(), Refusal>
    ensures { result ≡ judge Err (opening_checks m d parents.now) (Ok tt) }
{
    if parents.len() > 63 || m < 1 || m > 256 || d > 255 {
        return Err(Refusal::BoardSize);
    }
    if !are_lower(parents) {
        return Err(Refusal::ParentOrder);
    }
    Ok(())
}

// The parent entries of a board: 0 for unit 0, then the parents, then 0.
fn parent_entries(parents: &[u16]) -> [u16; 64]
    requires { length parents.now ≤ 63 }
    ensures { result ≡ 0 ∷ parents.now ++ replicate (63 - length parents.now) 0 }
{
    let mut all = [0; 64];
    all[1..=parents.len()].copy_from_slice(parents);
    all
}

// A fresh board with m slots, the delay d and these parents of the units from 1 on; a refused one leaves the blank board.
pub fn open(m: u16, d: u16, parents: &[u16]) -> Outcome
    ensures { result ≡ opening m d parents.now }
{
    let answer = may_open(m, d, parents);
    // Stored into where it lies: `..blank()` would make a second board and copy it array by array.
    let mut board = blank();
    if answer.is_ok() {
        board.n = parents.len() as u16 + 1; // at most 64, as was tested above
        board.m = m;
        board.delay = d;
        board.parents = parent_entries(parents);
    }
    Outcome { answer, board }
}
