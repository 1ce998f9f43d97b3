// The longest drain of a board (M-109): how many steps a boat may still need, and one list of so many.
#![tactic(auto)]

mod checks;
mod journeys;
mod lengths;
mod lent;
mod short;
mod sources;

ghost use Rattle.std.specs.Prelude.{◌≡◌, ℕ};
ghost use Rattle.drains.specs.Calls.{length_answer, list_answer};
ghost use Rattle.drains.specs.Claims.{HasLength};

use checks::may_show;
use lengths::length_of;
pub use lent::longest_drain;
use refusals::Refusal;
use rules::{BATCH, Board, StepRecord};
pub use short::short_drain;

// A longest drain by value. Entries behind it are 0 and mean nothing, and so are all where none is shown. An array with a length, since no
// call allocates.
#[derive(Clone, Copy, PartialEq, Eq)]
pub struct ShortDrain {
    pub longest: Result<usize, Refusal>,
    pub steps: [StepRecord; BATCH],
}

// How many steps the longest drain has. The board is lent: each function that takes it by value copies it.
fn told_length(b: &Board) -> Result<usize, Refusal>
    ensures { result ≡ length_answer b.now }
{
    may_show(b)?;
    Ok(length_of(b))
}

// The length alone, which a caller needs before it can lend a list.
pub fn longest_length(b: Board) -> Result<usize, Refusal>
    ensures told { result ≡ length_answer b }
    ensures exact { (k : ℕ) → result ≡ Ok k → HasLength b k }
{
    told_length(&b)
}

// The length, where a list of so many entries has room for it.
fn fitting(b: &Board, room: usize) -> Result<usize, Refusal>
    ensures { result ≡ list_answer b.now room }
{
    let longest = told_length(b)?;
    if longest > room {
        return Err(Refusal::ShortList);
    }
    Ok(longest)
}
