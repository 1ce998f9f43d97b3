// A census of short lists (M-106): of all lists of so many steps on a fresh board, how many leave it finished, how many busy, and how many
// neither.
#![tactic(auto)]

mod choices;
mod counting;
mod parts;
mod sorts;

ghost use Rattle.std.specs.Prelude.{◌≡◌};
ghost use Rattle.rules.specs.Facts.{judge};
ghost use Rattle.census.specs.Counting.{size_checks, census};

use counting::ends;
pub use parts::{lists, shares};
use refusals::Refusal;

// How the lists end: so many leave the board finished, so many with a unit active or work under way, and the others.
#[derive(Clone, Copy, PartialEq, Eq)]
pub struct Ends {
    pub finished: u32,
    pub busy: u32,
    pub other: u32,
}

// The same in thousandths of all lists, each to the nearest. A type of its own beside Ends, and no type parameter: two names keep a share
// from being taken for a count.
#[derive(Clone, Copy, PartialEq, Eq)]
pub struct PerMille {
    pub finished: u16,
    pub busy: u16,
    pub other: u16,
}

// Whether the sizes and the length are counted. Nothing is narrowed before it is tested.
fn may_count(m: u16, d: u16, parents: &[u16], length: u16) -> Result<(), Refusal>
    ensures { result ≡ judge Err (size_checks m d parents.now length) (Ok tt) }
{
    if parents.len() > 2 || m < 1 || m > 2 || d > 1 || length > 4 {
        return Err(Refusal::CensusSize);
    }
    Ok(())
}

// The census of a board with m slots, delay d and these parents of units 1 on, over all lists of that length.
pub fn census(m: u16, d: u16, parents: &[u16], length: u16) -> Result<Ends, Refusal>
    ensures { result ≡ census m d parents.now length }
{
    may_count(m, d, parents, length)?;
    let opened = board::open(m, d, parents);
    opened.answer?;
    Ok(ends(&opened.board, length))
}
