// What the calls answer on boards that no script reaches: one field damaged, and weights about as large as they can be.
#![tactic(auto)]

mod bases;
mod damages;
mod limits;
mod rows;
mod weights;

use casetext::PassingOver;
use damages::Damages;
use std::io;

// 2^24, what a start or a grant brings. It stands here again, as 2^40 does: the cases hold the library to both.
pub(crate) const GRANT: u64 = 16777216;

// 2^40, the most debt.
pub(crate) const MOST: u64 = 1099511627776;

fn all(to: &impl Print) -> io::Result<()> {
    println!(to; "damaged")?;
    let mut damages = Damages::of(to, bases::working());
    damages.fields()?;
    damages.debts()?;
    println!(to; "balanced")?;
    Damages::balanced(to, bases::working()).fields()?;
    println!(to; "suspended")?;
    Damages::balanced(to, bases::suspended()).fields()?;
    println!(to; "limits")?;
    limits::all(to)
}

fn main(rt: HostRuntime) {
    // What cannot be written is passed over, so this ends in no error.
    let _ = all(&PassingOver(&rt));
}
