// The census for a benchmark in another language, in a library of its own: with other callers of the step beside it the compiler would put
// the step elsewhere, and what is to be measured is the census where it alone takes steps.
#![tactic(auto)]

ghost use Rattle.std.specs.Prelude.{◌≡◌};
ghost use Rattle.census.specs.Counting.{census};
ghost use Rattle.bench_census.specs.Told.{count_of_sort, census_told};

use census::{Ends, census};
use refusals::Refusal;

fn count_of(e: Ends, sort: u16) -> u32
    ensures { result ≡ count_of_sort sort e }
{
    match sort {
        0 => e.finished,
        1 => e.busy,
        _ => e.other,
    }
}

// One number, and the sort another, since no enum is passed to another language.
fn census_told(c: Result<Ends, Refusal>, sort: u16) -> u64
    ensures { result ≡ census_told sort c }
{
    match c {
        Ok(e) => u64::from(count_of(e, sort)),
        Err(k) => u64::from(k.number()),
    }
}

// How many lists end with the board of that sort (0 finished, 1 busy, from 2 on other), or the number that refused the census.
#[unsafe(no_mangle)]
pub extern "C" fn bench_census(m: u16, d: u16, parents: &[u16], length: u16, sort: u16) -> u64
    ensures { result ≡ census_told sort (census m d parents.now length) }
{
    census_told(census(m, d, parents, length), sort)
}
