// A longest drain in a lent list.
ghost use Rattle.drains.specs.Claims.{ListMeets};

use crate::fitting;
use crate::journeys::write_longest;
use refusals::Refusal;
use rules::{Board, StepRecord};

// The list is written once; a refused call writes nothing.
pub fn longest_drain(b: Board, list: &mut [StepRecord]) -> Result<usize, Refusal>
    ensures { ListMeets b list.old result list.new }
{
    let longest = fitting(&b, list.len())?;
    write_longest(&b, list);
    Ok(longest)
}
