// A longest drain by value, of at most `BATCH` steps.
ghost use Rattle.std.specs.Prelude.{◌≡◌};
ghost use Rattle.drains.specs.Calls.{short_drain};
ghost use Rattle.drains.specs.Claims.{ShowsLongest};

use crate::ShortDrain;
use crate::lent::longest_drain;
use rules::{BATCH, Board, NO_STEP};

// The list in an array of `BATCH` entries; refused where the drain is longer.
pub fn short_drain(b: Board) -> ShortDrain
    ensures told { result ≡ short_drain b }
    ensures shown { ShowsLongest b result.longest result.steps }
{
    let mut steps = [NO_STEP; BATCH];
    let longest = longest_drain(b, &mut steps);
    ShortDrain { longest, steps }
}
