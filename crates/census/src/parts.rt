// The counts of a census as shares of all its lists.
ghost use Rattle.std.specs.Prelude.{◌≡◌, ◌*◌, ◌^◌, ◌≤◌, ◌<◌};
ghost use Rattle.census.specs.Shares.{all_ends, share_of, shares_of};

use crate::{Ends, PerMille};

// How many lists there are.
pub fn lists(e: Ends) -> u64
    ensures { result ≡ all_ends e }
{
    u64::from(e.finished) + u64::from(e.busy) + u64::from(e.other)
}

// A part of a whole in thousandths, to the nearest; 0 of nothing.
fn share_of(part: u32, whole: u64) -> u16
    requires { (part ≤ whole) × (whole < 3 * 2 ^ 32) }
    ensures { result ≡ share_of part whole }
{
    if whole == 0 {
        return 0;
    }
    let thousandths = (2000 * u64::from(part) + whole) / (2 * whole);
    // At most 1,000, so a conversion that may fail would have a branch that nothing takes.
    thousandths as u16
}

// Each count in thousandths of all lists, to the nearest.
pub fn shares(e: Ends) -> PerMille
    ensures { result ≡ shares_of e }
{
    let whole = lists(e);
    PerMille {
        finished: share_of(e.finished, whole),
        busy: share_of(e.busy, whole),
        other: share_of(e.other, whole),
    }
}
