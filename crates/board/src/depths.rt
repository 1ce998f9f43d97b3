// The depth of a unit, found by going to the parent until unit 0.
ghost use Rattle.std.specs.Prelude.{◌≡◌, ℕ, ◌≤◌, ◌<◌, get_or};
ghost use Rattle.rules.specs.Sheets.Depths.{depth};
ghost use Rattle.rules.specs.Depths.{depth_answer};

use crate::soundness::is_sound;
use refusals::Refusal;
use rules::Board;

// The unit number falls at each call, since a parent has a lower one.
fn depth_along(parents: &[u16; 64], u: u16) -> u16
    requires u_bound { u < 64 }
    requires by_index { (i : ℕ) → 1 ≤ i → i ≤ u → get_or parents.now i 0 < i }
    ensures { result ≡ depth parents.now u }
{
    if u == 0 {
        return 0;
    }
    depth_along(parents, parents[usize::from(u)]) + 1
}

// The depth of a unit on a sound board: the number of parents to go to until unit 0.
pub fn depth_of(b: Board, u: u16) -> Result<u16, Refusal>
    ensures { result ≡ depth_answer b u }
{
    if !is_sound(b) {
        return Err(Refusal::NotSound);
    }
    if u >= b.n {
        return Err(Refusal::NoSuchUnit);
    }
    Ok(depth_along(&b.parents, u))
}
