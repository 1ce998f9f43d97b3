// The length of the longest drain, by one table of depths.
ghost use Rattle.std.specs.Prelude.{◌≡◌, ℕ, ◌+◌, ◌*◌, ◌^◌, ◌≤◌, ◌<◌, get_or, length};
ghost use Rattle.rules.specs.Facts.{sum_of};
ghost use Rattle.rules.specs.Boards.{view};
ghost use Rattle.rules.specs.Sound.{Sound};
ghost use Rattle.rules.specs.Sheets.Depths.{depth};
ghost use Rattle.rules.specs.Sheets.Longest.{longest_length};

use crate::sources::Source;
use rules::Board;

// How far each unit is from unit 0, and how long a unit waits on the way.
#[derive(Clone, Copy)]
pub(crate) struct Distances {
    pub(crate) depths: [u16; 64],
    pub(crate) delay: u16,
}

impl Distances {
    // The steps on the way from a unit of this depth, which begins to wait: d + 2 for each unit until unit 0.
    pub(crate) fn way_up(&self, depth: u16) -> usize
        ensures exact { result ≡ (self.now.delay + 2) * depth }
        ensures few { result < 2 ^ 33 }
    {
        (usize::from(self.delay) + 2) * usize::from(depth)
    }

    // The steps that all of these can still cause.
    fn sum<S: Source>(&self, sources: &[S]) -> usize
        requires few { length sources.now ≤ 256 }
        requires within { (i : ℕ) (x : S) → i < length sources.now → S.within i (get_or sources.now i x) }
        ensures exact { result ≡ sum_of (λ i x. S.steps_length self.now i x) sources.now }
        ensures few { result ≤ 2 ^ 42 }
    {
        let mut sum = 0;
        for (i, source) in sources.iter().enumerate() {
            sum += source.steps_length(i, self);
        }
        sum
    }
}

// The depth of each unit, from that of its parent, which has a lower number.
fn depth_table(parents: &[u16; 64]) -> [u16; 64]
    requires { (i : ℕ) → 1 ≤ i → i < 64 → get_or parents.now i 0 < i }
    ensures { (i : ℕ) → i < 64 → get_or result i 0 ≡ depth parents.now i }
{
    let mut depths = [0; 64];
    // By the index, since an entry is made from an earlier one.
    for i in 1..64 {
        depths[i] = depths[usize::from(parents[i])] + 1;
    }
    depths
}

// O(n + M): a depth for each unit, then a number for each unit and slot.
pub(crate) fn length_of(b: &Board) -> usize
    requires { Sound b.now }
    ensures { result ≡ longest_length (view b.now) }
{
    let distances = Distances {
        depths: depth_table(&b.parents),
        delay: b.delay,
    };
    distances.sum(&b.units) + distances.sum(&b.slots)
}
