// Counting by the recursion: a refused step leaves the board, so all refused choices together count as often as what follows from the
// same board, and only an accepted one leads on. All choices are asked for at once, since soundness is then tested once for them.
ghost use Rattle.std.specs.Prelude.{◌≡◌, ◌+◌, ◌*◌, ◌^◌, ◌≤◌, ◌<◌};
ghost use Rattle.rules.specs.Sound.{Sound};
ghost use Rattle.census.specs.Counting.{ends_from};

use crate::Ends;
use crate::choices::Choices;
use crate::sorts::{NO_ENDS, sort};
use rules::Board;

impl Ends {
    // The sum of two counts of each sort.
    fn plus(self, other: Ends) -> Ends
        requires { (self.finished + other.finished < 2 ^ 32) × (self.busy + other.busy < 2 ^ 32) × (self.other + other.other < 2 ^ 32) }
        ensures { result ≡ record { finished = self.finished + other.finished; busy = self.busy + other.busy; other = self.other + other.other } }
    {
        Ends {
            finished: self.finished + other.finished,
            busy: self.busy + other.busy,
            other: self.other + other.other,
        }
    }

    // Each count so many times.
    fn times(self, k: u32) -> Ends
        requires { (k * self.finished < 2 ^ 32) × (k * self.busy < 2 ^ 32) × (k * self.other < 2 ^ 32) }
        ensures { result ≡ record { finished = k * self.finished; busy = k * self.busy; other = k * self.other } }
    {
        Ends {
            finished: k * self.finished,
            busy: k * self.busy,
            other: k * self.other,
        }
    }
}

// The ends of all lists of so many steps. It calls itself with one step fewer, so at most 4 deep.
pub(crate) fn ends(b: &Board, left: u16) -> Ends
    requires { Sound b.now × (b.now.n ≤ 3) × (b.now.m ≤ 2) × (left ≤ 4) }
    ensures { result ≡ ends_from b.now left }
{
    if left == 0 {
        return sort(b);
    }
    let same = ends(b, left - 1);
    let choices = Choices::of_sizes(b.n, b.m);
    let answers = steps::answers_on(*b, choices.steps, choices.count);
    let mut sum = NO_ENDS;
    let mut refused = 0;
    for (choice, answer) in choices.steps[..choices.count].iter().zip(&answers) {
        if *answer == 0 {
            let next = steps::step(*b, *choice).board;
            sum = sum.plus(ends(&next, left - 1));
        } else {
            refused += 1;
        }
    }
    same.times(refused).plus(sum)
}
