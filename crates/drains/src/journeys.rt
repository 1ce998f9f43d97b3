// The longest drain written into a list: for each waiting unit and for each return under way the journey of its weight to unit 0.
ghost use Rattle.std.specs.Prelude.{◌≡◌, ℕ, ◌∷◌, [], ◌++◌, ◌+◌, ◌≤◌, ◌<◌, length, get_or, drop, replicate};
ghost use Rattle.rules.specs.Actions.{kind_of};
ghost use Rattle.rules.specs.Boards.{view};
ghost use Rattle.rules.specs.Sound.{Sound};
ghost use Rattle.rules.specs.Sheets.Drains.{tick_of, release_of, deliver_of};
ghost use Rattle.rules.specs.Sheets.Longest.{journey, join_of, longest_length, longest_list};
ghost use Rattle.drains.specs.Calls.{lowest_free};
ghost use Rattle.drains.specs.Writing.{Writes};

use crate::checks::free_slot;
use crate::sources::Source;
use rules::{Action, Board, StepRecord};

// Where weight goes on its way to unit 0: to each unit's parent, which is lower, after the delay, by the slot for releases.
#[derive(Clone, Copy)]
pub(crate) struct Way {
    pub(crate) parents: [u16; 64],
    pub(crate) delay: u16,
    pub(crate) free: u16,
    ghost lower: { (i : ℕ) → 1 ≤ i → i < 64 → get_or parents i 0 < i },
}

// A step with 0 in the field that no step of a drain uses.
pub(crate) fn step(action: Action, unit: u16, slot: u16) -> StepRecord
    ensures { result ≡ record { kind = kind_of action; unit = unit; other = 0; slot = slot } }
{
    StepRecord {
        kind: action as u16,
        unit,
        other: 0,
        slot,
    }
}

// One step at a place of the list. Gives the place behind it. List and place stay two parameters here and in what writes on: a cursor type
// would have to lend the list anew in each call, and its fact, that the rest has room, differs from call to call.
pub(crate) fn put(step: StepRecord, list: &mut [StepRecord], at: usize) -> usize
    requires { at < length list.old }
    ensures { Writes (step ∷ []) at list.old list.new result }
{
    list[at] = step;
    at + 1
}

impl Way {
    // The ticks that a unit has left, its release, and the delivery of what it gives back.
    fn write_wait(&self, unit: u16, left: u16, list: &mut [StepRecord], at: usize) -> usize
        requires { at + left + 2 ≤ length list.old }
        ensures { Writes (replicate left (tick_of unit) ++ release_of unit self.now.free ∷ deliver_of self.now.free ∷ []) at list.old list.new result }
    {
        let end = at + usize::from(left);
        list[at..end].fill(step(Action::Tick, unit, 0));
        let released = put(step(Action::Release, unit, self.free), list, end);
        put(step(Action::Deliver, 0, self.free), list, released)
    }

    // The journey of a weight from a unit, with so many ticks left there, to unit 0.
    pub(crate) fn write_journey(
        &self,
        mut unit: u16,
        mut left: u16,
        list: &mut [StepRecord],
        mut at: usize,
    ) -> usize
        requires within { unit < 64 }
        requires room { at + length (journey self.now.delay self.now.parents self.now.free left unit) ≤ length list.old }
        ensures { Writes (journey self.now.delay self.now.parents self.now.free left unit) at list.old list.new result }
    {
        // From parent to parent, and no count.
        while unit != 0 {
            at = self.write_wait(unit, left, list, at);
            unit = self.parents[usize::from(unit)];
            left = self.delay;
        }
        at
    }

    // The steps of all of these, one behind the other.
    fn write_all<S: Source>(&self, sources: &[S], list: &mut [StepRecord], mut at: usize) -> usize
        requires few { length sources.now ≤ 256 }
        requires within { (i : ℕ) (x : S) → i < length sources.now → S.within i (get_or sources.now i x) }
        requires room { at + length (join_of (λ i x. S.steps self.now i x) sources.now) ≤ length list.old }
        ensures { Writes (join_of (λ i x. S.steps self.now i x) sources.now) at list.old list.new result }
    {
        for (i, source) in sources.iter().enumerate() {
            at = source.write_steps(i, self, list, at);
        }
        at
    }
}

// The longest drain, in the first entries of the list. O(n + M), and then O(length).
pub(crate) fn write_longest(b: &Board, list: &mut [StepRecord])
    requires sound { Sound b.now }
    requires room { longest_length (view b.now) ≤ length list.old }
    ensures { list.new ≡ longest_list (view b.now) (lowest_free b.now.slots) ++ drop (longest_length (view b.now)) list.old }
{
    let way = Way {
        parents: b.parents,
        delay: b.delay,
        free: free_slot(&b.slots),
    };
    let at = way.write_all(&b.units, list, 0);
    way.write_all(&b.slots, list, at);
}
