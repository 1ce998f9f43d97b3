// What has steps of a drain before it: a unit that waits, and a return under way in a slot.
ghost use Rattle.std.specs.Prelude.{◌≡◌, ℕ, ◌+◌, ◌^◌, ◌≤◌, ◌<◌, length, List};
ghost use Rattle.rules.specs.declared.StepRecord.{StepRecord};
ghost use Rattle.drains.specs.Writing.{Writes};
ghost use Rattle.drains.specs.declared.journeys.Way.{Way};
ghost use Rattle.drains.specs.declared.lengths.Distances.{Distances};

use crate::journeys::{Way, put, step};
use crate::lengths::Distances;
use rules::{Action, Kind, Slot, State, StepRecord, UnitRecord};

// A unit or a slot, by its number and its entry.
pub(crate) trait Source {
    // its number is one that a board has, and so is its receiver's
    ghost within: { ℕ → Self → Type 0 };

    ghost steps_length: { Distances → ℕ → Self → ℕ };

    ghost steps: { Way → ℕ → Self → List StepRecord };

    // How many steps it can still cause.
    fn steps_length(&self, number: usize, distances: &Distances) -> usize
        requires { within number self.now }
        ensures exact { result ≡ steps_length distances.now number self.now }
        ensures few { result < 2 ^ 34 };

    // Writes them from a place of the list on. Gives the place behind them.
    fn write_steps(&self, number: usize, way: &Way, list: &mut [StepRecord], at: usize) -> usize
        requires within { within number self.now }
        requires room { at + length (steps way.now number self.now) ≤ length list.old }
        ensures { Writes (steps way.now number self.now) at list.old list.new result };
}

impl Source for UnitRecord {
    ghost use Rattle.rules.specs.Sheets.Longest.{unit_length, unit_steps};
    ghost use Rattle.std.specs.Prelude.{get_or};

    ghost within = { λ i x. i < 64 };

    ghost steps_length = { λ distances i x. unit_length distances.delay (get_or distances.depths i 0) x x.state };

    ghost steps = { λ way i x. unit_steps way.delay way.parents way.free i x x.state };

    fn steps_length(&self, number: usize, distances: &Distances) -> usize {
        match self.state {
            State::Idle | State::Active => 0,
            State::Waiting => {
                let above = distances.depths[number].saturating_sub(1);
                usize::from(self.countdown) + 2 + distances.way_up(above)
            }
        }
    }

    fn write_steps(&self, number: usize, way: &Way, list: &mut [StepRecord], at: usize) -> usize {
        match self.state {
            State::Idle | State::Active => at,
            // `within` says that the number is small: a conversion that may fail would have a branch that nothing takes.
            State::Waiting => way.write_journey(number as u16, self.countdown, list, at),
        }
    }
}

impl Source for Slot {
    ghost use Rattle.rules.specs.Sheets.Longest.{slot_length, slot_steps};
    ghost use Rattle.std.specs.Prelude.{get_or};

    ghost within = { λ j y. (j < 256) × (y.to < 64) };

    ghost steps_length = { λ distances j y. slot_length distances.delay (get_or distances.depths y.to 0) y.kind };

    ghost steps = { λ way j y. slot_steps way.delay way.parents way.free j y y.kind };

    fn steps_length(&self, _number: usize, distances: &Distances) -> usize {
        match self.kind {
            Kind::Return => 1 + distances.way_up(distances.depths[usize::from(self.to)]),
            Kind::Empty | Kind::Work | Kind::Request | Kind::Supply => 0,
        }
    }

    fn write_steps(&self, number: usize, way: &Way, list: &mut [StepRecord], at: usize) -> usize {
        match self.kind {
            Kind::Return => {
                let next = put(step(Action::Deliver, 0, number as u16), list, at);
                way.write_journey(self.to, way.delay, list, next)
            }
            Kind::Empty | Kind::Work | Kind::Request | Kind::Supply => at,
        }
    }
}
