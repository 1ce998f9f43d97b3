// What a step finds at its places, and what it reads of the board beside them.
ghost use Rattle.std.specs.Prelude.{◌+◌, ◌<◌, ◌≤◌, ◌^◌};
ghost use Rattle.rules.specs.Records.{ceiling};

use crate::places::Places;
use rules::{Board, Counts, Slot, UnitRecord};

// A unit with its parent and its counts, a slot, and the board's debt and delay. On a sound board the weights are parts of the debt, so no
// sum of them wraps and no difference falls below 0.
#[derive(Clone, Copy)]
pub(crate) struct Found {
    pub unit: UnitRecord,
    pub parent: u16,
    pub counts: Counts,
    pub slot: Slot,
    pub debt: u64,
    pub delay: u16,
    ghost weights_fit: { unit.weight + slot.weight ≤ debt },
    ghost debt_fits: { debt ≤ ceiling },
    ghost processed_fits: { counts.processed + 1 < 2 ^ 64 },
}

impl Found {
    ghost use Rattle.std.specs.Prelude.{◌≡◌, true};
    ghost use Rattle.rules.specs.Sound.{sound};
    ghost use Rattle.rules.specs.Boards.{view};
    ghost use Rattle.steps.specs.Changing.{FoundAt};

    pub(crate) fn at(b: &Board, at: Places) -> Found
        requires is_sound { sound b.now ≡ true }
        requires places { (at.unit ≤ 63) × (at.slot ≤ 255) }
        ensures { FoundAt (view b.now) at result }
    {
        Found {
            unit: b.units[at.unit],
            parent: b.parents[at.unit],
            counts: Counts {
                created: b.created[at.unit],
                processed: b.processed[at.unit],
            },
            slot: b.slots[at.slot],
            debt: b.debt,
            delay: b.delay,
        }
    }
}
