// What refuses to show a longest drain: a board that is not sound, work being done, no free slot.
ghost use Rattle.std.specs.Prelude.{◌≡◌};
ghost use Rattle.rules.specs.Facts.{judge};
ghost use Rattle.rules.specs.Busy.{is_busy};
ghost use Rattle.drains.specs.Calls.{lowest_free, drain_checks};

use board::{is_sound, some_active, some_work};
use refusals::Refusal;
use rules::{Board, Slot};

// The lowest free slot; 256, a number that no board has, where none is free: the definition says so, and what asks compares with m.
#[tactic(auto, unfolding(crate::specs::Calls::lowest_free))]
pub(crate) fn free_slot(slots: &[Slot; 256]) -> u16
    ensures { result ≡ lowest_free slots.now }
{
    slots.iter().position(|y| y.kind.is_empty()).unwrap_or(256) as u16
}

fn is_busy(b: &Board) -> bool
    ensures { result ≡ is_busy b.now }
{
    some_active(b.units) || some_work(b.slots)
}

// Whether the board has a longest drain to show.
pub(crate) fn may_show(b: &Board) -> Result<(), Refusal>
    ensures { result ≡ judge Err (drain_checks b.now) (Ok tt) }
{
    if !is_sound(*b) {
        return Err(Refusal::NotSound);
    }
    if is_busy(b) {
        return Err(Refusal::WorkLeft);
    }
    if free_slot(&b.slots) >= b.m {
        return Err(Refusal::NoFreeSlot);
    }
    Ok(())
}
