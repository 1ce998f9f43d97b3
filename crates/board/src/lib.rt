// Calls on a whole weight board, by value: is it sound, a fresh one, the depth of a unit, is the sheet complete.
#![tactic(auto)]

mod busy;
mod counts;
mod depths;
mod opening;
mod slots;
mod soundness;
mod units;

ghost use Rattle.std.specs.Prelude.{◌≡◌, true, []};
ghost use Rattle.rules.specs.Sound.{sound};
ghost use Rattle.rules.specs.Finished.{verdict, Complete};
ghost use Rattle.rules.specs.Guarantee.{Carries};
ghost use Rattle.rules.specs.declared.Verdict.TheVariants.{Finished};

pub use busy::{some_active, some_work};
pub use depths::depth_of;
pub use opening::{blank, no_round, open};
use refusals::Refusal;
use rules::{Board, Verdict};
pub use soundness::is_sound;

// Finished is told exactly of the sound boards on which every unit is idle and every slot empty, however they came about.
// It carries the guarantee too: of the board of every accepted opening and list of steps.
pub fn finished(b: Board) -> Result<Verdict, Refusal>
    ensures told { result ≡ verdict b }
    ensures complete { (result ≡ Ok Finished → Complete b) × (sound b ≡ true → Complete b → result ≡ Ok Finished) }
    ensures carried { Carries b [] b }
{
    if !is_sound(b) {
        return Err(Refusal::NotSound);
    }
    if b.debt == 0 {
        return Ok(Verdict::Finished);
    }
    Ok(Verdict::Working)
}
