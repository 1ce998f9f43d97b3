// Loops over the public calls on a board, for a benchmark in another language: boards hold enums, so only numbers, step records and slices of them are passed.
#![tactic(auto)]

mod batches;
mod delays;
mod lent;
mod records;
mod trees;
mod walks;

ghost use Rattle.std.specs.Prelude.{◌≡◌};
ghost use Rattle.rules.specs.Lists.{after};
ghost use Rattle.bench.specs.Trees.{tree_board};
ghost use Rattle.bench.specs.Records.{records_in};
ghost use Rattle.bench.specs.Counts.{accepted_of, sound_with};

pub use batches::batched;
use delays::sound_count;
pub use lent::{bench_lent, bench_run};
pub use trees::tree_board;
pub use walks::Walked;
use walks::stepped;

// How many steps of a list are accepted, by the step by value.
pub fn bench_steps(n: u16, m: u16, d: u16, list: &[u16]) -> u64
    ensures { result ≡ accepted_of n m d (records_in list.now) }
{
    stepped(tree_board(n, m, d), list).count
}

// With how many of the delays the board after a list is sound.
pub fn bench_soundness(n: u16, m: u16, d: u16, list: &[u16], delays: &[u16]) -> u64
    ensures { result ≡ sound_with (after (tree_board n m d) (records_in list.now)) delays.now }
{
    let b = stepped(tree_board(n, m, d), list).board;
    sound_count(b, delays)
}
