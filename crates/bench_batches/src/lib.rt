// The loop over batches, in a library of its own: where a batch is all that takes steps, as in the program, the compiler
// puts the step into its loop, and that is what is to be measured.
#![tactic(auto)]

ghost use Rattle.std.specs.Prelude.{◌≡◌};
ghost use Rattle.bench.specs.Records.{records_in};
ghost use Rattle.bench.specs.Counts.{accepted_of};

use bench::{batched, tree_board};

// How many steps of a list are accepted, by batches.
#[unsafe(no_mangle)]
pub extern "C" fn bench_batches(n: u16, m: u16, d: u16, list: &[u16]) -> u64
    ensures { result ≡ accepted_of n m d (records_in list.now) }
{
    batched(tree_board(n, m, d), list).count
}
