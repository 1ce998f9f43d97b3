// The loops over the public calls on a board, for a benchmark in another language. A library exports nothing, so its functions are exported here.
#![tactic(auto)]

ghost use Rattle.std.specs.Prelude.{◌≡◌};
ghost use Rattle.rules.specs.Lists.{after};
ghost use Rattle.rules.specs.Runs.{run_answer, run_buffer};
ghost use Rattle.bench.specs.Trees.{tree_board};
ghost use Rattle.bench.specs.Records.{records_in};
ghost use Rattle.bench.specs.Counts.{accepted_of, sound_with, zeros_of};

use rules::StepRecord;

// How many steps of a list are accepted, by the step by value.
#[unsafe(no_mangle)]
pub extern "C" fn bench_steps(n: u16, m: u16, d: u16, list: &[u16]) -> u64
    ensures { result ≡ accepted_of n m d (records_in list.now) }
{
    bench::bench_steps(n, m, d, list)
}

// With how many of the delays the board after a list is sound.
#[unsafe(no_mangle)]
pub extern "C" fn bench_soundness(n: u16, m: u16, d: u16, list: &[u16], delays: &[u16]) -> u64
    ensures { result ≡ sound_with (after (tree_board n m d) (records_in list.now)) delays.now }
{
    bench::bench_soundness(n, m, d, list, delays)
}

// The run over the whole list, on one lent board.
#[unsafe(no_mangle)]
pub extern "C" fn bench_run(
    n: u16,
    m: u16,
    d: u16,
    steps: &[StepRecord],
    answers: &mut [u16],
) -> u64
    ensures { (result ≡ zeros_of (run_answer (tree_board n m d) steps.now answers.old)) × (answers.new ≡ run_buffer (tree_board n m d) steps.now answers.old) }
{
    bench::bench_run(n, m, d, steps, answers)
}

// The step by step loop, which finds its board advanced where it was.
#[unsafe(no_mangle)]
pub extern "C" fn bench_lent(n: u16, m: u16, d: u16, steps: &[StepRecord]) -> u64
    ensures { result ≡ accepted_of n m d steps.now }
{
    bench::bench_lent(n, m, d, steps)
}
