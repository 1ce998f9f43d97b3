// The longest drain for a benchmark in another language: a board is made of numbers, and what is told is one number.
#![tactic(auto)]

ghost use Rattle.std.specs.Prelude.{◌≡◌, length};
ghost use Rattle.drains.specs.Calls.{length_answer, list_answer, list_left};
ghost use Rattle.bench_drains.specs.Told.{stepped_board, drain_told};

use bench::batched;
use board::open;
use drains::{longest_drain, longest_length};
use refusals::Refusal;
use rules::{Board, StepRecord};

// The board that is opened, after a list of steps.
fn board_after(m: u16, d: u16, parents: &[u16], steps: &[u16]) -> Board
    ensures { result ≡ stepped_board m d parents.now steps.now }
{
    let b = open(m, d, parents).board;
    batched(b, steps).board
}

// The length, or the number that refused to tell it with 4294967296 more.
fn drain_told(r: Result<usize, Refusal>) -> u64
    ensures { result ≡ drain_told r }
{
    match r {
        Ok(n) => n as u64,
        Err(k) => 4294967296 + u64::from(k.number()),
    }
}

// The length of the longest drain from the board after a list of steps, four numbers to a step.
#[unsafe(no_mangle)]
pub extern "C" fn bench_length(m: u16, d: u16, parents: &[u16], steps: &[u16]) -> u64
    ensures { result ≡ drain_told (length_answer (stepped_board m d parents.now steps.now)) }
{
    drain_told(longest_length(board_after(m, d, parents, steps)))
}

// And the drain itself, in a lent list.
#[unsafe(no_mangle)]
pub extern "C" fn bench_longest(
    m: u16,
    d: u16,
    parents: &[u16],
    steps: &[u16],
    list: &mut [StepRecord],
) -> u64
    ensures { (result ≡ drain_told (list_answer (stepped_board m d parents.now steps.now) (length list.old))) × (list.new ≡ list_left (stepped_board m d parents.now steps.now) list.old) }
{
    drain_told(longest_drain(board_after(m, d, parents, steps), list))
}
