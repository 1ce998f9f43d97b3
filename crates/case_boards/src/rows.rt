// The row of a board: its number, and what the calls answer.
use casetext::Step;
use refusals::{Refusal, number_of};
use rules::{Board, Verdict};
use std::io;

// 0 for finished, 1 for working, or the refusal.
fn verdict(told: Result<Verdict, Refusal>) -> u16 {
    match told {
        Ok(Verdict::Finished) => 0,
        Ok(Verdict::Working) => 1,
        Err(refusal) => refusal.number(),
    }
}

// The number, whether the board is sound and whether it is finished, the depth of unit 4 and what refuses it, of which the one that there
// is not is 0, and the answer of a tick.
pub(crate) fn damaged(to: &impl Print, k: usize, b: Board) -> io::Result<()> {
    let sound = u8::from(board::is_sound(b));
    let state = verdict(board::finished(b));
    let depth = board::depth_of(b, 4);
    let deep = depth.unwrap_or(0);
    let refusal = number_of(depth);
    let answer = number_of(steps::step(b, Step::Tick(2).into()).answer);
    println!(to; "{k}\t{sound}\t{state}\t{deep}\t{refusal}\t{answer}")
}

// The same with a delivery's answer, and the debt after it.
pub(crate) fn limit(to: &impl Print, k: usize, b: Board) -> io::Result<()> {
    let sound = u8::from(board::is_sound(b));
    let state = verdict(board::finished(b));
    let out = steps::step(b, Step::Deliver(0).into());
    let answer = number_of(out.answer);
    println!(to; "{k}\t{sound}\t{state}\t{answer}\t{}", out.board.debt)
}
