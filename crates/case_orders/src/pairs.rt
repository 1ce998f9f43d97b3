// A pair of steps, taken in both orders on one board.
use crate::building::step_of;
use crate::same::same_boards;
use refusals::number_of;
use rules::{Board, StepRecord};
use std::io;

// Tells what both steps answer, the second on the board that the first left.
fn in_order(to: &impl Print, b: Board, first: StepRecord, second: StepRecord) -> io::Result<Board> {
    let x = steps::step(b, first);
    let y = steps::step(x.board, second);
    print!(to; "\t{}\t{}", number_of(x.answer), number_of(y.answer))?;
    Ok(y.board)
}

pub(crate) fn tell(to: &impl Print, b: Board, first: &[u8], second: &[u8]) -> io::Result<()> {
    to.write_all(first)?;
    print!(to; ";")?;
    to.write_all(second)?;
    let q = step_of(first);
    let r = step_of(second);
    print!(to; "\tgives")?;
    let x = in_order(to, b, q, r)?;
    print!(to; "\tand")?;
    let y = in_order(to, b, r, q)?;
    if same_boards(x, y) {
        println!(to; "\tsame")
    } else {
        println!(to; "\tdiffer")
    }
}
