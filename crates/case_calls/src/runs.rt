// Runs over the first steps of a list, with a buffer of some length.
use crate::rows::Rows;
use casetext::Step;
use refusals::number_of;
use rules::{Board, NO_STEP, StepRecord};
use std::io;

const STEPS: [Step; 4] = [
    Step::Start(0),
    Step::Move(0, 0), // 47
    Step::Send(0, 1, 0),
    Step::Unknown(65535), // 16
];

// The four steps; those behind them are not run.
fn list() -> [StepRecord; 16] {
    let mut list = [NO_STEP; 16];
    for (record, step) in list.iter_mut().zip(STEPS) {
        *record = step.into();
    }
    list
}

// What was asked, the refusal and the zeros that the run gives, of which the one that there is not is 0, what the whole buffer holds after
// it, and the debt.
fn row<P: Print>(rows: &mut Rows<'_, P>, b: Board, count: usize, room: usize) -> io::Result<()> {
    let mut buffer = [99u16; 5];
    let lent = room.min(5);
    let after = steps::run_list(b, list(), count, &mut buffer[..lent]);
    let [first, second, third, fourth, fifth] = buffer.map(u64::from);
    rows.row(&[
        u64::from(board::is_sound(b)),
        count as u64,
        lent as u64,
        u64::from(number_of(after.ran)),
        after.ran.unwrap_or(0) as u64,
        first,
        second,
        third,
        fourth,
        fifth,
        after.board.debt,
    ])
}

// A fresh board, and the same with a debt that nothing holds; on each five lengths of the list, with each of them six of the buffer.
pub(crate) fn all(to: &impl Print) -> io::Result<()> {
    let fresh = board::open(2, 1, &[0]).board;
    let mut rows = Rows::under(to, "runs")?;
    for b in [fresh, Board { debt: 1, ..fresh }] {
        for count in 0..5 {
            for room in 0..6 {
                row(&mut rows, b, count, room)?;
            }
        }
    }
    Ok(())
}
