// What a line does to the board, with nothing told.
use rules::{Board, NO_STEP, StepRecord};
use script::{Line, read_board, read_step};

// Every board refuses a line that is no step, and stays as it was.
pub(crate) fn step_of(line: &[u8]) -> StepRecord {
    read_step(line).unwrap_or(NO_STEP)
}

// A line that opens no board is a step.
pub(crate) fn built(b: Board, line: &[u8]) -> Board {
    let read = read_board(line);
    match read.reading {
        Ok(Line::Opens(m, d, count)) => {
            let parents = &read.parents[..usize::from(count)];
            board::open(m, d, parents).board
        }
        _ => steps::step(b, step_of(line)).board,
    }
}

// A counting round begins and visits the units in ascending order, each on the board that the one before left.
pub(crate) fn counted(b: Board) -> Board {
    (0..b.n).fold(
        rounds::begin(b).board,
        |b, unit| rounds::visit(b, unit).board,
    )
}
