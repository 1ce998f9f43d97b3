// The lines of a script: what a line says, the parents of a board line, and a step written as a line.
#![tactic(auto)]

mod letters;
mod lines;
mod words;
mod writing;

ghost use Rattle.std.specs.Prelude.{◌≡◌};
ghost use Rattle.script.specs.Lines.{step_of};

pub use lines::{read_board, read_line, read_step};
use numbers::ROOM;
use refusals::Refusal;
use rules::StepRecord;
pub use writing::write_step;

// What a line of a script says: a board line with M, d and the number of its parents, or a step.
// The parents themselves stand beside it in `BoardLine`, as in the definition.
#[derive(Clone, Copy)]
pub enum Line {
    Opens(u16, u16, u16),
    Asks(StepRecord),
}

impl Line {
    // The step that the line asks for, where one is due.
    pub fn step(self) -> Result<StepRecord, Refusal>
        ensures { result ≡ step_of self }
    {
        match self {
            Line::Opens(..) => Err(Refusal::BoardLine),
            Line::Asks(step) => Ok(step),
        }
    }
}

// A first line, with the parents of a line that opens a board and zeros behind them. They stand beside the reading, (a): `board_line` of
// specs/Lines.antt has zeros for them where a line opens no board.
#[derive(Clone, Copy)]
pub struct BoardLine {
    pub reading: Result<Line, Refusal>,
    pub parents: [u16; ROOM],
}
