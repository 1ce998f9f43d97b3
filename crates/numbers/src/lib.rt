// The number fields of a line, and the lines of a text: bytes, with no word and no board.
#![tactic(auto)]

mod lines;
mod reading;
mod zeros;

pub use lines::line_at;
pub use reading::read_numbers;
use refusals::Refusal;

// As many numbers as a line of 255 bytes has room for.
pub const ROOM: usize = 128;

// The number fields of a line: how many there are, and their values with zeros behind them, or what refuses the line. The
// count stands outside the values, since a refused line has one too, and 23 is asked by it.
#[derive(Clone, Copy)]
pub struct Numbers {
    pub count: usize,
    pub values: Result<[u16; ROOM], Refusal>,
}

// Where a line of a text ends, and where the line behind it begins.
#[derive(Clone, Copy)]
pub struct LineAt {
    pub end: usize,
    pub next: usize,
}
