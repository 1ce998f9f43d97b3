// The listing of a script, in parts and at once; and what a script leaves at its end.
#![tactic(auto)]

mod bounds;
mod cursors;
mod endings;
mod gathering;
mod parts;
mod rows;
mod starting;
mod turns;
mod whole;

pub use cursors::{beginning, is_ended};
pub use endings::ending;
pub use parts::list_part;
use refusals::Refusal;
use rules::Board;
pub use whole::{list_all, listing_length};

// A longer script is refused.
pub(crate) const MOST_BYTES: usize = 65535;

// The script line that is next: its place in the script, its number, and the board before it.
#[derive(Clone, Copy)]
pub struct NextLine {
    pub at: usize,
    pub line: u32,
    pub board: Board,
}

// Where a listing that is written in parts has come to: its beginning, or behind a script line.
#[derive(Clone, Copy)]
pub enum Cursor {
    Beginning,
    Behind(NextLine),
}

// One part of a listing: how many bytes were written, or what refused the call, and the cursor behind it.
// A refused call has a cursor too, (a): `part_of` of specs/Parts.antt gives the one that it was handed, from where a larger buffer goes on.
#[derive(Clone, Copy)]
pub struct Part {
    pub wrote: Result<usize, Refusal>,
    pub cursor: Cursor,
}
