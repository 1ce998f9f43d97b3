// The lines of the cases, in order:
//   # ..           told as it stands
//   FIRST;SECOND   a pair of steps, told; the board stays as it was
//   round          a counting round on the board
//   board ..       opens the board on which the lines behind it build
// Any other line is a step on that board, but for an empty one.
use crate::building::{built, counted};
use crate::pairs;
use rules::Board;
use std::io;

// The two steps of a line that has a pair.
fn pair(line: &[u8]) -> Option<(&[u8], &[u8])> {
    let middle = line.iter().position(|byte| *byte == b';')?;
    Some((&line[..middle], &line[middle + 1..]))
}

// The board behind a line.
fn turn(to: &impl Print, b: Board, line: &[u8]) -> io::Result<Board> {
    match line {
        [] => {}
        [b'#', ..] => {
            to.write_all(line)?;
            println!(to)?;
        }
        b"round" => return Ok(counted(b)),
        _ => match pair(line) {
            Some((first, second)) => pairs::tell(to, b, first, second)?,
            None => return Ok(built(b, line)),
        },
    }
    Ok(b)
}

pub(crate) fn all(to: &impl Print, input: &[u8]) -> io::Result<()> {
    let mut b = board::blank();
    for line in input.split(|byte| *byte == b'\n') {
        b = turn(to, b, line)?;
    }
    Ok(())
}
