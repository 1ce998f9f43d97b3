// The lines of the cases, in order. Each line begins with a word:
//   blank       a blank board, on which the cases that follow build
//   keep        the board that was built is the stage
//   stage       the stage again
//   run TITLE   the cases that follow are told, each on the board that the one before it left
//   each TITLE  the cases that follow are told, each on the same board
// Any other line is a case, but for an empty one and one that begins with #.
use crate::cases::case_of;
use crate::{edits, tell};
use fields::field;
use rules::Board;
use std::io;

// What is done with the cases that follow.
#[derive(Clone, Copy)]
enum Mode {
    Build,
    Run,
    Each,
}

// What the lines so far led to.
#[derive(Clone, Copy)]
struct Play {
    mode: Mode,
    stage: Board,
    board: Board,
}

fn titled(to: &impl Print, line: &[u8]) -> io::Result<()> {
    to.write_all(field(line, 1))?;
    println!(to)
}

impl Play {
    fn build(&mut self, board: Board) {
        self.mode = Mode::Build;
        self.board = board;
    }

    fn case(&mut self, to: &impl Print, line: &[u8]) -> io::Result<()> {
        let case = case_of(line);
        match self.mode {
            Mode::Build => self.board = edits::after(self.board, &case),
            Mode::Run => self.board = tell::case(to, self.board, &case)?,
            Mode::Each => {
                tell::case(to, self.board, &case)?;
            }
        }
        Ok(())
    }

    fn turn(&mut self, to: &impl Print, line: &[u8]) -> io::Result<()> {
        if line.is_empty() || line.starts_with(b"#") {
            return Ok(());
        }
        match field(line, 0) {
            b"blank" => self.build(board::blank()),
            b"keep" => {
                self.mode = Mode::Build;
                self.stage = self.board;
            }
            b"stage" => self.build(self.stage),
            b"run" => {
                self.mode = Mode::Run;
                titled(to, line)?;
            }
            b"each" => {
                self.mode = Mode::Each;
                titled(to, line)?;
            }
            _ => self.case(to, line)?,
        }
        Ok(())
    }
}

pub(crate) fn all(to: &impl Print, input: &[u8]) -> io::Result<()> {
    let blank = board::blank();
    let mut play = Play {
        mode: Mode::Build,
        stage: blank,
        board: blank,
    };
    for line in input.split(|byte| *byte == b'\n') {
        play.turn(to, line)?;
    }
    Ok(())
}
