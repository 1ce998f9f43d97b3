// The whole case through the library's calls: for each step its number, answer and debt, and whether the sheet is finished.
use crate::lists::WHOLE_CASE;
use casetext::bytes_put;
use refusals::number_of;
use rules::{Board, Outcome};
use std::io;
use texts::{write_heading, write_line};

fn heading(to: &impl Print) -> io::Result<()> {
    let mut out = [0u8; 64];
    let wrote = write_heading(&mut out, 0);
    to.write_all(bytes_put(wrote, &out))
}

fn line(to: &impl Print, i: u64, given: Outcome) -> io::Result<Board> {
    let b = given.board;
    let mut out = [0u8; 64];
    let answer = u64::from(number_of(given.answer));
    let wrote = write_line(i, answer, b.debt, board::finished(b), &mut out, 0);
    to.write_all(bytes_put(wrote, &out))?;
    Ok(b)
}

pub(crate) fn all(to: &impl Print) -> io::Result<()> {
    heading(to)?;
    let mut b = line(to, 0, board::open(2, 1, &[0]))?;
    for (i, step) in (1..).zip(WHOLE_CASE) {
        b = line(to, i, steps::step(b, step.into()))?;
    }
    Ok(())
}
