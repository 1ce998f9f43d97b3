// The writers of a listing: its heading, and four lines.
use crate::edges;
use crate::rows::Rows;
use refusals::Refusal;
use rules::Verdict;
use std::io;

// 2^24, what a start brings.
const GRANT: u64 = 16777216;

// 2^40, the most debt.
const MOST: u64 = 1099511627776;

pub(crate) fn all(to: &impl Print) -> io::Result<()> {
    let mut rows = Rows::under(to, "heads")?;
    edges::all(&mut rows, 0, |out, at| texts::write_heading(out, at))?;
    edges::all(&mut rows, 1, |out, at| {
        texts::write_line(0, 0, 0, Ok::<_, Refusal>(Verdict::Finished), out, at)
    })?;
    edges::all(&mut rows, 2, |out, at| {
        texts::write_line(10, 41, GRANT, Ok::<_, Refusal>(Verdict::Working), out, at)
    })?;
    edges::all(&mut rows, 3, |out, at| {
        texts::write_line(65535, 9, MOST, Ok::<_, Refusal>(Verdict::Working), out, at)
    })?;
    edges::all(&mut rows, 4, |out, at| {
        texts::write_line(0, 25, 0, Err(Refusal::BoardLine), out, at)
    })
}
