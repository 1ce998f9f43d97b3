// Censuses of the least and the largest size, then of sizes and parents that are refused.
use crate::rows::Rows;
use census::Ends;
use refusals::number_of;
use std::io;

// The most parents of a call, 2^16 + 1: narrowed to 16 bits, that count would be in reach.
const MOST: usize = 65537;

const NONE: Ends = Ends {
    finished: 0,
    busy: 0,
    other: 0,
};

// What is asked, the first two parents among it, and what the census gives: the refusal and the three counts, 0 where there are none.
fn row<P: Print>(
    rows: &mut Rows<'_, P>,
    m: u16,
    d: u16,
    parents: &[u16],
    length: u16,
) -> io::Result<()> {
    let counted = census::census(m, d, parents, length);
    let ends = counted.unwrap_or(NONE);
    rows.row(&[
        u64::from(m),
        u64::from(d),
        parents.len() as u64,
        u64::from(parents.first().copied().unwrap_or(0)),
        u64::from(parents.get(1).copied().unwrap_or(0)),
        u64::from(length),
        u64::from(number_of(counted)),
        u64::from(ends.finished),
        u64::from(ends.busy),
        u64::from(ends.other),
    ])
}

fn sizes<P: Print>(rows: &mut Rows<'_, P>) -> io::Result<()> {
    row(rows, 1, 0, &[], 0)?; // the least
    row(rows, 2, 1, &[0, 1], 4)?; // the largest
    row(rows, 0, 0, &[], 0)?; // the slots
    row(rows, 3, 0, &[], 0)?;
    row(rows, 65535, 0, &[], 0)?;
    row(rows, 258, 0, &[], 0)?; // in reach in its last 8 bits
    row(rows, 1, 2, &[], 0)?; // the delay
    row(rows, 1, 256, &[], 0)?;
    row(rows, 1, 65535, &[], 0)?;
    row(rows, 1, 0, &[], 5)?; // the length
    row(rows, 1, 0, &[], 256)?;
    row(rows, 1, 0, &[], 65535)
}

fn parents<P: Print>(rows: &mut Rows<'_, P>) -> io::Result<()> {
    row(rows, 1, 0, &[0; 3], 0)?; // how many there are
    row(rows, 1, 0, &[0; 64], 0)?;
    row(rows, 1, 0, &[0; MOST], 0)?;
    row(rows, 1, 0, &[1], 0)?; // one that is not below its unit
    row(rows, 1, 0, &[0, 2], 0)?;
    row(rows, 1, 0, &[0, 65535], 1)?;
    row(rows, 1, 0, &[256], 0)?;
    row(rows, 0, 0, &[1], 0)?; // such a parent, and a size or the length out of reach
    row(rows, 3, 0, &[1], 0)?;
    row(rows, 1, 2, &[1], 0)?;
    row(rows, 1, 0, &[1], 5)?;
    row(rows, 1, 0, &[1, 0, 0], 0)
}

pub(crate) fn all(to: &impl Print) -> io::Result<()> {
    let mut rows = Rows::under(to, "censuses")?;
    sizes(&mut rows)?;
    parents(&mut rows)
}
