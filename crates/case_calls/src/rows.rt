// The rows of a table, under its title: each begins with its number.
use casetext::{bytes_put, put_row};
use std::io;

// The most bytes that a row has.
const MOST: usize = 256;

#[derive(Drop)]
pub(crate) struct Rows<'a, P> {
    to: &'a P,
    next: u64,
}

impl<'a, P: Print> Rows<'a, P> {
    pub(crate) fn under(to: &'a P, title: &str) -> io::Result<Self> {
        println!(to; "{title}")?;
        Ok(Rows { to, next: 0 })
    }

    // Writes the next row by one call, so that none is left half written.
    pub(crate) fn row(&mut self, cells: &[u64]) -> io::Result<()> {
        let mut line = [0u8; MOST];
        let wrote = put_row(self.next, cells, &mut line, 0);
        self.next = self.next.wrapping_add(1);
        self.to.write_all(bytes_put(wrote, &line))
    }
}
