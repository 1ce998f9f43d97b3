// A row of the table: a board, a length, and how the lists end.
use census::{census, lists, shares};
use std::{fmt, io};

// The parents of the units from unit 1 on, and how they are told.
pub(crate) struct Tree {
    pub(crate) parents: &'static [u16],
    pub(crate) told: &'static str,
}

// How many lists are of one sort, and their share in thousandths.
#[derive(Clone, Copy)]
struct Sort(u32, u16);

// The share as a percentage with one decimal.
impl fmt::Display for Sort {
    fn fmt<W: fmt::Write>(&self, f: &mut fmt::Formatter<W>) -> fmt::Result {
        let Sort(count, share) = *self;
        write!(f, "{count:>11}{:>5}.{}%", share / 10, share % 10)
    }
}

// All lists, then those of each sort. The numbers come first, and one call prints the row, in one write: a program that is stopped leaves no part
// of a row.
pub(crate) fn row(
    to: &impl Print,
    tree: &Tree,
    slots: u16,
    delay: u16,
    length: u16,
) -> io::Result<()> {
    let told = tree.told;
    match census(slots, delay, tree.parents, length) {
        Ok(ends) => {
            let all = lists(ends);
            let share = shares(ends);
            let finished = Sort(ends.finished, share.finished);
            let busy = Sort(ends.busy, share.busy);
            let other = Sort(ends.other, share.other);
            println!(to; "{slots:>5}{delay:>7}{told:>9}{length:>8}{all:>9}{finished}{busy}{other}")
        }
        // No board of the table is refused; else the number would stand for the lists, in a line as long as the others.
        Err(refusal) => {
            let number = refusal.number();
            println!(to;
                "{slots:>5}{delay:>7}{told:>9}{length:>8}{number:>9}{:57}",
                ""
            )
        }
    }
}
