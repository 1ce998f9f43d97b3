// The census table for a trainer: for every board that a census takes and every length, how the lists of steps end. The library decides all
// numbers; the words and the layout are decided here.
#![tactic(auto)]

mod rows;

use reading::Failure;
use rows::{Tree, row};
use std::io;

// The trees of one, two and three units.
const TREES: [Tree; 4] = [
    Tree {
        parents: &[],
        told: "-",
    },
    Tree {
        parents: &[0],
        told: "0",
    },
    Tree {
        parents: &[0, 0],
        told: "0 0",
    },
    Tree {
        parents: &[0, 1],
        told: "0 1",
    },
];

// One or two slots, and delay 0 or 1.
const SIZES: [(u16, u16); 4] = [(1, 0), (1, 1), (2, 0), (2, 1)];

// An empty line, then a row for each length.
fn board_rows(to: &impl Print, tree: &Tree, slots: u16, delay: u16) -> io::Result<()> {
    println!(to)?;
    for length in 0..=4 {
        row(to, tree, slots, delay, length)?;
    }
    Ok(())
}

fn tree_rows(to: &impl Print, tree: &Tree) -> io::Result<()> {
    for (slots, delay) in SIZES {
        board_rows(to, tree, slots, delay)?;
    }
    Ok(())
}

// Fails where the output takes no more.
fn table(to: &impl Print) -> io::Result<()> {
    println!(to;
        "slots  delay  parents  length    lists   finished   share       busy   share      other   share"
    )?;
    for tree in &TREES {
        tree_rows(to, tree)?;
    }
    Ok(())
}

fn main(rt: HostRuntime) {
    if let Err(failure) = table(&rt).map_err(Failure::Writing) {
        // Where this line cannot be written either, there is nobody left to tell.
        let _ = eprintln!(rt; "sheetcensus: {failure}");
    }
}
