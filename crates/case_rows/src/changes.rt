// How a board differs from another: a line for each entry that does.
use casetext::entry_in;
use rules::Board;
use std::io;

// 64 parents, 64 units, 256 slots, 64 counts, 64 marks, and the open round.
const ENTRIES: usize = 513;

const STATES: [&str; 3] = ["idle", "active", "waiting"];

const KINDS: [&str; 5] = ["empty", "work", "return", "request", "supply"];

const SUSPENSIONS: [&str; 2] = ["free", "suspended"];

const ROUNDS: [&str; 3] = ["none", "one", "two"];

// The word that stands for a number of an entry.
fn word(words: &'static [&'static str], place: u64) -> &'static str {
    words.get(place as usize).copied().unwrap_or("")
}

fn unit(to: &impl Print, i: usize, entry: [u64; 4]) -> io::Result<()> {
    let [state, weight, countdown, suspended] = entry;
    let state = word(&STATES, state);
    let suspension = word(&SUSPENSIONS, suspended);
    print!(to; "\n\tunit\t{i}\t{state}\t{weight}\t{countdown}\t{suspension}")
}

fn slot(to: &impl Print, j: usize, entry: [u64; 4]) -> io::Result<()> {
    let [kind, from, to_unit, weight] = entry;
    let kind = word(&KINDS, kind);
    print!(to; "\n\tslot\t{j}\t{kind}\t{from}\t{to_unit}\t{weight}")
}

fn round(to: &impl Print, entry: [u64; 4]) -> io::Result<()> {
    let [round, processed, created, _] = entry;
    let round = word(&ROUNDS, round);
    print!(to; "\n\tround\t{round}\t{processed}\t{created}")
}

// Entry i of a board, under its word and its place among those of its kind.
fn tell_entry(to: &impl Print, i: usize, entry: [u64; 4]) -> io::Result<()> {
    let [first, second, _, _] = entry;
    match i {
        0..=63 => print!(to; "\n\tparent\t{i}\t{first}"),
        64..=127 => unit(to, i - 64, entry),
        128..=383 => slot(to, i - 128, entry),
        384..=447 => print!(to; "\n\tcounts\t{}\t{first}\t{second}", i - 384),
        448..=511 => print!(to; "\n\tmark\t{}\t{first}", i - 448),
        _ => round(to, entry),
    }
}

// Writes how b differs from a, or the word `kept` where it does not. The debt is not written: it stands in the case's line.
pub(crate) fn tell(to: &impl Print, a: Board, b: Board, kept: &str) -> io::Result<()> {
    if a == b {
        return println!(to; "\t{kept}");
    }
    if (a.n, a.m, a.delay) != (b.n, b.m, b.delay) {
        print!(to; "\n\tsizes\t{}\t{}\t{}", b.n, b.m, b.delay)?;
    }
    for i in 0..ENTRIES {
        let entry = entry_in(&b, i);
        if entry_in(&a, i) != entry {
            tell_entry(to, i, entry)?;
        }
    }
    println!(to)
}
