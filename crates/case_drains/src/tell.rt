// What the calls give of a board.
use drains::{longest_length, short_drain};
use listing::ending;
use refusals::{Refusal, number_of};
use rules::{Board, StepRecord};
use script::write_step;
use std::io;

fn told(to: &impl Print, word: &str, r: Result<usize, Refusal>) -> io::Result<()> {
    match r {
        Ok(n) => println!(to; "{word}\t{n}"),
        Err(refusal) => println!(to; "refused\t{}", refusal.number()),
    }
}

// A step as its line of a script.
fn step_line(to: &impl Print, r: StepRecord) -> io::Result<()> {
    let mut line = [0u8; 32];
    match write_step(r, &mut line, 0) {
        Ok(n) => to.write_all(&line[..n.min(32)]),
        Err(refusal) => println!(to; "refused\t{}", refusal.number()),
    }
}

// The length on the board as it is and on one that is not sound, and the list by value.
fn drain(to: &impl Print, b: Board) -> io::Result<()> {
    told(to, "length", longest_length(b))?;
    let damaged = Board { delay: 256, ..b };
    println!(to; "damaged\t{}", number_of(longest_length(damaged)))?;
    let short = short_drain(b);
    told(to, "list", short.longest)?;
    for step in short.steps.iter().take(short.longest.unwrap_or(0)) {
        step_line(to, *step)?;
    }
    Ok(())
}

// A script whose first line is refused leaves no board.
fn left(to: &impl Print, script: &[u8]) -> io::Result<()> {
    let end = ending(script);
    match end.answer {
        Ok(()) => drain(to, end.board),
        Err(refusal) => println!(to; "refused\t{}", refusal.number()),
    }
}

// The title has the byte that ends its line.
pub(crate) fn block(to: &impl Print, title: &[u8], script: &[u8]) -> io::Result<()> {
    to.write_all(title)?;
    left(to, script)?;
    println!(to)
}
