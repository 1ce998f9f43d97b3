// Lines that are read and steps that are written: every refusal, and each two neighbours in the order of refusals that can fail together.
#![tactic(auto)]

mod lines;
mod long;
mod tell;
mod writes;

use casetext::PassingOver;
use std::io;
use tell::{first, later};

// Each line is told by what reads it: as a first line, or as a later one.
fn table<P: Print, F: Fn(&P, &[u8]) -> io::Result<()>>(
    to: &P,
    title: &str,
    lines: &[&[u8]],
    tell: F,
) -> io::Result<()>
    requires { F.IsAlwaysCallable tell }
{
    println!(to; "{title}")?;
    for line in lines {
        tell(to, line)?;
    }
    Ok(())
}

fn all(to: &impl Print) -> io::Result<()> {
    table(to, "first lines", &lines::FIRST_LINES, first)?;
    table(to, "other first lines", &lines::OTHER_FIRST_LINES, first)?;
    table(to, "steps", &lines::STEPS, later)?;
    table(to, "words", &lines::WORDS, later)?;
    table(to, "counts", &lines::COUNTS, later)?;
    table(to, "numbers", &lines::NUMBERS, later)?;
    table(to, "digits", &lines::DIGITS, later)?;
    table(to, "padded", &lines::PADDED, later)?;
    table(to, "padded fields", &lines::PADDED_FIELDS, later)?;
    table(to, "padded first lines", &lines::PADDED_FIRST_LINES, first)?;
    long::all(to)?;
    writes::written(to)?;
    writes::not_written(to)
}

fn main(rt: HostRuntime) {
    // What cannot be written is passed over, so this ends in no error.
    let _ = all(&PassingOver(&rt));
}
