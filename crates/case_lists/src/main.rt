// Lists of steps: the whole case, one unit that sends as often as it can, and runs.
#![tactic(auto)]

mod lists;
mod runs;
mod sends;
mod whole;

use casetext::PassingOver;
use std::io;

fn all(to: &impl Print) -> io::Result<()> {
    whole::all(to)?;
    sends::all(to)?;
    runs::all(to)
}

fn main(rt: HostRuntime) {
    // What cannot be written is passed over, so this ends in no error.
    let _ = all(&PassingOver(&rt));
}
