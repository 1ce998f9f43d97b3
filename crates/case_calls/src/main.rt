// What the run, the writers and the census answer where no script reaches: short buffers, kinds that no step has, little room for a line,
// and sizes that are not counted.
#![tactic(auto)]

mod censuses;
mod edges;
mod heads;
mod rows;
mod runs;
mod writes;

use casetext::PassingOver;
use std::io;

fn all(to: &impl Print) -> io::Result<()> {
    runs::all(to)?;
    writes::all(to)?;
    heads::all(to)?;
    censuses::all(to)
}

fn main(rt: HostRuntime) {
    // What cannot be written is passed over, so this ends in no error.
    let _ = all(&PassingOver(&rt));
}
