// The cases of standard input: openings, steps, depths and damages, each told with what the calls answer.
#![tactic(auto)]

mod cases;
mod changes;
mod edits;
mod lines;
mod tell;
mod words;

use casetext::PassingOver;
use reading::read_full;

fn main(rt: HostRuntime) {
    let mut input = [0u8; 65536];
    let n = read_full(&mut rt.stdin(), &mut input);
    // What cannot be written is passed over, so this ends in no error.
    let _ = lines::all(&PassingOver(&rt), &input[..n]);
}
