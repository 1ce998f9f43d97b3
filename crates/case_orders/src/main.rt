// The pairs of standard input: two steps in both orders, each told with what they answer and whether both orders leave the same board.
#![tactic(auto)]

mod building;
mod lines;
mod pairs;
mod same;

use casetext::PassingOver;
use reading::read_full;

fn main(rt: HostRuntime) {
    let mut input = [0u8; 65536];
    let n = read_full(&mut rt.stdin(), &mut input);
    // What cannot be written is passed over, so this ends in no error.
    let _ = lines::all(&PassingOver(&rt), &input[..n]);
}
