// The blocks of standard input, each a title and a script: of the board that the script leaves, the longest drain.
#![tactic(auto)]

mod blocks;
mod tell;

use blocks::Blocks;
use casetext::PassingOver;
use reading::read_full;
use std::io;

fn all(to: &impl Print, text: &[u8]) -> io::Result<()> {
    for (title, script) in Blocks(text) {
        tell::block(to, title, script)?;
    }
    Ok(())
}

fn main(rt: HostRuntime) {
    let mut input = [0u8; 65536];
    let n = read_full(&mut rt.stdin(), &mut input);
    // What cannot be written is passed over, so this ends in no error.
    let _ = all(&PassingOver(&rt), &input[..n]);
}
