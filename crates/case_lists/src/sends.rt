// One unit sends from 2^24 until its weight is 1: 1,978 times, 961 of them down to below 2^20. Each message is delivered before the next, so that the slot is free.
use casetext::Step;
use refusals::number_of;
use rules::{Board, Outcome};
use std::io;

const SENDS: u32 = 1978;

fn step(b: Board, step: Step) -> Outcome {
    steps::step(b, step.into())
}

fn row(to: &impl Print, k: u32, sent: Outcome) -> io::Result<()> {
    let left = sent.board.units[0].weight;
    println!(to; "{k}\t{}\t{left}", number_of(sent.answer))
}

// Send k, from unit 0 to unit 1 by slot 0, and its delivery. Every hundredth send is written, and one that is refused.
fn send(to: &impl Print, b: Board, k: u32) -> io::Result<Board> {
    let sent = step(b, Step::Send(0, 1, 0));
    if k % 100 == 0 || sent.answer.is_err() {
        row(to, k, sent)?;
    }
    Ok(step(sent.board, Step::Deliver(0)).board)
}

// The last send that is accepted, and the next.
fn last_sends(to: &impl Print, b: Board) -> io::Result<Board> {
    let last = step(b, Step::Send(0, 1, 0));
    row(to, SENDS, last)?;
    let delivered = step(last.board, Step::Deliver(0)).board;
    let next = step(delivered, Step::Send(0, 1, 0));
    row(to, SENDS + 1, next)?;
    Ok(next.board)
}

pub(crate) fn all(to: &impl Print) -> io::Result<()> {
    println!(to; "send\tanswer\tleft")?;
    let fresh = board::open(1, 0, &[0]).board;
    let mut b = step(fresh, Step::Start(0)).board;
    for k in 1..SENDS {
        b = send(to, b, k)?;
    }
    let left = last_sends(to, b)?;
    let received = left.units[1].weight;
    println!(to; "received\t{received}")?;
    println!(to; "debt\t{}", left.debt)
}
