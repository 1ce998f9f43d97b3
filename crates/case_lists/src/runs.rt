// Runs over a list: what the buffer holds after each, what it gives, and the debt and the state of the board after it.
use crate::lists::{MOVES, REFUSALS, REST_OF_IT, WHOLE_CASE, list_of};
use casetext::{Step, bytes_put, put_row, put_verdict};
use refusals::Refusal;
use rules::{Board, Verdict};
use std::io;

fn tell_ran(to: &impl Print, ran: Result<usize, Refusal>) -> io::Result<()> {
    match ran {
        Ok(zeros) => print!(to; "zeros\t{zeros}"),
        Err(refusal) => print!(to; "refused\t{}", refusal.number()),
    }
}

// The whole buffer, in a line that is written by one call.
fn tell_buffer(to: &impl Print, buffer: [u16; 18]) -> io::Result<()> {
    let numbers = buffer.map(u64::from);
    let mut out = [0u8; 128];
    let wrote = put_row(numbers[0], &numbers[1..], &mut out, 0);
    to.write_all(bytes_put(wrote, &out))
}

fn tell_verdict(to: &impl Print, told: Result<Verdict, Refusal>) -> io::Result<()> {
    let mut out = [0u8; 20];
    let wrote = put_verdict(told.map_err(Refusal::number), &mut out, 0);
    to.write_all(bytes_put(wrote, &out))
}

// Runs the first `count` steps with room for `room` answers, and tells what the whole buffer holds then.
fn run(
    to: &impl Print,
    title: &str,
    b: Board,
    steps: &[Step],
    count: usize, // as the case asks: it may be more than there are
    room: usize,
) -> io::Result<Board> {
    let mut buffer = [99u16; 18];
    let after = steps::run_list(b, list_of(steps), count, &mut buffer[..room.min(18)]);
    println!(to; "{title}")?;
    tell_buffer(to, buffer)?;
    tell_ran(to, after.ran)?;
    print!(to; "\t{}\t", after.board.debt)?;
    tell_verdict(to, board::finished(after.board))?;
    println!(to)?;
    Ok(after.board)
}

// On the board that the refusals left.
fn on_from(to: &impl Print, b: Board) -> io::Result<()> {
    run(to, "a buffer one short", b, &REST_OF_IT, 2, 1)?;
    run(to, "on from there", b, &REST_OF_IT, 2, 2)?;
    run(to, "an empty list", b, &REST_OF_IT, 0, 0)?;
    Ok(())
}

fn not_sound(to: &impl Print, b: Board) -> io::Result<()> {
    run(to, "a board that is not sound", b, &REST_OF_IT, 2, 2)?;
    run(to, "the same with a buffer one short", b, &REST_OF_IT, 2, 1)?;
    run(to, "the same with an empty list", b, &REST_OF_IT, 0, 0)?;
    Ok(())
}

pub(crate) fn all(to: &impl Print) -> io::Result<()> {
    let fresh = board::open(2, 1, &[0]).board;
    run(to, "whole case", fresh, &WHOLE_CASE, 9, 18)?;
    let b = run(to, "refusals in the list", fresh, &REFUSALS, 17, 17)?;
    on_from(to, b)?;
    not_sound(to, Board { debt: 16383, ..b })?;
    let chain = board::open(2, 0, &[0, 1]).board;
    run(to, "moves in the list", chain, &MOVES, 13, 18)?;
    Ok(())
}
