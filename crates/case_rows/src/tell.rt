// The lines that a case writes.
use crate::cases::Case;
use crate::changes;
use crate::edits::{after, opened, small, step_of};
use crate::words::{Word, kind_word};
use casetext::{Step, Told};
use refusals::{Refusal, number_of};
use rules::{Board, Finding, Outcome};
use std::io;

// Answer, debt and verdict, then what is not as on the board a.
fn outcome(to: &impl Print, a: Board, out: Outcome, kept: &str) -> io::Result<Board> {
    let verdict = Told(board::finished(out.board).map_err(Refusal::number));
    print!(to;
        "\t{}\t{}\t{verdict}",
        number_of(out.answer),
        out.board.debt
    )?;
    changes::tell(to, a, out.board, kept)?;
    Ok(out.board)
}

fn cells(to: &impl Print, numbers: &[u64]) -> io::Result<()> {
    for n in numbers {
        print!(to; "\t{n}")?;
    }
    Ok(())
}

fn name(to: &impl Print, case: &Case<'_>) -> io::Result<()> {
    to.write_all(case.name)?;
    cells(to, &case.numbers)
}

// The word of a step's kind; a kind outside 1 to 8 has only its number.
fn step(to: &impl Print, b: Board, kind: u64, case: &Case<'_>) -> io::Result<Board> {
    match kind_word(kind) {
        Some(word) => to.write_all(word)?,
        None => print!(to; "{kind}")?,
    }
    cells(to, &case.numbers[..3])?;
    outcome(to, b, steps::step(b, step_of(kind, case)), "kept")
}

// What an opening hands back is held against a blank board.
fn opening(to: &impl Print, case: &Case<'_>) -> io::Result<Board> {
    name(to, case)?;
    outcome(to, board::blank(), opened(case), "blank")
}

fn tell_depth(to: &impl Print, depth: Result<u16, Refusal>) -> io::Result<()> {
    match depth {
        Ok(depth) => print!(to; "\tdeep\t{depth}"),
        Err(refusal) => print!(to; "\t{}", refusal.number()),
    }
}

fn depth(to: &impl Print, b: Board, unit: u64) -> io::Result<Board> {
    print!(to; "depth\t{unit}")?;
    tell_depth(to, board::depth_of(b, small(unit)))?;
    println!(to)?;
    Ok(b)
}

fn begin(to: &impl Print, b: Board) -> io::Result<Board> {
    print!(to; "begin")?;
    outcome(to, b, rounds::begin(b), "kept")
}

fn found(finding: Result<Finding, Refusal>) -> &'static str {
    match finding {
        Ok(Finding::NoVerdict) => "no verdict yet",
        Ok(Finding::AllQuiet) => "quiet",
        Ok(Finding::Unsettled) => "unsettled",
        Err(_) => "refused",
    }
}

fn visit(to: &impl Print, b: Board, unit: u64) -> io::Result<Board> {
    let visited = rounds::visit(b, small(unit));
    print!(to; "visit\t{unit}\t{}", found(visited.finding))?;
    let out = Outcome {
        board: visited.board,
        answer: visited.finding.map(|_| ()),
    };
    outcome(to, b, out, "kept")
}

// Whether the edited board is sound, and what a step, depth and finished answer. No sound board takes the step, since unit 0 never waits:
// 38.
fn edit(to: &impl Print, b: Board, case: &Case<'_>) -> io::Result<Board> {
    let edited = after(b, case);
    name(to, case)?;
    let sound = if board::is_sound(edited) {
        "sound"
    } else {
        "unsound"
    };
    let answer = number_of(steps::step(edited, Step::Tick(0).into()).answer);
    print!(to; "\t{sound}\t{answer}")?;
    tell_depth(to, board::depth_of(edited, 0))?;
    let verdict = Told(board::finished(edited).map_err(Refusal::number));
    println!(to; "\t{verdict}")?;
    Ok(edited)
}

// Runs a case, writes what it gives, and hands back the board after it.
pub(crate) fn case(to: &impl Print, b: Board, case: &Case<'_>) -> io::Result<Board> {
    let first = case.numbers[0];
    match case.word {
        Word::Open | Word::Chain => opening(to, case),
        Word::Step(kind) => step(to, b, kind, case),
        Word::Depth => depth(to, b, first),
        Word::Begin => begin(to, b),
        Word::Visit => visit(to, b, first),
        _ => edit(to, b, case),
    }
}
