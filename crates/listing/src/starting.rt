// The first line of a script: the board that it opens, or what refuses it.
ghost use Rattle.std.specs.Prelude.{◌≡◌, true, ◌++◌};
ghost use Rattle.refusals.specs.Numbers.{number_of};
ghost use Rattle.rules.specs.Opening.{refused_by};
ghost use Rattle.script.specs.Lines.{reading, parents_of};
ghost use Rattle.placing.specs.Placing.{Writes};
ghost use Rattle.texts.specs.Texts.{heading, board_text};
ghost use Rattle.listing.specs.Scripts.{first_outcome, start_outcome};
ghost use Rattle.listing.specs.Turns.{start_place};

use crate::MOST_BYTES;
use board::{blank, finished, open};
use numbers::line_at;
use refusals::{Refusal, number_of};
use rules::Outcome;
use script::{Line, read_board};
use texts::{write_heading, write_line};

fn refused(refusal: Refusal) -> Outcome
    ensures { result ≡ refused_by refusal }
{
    Outcome {
        board: blank(),
        answer: Err(refusal),
    }
}

fn first_outcome(line: &[u8]) -> Outcome
    ensures { result ≡ first_outcome (parents_of line.now) (reading true line.now) }
{
    let b = read_board(line);
    match b.reading {
        Ok(Line::Opens(m, d, count)) => open(m, d, &b.parents[..usize::from(count)]),
        Ok(Line::Asks(_)) => refused(Refusal::BoardLine),
        Err(refusal) => refused(refusal),
    }
}

// The script's length is judged before its first line is looked for.
pub(crate) fn start_outcome(script: &[u8]) -> Outcome
    ensures { result ≡ start_outcome script.now }
{
    if script.len() > MOST_BYTES {
        return refused(Refusal::ScriptTooLong);
    }
    if script.is_empty() {
        return refused(Refusal::BoardLine);
    }
    first_outcome(&script[..line_at(script, 0).end])
}

// Where the first piece leaves off, by its answer.
pub(crate) fn start_place(answer: Result<(), Refusal>, script: &[u8]) -> usize
    ensures { result ≡ start_place script.now answer }
{
    match answer {
        Ok(()) => line_at(script, 0).next,
        Err(_) => script.len(),
    }
}

// The heading and the first line, or nothing. The line is written first: where it fits behind the heading, the heading fits too.
pub(crate) fn write_first(o: Outcome, out: &mut [u8]) -> Result<usize, Refusal>
    ensures { Writes (heading ++ board_text 0 (number_of o.answer) o.board) 0 out.old result out.new }
{
    let answer = u64::from(number_of(o.answer));
    let n = write_line(0, answer, o.board.debt, finished(o.board), out, 23)?;
    write_heading(out, 0).unwrap();
    Ok(23 + n)
}
