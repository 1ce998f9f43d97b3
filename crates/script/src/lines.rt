// Reading a line of a script, handed over without its byte 10.
ghost use Rattle.std.specs.Prelude.{◌≡◌, true, false};
ghost use Rattle.rules.specs.Facts.{test};
ghost use Rattle.numbers.specs.Numbers.{padded, room};
ghost use Rattle.script.specs.Lines.{reading, is_opening, parents_of, board_line, step_by};
ghost use Rattle.script.specs.Asked.{right_place, right_numbers};

use crate::letters::{letter_count, record_by};
use crate::words::{Word, word_of};
use crate::{BoardLine, Line};
use fields::{TAB, end_from, field, field_start};
use numbers::{ROOM, read_numbers};
use refusals::Refusal;
use rules::StepRecord;

// A board line stands first, and only there.
fn fits_place(word: Word, first: bool) -> bool
    ensures { result ≡ right_place first word }
{
    match word {
        Word::Board => first,
        Word::Step(_) => !first,
    }
}

// A board line has M, d and any number of parents, a step its letters.
fn fits_count(word: Word, count: usize) -> bool
    ensures { result ≡ test (right_numbers word count) }
{
    match word {
        Word::Board => count >= 2,
        Word::Step(action) => count == letter_count(action),
    }
}

// What a line of a script says, or what refuses it. Length is tested first, so that everything behind it handles at most 255 bytes.
// The line is read once: its word, then the number fields behind it.
pub fn read_line(line: &[u8], first: bool) -> Result<Line, Refusal>
    ensures { result ≡ reading first line.now }
{
    if line.len() > 255 {
        return Err(Refusal::LineTooLong);
    }
    let name = field(line, 0);
    let word = word_of(name)?;
    let numbers = read_numbers(line, name.len() + 1);
    if !fits_place(word, first) {
        return Err(Refusal::BoardLine);
    }
    if !fits_count(word, numbers.count) {
        return Err(Refusal::WrongFieldCount);
    }
    let values = numbers.values?;
    // A line of at most 255 bytes has fewer numbers, so their count fits.
    Ok(match word {
        Word::Board => Line::Opens(values[0], values[1], (numbers.count - 2) as u16),
        Word::Step(action) => Line::Asks(record_by(action, [values[0], values[1], values[2]])),
    })
}

// The step that a line asks for where one is due.
pub fn read_step(line: &[u8]) -> Result<StepRecord, Refusal>
    ensures { result ≡ step_by (reading false line.now) }
{
    read_line(line, false)?.step()
}

// The numbers behind M and d.
fn parents_of(line: &[u8]) -> [u16; ROOM]
    requires { is_opening (reading true line.now) ≡ true }
    ensures { result ≡ padded room (parents_of line.now) }
{
    let start = field_start(line, 2);
    let end = end_from(line, start, TAB);
    read_numbers(line, end + 1).values.unwrap()
}

// A first line with its parents, which it has only where it opens a board.
pub fn read_board(line: &[u8]) -> BoardLine
    ensures { result ≡ board_line line.now }
{
    let reading = read_line(line, true);
    let parents = match reading {
        Ok(Line::Opens(..)) => parents_of(line),
        _ => [0; ROOM],
    };
    BoardLine { reading, parents }
}
