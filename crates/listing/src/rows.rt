// The lines of a batch, written one behind the other.
ghost use Rattle.std.specs.Prelude.{◌≡◌, ◌≤◌, length};
ghost use Rattle.rules.specs.Sheets.Finished.{told_from};
ghost use Rattle.listing.specs.Turns.{answer_of, rows_into};

use refusals::Refusal;
use rules::Verdict;
use texts::write_line;

// The number of the next line, and the place behind the last byte written.
#[derive(Clone, Copy)]
pub(crate) struct Rows {
    pub(crate) line: u32,
    pub(crate) to: usize,
}

// A line that is no step has its own refusal for an answer.
fn answer_of(refusal: Option<Refusal>, answer: u16) -> u16
    ensures { result ≡ answer_of refusal answer }
{
    refusal.map_or(answer, Refusal::number)
}

// Finished is told from the debt of a sound board. `board::finished` would test each line's board again.
fn state_of(debt: u64) -> Verdict
    ensures { result ≡ told_from debt }
{
    if debt == 0 {
        return Verdict::Finished;
    }
    Verdict::Working
}

// One line for each refusal, with the answer and the debt that stand beside it, from a place on. A line that does not fit leaves the buffer and
// the place as they are.
pub(crate) fn write_rows(
    line: u32,
    refusals: &[Option<Refusal>],
    answers: &[u16],
    debts: &[u64],
    out: &mut [u8],
    at: usize,
) -> Rows
    requires { at ≤ length out.old }
    ensures { rows_into line refusals.now answers.now debts.now at out.old ≡ record { line = result.line; to = result.to; left = out.new } }
{
    let mut number = line;
    let mut to = at;
    for ((refusal, answer), debt) in refusals.iter().zip(answers).zip(debts) {
        let answer = u64::from(answer_of(*refusal, *answer));
        to += write_line(
            u64::from(number),
            answer,
            *debt,
            Ok::<_, Refusal>(state_of(*debt)),
            out,
            to,
        )
        .unwrap_or(0);
        number = number.saturating_add(1);
    }
    Rows { line: number, to }
}
