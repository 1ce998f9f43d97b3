// The texts of a listing, each written whole or refused by 27 with the buffer as it was.
#![tactic(auto)]

ghost use Rattle.std.specs.Prelude.{◌≡◌, [], ◌∷◌, ◌++◌, ◌+◌, ◌≤◌, length};
ghost use Rattle.std.proofs.lemmas.List.Edits.{sets};
ghost use Rattle.placing.specs.Placing.{Writes};
ghost use Rattle.fields.specs.Fields.{tab};
ghost use Rattle.texts.specs.Texts.{heading, line_with, line_text};

use decimal::{digit_count, put_number, put_tabbed_number};
use placing::{put_bytes, room_for};
use refusals::Refusal;
use rules::Verdict;

const HEADING: [u8; 23] = *b"step\tanswer\tdebt\tstate\n";

// The word behind a tab, and the line's end.
fn put_last_word(word: &[u8], out: &mut [u8], at: usize)
    requires { at + (length word.now + 2) ≤ length out.old }
    ensures { out.new ≡ sets out.old at (tab ∷ word.now ++ 10 ∷ []) }
{
    put_bytes(b"\t", out, at).unwrap();
    put_bytes(word, out, at + 1).unwrap();
    put_bytes(b"\n", out, at + 1 + word.len()).unwrap();
}

// The line at the start of what is lent. Its length is known before its first byte is written, so each of its parts has room.
#[tactic(auto, using(decimal::proofs::CountLaws::count_most))]
fn line_in(
    number: u64,
    answer: u64,
    debt: u64,
    word: &[u8],
    out: &mut [u8],
) -> Result<usize, Refusal>
    requires { length word.now ≤ 8 }
    ensures { Writes (line_with number answer debt word.now) 0 out.old result out.new }
{
    let first = digit_count(number);
    let second = first + 1 + digit_count(answer);
    let third = second + 1 + digit_count(debt);
    let n = third + word.len() + 2;
    room_for(n, out, 0)?;
    put_number(number, out, 0).unwrap();
    put_tabbed_number(answer, out, first).unwrap();
    put_tabbed_number(debt, out, second).unwrap();
    put_last_word(word, out, third);
    Ok(n)
}

// The line with the word for its state, which is the same whatever the cause of a refusal. A call for each word: then each length is known to be at most 8.
fn state_line<E: Copy>(
    number: u64,
    answer: u64,
    debt: u64,
    state: Result<Verdict, E>,
    out: &mut [u8],
) -> Result<usize, Refusal>
    ensures { Writes (line_text number answer debt state) 0 out.old result out.new }
{
    match state {
        Ok(Verdict::Working) => line_in(number, answer, debt, b"working", out),
        Ok(Verdict::Finished) => line_in(number, answer, debt, b"finished", out),
        Err(_) => line_in(number, answer, debt, b"refused", out),
    }
}

// A line's parts one by one, as the definition of a line takes them.
// A line of a listing at a place: the rest of the buffer, from that place on, is lent to the line writer.
pub fn write_line<E: Copy>(
    number: u64,
    answer: u64,
    debt: u64,
    state: Result<Verdict, E>,
    out: &mut [u8],
    at: usize,
) -> Result<usize, Refusal>
    ensures { Writes (line_text number answer debt state) at out.old result out.new }
{
    // Here no length is known yet, so this is no use of `room_for`.
    if at > out.len() {
        return Err(Refusal::NoRoom);
    }
    state_line(number, answer, debt, state, &mut out[at..])
}

// The heading at a place.
pub fn write_heading(out: &mut [u8], at: usize) -> Result<usize, Refusal>
    ensures { Writes heading at out.old result out.new }
{
    put_bytes(&HEADING, out, at)
}
