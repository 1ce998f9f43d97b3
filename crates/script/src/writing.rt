// Writing a step as a line of a script.
ghost use Rattle.std.specs.Prelude.{◌≡◌, true, ◌+◌, ◌≤◌, length};
ghost use Rattle.std.proofs.lemmas.List.Edits.{sets};
ghost use Rattle.rules.specs.Actions.{action_of, is_known};
ghost use Rattle.placing.specs.Placing.{Writes};
ghost use Rattle.numbers.specs.Numbers.{tabbed};
ghost use Rattle.script.specs.Writing.{letters_of, longest_step, step_text, step_wrote, step_written};

use crate::words::step_word;
use decimal::put_tabbed_number;
use placing::put_bytes;
use refusals::Refusal;
use rules::{Action, StepRecord};

// Each number behind a tab, where all of them have room; the answer is the place behind them.
fn put_tabbed(ns: &[u16], out: &mut [u8], at: usize) -> usize
    requires { at + length (tabbed ns.now) ≤ length out.old }
    ensures { (result ≡ at + length (tabbed ns.now)) × (out.new ≡ sets out.old at (tabbed ns.now)) }
{
    let mut to = at;
    for &n in ns {
        to += put_tabbed_number(u64::from(n), out, to).unwrap();
    }
    to
}

// The values of a step's letters in their order, each behind a tab; the answer is the place behind them.
fn put_letters(r: StepRecord, action: Action, out: &mut [u8], at: usize) -> usize
    requires { at + length (tabbed (letters_of r action)) ≤ length out.old }
    ensures { (result ≡ at + length (tabbed (letters_of r action))) × (out.new ≡ sets out.old at (tabbed (letters_of r action))) }
{
    match action {
        Action::Unknown => at,
        Action::Start | Action::Rest | Action::Tick => put_tabbed(&[r.unit], out, at),
        Action::Send => put_tabbed(&[r.unit, r.other, r.slot], out, at),
        Action::Request | Action::Release => put_tabbed(&[r.unit, r.slot], out, at),
        Action::Deliver => put_tabbed(&[r.slot], out, at),
        Action::Move => put_tabbed(&[r.unit, r.other], out, at),
    }
}

// The line at the start of a buffer that has room for any; the answer is its length. The action is the record's, known from before: asked
// again here, it could be `Unknown`.
fn put_step(r: StepRecord, action: Action, out: &mut [u8]) -> usize
    requires { (action ≡ action_of r.kind) × (is_known action ≡ true) × (longest_step ≤ length out.old) }
    ensures whole { result ≡ length (step_text r) }
    ensures bytes { out.new ≡ sets out.old 0 (step_text r) }
    ensures fits { length (step_text r) ≤ length out.old }
{
    let from = put_bytes(step_word(action), out, 0).unwrap();
    let end = put_letters(r, action, out, from);
    out[end] = b'\n';
    end + 1
}

// The line at the start of a buffer. It is put together apart, so that its whole length is known before the buffer changes.
fn step_line(r: StepRecord, action: Action, out: &mut [u8]) -> Result<usize, Refusal>
    requires { (action ≡ action_of r.kind) × (is_known action ≡ true) }
    ensures { Writes (step_text r) 0 out.old result out.new }
{
    let mut text = [0; 32];
    let n = put_step(r, action, &mut text);
    put_bytes(&text[..n], out, 0)
}

// A step as a line of a script at a place of a buffer: refused by 16 where its kind is none, by 27 where the line does not fit. The kind is
// tested before the place.
pub fn write_step(r: StepRecord, out: &mut [u8], at: usize) -> Result<usize, Refusal>
    ensures { (result ≡ step_wrote r at out.old) × (out.new ≡ step_written r at out.old) }
{
    let action = Action::from(r.kind);
    if action == Action::Unknown {
        return Err(Refusal::NoSuchKind);
    }
    // Here no length is known yet, so this is no use of `room_for`.
    if at > out.len() {
        return Err(Refusal::NoRoom);
    }
    step_line(r, action, &mut out[at..])
}
