// The line that the program writes: a number between two texts.
ghost use Rattle.std.specs.Prelude.{◌≤◌, length};
ghost use Rattle.sheetdrain.specs.Lines.{between, line_of, Puts};

use decimal::{digit_count, put_number};
use placing::put_bytes;
use refusals::Refusal;

// No line is longer: a number has at most 20 digits, and each text at most 12 bytes.
pub(crate) const LINE: usize = 44;

// From the start of the buffer; how many bytes that is.
fn put_between(first: &[u8], n: u64, last: &[u8], line: &mut [u8]) -> usize
    requires { (length first.now ≤ 12) × (length last.now ≤ 12) × (44 ≤ length line.old) }
    ensures { Puts (between first.now n last.now) line.old result line.new }
{
    let from = first.len();
    let to = from + digit_count(n);
    put_bytes(first, line, 0).unwrap();
    put_number(n, line, from).unwrap();
    put_bytes(last, line, to).unwrap();
    to + last.len()
}

// The line for what the library answers.
pub(crate) fn put_line(told: Result<usize, Refusal>, line: &mut [u8]) -> usize
    requires { 44 ≤ length line.old }
    ensures { Puts (line_of told) line.old result line.new }
{
    match told {
        Ok(n) => put_between(b"at most ", n as u64, b" steps more\n", line),
        Err(refusal) => { put_between(b"refused by ", u64::from(refusal.number()), b"\n", line) }
    }
}
