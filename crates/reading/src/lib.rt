// The reading of an input into a buffer, where a read that fails is told from the end. Of any reader whose bytes are known the contracts say
// which of them were read; of standard input none are.
#![tactic(auto)]

mod failures;

ghost use Rattle.std.specs.Prelude.{◌≡◌, ◌≤◌, ◌<◌, length, take, IfOk};
ghost use Rattle.std.specs.Io.KnownBytes.{Consumes, IsAtEnd};
ghost use Rattle.reading.specs.Input.{ReadBetween, Gives};
ghost use Rattle.reading.specs.Reads.{told_by, ReadsOn, GivesOn};

pub use failures::Failure;
use std::io;
use std::io::Read;

// What a read behind the `at` bytes that were read before has answered: where the bytes read now end, or why it failed.
fn told(got: io::Result<usize>, buf: &[u8], at: usize) -> io::Result<usize>
    requires { at ≤ length buf.now }
    ensures { result ≡ told_by at (length buf.now) got }
{
    match got {
        Ok(more) => Ok(at + more.min(buf.len() - at)),
        Err(cause) => Err(cause),
    }
}

// One read from the input, to behind the bytes that were read before.
fn read_more<R: Read>(input: &mut R, buf: &mut [u8], at: usize) -> io::Result<usize>
    requires { at ≤ length buf.old }
    ensures reads { ReadsOn at buf.old result buf.new }
    ensures bytes { GivesOn at (R.remaining input.old) (R.remaining input.new) result buf.new }
{
    let got = input.read(&mut buf[at..]);
    told(got, buf, at)
}

// How many bytes were read, and what the last read answered, as it is: a failure keeps its cause, and the bytes that were read before it are
// counted. A read may give less than is still to come, as from a pipe: only one of no bytes is the end.
fn fill<R: Read>(input: &mut R, buf: &mut [u8]) -> (usize, io::Result<usize>)
    ensures bound { result.0 ≤ length buf.new }
    ensures bytes { Consumes (R.remaining input.old) (R.remaining input.new) (take result.0 buf.new) }
    ensures counted { IfOk result.1 (λ n. n ≡ result.0) }
    ensures ended { IfOk result.1 (λ n. result.0 < length buf.new → IsAtEnd (R.remaining input.new)) }
{
    let mut count = 0;
    let mut read = Ok(0);
    // The cursor moves by what was read, so this is no count.
    while count < buf.len() {
        read = read_more(input, buf, count);
        match read {
            Ok(behind) if behind > count => count = behind,
            _ => break,
        }
    }
    (count, read)
}

// Reads until the input ends, the buffer is full, or a read fails: how many bytes are at the start of the buffer, or why a read failed.
pub fn read_input<R: Read>(input: &mut R, buf: &mut [u8]) -> io::Result<usize>
    ensures bound { ReadBetween 0 (length buf.new) result }
    ensures bytes { Gives (R.remaining input.old) (R.remaining input.new) result buf.new }
{
    fill(input, buf).1
}

// The same where a failure need not be told from the end: how many bytes are at the start of the buffer.
pub fn read_full<R: Read>(input: &mut R, buf: &mut [u8]) -> usize
    ensures bound { result ≤ length buf.new }
    ensures bytes { Consumes (R.remaining input.old) (R.remaining input.new) (take result buf.new) }
{
    fill(input, buf).0
}
