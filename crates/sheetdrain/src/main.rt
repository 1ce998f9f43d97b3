// How many steps a boat may still need: the program reads a script from standard input, and tells how long the longest drain is from the
// board that the script leaves, or the number that refuses it. The library decides both; the words are decided here.
// What passes between a process and its files no contract can say. What `tell_input` promises it promises of any reader and any writer whose
// bytes are known, so one line is to be read: the call in `main` that gives it standard input and standard output.
#![tactic(auto)]

mod lines;

ghost use Rattle.std.specs.Prelude.{◌≡◌, ◌≤◌, length, OnOk};
ghost use Rattle.std.specs.Io.KnownBytes.{Appends};
ghost use Rattle.reading.specs.Input.{ReadBetween};
ghost use Rattle.reading.specs.Output.{Arrives, ArrivesCounted, ToldAsRead};
ghost use Rattle.sheetdrain.specs.Drains.{script_drain};
ghost use Rattle.sheetdrain.specs.Lines.{Puts, script_line};

use drains::longest_length;
use lines::{LINE, put_line};
use listing::ending;
use reading::{Failure, read_input};
use refusals::Refusal;
use std::io;
use std::io::{Read, Write};

// A script whose first line is refused leaves no board to ask about.
#[tactic(auto, unfolding(crate::specs::Drains::script_drain))]
fn drain_of(script: &[u8]) -> Result<usize, Refusal>
    ensures { result ≡ script_drain script.now }
{
    let end = ending(script);
    end.answer?;
    longest_length(end.board)
}

// The line for a script, from the start of the buffer; how many bytes that is.
fn put_told(script: &[u8], line: &mut [u8]) -> usize
    requires { 44 ≤ length line.old }
    ensures { Puts (script_line script.now) line.old result line.new }
{
    put_line(drain_of(script), line)
}

// Fails where the output takes no more. The line is handed over whole, in one write: where several processes write to one pipe, their lines
// don't mix, and a reader that reads once gets all of it.
fn tell<W: Write>(to: &mut W, script: &[u8]) -> io::Result<()>
    ensures { OnOk result (Appends (W.contents to.old) (W.contents to.new) (script_line script.now)) }
{
    let mut line = [b' '; LINE];
    let n = put_told(script, &mut line);
    to.write_all(&line[..n])
}

// Tells of the bytes that were read; where a read failed, nothing.
fn tell_read<W: Write>(to: &mut W, read: io::Result<usize>, buf: &[u8]) -> Result<(), Failure>
    requires { ReadBetween 0 (length buf.now) read }
    ensures told { ToldAsRead read result }
    ensures bytes { ArrivesCounted script_line (W.contents to.old) (W.contents to.new) read buf.now result }
{
    let count = read.map_err(Failure::Reading)?;
    tell(to, &buf[..count]).map_err(Failure::Writing)
}

// Reads a script and tells of it. The buffer has one byte more than a script may have, so reading stops once it is clear that the script is too
// long.
// `sheetboard` has lines like these: one public function for both would take a closure, and a `requires` that it may be called.
fn tell_input<R: Read, W: Write>(input: &mut R, to: &mut W) -> Result<(), Failure>
    ensures { Arrives script_line (R.remaining input.old) (W.contents to.old) (W.contents to.new) result }
{
    let mut buf = [0u8; 65536];
    let read = read_input(input, &mut buf);
    tell_read(to, read, &buf)
}

fn main(rt: HostRuntime) {
    if let Err(failure) = tell_input(&mut rt.stdin(), &mut io::writer(&rt)) {
        // Where this line cannot be written either, there is nobody left to tell.
        let _ = eprintln!(rt; "sheetdrain: {failure}");
    }
}
