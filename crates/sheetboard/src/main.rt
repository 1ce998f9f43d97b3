// The program: reads a script from standard input, lists it in parts, and hands each part to standard output. Nothing of the rules is decided here.
// What passes between a process and its files no contract can say. What `list_input` promises it promises of any reader, and of any
// writer behind the count of `Output`, whose bytes are known; so one line is to be read: the call in `main` that gives it standard input and standard output.
#![tactic(auto)]

mod handing;

ghost use Rattle.std.specs.Prelude.{◌≡◌, ◌+◌, ◌<◌, ◌^◌, length, is_ok, OnOk, IfOk};
ghost use Rattle.std.specs.Io.KnownBytes.{Appends};
ghost use Rattle.listing.specs.Scripts.{listing};
ghost use Rattle.listing.specs.Parts.{call_text, call_next};
ghost use Rattle.reading.specs.Input.{ReadBetween};
ghost use Rattle.reading.specs.Output.{Arrives, ArrivesCounted, ToldAsRead};
ghost use Rattle.sheetboard.specs.Output.{Hands, HandsOver, Lists, ListsCounted};

use handing::Output;
use listing::Cursor;
use reading::{Failure, read_input};
use std::io;
use std::io::{Read, Write};

// Lists one part and hands it to the output, from the start of the buffer: the cursor behind it.
fn write_part<W: Write>(
    to: &mut Output<W>,
    c: Cursor,
    script: &[u8],
    out: &mut [u8],
) -> io::Result<Cursor>
    requires { to.old.handed + length out.old < 2 ^ 64 }
    ensures part { Hands c script.now (length out.old) to.old.handed to.new.handed out.new }
    ensures cursor { IfOk result (λ next. next ≡ call_next c script.now (length out.old)) }
    ensures bytes { OnOk result (Appends (W.contents to.old.writer) (W.contents to.new.writer) (call_text c script.now (length out.old))) }
{
    let part = listing::list_part(c, script, out);
    let count = part.wrote.unwrap_or(0);
    to.hand_over(&out[..count])?;
    Ok(part.cursor)
}

// Part by part until the listing ends, or the output takes no more.
fn list<W: Write>(to: &mut Output<W>, script: &[u8]) -> io::Result<()>
    requires { to.old.handed ≡ 0 }
    ensures handed { HandsOver script.now (is_ok result) to.new.handed }
    ensures bytes { OnOk result (Appends (W.contents to.old.writer) (W.contents to.new.writer) (listing script.now)) }
{
    let mut out = [0u8; 32768];
    let mut c = listing::beginning();
    // The cursor moves by the lines that a part has, so this is no count.
    while !listing::is_ended(c, script) {
        c = write_part(to, c, script, &mut out)?;
    }
    Ok(())
}

// Lists the bytes that were read; where a read failed, nothing.
fn list_read<W: Write>(
    to: &mut Output<W>,
    read: io::Result<usize>,
    buf: &[u8],
) -> Result<(), Failure>
    requires counted { to.old.handed ≡ 0 }
    requires within { ReadBetween 0 (length buf.now) read }
    ensures told { ToldAsRead read result }
    ensures handed { ListsCounted read buf.now (is_ok result) to.new.handed }
    ensures bytes { ArrivesCounted listing (W.contents to.old.writer) (W.contents to.new.writer) read buf.now result }
{
    let count = read.map_err(Failure::Reading)?;
    list(to, &buf[..count]).map_err(Failure::Writing)
}

// Reads a script and lists it. The buffer has one byte more than a script may have, so reading stops once it is clear that the script is too long.
// `sheetdrain` has lines like these: one public function for both would take a closure, and a `requires` that it may be called.
fn list_input<R: Read, W: Write>(input: &mut R, to: &mut Output<W>) -> Result<(), Failure>
    requires { to.old.handed ≡ 0 }
    ensures handed { Lists (R.remaining input.old) result to.new.handed }
    ensures bytes { Arrives listing (R.remaining input.old) (W.contents to.old.writer) (W.contents to.new.writer) result }
{
    let mut buf = [0u8; 65536];
    let read = read_input(input, &mut buf);
    list_read(to, read, &buf)
}

fn main(rt: HostRuntime) {
    if let Err(failure) = list_input(&mut rt.stdin(), &mut Output::new(io::writer(&rt))) {
        // Where this line cannot be written either, there is nobody left to tell.
        let _ = eprintln!(rt; "sheetboard: {failure}");
    }
}
