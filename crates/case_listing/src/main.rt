// Whole scripts and their listings: every refusal that a script can meet from its input, and each two neighbours in the order of
// refusals that can fail together.
#![tactic(auto)]

use casetext::PassingOver;
use std::io;

fn title(to: &impl Print, title: &str) -> io::Result<()> {
    println!(to; "-- {title}")
}

// A title, and the listing of a script under it.
fn show(to: &impl Print, name: &str, script: &[u8]) -> io::Result<()> {
    title(to, name)?;
    let mut out = [0u8; 1024];
    match listing::list_all(script, &mut out) {
        Ok(n) => to.write_all(&out[..n.min(1024)]),
        Err(_) => println!(to; "no room"),
    }
}

const WHOLE_CASE: &[u8] = b"board\t2\t1\t0\n\
    start\t0\n\
    send\t0\t1\t0\n\
    rest\t0\n\
    deliver\t0\n\
    rest\t1\n\
    release\t1\t1\n\
    tick\t1\n\
    release\t1\t1\n\
    deliver\t1\n";

// Units 2 and 3 give their weight back to unit 1 while it waits, the second time with its countdown at 0; the last four lines are
// those by which it would finish if its countdown began anew each time.
const COUNTDOWN_GOES_ON: &[u8] = b"board\t2\t2\t0\t1\t1\n\
    start\t1\n\
    send\t1\t2\t0\n\
    send\t1\t3\t1\n\
    deliver\t0\n\
    deliver\t1\n\
    rest\t1\n\
    rest\t2\n\
    rest\t3\n\
    tick\t1\n\
    tick\t2\n\
    tick\t2\n\
    release\t2\t0\n\
    deliver\t0\n\
    tick\t1\n\
    tick\t3\n\
    tick\t3\n\
    release\t3\t0\n\
    deliver\t0\n\
    release\t1\t0\n\
    deliver\t0\n\
    tick\t1\n\
    tick\t1\n\
    release\t1\t0\n\
    deliver\t0\n";

// Unit 2 is moved while its return to unit 1 is under way (M-108): the return goes there all the same, and unit 1 has to give its weight
// back. Then three moves that are refused, and one on the finished board.
const MOVED: &[u8] = b"board\t2\t0\t0\t1\n\
    start\t2\n\
    rest\t2\n\
    release\t2\t0\n\
    move\t2\t0\n\
    deliver\t0\n\
    release\t1\t0\n\
    deliver\t0\n\
    move\t0\t0\n\
    move\t2\t2\n\
    move\t3\t0\n\
    move\t2\t1\n";

const CASES: [(&str, &[u8]); 3] = [
    ("the whole case", WHOLE_CASE),
    ("a countdown that goes on", COUNTDOWN_GOES_ON),
    ("a unit moved while its return is under way", MOVED),
];

const LINES: [(&str, &[u8]); 7] = [
    ("a last line without byte 10", b"board\t1\t0\nstart\t0"),
    ("no line", b""),
    ("one empty line", b"\n"),
    ("an empty line later", b"board\t1\t0\n\nstart\t0\n"),
    ("a carriage return in the first line", b"board\t1\t0\r\n"),
    ("a carriage return later", b"board\t1\t0\nstart\t0\r\n"),
    ("bytes above 127", b"board\t1\t0\n\xff\xfe\nstart\t\xb0\n"),
];

const FIRST_LINES: [(&str, &[u8]); 13] = [
    ("22", b"bored\t1\t0\n"),
    ("25, and 23", b"start\n"),
    ("23, and 24", b"board\tx\n"),
    ("23, and 28", b"board\t01\n"),
    ("28, and 24", b"board\tx\t00\n"),
    ("28, and 11", b"board\t0\t00\n"),
    ("28, and 12", b"board\t1\t0\t01\n"),
    ("24, and 11", b"board\t0\tx\n"),
    ("11, and 12", b"board\t0\t0\t1\n"),
    ("11, M", b"board\t257\t0\n"),
    ("11, d", b"board\t1\t256\n"),
    ("12", b"board\t1\t0\t1\n"),
    (
        "nothing behind a refused first line",
        b"board\t1\nstart\t0\n",
    ),
];

const BAD_LINES: &[u8] = b"board\t1\t0\n\
    start\t0\n\
    strat\t0\n\
    board\t1\t0\n\
    rest\n\
    rest\t\n\
    rest\t0x\n\
    rest\t65536\n\
    rest\t65535\n\
    deliver\t1\n\
    rest\t000\n\
    rest\t0\n";

const LATER_LINES: [(&str, &[u8]); 2] = [
    ("22, and 25", b"bored\nboard\t1\t0\n"),
    ("bad lines leave the board as it was", BAD_LINES),
];

const PARENTS: [(&str, &[u8]); 2] = [
    (
        "63 parents",
        b"board\t1\t0\t0\t0\t0\t0\t0\t0\t0\t0\t0\t0\t0\t0\t0\t0\t0\t0\t0\t0\t0\t0\t0\t0\t0\t0\t0\t0\t0\t0\t0\t0\t0\t0\t0\t0\t0\t0\t0\t0\t0\t0\t0\t0\t0\t0\t0\t0\t0\t0\t0\t0\t0\t0\t0\t0\t0\t0\t0\t0\t0\t0\t0\t0\t0\n",
    ),
    (
        "64 parents",
        b"board\t1\t0\t0\t0\t0\t0\t0\t0\t0\t0\t0\t0\t0\t0\t0\t0\t0\t0\t0\t0\t0\t0\t0\t0\t0\t0\t0\t0\t0\t0\t0\t0\t0\t0\t0\t0\t0\t0\t0\t0\t0\t0\t0\t0\t0\t0\t0\t0\t0\t0\t0\t0\t0\t0\t0\t0\t0\t0\t0\t0\t0\t0\t0\t0\t0\t0\n",
    ),
];

fn table(to: &impl Print, rows: &[(&str, &[u8])]) -> io::Result<()> {
    for (name, script) in rows {
        show(to, name, script)?;
    }
    Ok(())
}

// A board line and a line of 255 bytes x, then of 256.
fn long_lines(to: &impl Print) -> io::Result<()> {
    let mut script = [b'x'; 266];
    script[..10].copy_from_slice(b"board\t1\t0\n");
    show(to, "a line of 255 bytes", &script[..265])?;
    show(to, "a line of 256 bytes", &script)
}

// A board line and then empty lines.
fn long_scripts(to: &impl Print) -> io::Result<()> {
    let mut script = [b'\n'; 65536];
    script[..10].copy_from_slice(b"board\t1\t0\n");
    title(to, "a script of 65,535 bytes: the length of its listing")?;
    println!(to; "{}", listing::listing_length(&script[..65535]))?;
    show(to, "a script of 65,536 bytes", &script)
}

// What a listing of 59 bytes gives in so many bytes at the start of a buffer, and the buffer after it.
fn in_room(to: &impl Print, room: usize) -> io::Result<()> {
    println!(to; "-- a buffer of {room} bytes")?;
    let mut out = [b'.'; 76];
    match listing::list_all(b"board\t1\t0\nstart\t0\n", &mut out[..room.min(76)]) {
        Ok(_) => println!(to; "written")?,
        Err(_) => println!(to; "no room")?,
    }
    to.write_all(&out)?;
    println!(to)
}

fn all(to: &impl Print) -> io::Result<()> {
    table(to, &CASES)?;
    table(to, &LINES)?;
    table(to, &FIRST_LINES)?;
    table(to, &LATER_LINES)?;
    long_lines(to)?;
    table(to, &PARENTS)?;
    long_scripts(to)?;
    // Where 38 bytes and 37 for the further line fit, one byte less, an exact fit, and one byte less.
    for room in [75, 74, 59, 58] {
        in_room(to, room)?;
    }
    Ok(())
}

fn main(rt: HostRuntime) {
    // What cannot be written is passed over, so this ends in no error.
    let _ = all(&PassingOver(&rt));
}
