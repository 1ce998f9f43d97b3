// Lines about as long as a line may be: 255 bytes, and one more.
use crate::tell::{first, later, three_parents};
use std::io;

// A line that begins as given, and is one byte over and over behind that.
fn begun(begin: &[u8], filler: u8) -> [u8; 256] {
    let mut line = [filler; 256];
    for (byte, given) in line.iter_mut().zip(begin) {
        *byte = *given;
    }
    line
}

fn zeros(to: &impl Print, begin: &[u8]) -> io::Result<()> {
    let line = begun(begin, b'0');
    later(to, &line[0..255])?;
    later(to, &line)
}

// The same as a first line, and read for its parents.
fn first_zeros(to: &impl Print, begin: &[u8]) -> io::Result<()> {
    let line = begun(begin, b'0');
    first(to, &line[0..255])?;
    three_parents(to, &line[0..255])?;
    first(to, &line)?;
    three_parents(to, &line)
}

// A board line each number of which is 1.
fn ones(to: &impl Print) -> io::Result<()> {
    let mut line = begun(b"board", b'1');
    for (i, byte) in line.iter_mut().enumerate().skip(5) {
        if i % 2 == 1 {
            *byte = b'\t';
        }
    }
    first(to, &line[0..255])?;
    first(to, &line)
}

pub(crate) fn all(to: &impl Print) -> io::Result<()> {
    println!(to; "lengths")?;
    zeros(to, b"start\t")?; // 28, 21
    zeros(to, b"stop\t")?; // 22, 21 before 22
    zeros(to, b"board\t")?; // 25, 21 before 25
    ones(to)?; // M, d and 123 parents; 21
    first_zeros(to, b"board\t2\t1\t5\t") // 28, and no parents; 21 before 28
}
