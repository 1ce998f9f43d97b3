// Steps that are written: the answer, and the buffer of 16 dots after the call.
use rules::StepRecord;
use std::io;

// A bar shows a tab, a slash byte 10.
fn shown(byte: u8) -> u8 {
    match byte {
        b'\t' => b'|',
        b'\n' => b'/',
        _ => byte,
    }
}

fn write(to: &impl Print, r: StepRecord, at: usize) -> io::Result<()> {
    let mut buffer = [b'.'; 16];
    match script::write_step(r, &mut buffer, at) {
        Ok(n) => print!(to; "wrote\t{n}\t")?,
        Err(refusal) => print!(to; "refused\t{}\t", refusal.number())?,
    }
    to.write_all(&buffer.map(shown))?;
    println!(to)
}

fn step(kind: u16, unit: u16, other: u16, slot: u16) -> StepRecord {
    StepRecord {
        kind,
        unit,
        other,
        slot,
    }
}

// The fields that the kind has no letter for are 9.
pub(crate) fn written(to: &impl Print) -> io::Result<()> {
    println!(to; "written")?;
    write(to, step(1, 1, 9, 9), 0)?;
    write(to, step(2, 1, 2, 3), 1)?;
    write(to, step(3, 1, 9, 2), 2)?;
    write(to, step(4, 9, 9, 1), 3)?;
    write(to, step(5, 1, 9, 9), 4)?;
    write(to, step(6, 1, 9, 9), 5)?;
    write(to, step(7, 1, 9, 2), 0)?;
    write(to, step(8, 2, 1, 9), 5)?;
    write(to, step(1, 65535, 0, 0), 0)?;
    write(to, step(1, 0, 0, 0), 8) // up to the buffer's end
}

pub(crate) fn not_written(to: &impl Print) -> io::Result<()> {
    println!(to; "not written")?;
    write(to, step(1, 0, 0, 0), 9)?; // 27, one byte too long
    write(to, step(1, 0, 0, 0), 16)?; // 27, no room at all
    write(to, step(1, 0, 0, 0), 17)?; // 27, past the end
    write(to, step(1, 0, 0, 0), usize::MAX)?; // 27
    write(to, step(2, 65535, 65535, 65535), 0)?; // 27
    write(to, step(0, 0, 0, 0), 0)?; // 16
    write(to, step(9, 0, 0, 0), 0)?; // 16
    write(to, step(257, 0, 0, 0), 0)?; // 16
    write(to, step(9, 0, 0, 0), 17)?; // 16, before 27
    write(to, step(8, 0, 0, 0), 17) // 27
}
