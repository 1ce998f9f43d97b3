// Calls of a writer about the edges of its room: the first part of a buffer of 40 bytes.
use crate::rows::Rows;
use refusals::{Refusal, number_of};
use std::io;

const BYTES: usize = 40;

// Each byte counts once more than its index says: from the last byte on, what was added so far is added up.
fn checksum(buffer: [u8; BYTES]) -> u64 {
    let (_, sum) = buffer
        .iter()
        .rev()
        .fold((0u64, 0u64), |(bytes, sum), byte| {
            let bytes = bytes.wrapping_add(u64::from(*byte));
            (bytes, sum.wrapping_add(bytes))
        });
    sum
}

// What the writer is asked, the refusal and the bytes written, of which the one that there is not is 0, and what the buffer holds after
// it.
fn row<P: Print, F: Fn(&mut [u8], usize) -> Result<usize, Refusal>>(
    rows: &mut Rows<'_, P>,
    name: u16,
    write: &F,
    room: usize,
    at: usize,
) -> io::Result<()>
    requires { F.IsAlwaysCallable write.now }
{
    let mut buffer = [b'.'; BYTES];
    let lent = room.min(BYTES);
    let wrote = write(&mut buffer[..lent], at);
    rows.row(&[
        u64::from(name),
        lent as u64,
        at as u64,
        u64::from(number_of(wrote)),
        wrote.unwrap_or(0) as u64,
        checksum(buffer),
    ])
}

// Five rooms about as large as the text, with each of them five places. A text that is refused whatever the room counts as one byte.
pub(crate) fn all<P: Print, F: Fn(&mut [u8], usize) -> Result<usize, Refusal>>(
    rows: &mut Rows<'_, P>,
    name: u16,
    write: F,
) -> io::Result<()>
    requires { F.IsAlwaysCallable write }
{
    let length = write(&mut [0u8; BYTES], 0).unwrap_or(0).max(1);
    for room in [
        0,
        length.wrapping_sub(1),
        length,
        length.wrapping_add(1),
        BYTES,
    ] {
        for at in [0, 1, room, room.wrapping_add(1), usize::MAX] {
            row(rows, name, &write, room, at)?;
        }
    }
    Ok(())
}
