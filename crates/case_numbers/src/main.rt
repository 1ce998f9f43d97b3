// Numbers of 64 bits in digits: every power of ten with its neighbours, and of every length in bits the largest number and the
// least.
#![tactic(auto)]

use casetext::{PassingOver, bytes_put, put_row};
use decimal::digit_count;
use std::{io, iter};

// The number, as it stands at a line's start and behind a tab, and how many digits it has.
fn row(to: &impl Print, n: u64) -> io::Result<()> {
    let mut out = [0u8; 64];
    let wrote = put_row(n, &[n, digit_count(n) as u64], &mut out, 0);
    to.write_all(bytes_put(wrote, &out))
}

fn powers_of_ten(to: &impl Print) -> io::Result<()> {
    for n in iter::successors(Some(1u64), |n| n.checked_mul(10)).take(20) {
        for near in [n.wrapping_sub(1), n, n.wrapping_add(1)] {
            row(to, near)?;
        }
    }
    Ok(())
}

// From 64 bits down to 2: all bits set, and the first alone.
fn lengths_in_bits(to: &impl Print) -> io::Result<()> {
    for shift in 0..63u32 {
        row(to, u64::MAX >> shift)?;
        row(to, 1u64 << (63 - shift))?;
    }
    Ok(())
}

fn all(to: &impl Print) -> io::Result<()> {
    powers_of_ten(to)?;
    lengths_in_bits(to)
}

fn main(rt: HostRuntime) {
    // What cannot be written is passed over, so this ends in no error.
    let _ = all(&PassingOver(&rt));
}
