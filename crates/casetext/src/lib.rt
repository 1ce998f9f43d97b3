// What programs that execute cases write alike: written whole at a place of a buffer, or refused by 27 with the buffer as it was.
// In `entries` a board as numbers, in `steps` steps by name, in `told` what finished tells, in `passing` an output for all cases.
#![tactic(auto)]

mod entries;
mod passing;
mod steps;
mod told;

ghost use Rattle.std.specs.Prelude.{◌≡◌, ◌+◌, ◌≤◌, leb, length};
ghost use Rattle.std.proofs.lemmas.List.Edits.{sets};
ghost use Rattle.placing.specs.Placing.{Writes};
ghost use Rattle.casetext.specs.Rows.{cells_text, cells_row, verdict_text, bytes_put};

use decimal::{digit_count, put_number, put_tabbed_number};
pub use entries::{entry, entry_in};
pub use passing::PassingOver;
use placing::{put_bytes, room_for};
use refusals::Refusal;
use rules::Verdict;
pub use steps::Step;
pub use told::Told;

// Whether the cells and the line's end fit in the room, which is counted down: no sum wraps.
#[tactic(auto, using(decimal::proofs::CountLaws::count_most, crate::proofs::RowLaws::cells_length, crate::proofs::RowLaws::cells_end))]
fn cells_fit(cells: &[u64], room: usize) -> bool
    ensures { result ≡ leb (length (cells_text cells.now)) room }
{
    let mut left = room;
    for n in cells {
        let Some(rest) = left.checked_sub(digit_count(*n) + 1) else {
            return false;
        };
        left = rest;
    }
    left > 0
}

// The cells and the line's end, and the place behind them.
#[tactic(auto, using(decimal::proofs::SpellLaws::spelled_length, decimal::proofs::CountLaws::count_most, crate::proofs::RowLaws::cells_length, crate::proofs::RowLaws::cells_end, crate::proofs::RowLaws::cell_stored, placing::proofs::WriteLaws::wrote_fits, placing::proofs::WriteLaws::written_fits))]
fn cells_in(cells: &[u64], out: &mut [u8], at: usize) -> usize
    requires { at + length (cells_text cells.now) ≤ length out.old }
    ensures end { result ≡ at + length (cells_text cells.now) }
    ensures bytes { out.new ≡ sets out.old at (cells_text cells.now) }
{
    let mut to = at;
    for n in cells {
        to += put_tabbed_number(*n, out, to).unwrap();
    }
    to + put_bytes(b"\n", out, to).unwrap()
}

// A row of numbers at a place. Whether it fits is known before its first byte is written.
pub fn put_row(first: u64, cells: &[u64], out: &mut [u8], at: usize) -> Result<usize, Refusal>
    ensures { Writes (cells_row first cells.now) at out.old result out.new }
{
    let k = digit_count(first);
    room_for(k, out, at)?;
    if !cells_fit(cells, out.len() - at - k) {
        return Err(Refusal::NoRoom);
    }
    put_number(first, out, at).unwrap();
    let end = cells_in(cells, out, at + k);
    Ok(end - at)
}

// What finished tells, or the number that refuses, at a place. By its own words, since `Told` writes where there is no buffer.
pub fn put_verdict(told: Result<Verdict, u16>, out: &mut [u8], at: usize) -> Result<usize, Refusal>
    ensures { Writes (verdict_text told) at out.old result out.new }
{
    match told {
        Ok(Verdict::Working) => put_bytes(b"working", out, at),
        Ok(Verdict::Finished) => put_bytes(b"finished", out, at),
        Err(k) => put_number(u64::from(k), out, at),
    }
}

// The bytes that a writer put at the start of a buffer; none where it was refused.
pub fn bytes_put(wrote: Result<usize, Refusal>, out: &[u8]) -> &[u8]
    ensures { result.now ≡ bytes_put wrote out.now }
{
    match wrote {
        Ok(n) => &out[..n.min(out.len())],
        Err(_) => &[],
    }
}
