// A listing in parts: from a cursor as many whole lines as fit in a lent buffer, and the cursor behind them.
ghost use Rattle.std.specs.Prelude.{◌≡◌, Ok, Err};
ghost use Rattle.rules.specs.Facts.{judge};
ghost use Rattle.listing.specs.Parts.{part_of, part_buffer};
ghost use Rattle.listing.specs.Turns.{later_checks};
ghost use Rattle.listing.specs.declared.Cursor.TheVariants.{Beginning, Behind};

use crate::starting::{start_outcome, start_place, write_first};
use crate::turns::{Progress, list_lines};
use crate::{Cursor, MOST_BYTES, NextLine, Part};
use board::is_sound;
use refusals::Refusal;

// From the beginning: the heading and the first line, and then the lines behind it.
fn list_first(script: &[u8], out: &mut [u8]) -> Part
    ensures { (result ≡ part_of Beginning script.now out.old) × (out.new ≡ part_buffer Beginning script.now out.old) }
{
    let o = start_outcome(script);
    match write_first(o, out) {
        Ok(to) => {
            // Moved on where it lies: a second one would be cleared first.
            let mut p = Progress {
                next: NextLine {
                    at: start_place(o.answer, script),
                    line: 1,
                    board: o.board,
                },
                to,
            };
            p = list_lines(p, script, out);
            Part {
                wrote: Ok(p.to),
                cursor: Cursor::Behind(p.next),
            }
        }
        Err(refusal) => Part {
            wrote: Err(refusal),
            cursor: Cursor::Beginning,
        },
    }
}

// Whether lines may be listed from there on.
fn may_list(next: &NextLine, script: &[u8]) -> Result<(), Refusal>
    ensures { result ≡ judge Err (later_checks next.now script.now) (Ok tt) }
{
    if script.len() > MOST_BYTES {
        return Err(Refusal::ScriptTooLong);
    }
    if !is_sound(next.board) {
        return Err(Refusal::NotSound);
    }
    Ok(())
}

// Behind the first line. At the script's end there is nothing to write and nothing to refuse. One exit, since each early return would copy
// the board once more.
fn list_later(next: &NextLine, script: &[u8], out: &mut [u8]) -> Part
    ensures { (result ≡ part_of (Behind next.now) script.now out.old) × (out.new ≡ part_buffer (Behind next.now) script.now out.old) }
{
    let mut p = Progress { next: *next, to: 0 };
    let mut wrote = Ok(0);
    if next.at < script.len() {
        wrote = match may_list(next, script) {
            Ok(()) => {
                p = list_lines(p, script, out);
                if p.to == 0 {
                    Err(Refusal::NoRoom)
                } else {
                    Ok(p.to)
                }
            }
            Err(refusal) => Err(refusal),
        };
    }
    Part {
        wrote,
        cursor: Cursor::Behind(p.next),
    }
}

// The next part of a listing: as many whole lines as fit in the buffer, and the cursor behind them. Refused by 26 or 30 where the cursor is
// none that a listing of this script leads to, by 27 where not even the next line fits. Behind the whole listing there is nothing to write and
// nothing to refuse.
pub fn list_part(c: Cursor, script: &[u8], out: &mut [u8]) -> Part
    ensures { (result ≡ part_of c script.now out.old) × (out.new ≡ part_buffer c script.now out.old) }
{
    match &c {
        Cursor::Beginning => list_first(script, out),
        Cursor::Behind(next) => list_later(next, script, out),
    }
}
