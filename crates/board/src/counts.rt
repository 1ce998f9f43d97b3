// What is asked of the units' counts and of the counting rounds: one pass over the units.
ghost use Rattle.std.specs.Prelude.{◌≡◌};
ghost use Rattle.rules.specs.Facts.{tests};
ghost use Rattle.rules.specs.Rounds.{totals_by};
ghost use Rattle.board.specs.Passes.{count_row, counts_row};

use rules::{Board, Round, Rounds};

// The counts of unit i, of which n are in use, and its mark, where a round is running or none. That a created count is small is what
// its type says.
fn unit_counts_fit(c: u32, p: u64, marked: bool, running: bool, i: usize, n: u16) -> bool
    ensures { result ≡ tests (count_row n running i c p marked) }
{
    if i < usize::from(n) {
        running || !marked
    } else {
        c == 0 && p == 0 && !marked
    }
}

// The totals of the rounds, against the sums of processed counts over all units, and of processed and created counts over the marked.
fn totals_fit(k: &Rounds, whole: u64, processed: u64, created: u64) -> bool
    ensures { result ≡ tests (totals_by whole processed created k.now k.now.round) }
{
    match k.round {
        None => k.processed == 0 && k.created == 0,
        Some(Round::One) => k.processed <= processed && k.created == 0,
        Some(Round::Two) => k.processed <= whole && k.created <= created,
    }
}

// Created counts have 32 bits, so no sum of them wraps. Processed counts may be any: where a sum of them would wrap it is above every
// created total, and refused.
pub(crate) fn counts_fit(b: &Board, work: u64) -> bool
    ensures { result ≡ tests (counts_row b.now.n b.now.created b.now.processed b.now.rounds work) }
{
    let rounds = &b.rounds;
    let running = rounds.round.is_some();
    let mut made: u64 = 0;
    let mut done: u64 = 0;
    let mut marked_made: u64 = 0;
    let mut marked_done: u64 = 0;
    // The unit's number is asked too, so a zip of three lists would be no plainer.
    for (i, &marked) in rounds.visited.iter().enumerate() {
        let c = b.created[i];
        let p = b.processed[i];
        if !unit_counts_fit(c, p, marked, running, i, b.n) {
            return false;
        }
        let Some(sum) = done.checked_add(p) else {
            return false;
        };
        made += u64::from(c);
        done = sum;
        if marked {
            marked_made += u64::from(c);
            marked_done += p;
        }
    }
    made >= work && made - work == done && totals_fit(rounds, done, marked_done, marked_made)
}
