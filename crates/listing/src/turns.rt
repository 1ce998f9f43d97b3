// A listing behind its first line, batch by batch: the steps of a batch go to the core in one call, which tests soundness once for all of them.
ghost use Rattle.std.specs.Prelude.{◌≡◌, true, suc, ◌-◌, ◌≤◌, ◌<◌, length};
ghost use Rattle.rules.specs.Sound.{sound};
ghost use Rattle.listing.specs.Turns.{batch_size, WritesPieces};

use crate::NextLine;
use crate::gathering::gather;
use crate::rows::write_rows;
use rules::BATCH;
use steps::run_batch;

// No line behind the first is longer.
pub(crate) const LONGEST: usize = 37;

// Where a part has come to: the script line that is next, and the place behind the last byte written.
#[derive(Clone, Copy)]
pub(crate) struct Progress {
    pub(crate) next: NextLine,
    pub(crate) to: usize,
}

// How many lines surely fit in so many bytes, at most a batch; one where none surely does, since it may fit all the same.
fn batch_size(room: usize) -> usize
    ensures { result ≡ batch_size room }
{
    (room / LONGEST).min(BATCH).max(1)
}

// One batch of lines. A single line that does not fit leaves everything as it is. The script and the buffer are the caller's, so they stand
// beside what is moved on. That the board is sound is said where it is asked: behind a listing's end it may be any.
fn turn(p: Progress, script: &[u8], out: &mut [u8]) -> Progress
    requires { (sound p.next.board ≡ true) × (p.to ≤ length out.old) }
    ensures { WritesPieces (batch_size (length out.old - p.to)) p script.now out.old result out.new }
{
    let g = gather(script, p.next.at, batch_size(out.len() - p.to));
    let done = run_batch(p.next.board, g.steps, g.count);
    // Each by itself: lent from inside `done`, they would keep it in one piece, which is cleared before each batch.
    let answers = done.answers;
    let debts = done.debts;
    let w = write_rows(
        p.next.line,
        &g.refusals[..g.count],
        &answers,
        &debts,
        out,
        p.to,
    );
    if w.to == p.to {
        return p;
    }
    let next = NextLine {
        at: g.at,
        line: w.line,
        board: done.board,
    };
    Progress { next, to: w.to }
}

// As many lines as fit, batch by batch; one that wrote nothing is the last.
pub(crate) fn list_lines(mut p: Progress, script: &[u8], out: &mut [u8]) -> Progress
    requires { (p.next.at < length script.now → sound p.next.board ≡ true) × (p.to ≤ length out.old) }
    ensures { WritesPieces (suc (length script.now)) p script.now out.old result out.new }
{
    // The cursor moves by the lines that a batch wrote, so this is no count.
    while p.next.at < script.len() {
        let to = p.to;
        p = turn(p, script, out);
        if p.to == to {
            return p;
        }
    }
    p
}
