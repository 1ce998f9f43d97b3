// A board as a row of entries, each of four numbers, by which a board can be written and compared without its types.
ghost use Rattle.std.specs.Prelude.{◌≡◌};
ghost use Rattle.casetext.specs.Entries.{round_place, unit_cells, slot_cells, marks_entry, rounds_entry, entry_of};

use rules::{Board, Round, Rounds, Slot, UnitRecord};

fn round_place(round: Option<Round>) -> u64
    ensures { result ≡ round_place round }
{
    match round {
        None => 0,
        Some(Round::One) => 1,
        Some(Round::Two) => 2,
    }
}

fn unit_entry(x: UnitRecord) -> [u64; 4]
    ensures { result ≡ unit_cells x }
{
    [
        x.state as u64,
        x.weight,
        u64::from(x.countdown),
        u64::from(x.suspended),
    ]
}

fn slot_entry(y: Slot) -> [u64; 4]
    ensures { result ≡ slot_cells y }
{
    [y.kind as u64, u64::from(y.from), u64::from(y.to), y.weight]
}

fn marks_entry(k: Rounds, i: usize) -> [u64; 4]
    ensures { result ≡ marks_entry k i }
{
    if i < 64 {
        return [u64::from(k.visited[i]), 0, 0, 0];
    }
    [round_place(k.round), k.processed, k.created, 0]
}

fn rounds_entry(b: &Board, i: usize) -> [u64; 4]
    ensures { result ≡ rounds_entry b.now i }
{
    if i < 64 {
        return [u64::from(b.created[i]), b.processed[i], 0, 0];
    }
    marks_entry(b.rounds, i - 64)
}

// Entry i of a board; behind the last the last again.
pub fn entry(b: Board, i: usize) -> [u64; 4]
    ensures { result ≡ entry_of b i }
{
    entry_in(&b, i)
}

// The same of a board that is lent, for who asks for all of its entries. By ranges of i, as in the definition: the entries are of five
// kinds.
pub fn entry_in(b: &Board, i: usize) -> [u64; 4]
    ensures { result ≡ entry_of b.now i }
{
    if i < 64 {
        return [u64::from(b.parents[i]), 0, 0, 0];
    }
    if i < 128 {
        return unit_entry(b.units[i - 64]);
    }
    if i < 384 {
        return slot_entry(b.slots[i - 128]);
    }
    rounds_entry(b, i - 384)
}
