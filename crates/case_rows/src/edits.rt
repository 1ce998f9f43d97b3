// What a case does to a board, with nothing written.
use crate::cases::Case;
use crate::words::Word;
use rules::{Board, Outcome, Round, Rounds, Slot, StepRecord, UnitRecord};

// The most parents that a case can ask for: more than 8 bits count.
const MOST: usize = 320;

// A number of a case as a field of 16 bits.
pub(crate) fn small(x: u64) -> u16 {
    u16::try_from(x).unwrap_or(u16::MAX)
}

// A step of a kind; of its case the unit, the other and the slot.
pub(crate) fn step_of(kind: u64, case: &Case<'_>) -> StepRecord {
    let [unit, other, slot, _] = case.numbers.map(small);
    StepRecord {
        kind: small(kind),
        unit,
        other,
        slot,
    }
}

// Sets an entry of a list, where it has one at that place, and hands back what stood there.
fn replace<T: Copy>(list: &mut [T], place: u64, x: T) -> Option<T> {
    let entry = list.get_mut(place as usize)?;
    let old = *entry;
    *entry = x;
    Some(old)
}

// The debt once one weight has become another: it stays the sum of all weights, modulo 2^64.
fn moved(debt: u64, before: u64, after: u64) -> u64 {
    debt.wrapping_sub(before).wrapping_add(after)
}

fn with_unit(mut b: Board, i: u64, x: UnitRecord) -> Board {
    if let Some(old) = replace(&mut b.units, i, x) {
        b.debt = moved(b.debt, old.weight, x.weight);
    }
    b
}

// Unit 0's created count follows the work under way.
fn with_slot(mut b: Board, j: u64, y: Slot) -> Board {
    if let Some(old) = replace(&mut b.slots, j, y) {
        b.debt = moved(b.debt, old.weight, y.weight);
        b.created[0] = b.created[0]
            .wrapping_sub(u32::from(old.kind.is_work()))
            .wrapping_add(u32::from(y.kind.is_work()));
    }
    b
}

// One for each list, since a closure over a list's entry would be longer than the call.
fn with_parent(mut b: Board, i: u64, parent: u16) -> Board {
    replace(&mut b.parents, i, parent);
    b
}

fn with_counts(mut b: Board, i: u64, created: u32, processed: u64) -> Board {
    replace(&mut b.created, i, created);
    replace(&mut b.processed, i, processed);
    b
}

fn with_mark(mut b: Board, i: u64, mark: bool) -> Board {
    replace(&mut b.rounds.visited, i, mark);
    b
}

fn round_of(k: u64) -> Option<Round> {
    match k {
        0 => None,
        1 => Some(Round::One),
        _ => Some(Round::Two),
    }
}

// The parents of a chain: 0, 1, 2 and so on, as many as the list has. An array of which so many count, since no program takes memory.
fn chain() -> [u16; MOST] {
    let mut list = [0u16; MOST];
    for (parent, i) in list.iter_mut().zip(0u16..320) {
        *parent = i;
    }
    list
}

// Parents of which so many count: 0 but for the last.
fn zeros(count: usize, last: u16) -> [u16; MOST] {
    let mut list = [0u16; MOST];
    if let Some(parent) = list.get_mut(count.wrapping_sub(1)) {
        *parent = last;
    }
    list
}

pub(crate) fn opened(case: &Case<'_>) -> Outcome {
    let [m, d, parents, last] = case.numbers;
    let count = (parents as usize).min(MOST);
    let list = match case.word {
        Word::Chain => chain(),
        _ => zeros(count, small(last)),
    };
    board::open(small(m), small(d), &list[..count])
}

// The board after a case.
pub(crate) fn after(b: Board, case: &Case<'_>) -> Board {
    let [first, second, third, fourth] = case.numbers;
    match case.word {
        Word::Open | Word::Chain => opened(case).board,
        Word::Step(kind) => steps::step(b, step_of(kind, case)).board,
        Word::Depth => b,
        Word::Sizes => Board {
            n: small(first),
            m: small(second),
            delay: small(third),
            ..b
        },
        Word::Parent => with_parent(b, first, small(second)),
        Word::Debt => Board { debt: first, ..b },
        Word::Unit(state) => {
            let unit = UnitRecord {
                weight: second,
                countdown: small(third),
                state,
                suspended: fourth != 0,
            };
            with_unit(b, first, unit)
        }
        Word::Slot(kind) => {
            let slot = Slot {
                weight: fourth,
                from: small(second),
                to: small(third),
                kind,
            };
            with_slot(b, first, slot)
        }
        Word::Counts => {
            let created = u32::try_from(second).unwrap_or(u32::MAX);
            with_counts(b, first, created, third)
        }
        Word::Round => {
            let rounds = Rounds {
                round: round_of(first),
                processed: second,
                created: third,
                ..b.rounds
            };
            Board { rounds, ..b }
        }
        Word::Mark => with_mark(b, first, second != 0),
        Word::Begin => rounds::begin(b).board,
        Word::Visit => rounds::visit(b, small(first)).board,
    }
}
