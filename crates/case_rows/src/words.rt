// The words of the cases.
use rules::{Kind, State};

// What a case is, and the numbers that stand behind its word. From Sizes on, but for the last three, a case builds a board directly, or
// damages one. The debt follows the weights and unit 0's created count the work under way, but for the cases that set them.
#[derive(Clone, Copy)]
pub(crate) enum Word {
    Open, // an opening: M, d, how many parents, the last parent; the other parents are 0
    Chain, // an opening: M, d, how many parents; each unit's parent is the unit before it
    Depth, // a question: the unit whose depth is asked for
    Sizes, // n, M, d
    Parent, // a unit, its parent
    Debt, // the debt
    Unit(State), // a unit, its weight, its countdown, 1 if it is suspended
    Slot(Kind), // a slot, its from, to and weight
    Counts, // what the counting rounds count (M-105): a unit, how often it created work and processed it
    Round, // which round is open (0 for none), round one's total, round two's
    Mark, // a unit, 1 if the open round has visited it
    Begin, // a beginning of the rounds
    Visit, // the unit that is visited
    Step(u64), // a step's kind; then unit, other, slot
}

// The kinds of a step, from 1. Written again by hand: the cases do not read their words by the table that they test.
const KINDS: [&[u8]; 8] = [
    b"start", b"send", b"request", b"deliver", b"rest", b"tick", b"release", b"move",
];

// The word of a kind from 1 to 8.
pub(crate) fn kind_word(kind: u64) -> Option<&'static [u8]> {
    KINDS.get(kind.wrapping_sub(1) as usize).copied()
}

// Digits as a number of 64 bits.
pub(crate) fn number(digits: &[u8]) -> u64 {
    digits.iter().fold(0u64, |n, digit| {
        n.wrapping_mul(10)
            .wrapping_add(u64::from(*digit).wrapping_sub(48))
    })
}

// A kind by its word, or by its number.
fn kind(word: &[u8]) -> u64 {
    match KINDS.iter().position(|kind| *kind == word) {
        Some(place) => place as u64 + 1,
        None => number(word),
    }
}

pub(crate) fn word_of(word: &[u8]) -> Word {
    match word {
        b"open" => Word::Open,
        b"chain" => Word::Chain,
        b"depth" => Word::Depth,
        b"sizes" => Word::Sizes,
        b"parent" => Word::Parent,
        b"debt" => Word::Debt,
        b"idle unit" => Word::Unit(State::Idle),
        b"active unit" => Word::Unit(State::Active),
        b"waiting unit" => Word::Unit(State::Waiting),
        b"empty slot" => Word::Slot(Kind::Empty),
        b"work slot" => Word::Slot(Kind::Work),
        b"return slot" => Word::Slot(Kind::Return),
        b"request slot" => Word::Slot(Kind::Request),
        b"supply slot" => Word::Slot(Kind::Supply),
        b"counts" => Word::Counts,
        b"round" => Word::Round,
        b"mark" => Word::Mark,
        b"begin" => Word::Begin,
        b"visit" => Word::Visit,
        _ => Word::Step(kind(word)),
    }
}
