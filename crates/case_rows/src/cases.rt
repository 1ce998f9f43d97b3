// A case read from its line: its word, and four numbers that go with it. What stands behind them is not read.
use crate::words::{Word, number, word_of};
use fields::field;

#[derive(Clone, Copy)]
pub(crate) struct Case<'a> {
    pub(crate) name: &'a [u8],
    pub(crate) word: Word,
    pub(crate) numbers: [u64; 4],
}

pub(crate) fn case_of(line: &[u8]) -> Case<'_> {
    let name = field(line, 0);
    Case {
        name,
        word: word_of(name),
        numbers: [1, 2, 3, 4].map(|k| number(field(line, k))),
    }
}
