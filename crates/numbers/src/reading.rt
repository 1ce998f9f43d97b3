// The number fields of a line read in one pass: each is handed to the number reader as the part of the line where it stands.
ghost use Rattle.std.specs.Prelude.{◌≡◌};
ghost use Rattle.numbers.specs.Numbers.{numbers_at};

use crate::zeros::has_leading_zero;
use crate::{Numbers, ROOM};
use decimal::read_number;
use fields::{TAB, end_from};
use refusals::Refusal;

// The number fields from a place on; past the line's end there is none. A bad field does not end the pass: the fields behind it count too.
#[tactic(auto, using(fields::proofs::PartLaws::end_after, fields::proofs::PartLaws::end_at_most))]
pub fn read_numbers(line: &[u8], from: usize) -> Numbers
    ensures { result ≡ numbers_at from line.now }
{
    let mut list = [0; ROOM];
    let mut count = 0;
    let mut padded = false;
    let mut refusal = None;
    let mut at = from;
    while at <= line.len() {
        let end = end_from(line, at, TAB);
        padded |= has_leading_zero(&line[at..end]);
        match read_number(&line[at..end]) {
            Ok(value) if count < ROOM => list[count] = value,
            Ok(_) => {}
            Err(k) => refusal = Some(k),
        }
        count += 1;
        at = end + 1;
    }
    // Made with the list whatever refuses the line: where it is made in one of two cases, the list is copied once more on the way out.
    let mut values = Ok(list);
    // 28 comes before 24, whichever field is the first bad one.
    if let Some(k) = padded.then_some(Refusal::PaddedNumber).or(refusal) {
        values = Err(k);
    }
    Numbers { count, values }
}
