// Decimal numbers as bytes: a field read as a number of 16 bits, a number of 64 bits written in digits, by itself or behind a tab.
#![tactic(auto)]

ghost use Rattle.std.specs.Prelude.{◌≡◌, ◌∷◌, length};
ghost use Rattle.placing.specs.Placing.{Writes};
ghost use Rattle.fields.specs.Fields.{tab};
ghost use Rattle.decimal.specs.Reading.{number_of, with_digit};
ghost use Rattle.decimal.specs.Spelling.{spelled, digit_count};

use fields::TAB;
use placing::room_for;
use refusals::Refusal;

// A value with one more digit behind it. 24 refuses another byte, and a value past 65,535.
fn with_digit(value: u16, c: u8) -> Result<u16, Refusal>
    ensures { result ≡ with_digit value c }
{
    if !c.is_ascii_digit() {
        return Err(Refusal::NoNumber);
    }
    u16::try_from(u32::from(value) * 10 + u32::from(c - b'0')).map_err(|_| Refusal::NoNumber)
}

// The number that a field says: one or more digits, at most 65,535; 24 refuses any other field. The value stays at most 65,535 from digit to
// digit, so nothing wraps in a field of any length.
pub fn read_number(field: &[u8]) -> Result<u16, Refusal>
    ensures { result ≡ number_of field.now }
{
    if field.is_empty() {
        return Err(Refusal::NoNumber);
    }
    let mut value = 0;
    for &c in field {
        value = with_digit(value, c)?;
    }
    Ok(value)
}

// How many digits a number has. A number of so many bits has k digits or one more, since 1233 / 4096 is a little below the logarithm of 2 to
// base 10; so one power decides. It is a product and from no table (M-102): std's `ilog10` has one. A loop over the powers would bring all of
// them back into the image: the compiler unrolls it and works each power out beforehand.
pub fn digit_count(n: u64) -> usize
    ensures { result ≡ digit_count n }
{
    if n < 10 {
        return 1;
    }
    let bits = n.ilog2() + 1;
    let k = bits * 1233 / 4096;
    if n < 10u64.pow(k) {
        return k as usize;
    }
    k as usize + 1
}

// A number's digits into a part that is as long, from the last one on.
fn spell_in(n: u64, digits: &mut [u8])
    requires { length digits.old ≡ digit_count n }
    ensures { digits.new ≡ spelled n }
{
    let mut rest = n;
    // By place: of what is written through `iter_mut().rev()` nothing is known behind the loop.
    for i in (0..digits.len()).rev() {
        digits[i] = b'0' + (rest % 10) as u8;
        rest /= 10;
    }
}

// A number in digits at a place of a buffer, or 27 and the buffer as it was.
#[tactic(auto, using(placing::proofs::Stores::put_part, crate::proofs::SpellLaws::spelled_length, crate::proofs::CountLaws::count_most), unfolding(placing::specs::Placing::wrote, placing::specs::Placing::written))]
pub fn put_number(n: u64, out: &mut [u8], at: usize) -> Result<usize, Refusal>
    ensures { Writes (spelled n) at out.old result out.new }
{
    let k = digit_count(n);
    room_for(k, out, at)?;
    spell_in(n, &mut out[at..at + k]);
    Ok(k)
}

// A tab and a number behind it: both are written, or neither. A call of its own: one that takes what stands in front would refuse in two
// places.
#[tactic(auto, using(placing::proofs::Stores::put_behind, crate::proofs::SpellLaws::spelled_length, crate::proofs::CountLaws::count_most), unfolding(placing::specs::Placing::wrote, placing::specs::Placing::written))]
pub fn put_tabbed_number(n: u64, out: &mut [u8], at: usize) -> Result<usize, Refusal>
    ensures { Writes (tab ∷ spelled n) at out.old result out.new }
{
    let k = digit_count(n);
    room_for(k + 1, out, at)?;
    out[at] = TAB;
    spell_in(n, &mut out[at + 1..at + 1 + k]);
    Ok(k + 1)
}
