// Leading zeros. The number reader reads them, so the pass over a line's fields looks for them by itself.
ghost use Rattle.std.specs.Prelude.{◌≡◌};
ghost use Rattle.decimal.specs.Reading.{all_digits};
ghost use Rattle.numbers.specs.Numbers.{has_leading_zero};

fn all_digits(field: &[u8]) -> bool
    ensures { result ≡ all_digits field.now }
{
    field.iter().all(u8::is_ascii_digit)
}

// Two or more digits and nothing else, the first of them 0. Few fields begin with 0, so few are gone over again.
#[tactic(auto, unfolding(crate::specs::Numbers::has_leading_zero))]
pub(crate) fn has_leading_zero(field: &[u8]) -> bool
    ensures { result ≡ has_leading_zero field.now }
{
    matches!(field, [b'0', _, ..]) && all_digits(field)
}
