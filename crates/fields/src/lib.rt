// Finds the fields of a line, parted by tabs, and the ends of lines: pure bytes.
#![tactic(auto)]

ghost use Rattle.std.specs.Prelude.{◌≡◌, ◌+◌, length};
ghost use Rattle.fields.specs.Fields.{up_to, field_of, field_start, end_from};

// What parts the fields of a line.
pub const TAB: u8 = b'\t';

// How many bytes stand before the first byte e, all of them where there is none.
fn count_before(s: &[u8], e: u8) -> usize
    ensures { result ≡ length (up_to e s.now) }
{
    s.iter().position(|&c| c == e).unwrap_or(s.len())
}

// The place of the first byte e at or after a place, or the end: a field's end for a tab, a line's for byte 10.
#[tactic(auto, using(crate::proofs::PartLaws::up_to_at_most), unfolding(crate::specs::Fields::end_from))]
pub fn end_from(s: &[u8], from: usize, e: u8) -> usize
    ensures { result ≡ end_from e from s.now }
{
    match s.get(from..) {
        Some(rest) => from + count_before(rest, e),
        None => s.len(),
    }
}

// Where field k starts: past k tabs, and the line's end where it has fewer.
pub fn field_start(line: &[u8], k: usize) -> usize
    ensures { result ≡ field_start k line.now }
{
    let mut at = 0;
    for _ in 0..k {
        let end = end_from(line, at, TAB);
        if end == line.len() {
            return end;
        }
        at = end + 1;
    }
    at
}

// Field k itself, from 0, as the part of the line where it stands; past the last field that is the empty part at the line's end.
#[tactic(auto, using(crate::proofs::PartLaws::end_after, crate::proofs::PartLaws::end_at_most, crate::proofs::FieldLaws::start_at_most))]
pub fn field(line: &[u8], k: usize) -> &[u8]
    ensures bytes { result.now ≡ field_of k line.now }
    ensures place { (result.ref_ptr.0 ≡ line.entry.ref_ptr.0) × (result.ref_ptr.1 ≡ line.entry.ref_ptr.1 + field_start k line.now) }
{
    let start = field_start(line, k);
    // Nothing is left of the line: the empty part at its end.
    if start == line.len() {
        return &line[start..start];
    }
    let end = end_from(line, start, TAB);
    &line[start..end]
}
