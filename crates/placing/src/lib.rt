// Bytes written at a place of a buffer, or refused with every byte kept.
#![tactic(auto)]

ghost use Rattle.std.specs.Prelude.{◌≡◌, ◌+◌, ◌≤◌, ◌<◌, length, MatchResult};
ghost use Rattle.std.proofs.lemmas.List.Edits.{sets};
ghost use Rattle.refusals.specs.declared.Refusal.TheVariants.{NoRoom};
ghost use Rattle.placing.specs.Placing.{Writes};

use refusals::Refusal;

// Whether n bytes fit at a place of a buffer. The place is tested by itself: at + n can wrap.
pub fn room_for(n: usize, out: &[u8], at: usize) -> Result<(), Refusal>
    ensures { MatchResult result (λ _. at + n ≤ length out.now) (λ k. (k ≡ NoRoom) × (length out.now < at + n)) }
{
    match out.len().checked_sub(at) {
        Some(room) if n <= room => Ok(()),
        _ => Err(Refusal::NoRoom),
    }
}

// A text stored at a place where it fits. Byte by byte, since `copy_from_slice` calls `memmove`, which a program in C would then have to bring.
fn copy_in(text: &[u8], out: &mut [u8], at: usize)
    requires { at + length text.now ≤ length out.old }
    ensures { out.new ≡ sets out.old at text.now }
{
    for (i, &c) in text.iter().enumerate() {
        out[at + i] = c;
    }
}

// A text at a place of a buffer, or 27 and the buffer as it was. Buffer and place are two parameters in every writer, as in the definition:
// a refusal says that the whole buffer is as it was.
#[tactic(auto, unfolding(crate::specs::Placing::wrote, crate::specs::Placing::written))]
pub fn put_bytes(text: &[u8], out: &mut [u8], at: usize) -> Result<usize, Refusal>
    ensures { Writes text.now at out.old result out.new }
{
    let n = text.len();
    room_for(n, out, at)?;
    copy_in(text, out, at);
    Ok(n)
}
