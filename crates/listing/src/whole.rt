// A listing at once, and how long it is.
ghost use Rattle.std.specs.Prelude.{◌≡◌, length, leb};
ghost use Rattle.placing.specs.Placing.{Writes};
ghost use Rattle.listing.specs.Scripts.{listing};

use crate::Cursor;
use crate::bounds::bound;
use crate::cursors::is_ended;
use crate::parts::list_part;
use refusals::Refusal;

// How many bytes the listing of a script has. It is listed in parts, which are counted and thrown away: large parts, since towards the end of
// each the batches get small.
pub fn listing_length(script: &[u8]) -> usize
    ensures { result ≡ length (listing script.now) }
{
    let mut part = [0u8; 32768];
    let mut c = Cursor::Beginning;
    let mut n = 0;
    // The cursor moves by the lines that a part has, so this is no count.
    while !is_ended(c, script) {
        let p = list_part(c, script, &mut part);
        n += p.wrote.unwrap_or(0);
        c = p.cursor;
    }
    n
}

// Whether the listing fits in so many bytes. Its bound costs one pass over the bytes, its length a listing.
#[tactic(auto, using(crate::proofs::BoundLaws::listing_bound_by_lines), unfolding(crate::specs::Bounds::ListingBoundByLines))]
fn listing_fits(script: &[u8], room: usize) -> bool
    ensures { result ≡ leb (length (listing script.now)) room }
{
    bound(script) <= room || listing_length(script) <= room
}

// The whole listing of a script at the start of a buffer, or 27 and the buffer as it was.
pub fn list_all(script: &[u8], out: &mut [u8]) -> Result<usize, Refusal>
    ensures { Writes (listing script.now) 0 out.old result out.new }
{
    if !listing_fits(script, out.len()) {
        return Err(Refusal::NoRoom);
    }
    list_part(Cursor::Beginning, script, out).wrote
}
