// How long the listing of a script can be, from its lines alone.
ghost use Rattle.std.specs.Prelude.{◌≡◌, ◌==◌, count_by};
ghost use Rattle.listing.specs.Bounds.{further_lines, bound_by_lines};

use crate::MOST_BYTES;
use crate::turns::LONGEST;

// The heading and the first line are no longer.
const FIRST: usize = 38;

// How many of the bytes are byte 10.
fn line_ends(bytes: &[u8]) -> usize
    ensures { result ≡ count_by (λ byte. byte == 10) bytes.now }
{
    bytes.iter().filter(|byte| **byte == b'\n').count()
}

// A further line begins behind each byte 10 but one that is the script's last byte.
fn further_lines(script: &[u8]) -> usize
    ensures { result ≡ further_lines script.now }
{
    line_ends(&script[..script.len().saturating_sub(1)])
}

// The listing is no longer.
#[tactic(auto, using(crate::proofs::BoundLaws::further_few), unfolding(crate::specs::Bounds::bound_by_lines))]
pub(crate) fn bound(script: &[u8]) -> usize
    ensures { result ≡ bound_by_lines script.now }
{
    if script.len() > MOST_BYTES {
        return FIRST;
    }
    FIRST + LONGEST * further_lines(script)
}
