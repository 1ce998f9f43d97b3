// Where a listing in parts begins, and where it ends.
ghost use Rattle.std.specs.Prelude.{◌≡◌};
ghost use Rattle.listing.specs.Parts.{beginning, ended};

use crate::Cursor;

// The cursor from which a listing in parts begins.
pub fn beginning() -> Cursor
    ensures { result ≡ beginning }
{
    Cursor::Beginning
}

// Whether a cursor is behind the whole listing.
pub fn is_ended(c: Cursor, script: &[u8]) -> bool
    ensures { result ≡ ended c script.now }
{
    match c {
        Cursor::Beginning => false,
        Cursor::Behind(next) => next.at >= script.len(),
    }
}
