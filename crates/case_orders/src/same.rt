// Whether two boards are equal.
ghost use Rattle.std.specs.Prelude.{◌≡◌, ◌↔◌, IsTrue};

use rules::Board;

// In every field: sizes, delay and debt, and all entries of parents, units, slots, counts and rounds.
pub(crate) fn same_boards(a: Board, b: Board) -> bool
    ensures { IsTrue result ↔ a ≡ b }
{
    a == b
}
