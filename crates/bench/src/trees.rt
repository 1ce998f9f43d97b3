// Boards to measure on: fresh, with the units in a binary tree.
ghost use Rattle.std.specs.Prelude.{◌≡◌};
ghost use Rattle.bench.specs.Trees.{tree_board};

use board::open;
use rules::Board;

// The parents of units 1 to 63.
const TREE: [u16; 63] = [
    0, 0, 1, 1, 2, 2, 3, 3, 4, 4, 5, 5, 6, 6, 7, 7, 8, 8, 9, 9, 10, 10, 11, 11, 12, 12, 13, 13, 14,
    14, 15, 15, 16, 16, 17, 17, 18, 18, 19, 19, 20, 20, 21, 21, 22, 22, 23, 23, 24, 24, 25, 25, 26,
    26, 27, 27, 28, 28, 29, 29, 30, 30, 31,
];

// A fresh board of n units in a binary tree, at most 64, with m slots and the delay d.
pub fn tree_board(n: u16, m: u16, d: u16) -> Board
    ensures { result ≡ tree_board n m d }
{
    let parents = usize::from(n.saturating_sub(1)).min(TREE.len());
    open(m, d, &TREE[..parents]).board
}
