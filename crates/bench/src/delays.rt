// The test of soundness, over a list of delays.
ghost use Rattle.std.specs.Prelude.{◌≡◌};
ghost use Rattle.bench.specs.Counts.{sound_with};

use board::is_sound;
use rules::Board;

// The delay is set at each turn, so that the test cannot be made once for all turns.
pub(crate) fn sound_count(mut board: Board, delays: &[u16]) -> u64
    ensures { result ≡ sound_with board delays.now }
{
    let mut count = 0;
    for delay in delays {
        board.delay = *delay;
        count += u64::from(is_sound(board));
    }
    count
}
