// The marks of the open round.
ghost use Rattle.std.specs.Prelude.{◌≡◌};
ghost use Rattle.rules.specs.Rounds.{all_marked};

use rules::Rounds;

// Whether every unit in use is marked.
pub(crate) fn all_marked(k: &Rounds, n: u16) -> bool
    ensures { result ≡ all_marked n k.now.visited }
{
    k.visited.iter().take(usize::from(n)).all(|&marked| marked)
}
