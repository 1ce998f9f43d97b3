// The words of a script: one table, by which they are read and written.
ghost use Rattle.std.specs.Prelude.{◌≡◌, [], ◌<◌, get_or, MatchResult};
ghost use Rattle.std.specs.List.{position};
ghost use Rattle.std.specs.Str.{bytes_eq};
ghost use Rattle.refusals.specs.declared.Refusal.TheVariants.{UnknownWord};
ghost use Rattle.rules.specs.Actions.{kinds, kind_of};
ghost use Rattle.script.specs.Words.{words, word_number};
ghost use Rattle.script.specs.Asked.{Names};

use refusals::Refusal;
use rules::Action;

// Each step's word stands at the step's kind.
const WORDS: [&[u8]; 9] = [
    b"board", b"start", b"send", b"request", b"deliver", b"rest", b"tick", b"release", b"move",
];

// What a line's word asks for.
#[derive(Clone, Copy)]
pub(crate) enum Word {
    Board,
    Step(Action),
}

// Where a name stands among some words.
fn place_among(words: &[&[u8]], name: &[u8]) -> Option<usize>
    ensures { result ≡ position (λ word. bytes_eq name.now word.now) words.now }
{
    words.iter().position(|word| name == *word)
}

// The word that a line begins with.
pub(crate) fn word_of(name: &[u8]) -> Result<Word, Refusal>
    ensures { MatchResult result (λ word. Names word (word_number name.now)) (λ k. (k ≡ UnknownWord) × (kinds < word_number name.now)) }
{
    match place_among(&WORDS, name) {
        None => Err(Refusal::UnknownWord),
        Some(0) => Ok(Word::Board),
        // A place among nine words, so the cast loses nothing.
        Some(kind) => Ok(Word::Step(Action::from(kind as u16))),
    }
}

// The word that a step's line begins with.
pub(crate) fn step_word(action: Action) -> &'static [u8]
    ensures { result.now ≡ get_or words (kind_of action) [] }
{
    WORDS[action as usize]
}
