// The lines of a text, one after the other.
ghost use Rattle.std.specs.Prelude.{◌≡◌};
ghost use Rattle.numbers.specs.Lines.{line_at};

use crate::LineAt;
use fields::end_from;

// The line at a place of a text. At the text's end, and past it, there is none: it ends there, and so does the text.
pub fn line_at(text: &[u8], at: usize) -> LineAt
    ensures { result ≡ line_at at text.now }
{
    let end = end_from(text, at, b'\n');
    if end < text.len() {
        return LineAt { end, next: end + 1 };
    }
    LineAt { end, next: end }
}
