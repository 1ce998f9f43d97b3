// What finished tells, in words.
ghost use Rattle.std.specs.Prelude.{Some};
ghost use Rattle.casetext.specs.Rows.{verdict_text};

use rules::Verdict;
use std::fmt;

// The word of a verdict, or the number that refuses.
#[derive(Clone, Copy)]
pub struct Told(pub Result<Verdict, u16>);

impl fmt::Display for Told {
    ghost output = { λ told. Some (verdict_text told.0) };

    fn fmt<W: fmt::Write>(&self, f: &mut fmt::Formatter<W>) -> fmt::Result {
        match self.0 {
            Ok(Verdict::Working) => write!(f, "working"),
            Ok(Verdict::Finished) => write!(f, "finished"),
            Err(k) => write!(f, "{k}"),
        }
    }
}
