// What keeps a program that reads and writes from its task, and how it is told.
ghost use Rattle.std.specs.Prelude.{◌≡◌};
ghost use Rattle.reading.specs.Failures.{task_of, cause_of};

use arrayvec::ArrayString;
use std::fmt::Write as _;
use std::{fmt, io};

#[derive(Clone, Copy, Debug)]
pub enum Failure {
    Reading(io::Error),
    Writing(io::Error),
}

impl Failure {
    fn task(self) -> &'static str
        ensures { result.now ≡ task_of self }
    {
        match self {
            Failure::Reading(_) => "reading standard input",
            Failure::Writing(_) => "writing standard output",
        }
    }

    fn cause(self) -> io::Error
        ensures { result ≡ cause_of self }
    {
        match self {
            Failure::Reading(cause) | Failure::Writing(cause) => cause,
        }
    }
}

// More bytes than the text of an error has: its words have at most 256, and what is told of its number 23.
const ROOM: usize = 320;

// What failed, and why: the cause in words and without its number.
impl fmt::Display for Failure {
    fn fmt<W: fmt::Write>(&self, f: &mut fmt::Formatter<W>) -> fmt::Result {
        let (task, cause) = (self.task(), self.cause());
        let mut text = ArrayString::<ROOM>::new();
        write!(text, "{cause}")?;
        let words = text.as_str().split(" (os error ").next().unwrap_or("");
        write!(f, "{task}: {words}")
    }
}
