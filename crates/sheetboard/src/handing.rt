// The output, with a count of what it was handed.
ghost use Rattle.std.specs.Prelude.{◌≡◌, ◌+◌, ◌<◌, ◌^◌, length, OnOk};
ghost use Rattle.std.specs.Io.KnownBytes.{Appends};

use std::io;
use std::io::Write;

// A writer, and how many bytes it was handed, those of a write that failed with them.
#[derive(Drop)]
pub(crate) struct Output<W> {
    pub(crate) writer: W,
    pub(crate) handed: usize,
}

impl<W: Write> Output<W> {
    pub(crate) fn new(writer: W) -> Output<W>
        ensures writer { result.writer ≡ writer }
        ensures handed { result.handed ≡ 0 }
    {
        Output { writer, handed: 0 }
    }

    // What is counted is what the writer is handed.
    pub(crate) fn hand_over(&mut self, part: &[u8]) -> io::Result<()>
        requires { self.old.handed + length part.now < 2 ^ 64 }
        ensures count { self.new.handed ≡ self.old.handed + length part.now }
        ensures bytes { OnOk result (Appends (W.contents self.old.writer) (W.contents self.new.writer) part.now) }
    {
        self.handed += part.len();
        self.writer.write_all(part)
    }
}
