// An output on which a case that cannot be written keeps no other from being told.
ghost use Rattle.std.specs.Prelude.{◌≡◌, Ok};

use std::fmt::Display;
use std::io;

// What the output takes no more is passed over: the cases behind it run to their end, and are told where it takes text again.
#[derive(Drop)]
pub struct PassingOver<P>(pub P);

impl<P: Print> Print for PassingOver<P> {
    fn print<D: Display + Drop>(&self, value: D) -> io::Result<()>
        ensures { result ≡ Ok tt }
    {
        let _ = self.0.print(value);
        Ok(())
    }

    fn println<D: Display + Drop>(&self, value: D) -> io::Result<()>
        ensures { result ≡ Ok tt }
    {
        let _ = self.0.println(value);
        Ok(())
    }

    fn write_all(&self, bytes: &[u8]) -> io::Result<()>
        ensures { result ≡ Ok tt }
    {
        let _ = self.0.write_all(bytes);
        Ok(())
    }
}
