// Printing that does not stop a program: what cannot be written is let go, the program goes on, and its status stays 0.
#![tactic(auto)]

ghost use Rattle.std.specs.Prelude.{◌≡◌, length, IsOk};

use std::fmt::Display;
use std::io::Result;

// Each call is one call of the printer inside, and is `Ok` whatever that one answers.
#[derive(Drop)]
pub struct Tolerant<R>(pub R);

impl<R: Print> Print for Tolerant<R> {
    fn print<D: Display + Drop>(&self, value: D) -> Result<()>
        ensures { IsOk result }
    {
        let _ = self.0.print(value);
        Ok(())
    }

    fn println<D: Display + Drop>(&self, value: D) -> Result<()>
        ensures { IsOk result }
    {
        let _ = self.0.println(value);
        Ok(())
    }

    fn write_all(&self, bytes: &[u8]) -> Result<()>
        ensures { IsOk result }
    {
        let _ = self.0.write_all(bytes);
        Ok(())
    }

    // All of them: those that could not be written count too, so that a caller's loop ends.
    fn write_some(&self, bytes: &[u8]) -> Result<usize>
        ensures { result ≡ Ok (length bytes.now) }
    {
        let _ = self.write_all(bytes);
        Ok(bytes.len())
    }
}
